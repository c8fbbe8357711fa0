ghost use Rattle.std.specs.Prelude.{◌≡◌, ◌≢◌, ◌≤◌, ◌<◌, ◌+◌, ◌-◌, length, take, drop, nat_lt, if◌then◌else◌, true, false, Some, None};
ghost use Rattle.dill_ws.specs.Frames.{length_bits, masked};
ghost use Rattle.dill_stack.specs.Framing.{IsTold, LinkPasses, Passes, front_told};
ghost use Rattle.dill_stack.specs.Rooms.{roomy};
ghost use Rattle.dill_stack.specs.Standing.{JoinsWithin, ws_layer};
ghost use Rattle.dill_stack.specs.WsReading.{Short, Whole, by_head, has_length, is_data, is_fault, length_at, part_of, passes_limit, with_part, ws_front};

use crate::payload::Payload;
use crate::placed::{Base, Framed};
use crate::unread::Unread;
use dill_base::Errno;
use dill_ws::{Head, HeadFront, frame_front, length_told, size_of_length};

/// The frame at the front of what has come to a WebSocket layer: the head of a whole one, too little to judge, or a
/// refusal.
#[derive(Clone, Copy, Debug, PartialEq, Eq)]
pub(crate) enum FrameFront {
    Whole(Head),
    Short,
    Refused(Errno),
}

/// What was passed at the front: nothing, a frame, or a ping of this payload.
#[derive(Drop)]
pub(crate) enum Pass {
    Nothing,
    Frame,
    Ping(Payload),
}

// The frame at the front. Its head is judged first, then its length against the limit.
#[tactic(auto, unfolding(crate::specs::WsReading::ws_front))]
pub(crate) fn front_of(framed: &Framed, limit: usize, bytes: &[u8]) -> FrameFront
    ensures front { front_told bytes.now result ≡ ws_front limit (ws_layer framed.now) bytes.now }
    ensures there { IsTold bytes.now result }
{
    let front = frame_front(framed.side, framed.joining.is_some(), bytes);
    if !is_fault(&front) && passes_limit(framed, limit, bytes) {
        return FrameFront::Refused(Errno::Emsgsize);
    }
    match front {
        HeadFront::Whole(head) => by_head(head, bytes),
        HeadFront::Need => FrameFront::Short,
        HeadFront::Fault(e) => FrameFront::Refused(e),
    }
}

fn is_fault(front: &HeadFront) -> bool
    ensures { result ≡ is_fault front.now }
{
    matches!(front, HeadFront::Fault(_))
}

// A head that wasn't refused, with its payload or without.
fn by_head(head: Head, bytes: &[u8]) -> FrameFront
    requires { head.start ≤ length bytes.now }
    ensures front { front_told bytes.now result ≡ (if nat_lt (length bytes.now) (head.start + head.length) then Short else Whole (part_of head bytes.now) (head.start + head.length)) }
    ensures there { IsTold bytes.now result }
{
    if ((bytes.len() - head.start) as u64) < head.length {
        return FrameFront::Short;
    }
    FrameFront::Whole(head)
}

// A part of a message that passes the limit with what was joined before it.
fn passes_limit(framed: &Framed, limit: usize, bytes: &[u8]) -> bool
    ensures { result ≡ passes_limit limit (ws_layer framed.now) bytes.now }
{
    match length_there(bytes) {
        Some(count) => {
            bytes[0] & 0x0F <= 2 && is_over(framed.joined.as_slice().len(), count, limit)
        }
        None => false,
    }
}

fn is_over(joined: usize, count: u64, limit: usize) -> bool
    ensures { result ≡ nat_lt limit (joined + count) }
{
    limit < joined || ((limit - joined) as u64) < count
}

// The length of the payload, where all its bytes are there (RFC 6455, section 5.2).
fn length_there(bytes: &[u8]) -> Option<u64>
    ensures { result ≡ (if has_length bytes.now then Some (length_at bytes.now) else None) }
{
    if bytes.len() < 2 {
        return None;
    }
    let bits = bytes[1] & 0x7F;
    if bytes.len() < 2 + size_of_length(bits) {
        return None;
    }
    Some(length_told(bits, &bytes[2..]))
}

// A frame at the front is passed, unless it ends a message or is a close frame.
pub(crate) fn pass_front(framed: &mut Framed, unread: &mut Unread, limit: usize) -> Pass
    requires { limit ≤ framed.old.joined.room }
    ensures { Passes limit framed.old unread.old result framed.new unread.new }
{
    match front_of(framed, limit, unread.as_slice()) {
        FrameFront::Whole(head) => pass_whole(framed, unread, head, limit),
        _ => Pass::Nothing,
    }
}

// The same for the layer on the link, which passes none where it isn't a WebSocket layer.
pub(crate) fn pass_on_link(base: &mut Base, unread: &mut Unread, limit: usize) -> Pass
    requires { JoinsWithin limit base.old }
    ensures { LinkPasses limit base.old unread.old result base.new unread.new }
{
    match base {
        Base::Ws(framed) => pass_front(framed, unread, limit),
        _ => Pass::Nothing,
    }
}

// The whole frame of this head.
fn pass_whole(framed: &mut Framed, unread: &mut Unread, head: Head, limit: usize) -> Pass
    requires there { head.start + head.length ≤ length unread.old.items }
    requires front { ws_front limit (ws_layer framed.old) unread.old.items ≡ Whole (part_of head unread.old.items) (head.start + head.length) }
    requires room { limit ≤ framed.old.joined.room }
    ensures { Passes limit framed.old unread.old result framed.new unread.new }
{
    match head.opcode {
        9 => {
            let payload = Payload::unmasked(head.key, payload_of(unread.as_slice(), head));
            use_frame(unread, head);
            Pass::Ping(payload)
        }
        10 => {
            use_frame(unread, head);
            Pass::Frame
        }
        _ => pass_part(framed, unread, head, limit),
    }
}

// A part of a message is joined, unless it is its last.
fn pass_part(framed: &mut Framed, unread: &mut Unread, head: Head, limit: usize) -> Pass
    requires there { head.start + head.length ≤ length unread.old.items }
    requires front { ws_front limit (ws_layer framed.old) unread.old.items ≡ Whole (part_of head unread.old.items) (head.start + head.length) }
    requires room { limit ≤ framed.old.joined.room }
    requires ping { head.opcode ≢ 9 }
    requires pong { head.opcode ≢ 10 }
    ensures { Passes limit framed.old unread.old result framed.new unread.new }
{
    if head.fin || 2 < head.opcode {
        return Pass::Nothing;
    }
    join(framed, head, payload_of(unread.as_slice(), head));
    use_frame(unread, head);
    Pass::Frame
}

// The bytes of a frame's payload, which may be masked.
pub(crate) fn payload_of(bytes: &[u8], head: Head) -> &[u8]
    requires { head.start + head.length ≤ length bytes.now }
    ensures { result.now ≡ take head.length (drop head.start bytes.now) }
{
    &bytes[head.start..head.start + head.length as usize]
}

// The whole frame is used.
pub(crate) fn use_frame(unread: &mut Unread, head: Head)
    requires { head.start + head.length ≤ length unread.old.items }
    ensures { unread.new ≡ roomy (drop (head.start + head.length) unread.old.items) unread.old.room }
{
    let end = head.start + payload_of(unread.as_slice(), head).len();
    unread.use_up(end);
}

// A part of a message is joined to those before it.
pub(crate) fn join(framed: &mut Framed, head: Head, payload: &[u8])
    requires { length framed.old.joined.items + length payload.now ≤ framed.old.joined.room }
    ensures layer { ws_layer framed.new ≡ with_part (record { fin = head.fin; opcode = head.opcode; payload = masked head.key payload.now }) (ws_layer framed.old) }
    ensures room { framed.new.joined.room ≡ framed.old.joined.room }
{
    framed.joined.put_masked(head.key, payload);
    framed.joining = Some(framed.joining.unwrap_or(head.opcode));
}
