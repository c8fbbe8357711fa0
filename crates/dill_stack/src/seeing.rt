ghost use Rattle.std.specs.Prelude.{◌≡◌, ◌≢◌, ◌≤◌, ◌+◌, ◌==◌, ◌&&◌, not, length, max, is_some, true, false, None};
ghost use Rattle.std.specs.Str.{is_utf8};
ghost use Rattle.dill_stack.specs.Receiving.{ws_of};
ghost use Rattle.dill_stack.specs.Refusals.{is_met};
ghost use Rattle.dill_stack.specs.Seeing.{LinkSees, PassesNone, Sees, StackSees};
ghost use Rattle.dill_stack.specs.Standing.{JoinsWithin, ws_layer};
ghost use Rattle.dill_stack.specs.Stepping.{next_pass};
ghost use Rattle.dill_stack.specs.WsReading.{Whole, part_of, pass_by_front, pass_of, ws_front};

use crate::frames::{FrameFront, front_of, payload_of, use_frame};
use crate::payload::Payload;
use crate::placed::{Base, Framed};
use crate::stack::Stack;
use crate::unread::Unread;
use dill_base::Errno;
use dill_ws::{Head, close_code, is_text};

/// What stands at the front where nothing is passed: the last frame of a message, which was joined; a close frame;
/// nothing whole, which may be a boundary between messages; or a refusal.
#[derive(Clone, Copy, Debug, PartialEq, Eq)]
pub(crate) enum Seen {
    Message,
    Close,
    Open(bool),
    Refused(Errno),
}

impl Stack {
    // What stands at the front, where a WebSocket layer is on the link and passes nothing.
    pub(crate) fn see(&mut self, limit: usize) -> Seen
        requires joined { limit ≤ max 16384 self.old.most }
        requires last { next_pass limit self.old.held ≡ None }
        requires unmet { is_met self.old.held.layers ≡ false }
        requires framed { is_some (ws_of self.old.held.layers) ≡ true }
        ensures { StackSees limit result self.old self.new }
    {
        see_on_link(&mut self.base, &mut self.unread, limit)
    }
}

// What stands at the front for the layer on the link, where that is a WebSocket layer.
pub(crate) fn see_on_link(base: &mut Base, unread: &mut Unread, limit: usize) -> Seen
    requires room { JoinsWithin limit base.old }
    requires last { PassesNone limit base.old unread.old }
    ensures { LinkSees limit base.old unread.old result base.new unread.new }
{
    match base {
        Base::Ws(framed) => see_front(framed, unread, limit),
        _ => Seen::Open(true),
    }
}

fn see_front(framed: &mut Framed, unread: &mut Unread, limit: usize) -> Seen
    requires room { limit ≤ framed.old.joined.room }
    requires last { pass_by_front (ws_layer framed.old) (ws_front limit (ws_layer framed.old) unread.old.items) ≡ None }
    ensures { Sees limit framed.old unread.old result framed.new unread.new }
{
    match front_of(framed, limit, unread.as_slice()) {
        FrameFront::Whole(head) => see_whole(framed, unread, head, limit),
        FrameFront::Short => Seen::Open(framed.joining.is_none()),
        FrameFront::Refused(e) => Seen::Refused(e),
    }
}

// The whole frame of this head.
fn see_whole(framed: &mut Framed, unread: &mut Unread, head: Head, limit: usize) -> Seen
    requires there { head.start + head.length ≤ length unread.old.items }
    requires front { ws_front limit (ws_layer framed.old) unread.old.items ≡ Whole (part_of head unread.old.items) (head.start + head.length) }
    requires room { limit ≤ framed.old.joined.room }
    requires last { pass_of (ws_layer framed.old) (part_of head unread.old.items) (head.start + head.length) ≡ None }
    ensures { Sees limit framed.old unread.old result framed.new unread.new }
{
    if head.opcode == 8 {
        return see_close(framed, unread, head, limit);
    }
    see_last(framed, unread, head, limit)
}

// A close frame.
fn see_close(framed: &mut Framed, unread: &mut Unread, head: Head, limit: usize) -> Seen
    requires there { head.start + head.length ≤ length unread.old.items }
    requires front { ws_front limit (ws_layer framed.old) unread.old.items ≡ Whole (part_of head unread.old.items) (head.start + head.length) }
    requires close { head.opcode ≡ 8 }
    ensures { Sees limit framed.old unread.old result framed.new unread.new }
{
    let payload = Payload::unmasked(head.key, payload_of(unread.as_slice(), head));
    match close_code(payload.as_slice()) {
        Some(_) => {
            framed.met = true;
            use_frame(unread, head);
            Seen::Close
        }
        None => Seen::Refused(Errno::Eproto),
    }
}

// The last frame of a message, which has to be UTF-8 where it began as text.
fn see_last(framed: &mut Framed, unread: &mut Unread, head: Head, limit: usize) -> Seen
    requires there { head.start + head.length ≤ length unread.old.items }
    requires front { ws_front limit (ws_layer framed.old) unread.old.items ≡ Whole (part_of head unread.old.items) (head.start + head.length) }
    requires room { limit ≤ framed.old.joined.room }
    requires last { pass_of (ws_layer framed.old) (part_of head unread.old.items) (head.start + head.length) ≡ None }
    requires data { head.opcode ≢ 8 }
    ensures { Sees limit framed.old unread.old result framed.new unread.new }
{
    let before = framed.joined.as_slice().len();
    framed
        .joined
        .put_masked(head.key, payload_of(unread.as_slice(), head));
    let kind = framed.joining.unwrap_or(head.opcode);
    if is_bad_text(kind, framed.joined.as_slice()) {
        framed.joined.cut(before);
        return Seen::Refused(Errno::Eproto);
    }
    use_frame(unread, head);
    Seen::Message
}

// A message of text that isn't UTF-8.
fn is_bad_text(opcode: u8, message: &[u8]) -> bool
    ensures { result ≡ (opcode == 1 && not (is_utf8 message.now)) }
{
    opcode == 1 && !is_text(message)
}
