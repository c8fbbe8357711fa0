ghost use Rattle.std.specs.Prelude.{◌≡◌, ◌==◌, length, false, None, option_to_list, if◌then◌else◌};
ghost use Rattle.std.specs.List.{list_any};
ghost use Rattle.dill_http.specs.Heads.{Status};
ghost use Rattle.dill_http.specs.Writing.{fault_of};
ghost use Rattle.dill_ws.specs.Closing.{is_close_code};
ghost use Rattle.dill_stack.specs.declared.layer.Layer.TheVariants as layers;
ghost use Rattle.dill_stack.specs.declared.parting.Parting.TheVariants as partings;
ghost use Rattle.dill_stack.specs.Interface.{Held, done_fault, attach_fault, detach_fault};
ghost use Rattle.dill_stack.specs.Refusals.{is_allowed_parting};
ghost use Rattle.dill_rules.specs.Directions.{is_end, side_of};
ghost use Rattle.dill_rules.specs.Refusals.{place_of, is_same};
ghost use Rattle.dill_rules.specs.Sockets.{faults_by};
ghost use Rattle.dill_sockets.specs.Faults.{both};

use crate::asking::{is_end, side_of};
use dill_base::Errno;
use dill_calls::{Call, Word};
use dill_frames::PrefixForm;
use dill_http::{field_fault, request_fault, status_fault};
use dill_stack::{Layer, Parting, Stack, Want};
use dill_ws::is_text;
use std::marker::Model;

/// The greatest code of a status line.
const CODE_LIMIT: u64 = 999;

/// The most bytes of a length.
const SIZE_LIMIT: u64 = 8;

/// The most bytes of a reason in a close frame.
const REASON_LIMIT: usize = 123;

/// What a stack refuses of a call. A line may be refused by its place and by its spelling; all else has one fault at most.
#[derive(Debug, Drop)]
pub struct Faults {
    first: Option<Errno>,
    second: Option<Errno>,
}

impl Model for Faults {
    ghost use Rattle.std.specs.Prelude.{List};
    ghost use Rattle.dill_base.specs.declared.errno.Errno.{Errno};
    ghost use Rattle.dill_sockets.specs.Faults.{both};

    ghost Value = { List Errno };

    ghost view = { λ f. both f.first f.second };
}

impl Faults {
    /// What the stack refuses of a call, where its direction is in use or not. It changes nothing, and takes no memory.
    pub fn of(call: &Call, busy: bool, stack: &Stack) -> Faults
        ensures { result ≡ faults_by call.now busy stack.now.held }
    {
        match call {
            Call::Bsend(_, bytes, _) => one(stack.send_fault(bytes.as_slice(), busy)),
            Call::Msend(_, bytes, _) => one(stack.send_fault(bytes.as_slice(), busy)),
            Call::HttpSendrequest(_, command, resource, _) => two(
                stack.line_fault(true, busy),
                request_fault(command.as_slice(), resource.as_slice()),
            ),
            Call::HttpSendstatus(_, code, reason, _) => two(
                stack.line_fault(true, busy),
                code_fault(*code, reason.as_slice()),
            ),
            Call::HttpSendfield(_, name, value, _) => two(
                stack.line_fault(false, busy),
                field_fault(name.as_slice(), value.as_slice()),
            ),
            Call::TcpDone(_, _) => one(stack.done_fault(busy)),
            Call::TermDone(_, _) => one(stack.done_fault(busy)),
            Call::HttpDone(_, _) => one(stack.done_fault(busy)),
            Call::Brecv(_, size, _) => one(stack.read_fault(&Want::Exact(*size as usize), busy)),
            Call::Mrecv(_, limit, _) => {
                one(stack.read_fault(&Want::Message(*limit as usize), busy))
            }
            Call::HttpRecvrequest(_, _) => one(stack.read_fault(&Want::Request, busy)),
            Call::HttpRecvstatus(_, _) => one(stack.read_fault(&Want::Status, busy)),
            Call::HttpRecvfield(_, _) => one(stack.read_fault(&Want::Field, busy)),
            Call::PrefixAttach(_, size, big) => one(prefix_fault(*size, !*big, stack)),
            Call::SuffixAttach(_, end) => one(stack.suffix_fault(end.as_slice(), false)),
            Call::TermAttach(_, terminal) => one(stack.term_fault(terminal.as_slice(), false)),
            Call::HttpAttach(_) => one(stack.attach_fault(&Layer::Http, false)),
            Call::WsAttachNohttp(_, client, text) => one(frames_fault(*client, *text, stack)),
            Call::PrefixDetach(_) => one(stack.detach_fault(&Parting::Plain, false)),
            Call::SuffixDetach(_) => one(stack.detach_fault(&Parting::Plain, false)),
            Call::TermDetach(_, _) => one(stack.detach_fault(&Parting::Plain, false)),
            Call::HttpDetach(_, _) => one(stack.detach_fault(&Parting::Plain, false)),
            Call::WsDetach(_, code, reason, _) => one(close_fault(*code, reason.as_slice())),
            Call::WsAttachClient(_, _, resource, host, _) => {
                one(stack.offer_fault(resource.as_slice(), host.as_slice()))
            }
            Call::WsAttachServer(_, _, _) => one(stack.greet_fault()),
            Call::Pass(word, _) => one(end_fault(*word, busy, stack)),
            Call::Print(_)
            | Call::Now
            | Call::Yield
            | Call::Msleep(_)
            | Call::Hmake(_, _)
            | Call::Hquery(_, _)
            | Call::Hown(_)
            | Call::Hclose(_)
            | Call::Bundle
            | Call::Go(_, _)
            | Call::BundleGo(_, _, _)
            | Call::BundleWait(_, _)
            | Call::Chmake
            | Call::Chsend(_, _, _)
            | Call::Chrecv(_, _, _)
            | Call::Chdone(_)
            | Call::Choose(_, _)
            | Call::TcpListen(_, _)
            | Call::TcpAccept(_, _)
            | Call::TcpConnect(_, _)
            | Call::TcpClose(_, _) => one(None),
        }
    }

    /// Whether this errno is one of them.
    pub fn has(&self, e: Errno) -> bool
        ensures { result ≡ list_any (is_same e) self.now }
    {
        is_same_some(e, self.first) || is_same_some(e, self.second)
    }

    /// There is none.
    pub fn is_empty(&self) -> bool
        ensures { result ≡ (length self.now == 0) }
    {
        self.first.is_none() && self.second.is_none()
    }
}

/// Whether the stack refuses a call with this errno, where its direction is in use or not.
pub fn refuses(call: &Call, busy: bool, stack: &Stack, e: Errno) -> bool
    ensures { result ≡ list_any (is_same e) (faults_by call.now busy stack.now.held) }
{
    Faults::of(call, busy, stack).has(e)
}

fn one(fault: Option<Errno>) -> Faults
    ensures { result ≡ option_to_list fault }
{
    Faults {
        first: fault,
        second: None,
    }
}

fn two(first: Option<Errno>, second: Option<Errno>) -> Faults
    ensures { result ≡ both first second }
{
    Faults { first, second }
}

/// The place of an errno among those that a stack refuses with, 0 of every other.
fn place_of(e: Errno) -> u8
    ensures { result ≡ place_of e }
{
    match e {
        Errno::Einval => 1,
        Errno::Ebusy => 2,
        Errno::Epipe => 3,
        Errno::Econnreset => 4,
        Errno::Emsgsize => 5,
        _ => 0,
    }
}

fn is_same(e: Errno, f: Errno) -> bool
    ensures { result ≡ is_same e f }
{
    0 < place_of(e) && place_of(e) == place_of(f)
}

fn is_same_some(e: Errno, fault: Option<Errno>) -> bool
    ensures { result ≡ list_any (is_same e) (option_to_list fault) }
{
    match fault {
        Some(f) => is_same(e, f),
        None => false,
    }
}

/// The refusal of an end; all other words have none.
fn end_fault(word: Word, busy: bool, stack: &Stack) -> Option<Errno>
    ensures { result ≡ (if is_end word then done_fault busy stack.now.held else None) }
{
    if is_end(word) {
        return stack.done_fault(busy);
    }
    None
}

/// The refusal of a status line; no code of more than three digits has a spelling.
fn code_fault(code: u64, reason: &[u8]) -> Option<Errno>
    ensures { result ≡ fault_of (Status code reason.now) }
{
    if CODE_LIMIT < code {
        return Some(Errno::Einval);
    }
    status_fault(code as u32, reason)
}

/// The refusal of an attach of messages behind a length.
#[tactic(auto, unfolding(dill_stack::specs::Refusals::attach_fault))]
fn prefix_fault(size: u64, little: bool, stack: &Stack) -> Option<Errno>
    ensures { result ≡ attach_fault (layers.Prefix (record { size = size; little = little })) false stack.now.held }
{
    if SIZE_LIMIT < size {
        return Some(Errno::Einval);
    }
    let form = PrefixForm {
        size: size as u8,
        little,
    };
    stack.attach_fault(&Layer::Prefix(form), false)
}

/// The refusal of an attach of frames without a handshake.
fn frames_fault(client: bool, text: bool, stack: &Stack) -> Option<Errno>
    ensures { result ≡ attach_fault (layers.Ws (side_of client) text) false stack.now.held }
{
    let side = side_of(client);
    stack.attach_fault(&Layer::Ws { side, text }, false)
}

/// Whether a close frame may carry this code.
fn is_close_code(code: u64) -> bool
    ensures { result ≡ is_close_code code }
{
    matches!(code, 1000..=1003 | 1007..=1014 | 3000..=4999)
}

/// A close frame has neither code nor reason, or a code that may be sent and a short reason in UTF-8.
fn is_allowed_close(code: u64, reason: &[u8]) -> bool
    ensures { result ≡ is_allowed_parting (partings.Close code reason.now) }
{
    if code == 0 && reason.is_empty() {
        return true;
    }
    is_close_code(code) && reason.len() <= REASON_LIMIT && is_text(reason)
}

/// The refusal of a detach with a close frame.
#[tactic(auto, unfolding(dill_stack::specs::Refusals::detach_fault))]
fn close_fault(code: u64, reason: &[u8]) -> Option<Errno>
    ensures { (s : Held) → result ≡ detach_fault (partings.Close code reason.now) false s }
{
    if is_allowed_close(code, reason) {
        None
    } else {
        Some(Errno::Einval)
    }
}
