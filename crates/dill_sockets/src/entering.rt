ghost use Rattle.std.specs.Prelude.{◌≡◌, [], true, None, IfSome, Result};
ghost use Rattle.rand_core.specs.Stream.{Stream};
ghost use Rattle.dill_base.specs.declared.errno.Errno.{Errno};
ghost use Rattle.dill_base.specs.Writing.{Writes};
ghost use Rattle.dill_calls.specs.CallTable.{word_of};
ghost use Rattle.dill_http.specs.Heads.{Said, Status};
ghost use Rattle.dill_http.specs.Writing as heads;
ghost use Rattle.dill_stack.specs.declared.layer.Layer.TheVariants as layers;
ghost use Rattle.dill_stack.specs.declared.parting.Parting.TheVariants as partings;
ghost use Rattle.dill_stack.specs.Doing.{Changes, Sends};
ghost use Rattle.dill_stack.specs.Interface.{Held, is_sent, frame, detach_start, expect_greet};
ghost use Rattle.dill_stack.specs.Refusals.{is_allowed_parting};
ghost use Rattle.dill_stack.specs.Rooms.{Stocked};
ghost use Rattle.dill_stack.specs.Standing.{FitsBelow};
ghost use Rattle.dill_rules.specs.Directions.{layer_of, parting_of, is_first, is_handshake};
ghost use Rattle.dill_rules.specs.Linking.{greet_by, with_random};
ghost use Rattle.dill_sockets.specs.Entering.{Enters, IsLack, queue_due, other_due, end_due, said_due, line_due, attach_due, layer_due, detach_due};
ghost use Rattle.dill_sockets.specs.Faults.{spelling_fault};

use crate::asking::{is_end, message_of, says_line, side_of};
use dill_base::{Errno, NoMemory, Octets, WriteFault};
use dill_calls::{Call, Word};
use dill_frames::PrefixForm;
use dill_http::{write_field, write_request, write_status};
use dill_stack::{Layer, Parting, Stack, StackFault};
use rand_core::Rng;
use std::alloc::Global;

/// The most bytes of a length.
const SIZE_LIMIT: u64 = 8;

/// A send queues its message or its line, and an end ends the direction. Where the stack refuses it, and in want of memory,
/// nothing changes.
pub fn queue<R: Rng>(
    alloc: Global,
    call: &Call,
    stack: &mut Stack,
    keys: &mut R,
) -> Result<(), NoMemory>
    requires sent { is_sent stack.old.held ≡ true }
    requires spelled { spelling_fault call.now ≡ None }
    ensures { Enters (queue_due call.now (R.stream keys.old) stack.old.held) result stack.old stack.new (R.stream keys.old) (R.stream keys.new) }
{
    match message_of(call) {
        Some(message) => queue_message(message, stack, keys),
        None => queue_other(alloc, call, stack, keys),
    }
}

/// The same of a call that sends no message.
fn queue_other<R: Rng>(
    alloc: Global,
    call: &Call,
    stack: &mut Stack,
    keys: &mut R,
) -> Result<(), NoMemory>
    requires sent { is_sent stack.old.held ≡ true }
    requires spelled { spelling_fault call.now ≡ None }
    ensures { Enters (other_due call.now (R.stream keys.old) stack.old.held) result stack.old stack.new (R.stream keys.old) (R.stream keys.new) }
{
    if says_line(call) {
        queue_said(alloc, call, stack)
    } else {
        queue_end(call.word(), stack, keys)
    }
}

/// The line of a call is queued, if it has one.
fn queue_said(alloc: Global, call: &Call, stack: &mut Stack) -> Result<(), NoMemory>
    requires sent { is_sent stack.old.held ≡ true }
    requires spelled { spelling_fault call.now ≡ None }
    ensures { (random : Stream) → Enters (said_due call.now random stack.old.held) result stack.old stack.new random random }
{
    match call {
        Call::HttpSendrequest(_, command, resource, _) => {
            let line = write_request(alloc, command.as_slice(), resource.as_slice());
            queue_line(true, line, stack)
        }
        Call::HttpSendstatus(_, code, reason, _) => {
            queue_status(alloc, *code, reason.as_slice(), stack)
        }
        Call::HttpSendfield(_, name, value, _) => {
            let line = write_field(alloc, name.as_slice(), value.as_slice());
            queue_line(false, line, stack)
        }
        _ => Ok(()),
    }
}

fn queue_message<R: Rng>(message: &[u8], stack: &mut Stack, keys: &mut R) -> Result<(), NoMemory>
    requires sent { is_sent stack.old.held ≡ true }
    ensures { Enters (frame message.now (R.stream keys.old) stack.old.held) result stack.old stack.new (R.stream keys.old) (R.stream keys.new) }
{
    lack_of(stack.frame(message, keys))
}

/// The line that was written is queued.
fn queue_line(
    first: bool,
    written: Result<Octets, WriteFault>,
    stack: &mut Stack,
) -> Result<(), NoMemory>
    requires sent { is_sent stack.old.held ≡ true }
    ensures { (said : Said) (random : Stream) → heads.fault_of said ≡ None → is_first said ≡ first → Writes written (heads.line_due said) → Enters (line_due said random stack.old.held) result stack.old stack.new random random }
{
    match written {
        Ok(line) => lack_of(stack.line(first, line)),
        Err(_) => Err(NoMemory),
    }
}

fn queue_status(alloc: Global, code: u64, reason: &[u8], stack: &mut Stack) -> Result<(), NoMemory>
    requires sent { is_sent stack.old.held ≡ true }
    requires spelled { heads.fault_of (Status code reason.now) ≡ None }
    ensures { (random : Stream) → Enters (line_due (Status code reason.now) random stack.old.held) result stack.old stack.new random random }
{
    let line = write_status(alloc, code as u32, reason);
    queue_line(true, line, stack)
}

fn queue_end<R: Rng>(word: Word, stack: &mut Stack, keys: &mut R) -> Result<(), NoMemory>
    requires sent { is_sent stack.old.held ≡ true }
    ensures { Enters (end_due word (R.stream keys.old) stack.old.held) result stack.old stack.new (R.stream keys.old) (R.stream keys.new) }
{
    if is_end(word) {
        let _ = stack.done(keys);
    }
    Ok(())
}

/// An attach puts its layer on top. Where the stack refuses it, and in want of memory, nothing changes.
pub fn attach(alloc: Global, call: &Call, stack: &mut Stack) -> Result<(), NoMemory>
    requires fits { IfSome (layer_of call.now) (λ layer. FitsBelow layer stack.old.held.layers) }
    ensures { (random : Stream) → Enters (attach_due call.now random stack.old.held) result stack.old stack.new random random }
{
    match call {
        Call::PrefixAttach(_, size, big) => attach_prefix(*size, !*big, stack),
        Call::SuffixAttach(_, end) => attach_suffix(alloc, end.as_slice(), stack),
        Call::TermAttach(_, terminal) => attach_term(alloc, terminal.as_slice(), stack),
        Call::HttpAttach(_) => put_layer(Layer::Http, stack),
        Call::WsAttachNohttp(_, client, text) => {
            let side = side_of(*client);
            put_layer(Layer::Ws { side, text: *text }, stack)
        }
        _ => Ok(()),
    }
}

fn attach_prefix(size: u64, little: bool, stack: &mut Stack) -> Result<(), NoMemory>
    requires fits { stack.old.held.layers ≡ [] }
    ensures { (random : Stream) → Enters (layer_due (layers.Prefix (record { size = size; little = little })) random stack.old.held) result stack.old stack.new random random }
{
    if SIZE_LIMIT < size {
        return Ok(());
    }
    let form = PrefixForm {
        size: size as u8,
        little,
    };
    put_layer(Layer::Prefix(form), stack)
}

fn attach_suffix(alloc: Global, end: &[u8], stack: &mut Stack) -> Result<(), NoMemory>
    requires fits { stack.old.held.layers ≡ [] }
    ensures { (random : Stream) → Enters (layer_due (layers.Suffix end.now) random stack.old.held) result stack.old stack.new random random }
{
    match Octets::from_slice(alloc, end) {
        Ok(end) => put_layer(Layer::Suffix(end), stack),
        Err(_) => Err(NoMemory),
    }
}

fn attach_term(alloc: Global, terminal: &[u8], stack: &mut Stack) -> Result<(), NoMemory>
    requires fits { FitsBelow (layers.Term terminal.now) stack.old.held.layers }
    ensures { (random : Stream) → Enters (layer_due (layers.Term terminal.now) random stack.old.held) result stack.old stack.new random random }
{
    match Octets::from_slice(alloc, terminal) {
        Ok(terminal) => put_layer(Layer::Term(terminal), stack),
        Err(_) => Err(NoMemory),
    }
}

fn put_layer(layer: Layer, stack: &mut Stack) -> Result<(), NoMemory>
    requires fits { FitsBelow layer stack.old.held.layers }
    ensures { (random : Stream) → Enters (layer_due layer random stack.old.held) result stack.old stack.new random random }
{
    lack_of(stack.attach(layer))
}

/// A handshake begins. Where the stack refuses it, and in want of memory, nothing changes.
pub fn greet<R: Rng>(call: &Call, stack: &mut Stack, keys: &mut R) -> Result<(), NoMemory>
    requires bare { is_handshake (word_of call.now) ≡ true → stack.old.held.layers ≡ [] }
    requires sent { is_sent stack.old.held ≡ true }
    ensures { Enters (greet_by call.now (R.stream keys.old) stack.old.held) result stack.old stack.new (R.stream keys.old) (R.stream keys.new) }
{
    match call {
        Call::WsAttachClient(_, text, resource, host, _) => {
            lack_of(stack.greet(*text, resource.as_slice(), host.as_slice(), keys))
        }
        Call::WsAttachServer(_, text, _) => expect(*text, stack),
        _ => Ok(()),
    }
}

fn expect(text: bool, stack: &mut Stack) -> Result<(), NoMemory>
    requires bare { stack.old.held.layers ≡ [] }
    requires sent { is_sent stack.old.held ≡ true }
    ensures { (random : Stream) → Enters (with_random random (expect_greet text stack.old.held)) result stack.old stack.new random random }
{
    lack_of(stack.expect_greet(text))
}

/// A detach begins. Where the stack refuses it, and in want of memory, nothing changes.
pub fn detach_start<R: Rng>(
    alloc: Global,
    call: &Call,
    stack: &mut Stack,
    keys: &mut R,
) -> Result<(), NoMemory>
    requires sent { is_sent stack.old.held ≡ true }
    requires allowed { IfSome (parting_of call.now) (λ parting. is_allowed_parting parting ≡ true) }
    ensures { Enters (detach_due call.now (R.stream keys.old) stack.old.held) result stack.old stack.new (R.stream keys.old) (R.stream keys.new) }
{
    match call {
        Call::PrefixDetach(_) => leave(&Parting::Plain, stack, keys),
        Call::SuffixDetach(_) => leave(&Parting::Plain, stack, keys),
        Call::TermDetach(_, _) => leave(&Parting::Plain, stack, keys),
        Call::HttpDetach(_, _) => leave(&Parting::Plain, stack, keys),
        Call::WsDetach(_, code, reason, _) => {
            close(alloc, *code, reason.as_slice(), stack, keys)
        }
        _ => Ok(()),
    }
}

fn leave<R: Rng>(parting: &Parting, stack: &mut Stack, keys: &mut R) -> Result<(), NoMemory>
    requires sent { is_sent stack.old.held ≡ true }
    requires allowed { is_allowed_parting parting.now ≡ true }
    ensures { Enters (detach_start parting.now (R.stream keys.old) stack.old.held) result stack.old stack.new (R.stream keys.old) (R.stream keys.new) }
{
    let _ = stack.detach_start(parting, keys);
    Ok(())
}

fn close<R: Rng>(
    alloc: Global,
    code: u64,
    reason: &[u8],
    stack: &mut Stack,
    keys: &mut R,
) -> Result<(), NoMemory>
    requires sent { is_sent stack.old.held ≡ true }
    requires allowed { is_allowed_parting (partings.Close code reason.now) ≡ true }
    ensures { Enters (detach_start (partings.Close code reason.now) (R.stream keys.old) stack.old.held) result stack.old stack.new (R.stream keys.old) (R.stream keys.new) }
{
    match Octets::from_slice(alloc, reason) {
        Ok(reason) => {
            let code = code as u16;
            leave(&Parting::Close { code, reason }, stack, keys)
        }
        Err(_) => Err(NoMemory),
    }
}

/// Where memory was wanted; a refusal has changed nothing.
fn lack_of(outcome: Result<(), StackFault>) -> Result<(), NoMemory>
    ensures sends { (due : Result (Held × Stream) Errno) (before now : Stocked) (random left : Stream) → Sends due outcome before now random left → Enters due result before now random left }
    ensures changes { (due : Result Held Errno) (before now : Stocked) (random : Stream) → Changes due outcome before now → Enters (with_random random due) result before now random random }
{
    match outcome {
        Ok(()) => Ok(()),
        Err(e) => lack_in(e),
    }
}

fn lack_in(e: StackFault) -> Result<(), NoMemory>
    ensures { IsLack e result }
{
    match e {
        StackFault::Refused(_) => Ok(()),
        StackFault::NoMemory => Err(NoMemory),
    }
}
