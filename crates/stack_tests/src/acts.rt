ghost use Rattle.std.specs.Prelude.{◌≡◌, ◌≤◌, ◌<◌, [], length, IfOk};

use crate::counting::Counter;
use crate::messages::{Kind, put};
use dill_base::{Errno, Octets};
use dill_calls::Answer;
use dill_stack::{AnswerRoom, Parting, ReadOut, Stack, StackFault, Want};
use std::alloc::Global;
use std::test::Fail;

/// The most bytes that one read of a link brings.
const PIECE: usize = 4_096;

/// So many pieces may come to a new stack.
const PIECES: usize = 8;

/// The next piece of what comes, of which so many pieces have come before. The last ones may be empty.
fn piece_of(bytes: &[u8], before: usize) -> &[u8]
    requires { before < 8 }
    ensures { length result.now ≤ 4096 }
{
    let from = (before * PIECE).min(bytes.len());
    let to = (from + PIECE).min(bytes.len());
    &bytes[from..to]
}

/// A stack to which these bytes have come, in pieces.
pub fn bare(alloc: Global, bytes: &[u8]) -> Result<Stack, Fail>
    ensures { IfOk result (λ s. s.held.layers ≡ []) }
{
    if PIECES * PIECE < bytes.len() {
        return Err(Fail::from("too many bytes"));
    }
    let mut stack = Stack::new(alloc)?;
    for before in 0..PIECES {
        stack.came(piece_of(bytes, before));
    }
    Ok(stack)
}

/// The same with a layer of this kind.
pub fn stood(alloc: Global, bytes: &[u8], kind: Kind) -> Result<Stack, Fail> {
    let mut stack = bare(alloc, bytes)?;
    match put(alloc, &mut stack, kind)? {
        Ok(()) => Ok(stack),
        Err(_) => Err(Fail::from("attach")),
    }
}

/// Writes an errno behind the rest.
pub fn note_fault(log: &mut Vec<u8>, e: Errno) -> Result<(), Fail> {
    log.extend_from_slice(e.name())?;
    log.push(b';')?;
    Ok(())
}

fn note_two(log: &mut Vec<u8>, first: &Octets, second: &Octets) -> Result<(), Fail> {
    log.extend_from_slice(first.as_slice())?;
    log.push(b'|')?;
    log.extend_from_slice(second.as_slice())?;
    Ok(())
}

/// Writes what was said behind the rest: bytes, the two parts of a line, or an errno.
pub fn note(log: &mut Vec<u8>, said: &ReadOut) -> Result<(), Fail> {
    match said {
        ReadOut::Given(Answer::Number(_)) => log.extend_from_slice(b"number")?,
        ReadOut::Given(Answer::Bytes(bytes)) => log.extend_from_slice(bytes.as_slice())?,
        ReadOut::Given(Answer::Two(first, second)) => note_two(log, first, second)?,
        ReadOut::Given(_) => return Err(Fail::from("another answer")),
        ReadOut::Need => log.extend_from_slice(b"need")?,
        ReadOut::Fault(e) => log.extend_from_slice(e.name())?,
    }
    log.push(b';')?;
    Ok(())
}

/// What is to be sent goes.
pub fn gone(log: &mut Vec<u8>, stack: &mut Stack) -> Result<(), Fail> {
    let bytes = stack.offered();
    log.extend_from_slice(bytes)?;
    let count = bytes.len();
    stack.took(count);
    log.push(b';')?;
    Ok(())
}

/// A message is sent, or refused.
pub fn sent(log: &mut Vec<u8>, stack: &mut Stack, message: &[u8]) -> Result<(), Fail> {
    if !stack.is_sent() {
        return Err(Fail::from("pending"));
    }
    match stack.frame(message, &mut Counter(0)) {
        Ok(()) => gone(log, stack),
        Err(StackFault::Refused(e)) => note_fault(log, e),
        Err(StackFault::NoMemory) => Err(Fail::from("memory")),
    }
}

/// What a receive finds, with room of its own for the answer.
pub fn read(alloc: Global, stack: &mut Stack, want: Want) -> Result<ReadOut, Fail> {
    match stack.reserve(want) {
        Ok(()) => {}
        Err(_) => return Err(Fail::from("memory")),
    }
    let mut room = AnswerRoom::new(alloc, want)?;
    Ok(stack.read(want, &mut room, &mut Counter(0)))
}

/// The next so many bytes.
pub fn exactly(
    alloc: Global,
    log: &mut Vec<u8>,
    stack: &mut Stack,
    count: usize,
) -> Result<(), Fail> {
    let said = read(alloc, stack, Want::Exact(count))?;
    note(log, &said)
}

/// A message of at most so many bytes.
pub fn message(
    alloc: Global,
    log: &mut Vec<u8>,
    stack: &mut Stack,
    limit: usize,
) -> Result<(), Fail> {
    let said = read(alloc, stack, Want::Message(limit))?;
    note(log, &said)
}

/// The errno with which a further receive of a message is refused, if there is one.
pub fn refused(log: &mut Vec<u8>, stack: &Stack, limit: usize) -> Result<(), Fail> {
    match stack.read_fault(&Want::Message(limit), false) {
        Some(e) => note_fault(log, e),
        None => Ok(()),
    }
}

/// The end of the top layer is sent.
pub fn done(log: &mut Vec<u8>, stack: &mut Stack) -> Result<(), Fail> {
    if !stack.is_sent() {
        return Err(Fail::from("pending"));
    }
    match stack.done(&mut Counter(0)) {
        Ok(()) => gone(log, stack),
        Err(e) => note_fault(log, e),
    }
}

/// A detach of the top layer: what it sends, and what it answers.
pub fn parted(log: &mut Vec<u8>, stack: &mut Stack) -> Result<(), Fail> {
    if !stack.is_sent() {
        return Err(Fail::from("pending"));
    }
    match stack.detach_start(&Parting::Plain, &mut Counter(0)) {
        Ok(()) => gone(log, stack)?,
        Err(e) => return note_fault(log, e),
    }
    note(log, &stack.detach_finish(&mut Counter(0)))
}
