ghost use Rattle.std.specs.Prelude.{◌≤◌};
ghost use Rattle.dill_stack.specs.declared.want.Want.TheVariants as want;
ghost use Rattle.dill_stack.specs.Answering.{HasRoom};

use crate::acts::{note, stood};
use crate::counting::Counter;
use crate::messages::Kind;
use dill_base::{Errno, Octets};
use dill_calls::Answer;
use dill_stack::{AnswerRoom, ReadOut, Stack, Top, Want};
use std::alloc::Global;
use std::test::Fail;

/// A look for a message of two bytes finds one too few. It comes, and a second look answers out of the same room.
fn looks_again(log: &mut Vec<u8>, stack: &mut Stack, room: &mut AnswerRoom) -> Result<(), Fail>
    requires room { HasRoom (want.Message 2) room.old }
    requires reserved { 2 ≤ stack.old.most }
{
    match stack.top() {
        Top::Prefix => match stack.read(Want::Message(2), room, &mut Counter(0)) {
            ReadOut::Need => {
                stack.came(b"i");
                note(log, &stack.read(Want::Message(2), room, &mut Counter(0)))
            }
            _ => Err(Fail::from("no need")),
        },
        _ => Err(Fail::from("no framing")),
    }
}

/// The same of a stack and a room that are made for it.
fn looked_again(alloc: Global) -> Result<Vec<u8>, Fail> {
    let mut log = Vec::new(alloc);
    let mut stack = stood(alloc, b"\x00\x02h", Kind::Prefix(2, false))?;
    match stack.reserve(Want::Message(2)) {
        Ok(()) => {}
        Err(_) => return Err(Fail::from("memory")),
    }
    let mut room = AnswerRoom::new(alloc, Want::Message(2))?;
    looks_again(&mut log, &mut stack, &mut room)?;
    Ok(log)
}

#[test]
fn a_need_keeps_the_room_and_an_answer_comes_out_of_it(rt: HostRuntime) -> Result<(), Fail> {
    let told = looked_again(rt.alloc())?;
    assert_eq!(rt; told.as_slice(), b"hi;" as &[u8]);
    Ok(())
}

/// Whether bytes are copied.
fn copies_bytes(alloc: Global) -> Result<bool, Fail> {
    let mut room = AnswerRoom::new(alloc, Want::Exact(2))?;
    let bytes = Octets::from_slice(alloc, b"hi")?;
    match room.copy(&Answer::Bytes(bytes)) {
        Answer::Bytes(copy) => Ok(copy.as_slice() == b"hi".as_slice()),
        _ => Ok(false),
    }
}

/// Whether the two parts of a line are copied.
fn copies_two(alloc: Global) -> Result<bool, Fail> {
    let mut room = AnswerRoom::new(alloc, Want::Field)?;
    let first = Octets::from_slice(alloc, b"Host")?;
    let second = Octets::from_slice(alloc, b"h")?;
    match room.copy(&Answer::Two(first, second)) {
        Answer::Two(first, second) => {
            Ok(first.as_slice() == b"Host".as_slice() && second.as_slice() == b"h".as_slice())
        }
        _ => Ok(false),
    }
}

/// Whether the code and the reason of a line are copied.
fn copies_code(alloc: Global) -> Result<bool, Fail> {
    let mut room = AnswerRoom::new(alloc, Want::Status)?;
    let reason = Octets::from_slice(alloc, b"OK")?;
    match room.copy(&Answer::Coded(200, reason)) {
        Answer::Coded(code, reason) => Ok(code == 200 && reason.as_slice() == b"OK".as_slice()),
        _ => Ok(false),
    }
}

/// Whether the clause that was done is copied, with its fault and its bytes.
fn copies_choice(alloc: Global) -> Result<bool, Fail> {
    let mut room = AnswerRoom::new(alloc, Want::Exact(2))?;
    let bytes = Octets::from_slice(alloc, b"hi")?;
    let chosen = Answer::Chosen {
        index: 3,
        fault: Some(Errno::Epipe),
        bytes: Some(bytes),
    };
    match room.copy(&chosen) {
        Answer::Chosen {
            index: 3,
            fault: Some(Errno::Epipe),
            bytes: Some(copy),
        } => Ok(copy.as_slice() == b"hi".as_slice()),
        _ => Ok(false),
    }
}

#[test]
fn each_form_of_answer_is_copied(rt: HostRuntime) -> Result<(), Fail> {
    let alloc = rt.alloc();
    assert!(rt; copies_bytes(alloc)?);
    assert!(rt; copies_two(alloc)?);
    assert!(rt; copies_code(alloc)?);
    assert!(rt; copies_choice(alloc)?);
    Ok(())
}

#[test]
fn an_answer_without_bytes_is_copied_without_room(rt: HostRuntime) -> Result<(), Fail> {
    let mut room = AnswerRoom::new(rt.alloc(), Want::Exact(0))?;
    assert!(rt; matches!(room.copy(&Answer::Number(7)), Answer::Number(7)));
    assert!(rt; matches!(room.copy(&Answer::Pair(7, 8)), Answer::Pair(7, 8)));
    assert!(rt;
        matches!(
            room.copy(&Answer::Fault(Errno::Epipe)),
            Answer::Fault(Errno::Epipe)
        )
    );
    Ok(())
}
