ghost use Rattle.std.specs.Prelude.{◌≡◌, ◌<◌, ◌≤◌, IfOk, IfSome, Some, filter, find, length, not, option_copied, vec_capacity};
ghost use Rattle.std.specs.List.{list_any, position_from};
ghost use Rattle.dill_base.specs.Maps.{if_some};
ghost use Rattle.dill_chan.specs.Meetings as meetings;
ghost use Rattle.dill_chan.specs.Meetings.{answers, answers_of, is_opposite};
ghost use Rattle.dill_chan.specs.Seats as seats;
ghost use Rattle.dill_chan.specs.Seats.{of_ends, is_of, could_meet, is_others, closer, ended_in};

use crate::ends::{find_end, has_ended};
use crate::{End, Met, Wait, Want};
use dill_base::{Errno, NoMemory, Octets};
use dill_calls::Answer;
use std::alloc::Global;

/// Whether one of them sends and the other receives.
fn is_opposite(first: &Want, second: &Want) -> bool
    ensures { result ≡ is_opposite first.now second.now }
{
    match first {
        Want::Send(_) => match second {
            Want::Send(_) => false,
            Want::Recv(_) => true,
        },
        Want::Recv(_) => match second {
            Want::Send(_) => true,
            Want::Recv(_) => false,
        },
    }
}

/// Whether a clause that waits at the other end can meet what a coroutine wants.
fn can_meet(who: u64, other: u64, want: &Want, x: &Wait) -> bool
    ensures { result ≡ could_meet who other want.now x.now }
{
    x.who != who && x.end == other && is_opposite(want, &x.want)
}

fn place_of_partner(waits: &[Wait], who: u64, other: u64, want: &Want) -> Option<usize>
    ensures place { result ≡ position_from (could_meet who other want.now) 0 waits.now }
    ensures within { IfSome result (λ at. at < length waits.now) }
{
    waits.iter().position(|x| can_meet(who, other, want, x))
}

/// The clause that has waited longest of those that can be met.
pub(crate) fn find_partner<'a>(
    waits: &'a [Wait],
    who: u64,
    other: u64,
    want: &Want,
) -> Option<&'a Wait>
    ensures { option_copied result ≡ find (could_meet who other want.now) waits.now }
{
    waits.iter().find(|x| can_meet(who, other, want, x))
}

/// Whether a coroutine waits under some clause.
pub(crate) fn is_waiting(waits: &[Wait], who: u64) -> bool
    ensures { result ≡ list_any (is_of who) waits.now }
{
    waits.iter().any(|x| x.who == who)
}

/// A coroutine waits under no clause any more.
pub(crate) fn leave(waits: &mut Vec<Wait>, who: u64)
    ensures items { waits.new.items ≡ filter (is_others who) waits.old.items }
    ensures capacity { vec_capacity waits.new ≡ vec_capacity waits.old }
{
    waits.retain(|x| x.who != who);
}

/// Takes the clause out that has waited longest of those that can be met. Its coroutine waits under no clause any more.
pub(crate) fn take_partner(waits: &mut Vec<Wait>, who: u64, other: u64, want: &Want) -> Option<Wait>
    ensures found { result ≡ find (could_meet who other want.now) waits.old.items }
    ensures left { waits.new.items ≡ if_some result waits.old.items (λ x. filter (is_others x.who) waits.old.items) }
    ensures capacity { vec_capacity waits.new ≡ vec_capacity waits.old }
{
    match place_of_partner(waits, who, other, want) {
        Some(at) => {
            let found = waits.remove(at);
            leave(waits, found.who);
            Some(found)
        }
        None => None,
    }
}

/// The answers of a sender and of its receiver.
fn answers(bytes: Octets, size: u64) -> (Answer, Answer)
    ensures { result ≡ answers bytes size }
{
    if bytes.as_slice().len() as u64 == size {
        (Answer::Number(0), Answer::Bytes(bytes))
    } else {
        (
            Answer::Fault(Errno::Emsgsize),
            Answer::Fault(Errno::Emsgsize),
        )
    }
}

/// The caller's answer and the other's.
fn answers_of(want: Want, others: Want) -> (Answer, Answer)
    ensures { result ≡ answers_of want others }
{
    match want {
        Want::Send(bytes) => match others {
            Want::Recv(size) => answers(bytes, size),
            Want::Send(_) => (
                Answer::Fault(Errno::Emsgsize),
                Answer::Fault(Errno::Emsgsize),
            ),
        },
        Want::Recv(size) => match others {
            Want::Send(bytes) => {
                let (first, second) = answers(bytes, size);
                (second, first)
            }
            Want::Recv(_) => (
                Answer::Fault(Errno::Emsgsize),
                Answer::Fault(Errno::Emsgsize),
            ),
        },
    }
}

/// The caller meets a clause that waited.
pub(crate) fn meet(want: Want, found: Wait) -> Met
    ensures { result ≡ seats.met want found }
{
    let (answer, others) = answers_of(want, found.want);
    Met {
        other: found.who,
        clause: found.clause,
        answer,
        others,
    }
}

/// The answers of a sender and of its receiver, with a copy of the bytes.
fn copied_answers(alloc: Global, bytes: &[u8], size: u64) -> Result<(Answer, Answer), NoMemory>
    ensures { IfOk result (λ both. both ≡ answers bytes.now size) }
{
    if bytes.len() as u64 != size {
        return Ok((
            Answer::Fault(Errno::Emsgsize),
            Answer::Fault(Errno::Emsgsize),
        ));
    }
    let copy = Octets::from_slice(alloc, bytes)?;
    Ok((Answer::Number(0), Answer::Bytes(copy)))
}

/// The same in the other order.
fn turned_answers(alloc: Global, bytes: &[u8], size: u64) -> Result<(Answer, Answer), NoMemory>
    ensures { IfOk result (λ both. both ≡ ((answers bytes.now size).1, (answers bytes.now size).0)) }
{
    let (first, second) = copied_answers(alloc, bytes, size)?;
    Ok((second, first))
}

/// The caller's answer and the other's, with a copy of the bytes.
fn copied_answers_of(
    alloc: Global,
    want: &Want,
    others: &Want,
) -> Result<(Answer, Answer), NoMemory>
    ensures { IfOk result (λ both. both ≡ answers_of want.now others.now) }
{
    match want {
        Want::Send(bytes) => match others {
            Want::Recv(size) => copied_answers(alloc, bytes.as_slice(), *size),
            Want::Send(_) => Ok((
                Answer::Fault(Errno::Emsgsize),
                Answer::Fault(Errno::Emsgsize),
            )),
        },
        Want::Recv(size) => match others {
            Want::Send(bytes) => turned_answers(alloc, bytes.as_slice(), *size),
            Want::Recv(_) => Ok((
                Answer::Fault(Errno::Emsgsize),
                Answer::Fault(Errno::Emsgsize),
            )),
        },
    }
}

/// The meeting of what the caller wants with a clause that waits on, with a copy of the bytes.
pub(crate) fn meet_copied(alloc: Global, want: &Want, found: &Wait) -> Result<Met, NoMemory>
    ensures { IfOk result (λ x. x ≡ seats.met want.now found.now) }
{
    let (answer, others) = copied_answers_of(alloc, want, &found.want)?;
    Ok(Met {
        other: found.who,
        clause: found.clause,
        answer,
        others,
    })
}

/// The lesser of two coroutines with their clauses, of which one may not be there.
fn closer(least: Option<(u64, u8)>, who: u64, clause: u8) -> Option<(u64, u8)>
    ensures { result ≡ closer least (Some (who, clause)) }
{
    match least {
        Some((first, of_first)) => {
            if first < who || (first == who && of_first < clause) {
                Some((first, of_first))
            } else {
                Some((who, clause))
            }
        }
        None => Some((who, clause)),
    }
}

/// Whether a clause of a coroutine above a number waits at a live end and has its end.
fn is_ended(ends: &[End], after: u64, x: &Wait) -> bool
    ensures { result ≡ seats.is_ended (of_ends ends.now) after x.now }
{
    after < x.who && find_end(ends, x.end).is_some() && has_ended(ends, x.end, &x.want)
}

/// The least waiter above a number that has its end, with the least of its clauses that has it.
pub(crate) fn next_ended(ends: &[End], waits: &[Wait], after: u64) -> Option<(u64, u8)>
    ensures { result ≡ ended_in (of_ends ends.now) after waits.now }
{
    let mut least = None;
    for x in waits {
        if is_ended(ends, after, x) {
            least = closer(least, x.who, x.clause);
        }
    }
    least
}
