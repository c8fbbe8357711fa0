ghost use Rattle.std.specs.Prelude.{◌≡◌, ◌<◌, ◌≤◌, ◌+◌, ◌++◌, IfSome, length};
ghost use Rattle.dill_base.specs.Reading.{IsFront};
ghost use Rattle.dill_base.specs.Writing.{Writes};
ghost use Rattle.dill_frames.specs.Judging.{IsExact, IsWritten};
ghost use Rattle.dill_frames.specs.Suffix.{place_of, starts, is_at, suffix_due, suffix_front, SuffixSpells, SuffixRefuses, SuffixShows};

use crate::joining::joined;
use dill_base::{Errno, Front, Octets, WriteFault};
use std::alloc::Global;

/// The message of at most `limit` bytes before the first terminator, from 1 to 32 bytes long. EMSGSIZE comes when as many
/// bytes as the limit and the terminator have are there, and no terminator ends within them.
pub fn suffix_read(end: &[u8], bytes: &[u8], limit: usize) -> Front
    requires { 0 < length end.now }
    ensures front { result ≡ suffix_front end.now bytes.now limit }
    ensures spelled { IsFront (SuffixSpells end.now) (SuffixShows end.now limit) limit bytes.now result }
    ensures exact { IsExact (SuffixSpells end.now) (SuffixShows end.now limit) limit bytes.now result }
{
    front_by_end(end, bytes, limit)
}

#[tactic(auto, unfolding(crate::specs::Suffix::suffix_front))]
fn front_by_end(end: &[u8], bytes: &[u8], limit: usize) -> Front
    ensures { result ≡ suffix_front end.now bytes.now limit }
{
    match first_place(end, bytes) {
        Some(place) if limit < place => Front::Fault(Errno::Emsgsize),
        Some(place) => Front::Whole {
            from: 0,
            to: place,
            used: place + end.len(),
        },
        None if bytes.len() < end.len() || bytes.len() - end.len() < limit => Front::Need,
        None => Front::Fault(Errno::Emsgsize),
    }
}

// The first place of the terminator.
fn first_place(end: &[u8], bytes: &[u8]) -> Option<usize>
    ensures place { result ≡ place_of end.now bytes.now }
    ensures within { IfSome result (λ k. k + length end.now ≤ length bytes.now) }
{
    for at in 0..bytes.len() {
        if bytes[at..].starts_with(end) {
            return Some(at);
        }
    }
    None
}

/// The message, then its terminator. EINVAL where the terminator stands in message and terminator together at an earlier
/// place than the end; that is tested before memory is taken.
#[tactic(auto, unfolding(crate::specs::Suffix::suffix_due))]
pub fn suffix_write(alloc: Global, end: &[u8], message: &[u8]) -> Result<Octets, WriteFault>
    requires { 0 < length end.now }
    ensures due { Writes result (suffix_due end.now message.now) }
    ensures spelled { IsWritten (SuffixSpells end.now message.now) (SuffixRefuses end.now message.now) result }
{
    if !suffix_fits(end, message) {
        return Err(WriteFault::Refused(Errno::Einval));
    }
    joined(alloc, message, end)
}

/// Whether the message has a spelling: the terminator behind it is the first that ends.
pub fn suffix_fits(end: &[u8], message: &[u8]) -> bool
    requires { 0 < length end.now }
    ensures test { result ≡ is_at (length message.now) (place_of end.now (message.now ++ end.now)) }
{
    for at in 0..message.len() {
        if joins(&message[at..], end) {
            return false;
        }
    }
    true
}

// Whether the terminator stands at the front of the tail and the terminator behind it.
fn joins(tail: &[u8], end: &[u8]) -> bool
    ensures { result ≡ starts end.now (tail.now ++ end.now) }
{
    if end.len() <= tail.len() {
        return tail.starts_with(end);
    }
    let front = &end[..tail.len()];
    front == tail && end.starts_with(&end[tail.len()..])
}
