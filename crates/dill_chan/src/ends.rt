ghost use Rattle.std.specs.Prelude.{◌≡◌, ◌||◌, ◌<◌, IfSome, find, length, option_copied};
ghost use Rattle.std.specs.List.{position_from};
ghost use Rattle.dill_base.specs.Maps.{change, without};
ghost use Rattle.dill_chan.specs.Channels.{is_end, as_done, is_done};
ghost use Rattle.dill_chan.specs.Meetings as meetings;
ghost use Rattle.dill_chan.specs.Meetings.{is_alone, is_over};
ghost use Rattle.dill_chan.specs.Seats.{of_ends};

use crate::{End, Want};

fn seek(ends: &[End], name: u64) -> Option<&End>
    ensures { option_copied result ≡ find (is_end name) ends.now }
{
    ends.iter().find(|x| x.name == name)
}

/// The end of this name, if it is live.
pub(crate) fn find_end(ends: &[End], name: u64) -> Option<End>
    ensures { result ≡ find (is_end name) ends.now }
{
    seek(ends, name).copied()
}

fn place_of(ends: &[End], name: u64) -> Option<usize>
    ensures place { result ≡ position_from (is_end name) 0 ends.now }
    ensures within { IfSome result (λ at. at < length ends.now) }
{
    ends.iter().position(|x| x.name == name)
}

/// The sending direction of the end of this name is done, if it is live.
pub(crate) fn mark_done(ends: &mut Vec<End>, name: u64)
    ensures { ends.new.items ≡ change (is_end name) as_done ends.old.items }
{
    if let Some(at) = place_of(ends, name) {
        let found = &mut ends[at];
        found.done = true;
    }
}

/// The end of this name is gone.
pub(crate) fn remove_end(ends: &mut Vec<End>, name: u64)
    ensures { ends.new.items ≡ without (is_end name) ends.old.items }
{
    if let Some(at) = place_of(ends, name) {
        let _ = ends.remove(at);
    }
}

/// Whether the channel's other end is gone.
pub(crate) fn is_alone(ends: &[End], end: u64) -> bool
    ensures { result ≡ is_alone (of_ends ends.now) end }
{
    match find_end(ends, end) {
        Some(here) => find_end(ends, here.other).is_none(),
        None => true,
    }
}

/// Whether the sending direction of an end is done.
fn is_done(ends: &[End], end: u64) -> bool
    ensures { result ≡ is_done (of_ends ends.now) end }
{
    match find_end(ends, end) {
        Some(here) => here.done,
        None => false,
    }
}

/// Whether the sending direction of the channel's other end is done.
fn is_over(ends: &[End], end: u64) -> bool
    ensures { result ≡ is_over (of_ends ends.now) end }
{
    match find_end(ends, end) {
        Some(here) => is_done(ends, here.other),
        None => false,
    }
}

/// Whether a send at this end has its end.
pub(crate) fn send_has_ended(ends: &[End], end: u64) -> bool
    ensures { result ≡ (is_done (of_ends ends.now) end || is_alone (of_ends ends.now) end) }
{
    is_done(ends, end) || is_alone(ends, end)
}

/// Whether a receive at this end has its end.
pub(crate) fn recv_has_ended(ends: &[End], end: u64) -> bool
    ensures { result ≡ (is_over (of_ends ends.now) end || is_alone (of_ends ends.now) end) }
{
    is_over(ends, end) || is_alone(ends, end)
}

/// Whether what is wanted at this end has its end.
pub(crate) fn has_ended(ends: &[End], end: u64, want: &Want) -> bool
    ensures { result ≡ meetings.has_ended (of_ends ends.now) end want.now }
{
    match want {
        Want::Send(_) => send_has_ended(ends, end),
        Want::Recv(_) => recv_has_ended(ends, end),
    }
}
