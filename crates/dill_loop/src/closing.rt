ghost use Rattle.std.specs.Prelude.{◌≡◌, ◌+◌, ◌<◌, ◌≤◌, ◌==◌, not, find, filter, map, drop, get_or, Some, vec_capacity, vec_len};
ghost use Rattle.std.specs.List.{position_from};
ghost use Rattle.dill_base.specs.Maps.{change};
ghost use Rattle.dill_loop.specs.Calls as calls;
ghost use Rattle.dill_loop.specs.Network.{has_end, waits_at, with_own};
ghost use Rattle.dill_loop.specs.Consistent.{HasRoom, IsConsistent, most_links};
ghost use Rattle.dill_loop.specs.Store.{network_of};

use crate::finding::{find_listener, stream_place};
use crate::network::Net;
use crate::stream::{Listener, Pair};
use dill_kernel::Ready;

/// The close of a link.
impl Net {
    /// Lets a link go. One that isn't there is closed without a change.
    pub fn close(&mut self, link: u64)
        requires room { HasRoom self.old }
        requires consistent { IsConsistent (network_of self.old) }
        ensures network { network_of self.new ≡ calls.closed link (network_of self.old) }
        ensures capacity { vec_capacity self.old.marks ≤ vec_capacity self.new.marks }
    {
        if find_listener(self.listeners.as_slice(), link).is_some() {
            self.close_listener(link);
            return;
        }
        if let Some(at) = stream_place(self.pairs.as_slice(), link) {
            self.close_stream(link, at);
        }
    }

    /// The end of a stream is closed, and the other one gets both marks.
    fn close_stream(&mut self, link: u64, at: usize)
        requires place { position_from (has_end link) 0 self.old.pairs.items ≡ Some at }
        requires found { (d : Pair) → find (has_end link) self.old.pairs.items ≡ Some (get_or self.old.pairs.items at d) }
        requires within { at < vec_len self.old.pairs }
        requires room { vec_len self.old.marks < vec_capacity self.old.marks }
        ensures network { (d : Pair) → network_of self.new ≡ calls.stream_closed link (get_or self.old.pairs.items at d) (network_of self.old) }
        ensures capacity { vec_capacity self.old.marks ≤ vec_capacity self.new.marks }
    {
        let pair = &self.pairs.as_slice()[at];
        let place = pair.other(link).place;
        close_at(&mut self.pairs, link, at);
        forget_marks(&mut self.marks, link);
        drop_over(&mut self.pairs);
        self.mark(true, true, place);
    }

    /// The ends in the queue of a listener are closed, and each end that connected gets both marks.
    fn close_listener(&mut self, link: u64)
        requires room { HasRoom self.old }
        requires consistent { IsConsistent (network_of self.old) }
        ensures network { network_of self.new ≡ calls.listener_closed link (network_of self.old) }
        ensures capacity { vec_capacity self.old.marks ≤ vec_capacity self.new.marks }
    {
        forget_listener(&mut self.listeners, link);
        forget_marks(&mut self.marks, link);
        self.mark_refused(link);
        drop_refused(&mut self.pairs, link);
    }

    /// Each end that connected to a listener and waits in its queue gets both marks.
    fn mark_refused(&mut self, listener: u64)
        requires room { most_links (network_of self.old) < vec_capacity self.old.marks }
        requires consistent { IsConsistent (network_of self.old) }
        ensures network { network_of self.new ≡ calls.with_refused_marks (filter (waits_at listener) self.old.pairs.items) (network_of self.old) }
        ensures capacity { vec_capacity self.old.marks ≤ vec_capacity self.new.marks }
    {
        for at in 0..self.pairs.len() {
            self.mark_one(listener, at);
        }
    }

    /// The end that connected gets both marks where the stream at this place waits in the listener's queue.
    fn mark_one(&mut self, listener: u64, at: usize)
        requires within { at < vec_len self.old.pairs }
        requires room { vec_len self.old.marks < vec_capacity self.old.marks }
        ensures network { calls.with_refused_marks (filter (waits_at listener) (drop (at + 1) self.old.pairs.items)) (network_of self.new) ≡ calls.with_refused_marks (filter (waits_at listener) (drop at self.old.pairs.items)) (network_of self.old) }
        ensures consistent { IsConsistent (network_of self.old) → IsConsistent (network_of self.new) }
        ensures pairs { self.new.pairs.items ≡ self.old.pairs.items }
        ensures listeners { self.new.listeners.items ≡ self.old.listeners.items }
        ensures capacity { vec_capacity self.old.marks ≤ vec_capacity self.new.marks }
    {
        let pair = &self.pairs.as_slice()[at];
        if pair.waits_at(listener) {
            let dialed = pair.dialed.place;
            self.mark(true, true, dialed);
        }
    }
}

/// The ends in the queue of a listener are closed.
fn refuse_each(pairs: &mut [Pair], listener: u64)
    ensures { pairs.new ≡ map (calls.refused_at listener) pairs.old }
{
    for pair in pairs.iter_mut() {
        pair.refuse(listener);
    }
}

/// The ends in the queue of a listener are closed, and the streams that are over then are gone.
fn drop_refused(pairs: &mut Vec<Pair>, listener: u64)
    ensures { pairs.new.items ≡ filter (λ pair. not (calls.is_over pair)) (map (calls.refused_at listener) pairs.old.items) }
{
    refuse_each(pairs, listener);
    drop_over(pairs);
}

/// The end of a stream at this link is closed.
fn close_at(pairs: &mut Vec<Pair>, link: u64, at: usize)
    requires place { position_from (has_end link) 0 pairs.old.items ≡ Some at }
    requires within { at < vec_len pairs.old }
    ensures { pairs.new.items ≡ change (has_end link) (with_own link calls.closed_end) pairs.old.items }
{
    let pair = &mut pairs[at];
    pair.close(link);
}

/// The marks of a link are gone.
fn forget_marks(marks: &mut Vec<Ready>, link: u64)
    ensures items { marks.new.items ≡ filter (λ mark. not (mark.link == link)) marks.old.items }
    ensures len { vec_len marks.new ≤ vec_len marks.old }
    ensures capacity { vec_capacity marks.old ≤ vec_capacity marks.new }
{
    marks.retain(|mark| mark.link != link);
}

/// The streams that are over are gone.
fn drop_over(pairs: &mut Vec<Pair>)
    ensures { pairs.new.items ≡ filter (λ pair. not (calls.is_over pair)) pairs.old.items }
{
    pairs.retain(|pair| !pair.is_over());
}

/// The listener at a link is gone.
fn forget_listener(listeners: &mut Vec<Listener>, link: u64)
    ensures { listeners.new.items ≡ filter (λ l. not (l.link == link)) listeners.old.items }
{
    listeners.retain(|listener| listener.link != link);
}
