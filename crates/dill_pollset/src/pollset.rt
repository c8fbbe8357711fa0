ghost use Rattle.std.specs.Prelude.{◌≡◌, ◌≤◌, ◌<◌, length, false, true, IfSome, Some, OnOk, OnErr, vec_capacity};
ghost use Rattle.std.specs.List.{position_from, insert};
ghost use Rattle.dill_base.specs.Maps as maps;
ghost use Rattle.dill_base.specs.Maps.{without};
ghost use Rattle.dill_pollset.specs.Watching as watching;
ghost use Rattle.dill_pollset.specs.Watching.{is_of, is_above, placed, wanting, heated, cooled, changed, fresh, is_due};

use crate::{Interest, Side};
use dill_base::NoMemory;
use std::alloc::Global;
use std::marker::Model;

/// A plain list of links in rising order. Each call looks at all of them.
#[derive(Drop)]
pub struct Pollset {
    interests: Vec<Interest>,
    kept: usize,
}

impl Model for Pollset {
    ghost use Rattle.std.specs.Prelude.{◌+◌, ◌≤◌, length, vec_capacity};
    ghost use Rattle.dill_pollset.specs.Watching.{Watched};

    ghost Value = { Watched };

    ghost view = { λ p. record { interests = p.interests.items; kept = p.kept } };

    ghost invariant = { λ p. length p.interests.items + p.kept ≤ vec_capacity p.interests };
}

/// Where a link stands.
fn place_of(interests: &[Interest], link: u64) -> Option<usize>
    ensures place { result ≡ position_from (is_of link) 0 interests.now }
    ensures within { IfSome result (λ at. at < length interests.now) }
{
    interests.iter().position(|x| x.link == link)
}

/// Where the first link of a greater number stands.
fn first_above(interests: &[Interest], link: u64) -> Option<usize>
    ensures place { result ≡ position_from (is_above link) 0 interests.now }
    ensures within { IfSome result (λ at. at < length interests.now) }
{
    interests.iter().position(|x| link < x.link)
}

/// Where a link goes: before the first of a greater number, or behind all.
fn spot(interests: &[Interest], link: u64) -> usize
    ensures spot { placed (fresh link) interests.now ≡ insert interests.now result (fresh link) }
    ensures within { result ≤ length interests.now }
{
    match first_above(interests, link) {
        Some(at) => at,
        None => interests.len(),
    }
}

/// What is said of a link.
#[derive(Clone, Copy)]
enum Change {
    Want,
    Heat,
    Cool,
}

/// A link of which that is said.
fn changed(x: Interest, change: Change, read: bool, write: bool) -> Interest
    ensures { result ≡ changed change read write x }
{
    match change {
        Change::Want => wanting(x, read, write),
        Change::Heat => heated(x, read, write),
        Change::Cool => cooled(x, read, write),
    }
}

/// Says it of a link that is there.
fn change_link(interests: &mut Vec<Interest>, link: u64, change: Change, read: bool, write: bool)
    ensures items { interests.new.items ≡ maps.change (is_of link) (changed change read write) interests.old.items }
    ensures capacity { vec_capacity interests.new ≡ vec_capacity interests.old }
    ensures len { length interests.new.items ≡ length interests.old.items }
{
    if let Some(at) = place_of(interests, link) {
        let found = interests[at];
        interests[at] = changed(found, change, read, write);
    }
}

/// A link that is there is gone.
fn remove_link(interests: &mut Vec<Interest>, link: u64)
    ensures items { interests.new.items ≡ without (is_of link) interests.old.items }
    ensures capacity { vec_capacity interests.new ≡ vec_capacity interests.old }
    ensures len { length interests.new.items ≤ length interests.old.items }
{
    if let Some(at) = place_of(interests, link) {
        let _gone = interests.remove(at);
    }
}

/// A link with its interests stated.
fn wanting(x: Interest, read: bool, write: bool) -> Interest
    ensures { result ≡ wanting read write x }
{
    Interest {
        link: x.link,
        reads: Side {
            wanted: read,
            hot: x.reads.hot,
        },
        writes: Side {
            wanted: write,
            hot: x.writes.hot,
        },
    }
}

/// A link that is hot in these directions too.
fn heated(x: Interest, read: bool, write: bool) -> Interest
    ensures { result ≡ heated read write x }
{
    Interest {
        link: x.link,
        reads: Side {
            wanted: x.reads.wanted,
            hot: x.reads.hot || read,
        },
        writes: Side {
            wanted: x.writes.wanted,
            hot: x.writes.hot || write,
        },
    }
}

/// A link that is cold in these directions.
fn cooled(x: Interest, read: bool, write: bool) -> Interest
    ensures { result ≡ cooled read write x }
{
    Interest {
        link: x.link,
        reads: Side {
            wanted: x.reads.wanted,
            hot: x.reads.hot && !read,
        },
        writes: Side {
            wanted: x.writes.wanted,
            hot: x.writes.hot && !write,
        },
    }
}

/// Whether a direction of a link is wanted and hot.
fn is_due(read: bool, x: Interest) -> bool
    ensures { result ≡ is_due read x }
{
    let side = if read { x.reads } else { x.writes };
    side.wanted && side.hot
}

impl Pollset {
    /// No links. It takes no memory.
    pub fn new(alloc: Global) -> Pollset
        ensures { result ≡ watching.nothing_watched }
    {
        Pollset {
            interests: Vec::new(alloc),
            kept: 0,
        }
    }

    /// Makes room for one link more, which `add` uses up. Refused, it changes nothing.
    pub fn keep(&mut self) -> Result<(), NoMemory>
        ensures ok { OnOk result (self.new ≡ watching.keep self.old) }
        ensures err { OnErr result (self.new ≡ self.old) }
    {
        let Some(kept) = self.kept.checked_add(1) else {
            return Err(NoMemory);
        };
        match self.interests.reserve(kept) {
            Ok(()) => {
                self.kept = kept;
                Ok(())
            }
            Err(_) => Err(NoMemory),
        }
    }

    /// Gives room for one link back.
    pub fn unkeep(&mut self)
        requires { 1 ≤ self.old.kept }
        ensures { self.new ≡ watching.unkeep self.old }
    {
        self.kept -= 1;
    }

    /// A new link, for which there is room: it is hot in both directions, and wanted in none.
    pub fn add(&mut self, link: u64)
        requires kept { 1 ≤ self.old.kept }
        requires new { watching.has_link self.old link ≡ false }
        ensures { self.new ≡ watching.add self.old link }
    {
        let at = spot(&self.interests, link);
        let hot = Side {
            wanted: false,
            hot: true,
        };
        let _put = self.interests.insert(
            at,
            Interest {
                link,
                reads: hot,
                writes: hot,
            },
        );
        self.kept -= 1;
    }

    /// The link is gone.
    pub fn drop_link(&mut self, link: u64)
        requires { watching.has_link self.old link ≡ true }
        ensures { self.new ≡ watching.drop_link self.old link }
    {
        remove_link(&mut self.interests, link);
    }

    /// States in which directions a call waits for the link.
    pub fn want(&mut self, link: u64, read: bool, write: bool)
        requires { watching.has_link self.old link ≡ true }
        ensures { self.new ≡ watching.at_link self.old link (wanting read write) }
    {
        change_link(&mut self.interests, link, Change::Want, read, write);
    }

    /// The link is hot in these directions too.
    pub fn heat(&mut self, link: u64, read: bool, write: bool)
        requires { watching.has_link self.old link ≡ true }
        ensures { self.new ≡ watching.at_link self.old link (heated read write) }
    {
        change_link(&mut self.interests, link, Change::Heat, read, write);
    }

    /// The link is cold in these directions.
    pub fn cool(&mut self, link: u64, read: bool, write: bool)
        requires { watching.has_link self.old link ≡ true }
        ensures { self.new ≡ watching.at_link self.old link (cooled read write) }
    {
        change_link(&mut self.interests, link, Change::Cool, read, write);
    }

    /// The least link above `after` that is wanted and hot for reading, or for writing.
    pub fn next_due(&self, read: bool, after: u64) -> Option<u64>
        ensures { result ≡ watching.next_due read after self.now.interests }
    {
        let mut least = None;
        for x in &self.interests {
            if is_due(read, *x) && after < x.link {
                least = lesser(least, x.link);
            }
        }
        least
    }
}

/// The lesser of two numbers, of which one may not be there.
fn lesser(least: Option<u64>, link: u64) -> Option<u64>
    ensures { result ≡ watching.lesser least (Some link) }
{
    match least {
        Some(least) => Some(least.min(link)),
        None => Some(link),
    }
}
