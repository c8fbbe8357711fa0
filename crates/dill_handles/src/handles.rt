ghost use Rattle.std.specs.Prelude.{◌≡◌, ◌+◌, ◌≤◌, ◌<◌, length, map, filter, find, not, nat_lt, vec_capacity, OnOk, OnErr, IfSome, IfNone, None, option_copied, option_map};
ghost use Rattle.std.specs.List.{position_from, last_or};
ghost use Rattle.dill_base.specs.Maps.{if_some, change, without};
ghost use Rattle.dill_handles.specs.Faults.{says_full, named, pointed};
ghost use Rattle.dill_handles.specs.Handles as handles;

use crate::{Entry, HandleFault};
use std::alloc::Global;
use std::marker::Model;

/// A finite map from live handle numbers to things and owners. Numbers are given from 1 on, each once; a number that is
/// kept is given later without memory.
#[derive(Drop)]
pub struct Handles<T> {
    entries: Vec<Entry<T>>,
    kept: usize,
    last: u64,
}

impl<T> Model for Handles<T> {
    ghost use Rattle.std.specs.Prelude.{◌+◌, ◌≤◌, length, vec_capacity};
    ghost use Rattle.dill_handles.specs.Handles.{Handles};
    ghost use Rattle.dill_handles.specs.Codes.{handles_code};

    ghost Value = { Handles T };

    ghost coded = { handles_code T.code };

    ghost view = { λ h. record { entries = h.entries.items; kept = h.kept; last = h.last } };

    ghost invariant = { λ h. (length h.entries.items + h.kept ≤ vec_capacity h.entries) × (length h.entries.items + h.kept ≤ 65536) × (h.last + h.kept ≤ 2147483647) };
}

/// Where a number stands.
fn place_of<T>(entries: &[Entry<T>], number: u64) -> Option<usize>
    ensures place { result ≡ position_from (handles.is_entry number) 0 entries.now }
    ensures within { IfSome result (λ at. at < length entries.now) }
{
    entries.iter().position(|x| x.number == number)
}

/// What a number names, with its owner.
fn find_entry<T>(entries: &[Entry<T>], number: u64) -> Option<&Entry<T>>
    ensures { option_copied result ≡ find (handles.is_entry number) entries.now }
{
    entries.iter().find(|x| x.number == number)
}

/// The number has another owner, where it is live.
fn own_entry<T>(entries: &mut Vec<Entry<T>>, number: u64, owner: u64)
    ensures items { entries.new.items ≡ change (handles.is_entry number) (handles.with_owner owner) entries.old.items }
    ensures capacity { vec_capacity entries.new ≡ vec_capacity entries.old }
    ensures len { length entries.new.items ≡ length entries.old.items }
{
    if let Some(at) = place_of(entries, number) {
        let found = &mut entries[at];
        found.owner = owner;
    }
}

/// The number is gone, where it is live. Answers what it named.
fn drop_entry<T>(entries: &mut Vec<Entry<T>>, number: u64) -> Option<T>
    ensures items { entries.new.items ≡ without (handles.is_entry number) entries.old.items }
    ensures capacity { vec_capacity entries.new ≡ vec_capacity entries.old }
    ensures len { length entries.new.items ≤ length entries.old.items }
    ensures gone { IfSome result (λ _. length entries.new.items + 1 ≡ length entries.old.items) }
    ensures same { IfNone result (entries.new.items ≡ entries.old.items) }
    ensures thing { result ≡ option_map (λ x. x.thing) (find (handles.is_entry number) entries.old.items) }
{
    match place_of(entries, number) {
        None => None,
        Some(at) => {
            let Entry {
                number: _,
                thing,
                owner: _,
            } = entries.remove(at);
            Some(thing)
        }
    }
}

/// The highest number below a bound that an owner has.
fn last_owned<T>(entries: &[Entry<T>], owner: u64, below: u64) -> Option<u64>
    ensures { result ≡ last_or None (filter (λ n. nat_lt n below) (map (λ x. x.number) (filter (handles.is_owned owner) entries.now))) }
{
    let mut found = None;
    for x in entries {
        if x.owner == owner && x.number < below {
            found = Some(x.number);
        }
    }
    found
}

impl<T> Handles<T> {
    /// No handles. It takes no memory.
    pub fn new(alloc: Global) -> Handles<T>
        ensures { result ≡ handles.no_handles }
    {
        Handles {
            entries: Vec::new(alloc),
            kept: 0,
            last: 0,
        }
    }

    /// How many numbers are live.
    pub fn len(&self) -> usize
        ensures value { result ≡ length self.now.entries }
        ensures bound { length self.now.entries + self.now.kept ≤ 65536 }
    {
        self.entries.len()
    }

    /// How many numbers are kept.
    pub fn kept(&self) -> usize
        ensures { result ≡ self.now.kept }
    {
        self.kept
    }

    /// The number that was given last, 0 before the first.
    pub fn last(&self) -> u64
        ensures value { result ≡ self.now.last }
        ensures bound { self.now.last + self.now.kept ≤ 2147483647 }
    {
        self.last
    }

    /// The live numbers with what they name and their owners, rising.
    pub fn as_slice(&self) -> &[Entry<T>]
        ensures { result.now ≡ self.now.entries }
    {
        self.entries.as_slice()
    }

    /// Whether so many more can be kept, as far as numbers go.
    pub fn has_room(&self, count: usize) -> bool
        ensures { result ≡ handles.has_room self.now count }
    {
        let used = self.entries.len() + self.kept;
        let given = self.last + self.kept as u64;
        count <= 65_536 && used + count <= 65_536 && given + count as u64 <= 2_147_483_647
    }

    /// Keeps so many numbers more, for `make` and `renumber`. Refused, it changes nothing.
    pub fn keep_all(&mut self, count: usize) -> Result<(), HandleFault>
        ensures ok { OnOk result (self.new ≡ handles.keep self.old count) }
        ensures err { OnErr result (self.new ≡ self.old) }
        ensures full { says_full result ≡ not (handles.has_room self.old count) }
    {
        if !self.has_room(count) {
            return Err(HandleFault::Full);
        }
        match self.entries.reserve(self.kept + count) {
            Ok(()) => {
                self.kept += count;
                Ok(())
            }
            Err(_) => Err(HandleFault::NoMemory),
        }
    }

    /// Keeps one number more. Refused, it changes nothing.
    pub fn keep(&mut self) -> Result<(), HandleFault>
        ensures ok { OnOk result (self.new ≡ handles.keep self.old 1) }
        ensures err { OnErr result (self.new ≡ self.old) }
        ensures full { says_full result ≡ handles.is_full self.old }
    {
        self.keep_all(1)
    }

    /// So many kept numbers are given back.
    pub fn unkeep_all(&mut self, count: usize)
        requires { count ≤ self.old.kept }
        ensures { self.new ≡ handles.unkeep self.old count }
    {
        self.kept -= count;
    }

    /// A kept number is given back.
    pub fn unkeep(&mut self)
        requires { 1 ≤ self.old.kept }
        ensures { self.new ≡ handles.unkeep self.old 1 }
    {
        self.unkeep_all(1);
    }

    /// The next number, which was kept, names the thing from now on. Answers that number.
    pub fn make(&mut self, thing: T, owner: u64) -> u64
    where
        T: Drop,
        requires { 1 ≤ self.old.kept }
        ensures made { self.new ≡ handles.make self.old thing owner }
        ensures number { result ≡ handles.next_number self.old }
    {
        let number = self.last + 1;
        let _ = self.entries.push(Entry {
            number,
            thing,
            owner,
        });
        self.kept -= 1;
        self.last = number;
        number
    }

    /// What a live number names, and its owner.
    pub fn look(&self, number: u64) -> Option<(&T, u64)>
        ensures { option_map pointed result ≡ option_map named (handles.look self.now number) }
    {
        match find_entry(&self.entries, number) {
            None => None,
            Some(found) => Some((&found.thing, found.owner)),
        }
    }

    /// What a live number names, with its owner and the number itself.
    pub fn entry(&self, number: u64) -> Option<&Entry<T>>
        ensures { option_copied result ≡ handles.look self.now number }
    {
        find_entry(&self.entries, number)
    }

    /// A live number has another owner. Of a dead number it changes nothing.
    pub fn set_owner(&mut self, number: u64, owner: u64)
        ensures { self.new ≡ handles.set_owner self.old number owner }
    {
        own_entry(&mut self.entries, number, owner);
    }

    /// The number is dead, and the next one, which was kept, names its thing for this owner. Answers the next number. Of a
    /// dead number it changes nothing.
    pub fn renumber(&mut self, number: u64, owner: u64) -> u64
    where
        T: Drop,
        requires { 1 ≤ self.old.kept }
        ensures moved { self.new ≡ if_some (handles.look self.old number) self.old (λ x. handles.renumber self.old number x.thing owner) }
        ensures number { result ≡ handles.next_number self.old }
    {
        let next = self.last + 1;
        if let Some(thing) = self.retire(number) {
            let _ = self.make(thing, owner);
        }
        next
    }

    /// The number is dead. Answers its thing, or none where it wasn't live.
    pub fn retire(&mut self, number: u64) -> Option<T>
        ensures gone { self.new ≡ handles.retire self.old number }
        ensures same { IfNone result (self.new ≡ self.old) }
        ensures less { IfSome result (λ _. length self.new.entries + 1 ≡ length self.old.entries) }
        ensures thing { result ≡ option_map (λ x. x.thing) (handles.look self.old number) }
    {
        drop_entry(&mut self.entries, number)
    }

    /// The highest live number below a bound that an owner has.
    pub fn owned_by(&self, owner: u64, below: u64) -> Option<u64>
        ensures { result ≡ handles.owned_by self.now owner below }
    {
        last_owned(&self.entries, owner, below)
    }
}
