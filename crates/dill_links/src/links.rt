ghost use Rattle.std.specs.Prelude.{◌≡◌, ◌+◌, ◌<◌, ◌≤◌, ◌^◌, ◌||◌, length, map, find, true, IfSome, Some, OnOk, OnErr, is_some, nat_le, option_copied, vec_capacity};
ghost use Rattle.std.specs.Borrow.{sem};
ghost use Rattle.std.specs.List.{position_from};
ghost use Rattle.dill_base.specs.Maps.{without};
ghost use Rattle.dill_rules.specs.Links.{no_links, is_link, look, change_link, fresh_link, add, keep, unkeep, gone, rested, rested_link};
ghost use Rattle.dill_links.specs.Changing.{changed_link};
ghost use Rattle.dill_links.specs.Lending.{lends_row};

use crate::row::{Change, LinkRow};
use crate::spare::Spare;
use dill_base::NoMemory;
use dill_rules::Sort;
use std::alloc::Global;
use std::marker::Model;

/// The most links of a machine.
const LINK_LIMIT: usize = 4_096;

/// The links that are there by rising number, until their `close` is asked, and a stack for each link that a pending call may
/// still make. Each call looks at all links.
#[derive(Drop)]
pub struct Links {
    alloc: Global,
    rows: Vec<LinkRow>,
    spare: Vec<Spare>,
    last: u64,
}

impl Model for Links {
    ghost use Rattle.std.specs.Prelude.{◌+◌, ◌<◌, ◌≤◌, ◌^◌, length, vec_capacity};
    ghost use Rattle.dill_rules.specs.Links as links;

    ghost Value = { links.Links };

    ghost view = { λ l. record { all = l.rows.items; last = l.last; kept = length l.spare.items } };

    ghost invariant = { λ l. (length l.rows.items + length l.spare.items ≤ vec_capacity l.rows) × (l.last + length l.spare.items < 2 ^ 64) };
}

/// Where a link stands.
fn place_of(rows: &[LinkRow], number: u64) -> Option<usize>
    ensures place { result ≡ position_from (is_link number) 0 rows.now }
    ensures within { IfSome result (λ at. at < length rows.now) }
{
    rows.iter().position(|x| x.number() == number)
}

/// Where a link stands that is there.
fn place_in(rows: &[LinkRow], number: u64) -> usize
    requires { is_some (find (is_link number) rows.now) ≡ true }
    ensures place { position_from (is_link number) 0 rows.now ≡ Some result }
    ensures within { result < length rows.now }
{
    match place_of(rows, number) {
        Some(at) => at,
        None => 0,
    }
}

/// A link is gone from the list.
fn remove_row(rows: &mut Vec<LinkRow>, number: u64)
    ensures items { rows.new.items ≡ without (is_link number) rows.old.items }
    ensures capacity { vec_capacity rows.new ≡ vec_capacity rows.old }
    ensures len { length rows.new.items ≤ length rows.old.items }
{
    if let Some(at) = place_of(rows, number) {
        let _ = rows.remove(at);
    }
}

/// None of these had a `write` since.
fn rest_each(rows: &mut [LinkRow])
    ensures { rows.new ≡ map rested_link rows.old }
{
    for row in rows.iter_mut() {
        row.rest();
    }
}

/// The same of the whole list.
fn rest_all(rows: &mut Vec<LinkRow>)
    ensures items { rows.new.items ≡ map rested_link rows.old.items }
    ensures capacity { vec_capacity rows.new ≡ vec_capacity rows.old }
    ensures len { length rows.new.items ≡ length rows.old.items }
{
    rest_each(rows);
}

/// A new link on a stack that was made before it.
fn fresh_row(number: u64, sort: Sort, spare: Spare) -> LinkRow
    ensures { result ≡ fresh_link number sort }
{
    LinkRow::new(number, sort, spare.into_stack())
}

impl Links {
    /// No links. It takes no memory.
    pub fn new(alloc: Global) -> Links
        ensures { result ≡ no_links }
    {
        Links {
            alloc,
            rows: Vec::new(alloc),
            spare: Vec::new(alloc),
            last: 0,
        }
    }

    /// The links that are there.
    pub fn rows(&self) -> &[LinkRow]
        ensures { result.now ≡ self.now.all }
    {
        self.rows.as_slice()
    }

    /// The number of the link that was made last, 0 before the first.
    pub fn last(&self) -> u64
        ensures number { result ≡ self.now.last }
        ensures room { self.now.last + self.now.kept < 2 ^ 64 }
    {
        self.last
    }

    /// How many links are kept for pending calls.
    pub fn kept(&self) -> usize
        ensures count { result ≡ self.now.kept }
        ensures room { length self.now.all + self.now.kept < 2 ^ 64 }
    {
        self.spare.len()
    }

    /// Neither a link nor a number for one is left.
    pub fn is_full(&self) -> bool
        ensures { result ≡ (nat_le 4096 (length self.now.all + self.now.kept) || nat_le 18446744073709551615 (self.now.last + self.now.kept)) }
    {
        LINK_LIMIT <= self.rows.len() + self.spare.len()
            || u64::MAX <= self.last + self.spare.len() as u64
    }

    /// A link that is there.
    pub fn find(&self, number: u64) -> Option<&LinkRow>
        ensures { option_copied result ≡ look self.now number }
    {
        self.rows.iter().find(|x| x.number() == number)
    }

    /// A link that is there, to be changed.
    pub fn row_mut(&mut self, number: u64) -> &mut LinkRow
        requires { is_some (look self.old number) ≡ true }
        ensures* writes_back { sem 𝓛 (lends_row self.entry number result) }
        ensures row { look self.old number ≡ Some result.now }
    {
        let at = place_in(self.rows.as_slice(), number);
        &mut self.rows[at]
    }

    /// Whether a link is there.
    pub fn has(&self, number: u64) -> bool
        ensures { result ≡ is_some (look self.now number) }
    {
        self.find(number).is_some()
    }

    /// What becomes of a link, if it is there.
    pub fn change(&mut self, number: u64, change: Change)
        ensures { self.new ≡ change_link self.old number (changed_link change) }
    {
        if self.has(number) {
            self.row_mut(number).change(change);
        }
    }

    /// What is asked goes on from before the first kind: no link had a `write` since.
    pub fn rest(&mut self)
        ensures { self.new ≡ rested self.old }
    {
        rest_all(&mut self.rows);
    }

    /// Keeps a link for a call: its stack, and room for it. Refused, it changes nothing.
    pub fn keep(&mut self) -> Result<(), NoMemory>
        requires { self.old.last + self.old.kept + 1 < 2 ^ 64 }
        ensures ok { OnOk result (self.new ≡ keep self.old) }
        ensures err { OnErr result (self.new ≡ self.old) }
    {
        if self.rows.reserve(self.spare.len() + 1).is_err() {
            return Err(NoMemory);
        }
        if self.spare.reserve(1).is_err() {
            return Err(NoMemory);
        }
        let spare = Spare::new(self.alloc)?;
        self.spare.push_reserved(spare);
        Ok(())
    }

    /// Gives a kept link back, if one is kept.
    pub fn unkeep(&mut self)
        ensures { self.new ≡ unkeep self.old }
    {
        let _ = self.spare.pop();
    }

    /// The kernel made the next link, which was kept. Answers its number. It takes no memory.
    pub fn add(&mut self, sort: Sort) -> u64
        requires { 1 ≤ self.old.kept }
        ensures number { result ≡ self.old.last + 1 }
        ensures added { self.new ≡ add self.old sort }
    {
        let number = self.last + 1;
        if let Some(spare) = self.spare.pop() {
            self.rows.push_reserved(fresh_row(number, sort, spare));
            self.last = number;
        }
        number
    }

    /// A link is gone, if it is there.
    pub fn remove(&mut self, number: u64)
        ensures { self.new ≡ gone self.old number }
    {
        remove_row(&mut self.rows, number);
    }
}
