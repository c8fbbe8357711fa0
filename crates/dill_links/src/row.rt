ghost use Rattle.std.specs.Prelude.{◌≡◌};
ghost use Rattle.std.specs.Borrow.{sem};
ghost use Rattle.dill_rules.specs.Links.{fresh_link, rested_link};
ghost use Rattle.dill_stack.specs.Rooms.{made};
ghost use Rattle.dill_links.specs.Changing.{changed_link};
ghost use Rattle.dill_links.specs.Lending.{stack_of, lends_stack};

use dill_rules::Sort;
use dill_stack::Stack;
use std::marker::Model;

/// A link with its number and what it is, the stack on it, whether each direction is hot, whether it had a `write` in this round,
/// whether its `shut` was made, and whether its `close` is due.
#[derive(Drop)]
pub struct LinkRow {
    number: u64,
    sort: Sort,
    stack: Stack,
    read_hot: bool,
    write_hot: bool,
    wrote: bool,
    shut: bool,
    closing: bool,
}

impl Model for LinkRow {
    ghost use Rattle.dill_rules.specs.Links.{Link};

    ghost Value = { Link };

    ghost view = { λ x. record {
      number = x.number;
      sort = x.sort;
      stack = x.stack.held;
      read_hot = x.read_hot;
      write_hot = x.write_hot;
      wrote = x.wrote;
      shut = x.shut;
      closing = x.closing;
      most = x.stack.most;
    } };
}

/// What becomes of a link: it is hot in these directions too, or cold in one, it had its `write` in this round, its `close` is
/// due, its `shut` was made, or its `connect` is finished.
#[derive(Clone, Copy, Debug, PartialEq, Eq)]
pub enum Change {
    Heats(bool, bool),
    CoolsRead,
    CoolsWrite,
    Wrote,
    Closes,
    Shuts,
    Connects,
}

impl LinkRow {
    /// A new link on a stack that was made before it. It is hot in both directions.
    pub(crate) fn new(number: u64, sort: Sort, mut stack: Stack) -> LinkRow
        requires { stack ≡ made }
        ensures { result ≡ fresh_link number sort }
    {
        stack.set_link(number);
        LinkRow {
            number,
            sort,
            stack,
            read_hot: true,
            write_hot: true,
            wrote: false,
            shut: false,
            closing: false,
        }
    }

    /// The kernel's number of it.
    pub fn number(&self) -> u64
        ensures { result ≡ self.now.number }
    {
        self.number
    }

    /// What the kernel made.
    pub fn sort(&self) -> Sort
        ensures { result ≡ self.now.sort }
    {
        self.sort
    }

    /// The stack on it.
    pub fn stack(&self) -> &Stack
        ensures { result.now ≡ stack_of self.now }
    {
        &self.stack
    }

    /// The stack on it, to be changed.
    pub fn stack_mut(&mut self) -> &mut Stack
        ensures* writes_back { sem 𝓛 (lends_stack self.entry result) }
        ensures stack { result.now ≡ stack_of self.old }
    {
        &mut self.stack
    }

    /// Whether it is hot for reads.
    pub fn read_hot(&self) -> bool
        ensures { result ≡ self.now.read_hot }
    {
        self.read_hot
    }

    /// Whether it is hot for writes.
    pub fn write_hot(&self) -> bool
        ensures { result ≡ self.now.write_hot }
    {
        self.write_hot
    }

    /// Whether it had a `write` in this round.
    pub fn wrote(&self) -> bool
        ensures { result ≡ self.now.wrote }
    {
        self.wrote
    }

    /// Whether its `shut` was made.
    pub fn shut(&self) -> bool
        ensures { result ≡ self.now.shut }
    {
        self.shut
    }

    /// Whether its `close` is due.
    pub fn closing(&self) -> bool
        ensures { result ≡ self.now.closing }
    {
        self.closing
    }

    /// What becomes of it.
    pub fn change(&mut self, change: Change)
        ensures { self.new ≡ changed_link change self.old }
    {
        match change {
            Change::Heats(read, write) => {
                self.read_hot = self.read_hot || read;
                self.write_hot = self.write_hot || write;
            }
            Change::CoolsRead => self.read_hot = false,
            Change::CoolsWrite => self.write_hot = false,
            Change::Wrote => self.wrote = true,
            Change::Closes => self.closing = true,
            Change::Shuts => self.shut = true,
            Change::Connects => self.sort = Sort::Stream,
        }
    }

    /// It had no `write` since what is asked went on from before the first kind.
    pub(crate) fn rest(&mut self)
        ensures { self.new ≡ rested_link self.old }
    {
        self.wrote = false;
    }
}
