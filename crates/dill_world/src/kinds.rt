ghost use Rattle.std.specs.Prelude.{◌≡◌, false, map, not, option_copied};
ghost use Rattle.std.specs.List.{list_any};
ghost use Rattle.dill_rules.specs.Naming.{gifts_of, end_of_clause};
ghost use Rattle.dill_rules.specs.Owning.{entry_of};
ghost use Rattle.dill_base.specs.Maps.{if_some};
ghost use Rattle.dill_rules.specs.Directions as directions;
ghost use Rattle.dill_rules.specs.Kinds as kinds;
ghost use Rattle.dill_world.specs.Store.{world_of};
ghost use Rattle.dill_world.specs.Tops.{is_top};

use crate::naming::{
    args_of, clauses_of, end_of_clause, is_top, kind_needed, kind_of_top, needed_top,
};
use crate::world::World;
use dill_calls::{Arg, Call, Clause};
use dill_handles::Entry;
use dill_rules::Thing;
use dill_stack::Top;

/// The value of an application's handle, and 0 of every other.
pub fn value_of(thing: Thing) -> u64
    ensures { result ≡ kinds.value_of thing }
{
    match thing {
        Thing::Value(_, value) => value,
        _ => 0,
    }
}

impl<B> World<B> {
    /// What a live number names, and its owner.
    pub fn entry_of(&self, number: u64) -> Option<&Entry<Thing>>
        ensures { option_copied result ≡ entry_of (world_of self.now) number }
    {
        self.handles().entry(number)
    }

    /// What stands on top of a link.
    fn top_on(&self, link: u64) -> Option<Top>
        ensures { result ≡ kinds.top_on (world_of self.now) link }
    {
        match self.links().find(link) {
            None => None,
            Some(found) => Some(found.stack().top()),
        }
    }

    fn kind_on(&self, link: u64) -> u64
        ensures { result ≡ if_some (kinds.top_on (world_of self.now) link) 0 directions.kind_of_top }
    {
        match self.top_on(link) {
            None => 0,
            Some(top) => kind_of_top(top),
        }
    }

    /// The kind of a thing; that of a socket is its top's.
    pub fn kind_of(&self, thing: Thing) -> u64
        ensures { result ≡ kinds.kind_of (world_of self.now) thing }
    {
        match thing {
            Thing::Bundle(_) => 1,
            Thing::End(_) => 2,
            Thing::Listener(_) => 3,
            Thing::Socket(link) => self.kind_on(link),
            Thing::Value(kind, _) => kind,
        }
    }

    fn is_of_kind(&self, kind: u64, number: u64) -> bool
        ensures { result ≡ kinds.is_of_kind (world_of self.now) kind number }
    {
        match self.entry_of(number) {
            None => false,
            Some(found) => self.kind_of(found.thing) == kind,
        }
    }

    fn is_dead(&self, number: u64) -> bool
        ensures { result ≡ kinds.is_dead (world_of self.now) number }
    {
        self.entry_of(number).is_none()
    }

    fn gives_dead(&self, args: &[Arg]) -> bool
        ensures { result ≡ list_any (kinds.is_dead (world_of self.now)) (gifts_of args.now) }
    {
        for arg in args {
            if let Arg::Give(number) = arg {
                if self.is_dead(*number) {
                    return true;
                }
            }
        }
        false
    }

    fn chooses_dead(&self, clauses: &[Clause]) -> bool
        ensures { result ≡ list_any (kinds.is_dead (world_of self.now)) (map end_of_clause clauses.now) }
    {
        for clause in clauses {
            if self.is_dead(end_of_clause(clause)) {
                return true;
            }
        }
        false
    }

    /// Whether one of the call's numbers isn't live.
    pub fn names_dead(&self, call: &Call) -> bool
        ensures { result ≡ kinds.names_dead (world_of self.now) call.now }
    {
        let named = match call.handle() {
            None => false,
            Some(number) => self.is_dead(number),
        };
        named || self.gives_dead(args_of(call)) || self.chooses_dead(clauses_of(call))
    }

    fn is_other_kind(&self, call: &Call) -> bool
        ensures { result ≡ kinds.is_other_kind (world_of self.now) call.now }
    {
        match call.handle() {
            None => false,
            Some(number) => match kind_needed(call) {
                None => false,
                Some(kind) => !self.is_of_kind(kind, number),
            },
        }
    }

    fn has_on_top(&self, needed: Top, link: u64) -> bool
        ensures { result ≡ if_some (kinds.top_on (world_of self.now) link) false (is_top needed) }
    {
        match self.top_on(link) {
            None => false,
            Some(top) => is_top(needed, top),
        }
    }

    fn has_top(&self, needed: Top, thing: Thing) -> bool
        ensures { result ≡ kinds.has_top (world_of self.now) (is_top needed) thing }
    {
        match thing {
            Thing::Socket(link) => self.has_on_top(needed, link),
            _ => false,
        }
    }

    fn is_other_top_than(&self, needed: Top, number: u64) -> bool
        ensures { result ≡ if_some (entry_of (world_of self.now) number) false (λ x. not (kinds.has_top (world_of self.now) (is_top needed) x.thing)) }
    {
        match self.entry_of(number) {
            None => false,
            Some(found) => !self.has_top(needed, found.thing),
        }
    }

    fn is_other_top(&self, call: &Call) -> bool
        ensures { result ≡ kinds.is_other_top (world_of self.now) call.now }
    {
        match call.handle() {
            None => false,
            Some(number) => match needed_top(call) {
                None => false,
                Some(needed) => self.is_other_top_than(needed, number),
            },
        }
    }

    fn chooses_other(&self, clauses: &[Clause]) -> bool
        ensures { result ≡ list_any (λ number. not (kinds.is_of_kind (world_of self.now) 2 number)) (map end_of_clause clauses.now) }
    {
        for clause in clauses {
            if !self.is_of_kind(2, end_of_clause(clause)) {
                return true;
            }
        }
        false
    }

    /// Whether a handle is of another kind than the call names.
    pub fn names_other(&self, call: &Call) -> bool
        ensures { result ≡ kinds.names_other (world_of self.now) call.now }
    {
        self.is_other_kind(call) || self.is_other_top(call) || self.chooses_other(clauses_of(call))
    }
}
