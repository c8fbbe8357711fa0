ghost use Rattle.std.specs.Prelude.{◌≡◌, false, true, map, IfSome, option_copied};
ghost use Rattle.std.specs.List.{list_any};
ghost use Rattle.dill_base.specs.Maps.{if_some};
ghost use Rattle.dill_rules.specs.World as worlds;
ghost use Rattle.dill_rules.specs.Naming.{gifts_of, end_of_clause, taken_by};
ghost use Rattle.dill_rules.specs.Taking as taking;
ghost use Rattle.dill_world.specs.Store.{world_of, is_plain_mode, may_wait};

use crate::naming::{args_of, clauses_of, end_of_clause, is_alone_on, is_on, one_taken};
use crate::row::Row;
use crate::rows::find_coroutine;
use crate::world::World;
use dill_calls::{Arg, Call, Clause, Word};
use dill_handles::Entry;
use dill_rules::{Mode, Thing};

/// The bundle that a thing is.
pub fn bundle_of(thing: Thing) -> Option<u64>
    ensures { result ≡ taking.bundle_of thing }
{
    match thing {
        Thing::Bundle(name) => Some(name),
        _ => None,
    }
}

/// Whether a program has ended that waits for its bundles.
pub fn is_ending(mode: &Mode) -> bool
    ensures { result ≡ worlds.is_ending mode.now }
{
    matches!(mode, Mode::Ending(_))
}

/// The call that is pending.
pub fn pending_call(mode: &Mode) -> Option<&Call>
    ensures { option_copied result ≡ worlds.pending_call mode.now }
{
    match mode {
        Mode::Pending(call) => Some(call),
        _ => None,
    }
}

/// Whether the pending call, if there is one, is on this number.
fn waits_on(mode: &Mode, number: u64) -> bool
    ensures { result ≡ if_some (worlds.pending_call mode.now) false (taking.is_on number) }
{
    match mode {
        Mode::Pending(call) => is_on(number, call),
        _ => false,
    }
}

/// Whether the pending call, if there is one, lets no other call on this number.
fn waits_alone_on(mode: &Mode, number: u64) -> bool
    ensures { result ≡ if_some (worlds.pending_call mode.now) false (taking.is_alone_on number) }
{
    match mode {
        Mode::Pending(call) => is_alone_on(number, call),
        _ => false,
    }
}

fn somebody_waits_on<B>(coroutines: &[Row<B>], number: u64) -> bool
    ensures { result ≡ list_any (λ c. if_some (worlds.pending_call c.mode) false (taking.is_on number)) coroutines.now }
{
    coroutines.iter().any(|c| waits_on(c.mode(), number))
}

fn somebody_waits_alone_on<B>(coroutines: &[Row<B>], number: u64) -> bool
    ensures { result ≡ list_any (λ c. if_some (worlds.pending_call c.mode) false (taking.is_alone_on number)) coroutines.now }
{
    coroutines.iter().any(|c| waits_alone_on(c.mode(), number))
}

impl<B> World<B> {
    /// A coroutine that is there.
    pub fn coroutine_of(&self, who: u64) -> Option<&Row<B>>
        ensures value { option_copied result ≡ worlds.coroutine_of (world_of self.now) who }
        ensures plain { IfSome result (λ c. is_plain_mode c.now.mode ≡ true) }
    {
        find_coroutine(self.coroutines(), who)
    }

    /// What a coroutine is pending in.
    pub fn call_of(&self, who: u64) -> Option<&Call>
        ensures value { option_copied result ≡ worlds.call_of (world_of self.now) who }
        ensures plain { IfSome result (λ call. may_wait call.now ≡ true) }
    {
        match self.coroutine_of(who) {
            None => None,
            Some(found) => pending_call(found.mode()),
        }
    }

    /// Whether a coroutine is inside a bundle that is closing.
    pub fn is_cancelled(&self, who: u64) -> bool
        ensures { result ≡ taking.is_cancelled (world_of self.now) who }
    {
        self.scopes().cancelled(who)
    }

    /// Whether a coroutine is cancelled or ending.
    pub fn is_leaving(&self, who: u64) -> bool
        ensures { result ≡ taking.is_leaving (world_of self.now) who }
    {
        if self.is_cancelled(who) {
            return true;
        }
        match self.coroutine_of(who) {
            None => false,
            Some(found) => is_ending(found.mode()),
        }
    }

    fn is_anothers(&self, who: u64, number: u64) -> bool
        ensures { result ≡ taking.is_anothers (world_of self.now) who number }
    {
        match self.entry_of(number) {
            None => false,
            Some(found) => !(found.owner == who),
        }
    }

    fn gives_anothers(&self, who: u64, args: &[Arg]) -> bool
        ensures { result ≡ list_any (taking.is_anothers (world_of self.now) who) (gifts_of args.now) }
    {
        for arg in args {
            if let Arg::Give(number) = arg {
                if self.is_anothers(who, *number) {
                    return true;
                }
            }
        }
        false
    }

    /// Whether the call takes a handle of another coroutine.
    pub fn takes_anothers(&self, who: u64, call: &Call) -> bool
        ensures { result ≡ taking.takes_anothers (world_of self.now) who call.now }
    {
        match one_taken(call) {
            None => self.gives_anothers(who, args_of(call)),
            Some(number) => self.is_anothers(who, number),
        }
    }

    fn is_held_back(&self, who: u64, entry: &Entry<Thing>) -> bool
        ensures { result ≡ taking.is_held_back (world_of self.now) who entry.now }
    {
        !(entry.owner == who) && self.is_leaving(entry.owner)
    }

    /// The bundle that a live number names.
    pub fn bundle_named(&self, number: u64) -> Option<u64>
        ensures { result ≡ taking.bundle_named (world_of self.now) number }
    {
        match self.entry_of(number) {
            None => None,
            Some(found) => bundle_of(found.thing),
        }
    }

    fn lives_inside(&self, home: u64, name: u64) -> bool
        ensures { result ≡ taking.lives_inside (world_of self.now) home name }
    {
        if home == name {
            return true;
        }
        match self.scopes().owner_of(home) {
            None => false,
            Some(owner) => self.scopes().inside(owner, name),
        }
    }

    fn bears_inside(&self, call: &Call, name: u64) -> bool
        ensures { result ≡ taking.bears_inside (world_of self.now) call.now name }
    {
        match call {
            Call::BundleGo(number, _, _) => match self.bundle_named(*number) {
                None => false,
                Some(home) => self.lives_inside(home, name),
            },
            _ => false,
        }
    }

    fn is_within(&self, who: u64, call: &Call, thing: Thing) -> bool
        ensures { result ≡ taking.is_within (world_of self.now) who call.now thing }
    {
        match bundle_of(thing) {
            None => false,
            Some(name) => self.scopes().inside(who, name) || self.bears_inside(call, name),
        }
    }

    fn is_awaited(&self, call: &Call, number: u64) -> bool
        ensures { result ≡ taking.is_awaited (world_of self.now) call.now number }
    {
        !matches!(call.word(), Word::Hclose) && somebody_waits_on(self.coroutines(), number)
    }

    fn is_cancelled_taker(&self, who: u64, call: &Call, entry: &Entry<Thing>) -> bool
        ensures { result ≡ taking.is_cancelled_taker (world_of self.now) who call.now entry.now }
    {
        call.word().gives_up() && self.is_cancelled(who) && !(entry.owner == who)
    }

    fn cannot_take(&self, who: u64, call: &Call, number: u64) -> bool
        ensures { result ≡ taking.cannot_take (world_of self.now) who call.now number }
    {
        match self.entry_of(number) {
            None => false,
            Some(found) => {
                self.is_within(who, call, found.thing)
                    || self.is_held_back(who, found)
                    || self.is_awaited(call, number)
                    || self.is_cancelled_taker(who, call, found)
            }
        }
    }

    fn cannot_give(&self, who: u64, call: &Call, args: &[Arg]) -> bool
        ensures { result ≡ list_any (taking.cannot_take (world_of self.now) who call.now) (gifts_of args.now) }
    {
        for arg in args {
            if let Arg::Give(number) = arg {
                if self.cannot_take(who, call, *number) {
                    return true;
                }
            }
        }
        false
    }

    /// Whether the caller may not become the owner of a number that the call takes.
    pub fn takes_wrongly(&self, who: u64, call: &Call) -> bool
        ensures { result ≡ list_any (taking.cannot_take (world_of self.now) who call.now) (taken_by call.now) }
    {
        match one_taken(call) {
            None => self.cannot_give(who, call, args_of(call)),
            Some(number) => self.cannot_take(who, call, number),
        }
    }

    fn gives_occupied(&self, args: &[Arg]) -> bool
        ensures { result ≡ list_any (λ number. taking.is_pending (world_of self.now) (taking.is_alone_on number)) (gifts_of args.now) }
    {
        for arg in args {
            if let Arg::Give(number) = arg {
                if somebody_waits_alone_on(self.coroutines(), *number) {
                    return true;
                }
            }
        }
        false
    }

    fn chooses_occupied(&self, clauses: &[Clause]) -> bool
        ensures { result ≡ list_any (λ number. taking.is_pending (world_of self.now) (taking.is_alone_on number)) (map end_of_clause clauses.now) }
    {
        for clause in clauses {
            if somebody_waits_alone_on(self.coroutines(), end_of_clause(clause)) {
                return true;
            }
        }
        false
    }

    /// Whether a number of the call has a call pending on it that lets no other.
    pub fn is_occupied(&self, call: &Call) -> bool
        ensures { result ≡ taking.is_occupied (world_of self.now) call.now }
    {
        let named = match call.handle() {
            None => false,
            Some(number) => somebody_waits_alone_on(self.coroutines(), number),
        };
        named || self.gives_occupied(args_of(call)) || self.chooses_occupied(clauses_of(call))
    }
}
