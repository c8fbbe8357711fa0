ghost use Rattle.std.specs.Prelude.{◌≡◌, ◌+◌, ◌≤◌, ◌<◌, length, find, vec_capacity, is_some, true, IfSome, option_copied};
ghost use Rattle.std.specs.List.{position_from};
ghost use Rattle.dill_base.specs.Maps.{change, without};
ghost use Rattle.dill_rules.specs.World.{is_coroutine, with_mode};
ghost use Rattle.dill_rules.specs.Owning.{is_closing_of, is_dead_as};
ghost use Rattle.dill_world.specs.Store.{is_plain_mode, ArePlain};
ghost use Rattle.dill_world.specs.Twins.{answer_in};

use crate::row::Row;
use dill_calls::Answer;
use dill_rules::{Closing, Mode};

/// Where a coroutine stands in the list.
pub fn place_of<B>(coroutines: &[Row<B>], who: u64) -> Option<usize>
    ensures place { result ≡ position_from (is_coroutine who) 0 coroutines.now }
    ensures within { IfSome result (λ at. at < length coroutines.now) }
{
    coroutines.iter().position(|c| c.number() == who)
}

/// A coroutine of the list.
pub fn find_coroutine<B>(coroutines: &[Row<B>], who: u64) -> Option<&Row<B>>
    ensures { option_copied result ≡ find (is_coroutine who) coroutines.now }
{
    coroutines.iter().find(|c| c.number() == who)
}

/// A coroutine stands there now.
pub fn put_mode<B: Drop>(coroutines: &mut Vec<Row<B>>, who: u64, mode: Mode, twin: Option<Answer>)
    requires plain { is_plain_mode mode ≡ true }
    requires twin { twin ≡ answer_in mode }
    ensures rows { coroutines.new.items ≡ change (is_coroutine who) (with_mode mode) coroutines.old.items }
    ensures plain { ArePlain coroutines.old.items → ArePlain coroutines.new.items }
{
    if let Some(at) = place_of(coroutines, who) {
        let found = &mut coroutines[at];
        found.put(mode, twin);
    }
}

/// A coroutine is gone from the list.
pub fn drop_coroutine<B: Drop>(coroutines: &mut Vec<Row<B>>, who: u64)
    ensures rows { coroutines.new.items ≡ without (is_coroutine who) coroutines.old.items }
    ensures plain { ArePlain coroutines.old.items → ArePlain coroutines.new.items }
{
    if let Some(at) = place_of(coroutines, who) {
        let _ = coroutines.remove(at);
    }
}

/// Where the closing of a bundle stands in the list.
fn closing_place(closings: &[Closing], bundle: u64) -> Option<usize>
    ensures place { result ≡ position_from (is_closing_of bundle) 0 closings.now }
    ensures within { IfSome result (λ at. at < length closings.now) }
{
    closings.iter().position(|x| x.bundle == bundle)
}

/// The closing of the bundle whose number died with it.
pub fn find_dead_as(closings: &[Closing], number: u64) -> Option<&Closing>
    ensures { option_copied result ≡ find (is_dead_as number) closings.now }
{
    closings.iter().find(|x| x.number == number)
}

/// The closing of a bundle is gone from the list.
pub fn drop_closing(closings: &mut Vec<Closing>, bundle: u64)
    requires { is_some (find (is_closing_of bundle) closings.old.items) ≡ true }
    ensures rows { closings.new.items ≡ without (is_closing_of bundle) closings.old.items }
    ensures capacity { vec_capacity closings.new ≡ vec_capacity closings.old }
    ensures less { length closings.new.items + 1 ≡ length closings.old.items }
{
    if let Some(at) = closing_place(closings, bundle) {
        let _ = closings.remove(at);
    }
}
