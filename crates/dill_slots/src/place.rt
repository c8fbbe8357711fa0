ghost use Rattle.std.specs.Prelude.{◌≡◌, ◌<◌};
ghost use Rattle.std.specs.List.{position_or_len};
ghost use Rattle.dill_slots.specs.Slots.{is_slot};

use crate::{Slot, Steps};
use std::sync::ledger::Ledger;

/// Where a live slot stands, or how many slots there are.
pub(crate) fn place_of<T, L: Ledger>(live: &[Slot<T>], slot: u32, steps: &mut Steps<L>) -> usize
    ensures place { result ≡ position_or_len (is_slot slot) live.now }
    ensures counted { steps.old < steps.new }
{
    steps.tick();
    for (at, held) in live.iter().enumerate() {
        steps.tick();
        if held.slot == slot {
            return at;
        }
    }
    live.len()
}
