ghost use Rattle.std.specs.Prelude.{◌≡◌, filter, find, option_map, vec_capacity};
ghost use Rattle.dill_slots.specs.Slots.{waits_on, is_others_wait, place_of_wait};

use crate::Waiting;

/// The slot and the clause that have waited longest on a queue, if any waits there.
pub(crate) fn first_on(waits: &[Waiting], queue: u64) -> Option<(u32, u8)>
    ensures { result ≡ option_map place_of_wait (find (waits_on queue) waits.now) }
{
    match waits.iter().find(|x| x.queue == queue) {
        Some(found) => Some((found.slot, found.clause)),
        None => None,
    }
}

/// Takes all that a slot waits for out.
pub(crate) fn keep_others(waits: &mut Vec<Waiting>, slot: u32)
    ensures items { waits.new.items ≡ filter (is_others_wait slot) waits.old.items }
    ensures capacity { vec_capacity waits.new ≡ vec_capacity waits.old }
{
    waits.retain(|x| x.slot != slot);
}
