ghost use Rattle.std.specs.Prelude.{◌≡◌, find, option_map, option_copied};
ghost use Rattle.dill_handles.specs.Handles as handles;
ghost use Rattle.dill_rules.specs.Giving as giving;
ghost use Rattle.dill_world.specs.Store.{world_of};

use dill_links::{Change, LinkRow};
use dill_rules::Sort;
use dill_world::World;

/// A link whose `connect` this coroutine made, and whose `close` isn't due.
fn is_connecting_for(row: &LinkRow, who: u64) -> bool
    ensures { result ≡ giving.is_connecting_for who row.now }
{
    let connects = match row.sort() {
        Sort::Connecting(other) => other == who,
        _ => false,
    };
    !row.closing() && connects
}

/// The first of such links.
fn find_connecting(rows: &[LinkRow], who: u64) -> Option<&LinkRow>
    ensures { option_copied result ≡ find (giving.is_connecting_for who) rows.now }
{
    rows.iter().find(|x| is_connecting_for(x, who))
}

/// The number of the link that connects for a coroutine.
fn connecting_link<B>(world: &World<B>, who: u64) -> Option<u64>
    ensures { result ≡ option_map (λ x. x.number) (find (giving.is_connecting_for who) world.now.links.all) }
{
    match find_connecting(world.links().rows(), who) {
        None => None,
        Some(row) => Some(row.number()),
    }
}

/// So many kept numbers are given back, as far as there are so many.
pub(crate) fn give_back<B: Drop>(world: &mut World<B>, count: usize)
    ensures { world_of world.new ≡ record (world_of world.old) { handles = handles.unkeep world.old.handles count } }
{
    let kept = world.handles().kept();
    if kept < count {
        world.unkeep(kept);
    } else {
        world.unkeep(count);
    }
}

/// The number that was kept is given back, and so is the link, or the `close` of the link that was made is due.
pub fn forgo<B: Drop>(world: &mut World<B>, who: u64)
    ensures { world_of world.new ≡ giving.forgo (world_of world.old) who }
{
    let connecting = connecting_link(world, who);
    give_back(world, 1);
    match connecting {
        None => world.unkeep_link(),
        Some(link) => world.change_link(link, Change::Closes),
    }
}
