ghost use Rattle.std.specs.Prelude.{◌≡◌, true, None, Some, IfSome, is_some, option_copied, if◌then◌else◌};
ghost use Rattle.dill_base.specs.Maps.{if_some};
ghost use Rattle.dill_rules.specs.Links as links;
ghost use Rattle.dill_rules.specs.Sockets as sockets;
ghost use Rattle.dill_world.specs.Store.{world_of};
ghost use Rattle.dill_giving.specs.Finding.{link_here, link_at};

use dill_links::LinkRow;
use dill_world::World;

/// The link that a live number names.
fn link_named<B>(world: &World<B>, number: u64) -> Option<&LinkRow>
    ensures { option_copied result ≡ sockets.link_named (world_of world.now) number }
{
    match world.link_number(number) {
        None => None,
        Some(link) => world.links().find(link),
    }
}

/// The link that a handle names, if there is a handle.
pub(crate) fn link_on<B>(world: &World<B>, handle: Option<u64>) -> Option<&LinkRow>
    ensures { option_copied result ≡ if_some handle None (sockets.link_named (world_of world.now)) }
{
    match handle {
        None => None,
        Some(number) => link_named(world, number),
    }
}

/// A link, if it is there.
fn if_there<B>(world: &World<B>, link: u64) -> Option<u64>
    ensures value { result ≡ if is_some (links.look world.now.links link) then Some link else None }
    ensures there { IfSome result (λ at. is_some (links.look world.now.links at) ≡ true) }
{
    if world.links().has(link) {
        Some(link)
    } else {
        None
    }
}

/// The number of the link that a live number names, where the link is there.
fn link_here<B>(world: &World<B>, number: u64) -> Option<u64>
    ensures value { result ≡ link_here (world_of world.now) number }
    ensures there { IfSome result (λ at. is_some (links.look world.now.links at) ≡ true) }
{
    match world.link_number(number) {
        None => None,
        Some(link) => if_there(world, link),
    }
}

/// The same of a handle, if there is one.
pub(crate) fn link_at<B>(world: &World<B>, handle: Option<u64>) -> Option<u64>
    ensures value { result ≡ link_at (world_of world.now) handle }
    ensures there { IfSome result (λ at. is_some (links.look world.now.links at) ≡ true) }
{
    match handle {
        None => None,
        Some(number) => link_here(world, number),
    }
}
