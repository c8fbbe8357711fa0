ghost use Rattle.std.specs.Prelude.{◌≡◌, ◌&&◌, find, length, nat_lt, option_copied, option_map, true};
ghost use Rattle.dill_base.specs.Maps.{first_some};
ghost use Rattle.dill_rules.specs.Trying as trying;
ghost use Rattle.dill_rules.specs.Waiting as waiting;
ghost use Rattle.dill_world.specs.Store.{world_of, place_of};
ghost use Rattle.dill_tries.specs.Dues.{is_due, is_sought, is_sought_try, sought_in, first_of, number_of, of_links, try_of, tries_of, tries_on, tries_made};

use crate::due::{Due, due_in, due_on, is_due};
use crate::kind::Kind;
use dill_links::LinkRow;
use dill_world::{Place, Row, World};

/// All kinds, in the order of a round.
const KINDS: [Kind; 8] = [
    Kind::Close,
    Kind::Listen,
    Kind::Connect,
    Kind::Finish,
    Kind::Accept,
    Kind::Write,
    Kind::Shut,
    Kind::Read,
];

/// Where a round stands, and whether the marks of those that had a write in it count.
#[derive(Clone, Copy)]
struct Round {
    place: Place,
    marks: bool,
}

/// A link had its write in this round.
fn had_write<B>(world: &World<B>, number: u64) -> bool
    ensures { result ≡ trying.had_write (world_of world.now) number }
{
    match world.links().find(number) {
        None => false,
        Some(x) => x.wrote(),
    }
}

/// A try of this kind and number is looked for.
fn is_sought<B>(world: &World<B>, round: Round, kind: Kind, number: u64) -> bool
    ensures { result ≡ is_sought (world_of world.now) (place_of round.place) round.marks (number_of kind) number }
{
    let place = round.place;
    let own = kind.number();
    let behind = place.kind < own || (place.kind == own && place.number < number);
    behind && !(own == 7 && round.marks && had_write(world, number))
}

/// The first link of which an ask of this kind is due and looked for.
fn first_link<B>(world: &World<B>, round: Round, kind: Kind) -> Option<&LinkRow>
    ensures { option_copied result ≡ find (λ x. is_due (world_of world.now) kind x && is_sought (world_of world.now) (place_of round.place) round.marks (number_of kind) x.number) world.now.links.all }
{
    world.links().rows().iter().find(|x| is_due(world, kind, x)
        && is_sought(world, round, kind, x.number()))
}

/// The first ask of this kind on a link.
fn first_on<B>(world: &World<B>, round: Round, kind: Kind) -> Option<Due<'_>>
    requires { of_links kind ≡ true }
    ensures { option_map (try_of (trying.next_link (world_of world.now))) result ≡ find (is_sought_try (world_of world.now) (place_of round.place) round.marks) (tries_on (world_of world.now) kind) }
{
    match first_link(world, round, kind) {
        None => None,
        Some(x) => Some(due_on(kind, x)),
    }
}

/// The ask of this kind that a coroutine waits for, where it is looked for.
fn sought_in<'a, B>(world: &World<B>, round: Round, kind: Kind, c: &Row<B>) -> Option<Due<'a>>
    ensures { result ≡ sought_in (world_of world.now) (place_of round.place) round.marks kind c.now }
{
    match due_in(world, kind, c) {
        None => None,
        Some(due) => {
            if is_sought(world, round, kind, c.number()) {
                Some(due)
            } else {
                None
            }
        }
    }
}

/// The first ask of this kind that one of these coroutines waits for.
fn first_in<'a, B>(
    world: &World<B>,
    round: Round,
    kind: Kind,
    coroutines: &[Row<B>],
) -> Option<Due<'a>>
    ensures { result ≡ first_some (sought_in (world_of world.now) (place_of round.place) round.marks kind) coroutines.now }
{
    for c in coroutines {
        if let Some(due) = sought_in(world, round, kind, c) {
            return Some(due);
        }
    }
    None
}

/// The first ask of this kind that a coroutine waits for.
fn first_made<'a, B>(world: &World<B>, round: Round, kind: Kind) -> Option<Due<'a>>
    ensures { option_map (try_of (trying.next_link (world_of world.now))) result ≡ find (is_sought_try (world_of world.now) (place_of round.place) round.marks) (tries_made (world_of world.now) kind) }
{
    first_in(world, round, kind, world.coroutines())
}

/// The first ask of this kind.
fn first_of_kind<B>(world: &World<B>, round: Round, kind: Kind) -> Option<Due<'_>>
    ensures { option_map (try_of (trying.next_link (world_of world.now))) result ≡ find (is_sought_try (world_of world.now) (place_of round.place) round.marks) (tries_of (world_of world.now) kind) }
{
    match kind {
        Kind::Listen => first_made(world, round, kind),
        Kind::Connect => first_made(world, round, kind),
        _ => first_on(world, round, kind),
    }
}

/// The first ask of these kinds.
fn first_of<'a, B>(world: &'a World<B>, round: Round, kinds: &[Kind]) -> Option<Due<'a>>
    ensures { option_map (try_of (trying.next_link (world_of world.now))) result ≡ first_of (world_of world.now) (place_of round.place) round.marks kinds.now }
{
    for kind in kinds {
        if let Some(due) = first_of_kind(world, round, *kind) {
            return Some(due);
        }
    }
    None
}

/// What is asked next of the kernel: of all that is due, kind by kind, the first behind the place in the round, and no `shut` of
/// a link that had its write in it. Closes alone are asked once `main` has ended, and nothing as long as the root is closing.
pub fn next_try<B>(world: &World<B>) -> Option<Due<'_>>
    ensures { option_map (try_of (trying.next_link (world_of world.now))) result ≡ trying.next_try (world_of world.now) }
{
    let round = Round {
        place: world.place(),
        marks: true,
    };
    if world.ended().is_some() {
        return first_of_kind(world, round, Kind::Close);
    }
    if is_stopped(world) {
        return None;
    }
    first_of(world, round, &KINDS)
}

/// The root bundle is closing.
fn is_stopped<B>(world: &World<B>) -> bool
    ensures { result ≡ trying.is_stopped (world_of world.now) }
{
    world.scopes().is_closing(0)
}

/// A round that has not begun: every kind is behind its place.
const WHOLE: Round = Round {
    place: Place { kind: 0, number: 0 },
    marks: false,
};

/// Something may be asked of the kernel, wherever the round stands.
pub fn has_tries<B>(world: &World<B>) -> bool
    ensures { result ≡ nat_lt 0 (length (trying.tries (world_of world.now))) }
{
    first_of(world, WHOLE, &KINDS).is_some()
}

/// The close of a link is due.
pub fn has_close<B>(world: &World<B>) -> bool
    ensures { result ≡ waiting.has_close (world_of world.now) }
{
    first_of_kind(world, WHOLE, Kind::Close).is_some()
}
