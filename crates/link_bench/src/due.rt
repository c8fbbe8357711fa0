ghost use Rattle.std.specs.Prelude.{◌≡◌, ◌+◌, ◌≤◌, true};
ghost use Rattle.dill_pollset.specs.Watching.{has_link};
ghost use Rattle.link_bench.specs.Below.{all_below};

use dill_base::NoMemory;
use dill_pollset::Pollset;
use std::alloc::Global;

/// A link above all that are there.
fn add_next(set: &mut Pollset, link: u64)
    requires kept { 1 ≤ set.old.kept }
    requires below { all_below link set.old.interests ≡ true }
    ensures below { all_below (link + 1) set.new.interests ≡ true }
    ensures there { has_link set.new link ≡ true }
{
    set.add(link);
}

/// The links from 1 to the last, which is wanted.
fn watched(alloc: Global, last: u64) -> Result<Pollset, NoMemory>
    requires { 1 ≤ last }
{
    let mut set = Pollset::new(alloc);
    for link in 1..last {
        set.keep()?;
        add_next(&mut set, link);
    }
    set.keep()?;
    add_next(&mut set, last);
    set.want(last, true, false);
    Ok(set)
}

/// How often the last of so many links was found to be the one that is due.
pub fn times_due(alloc: Global, last: u64, rounds: u64) -> Result<u64, NoMemory> {
    let set = watched(alloc, last.max(1))?;
    let mut times = 0u64;
    for _round in 0..rounds {
        if set.next_due(true, 0) == Some(last) {
            times = times.saturating_add(1);
        }
    }
    Ok(times)
}
