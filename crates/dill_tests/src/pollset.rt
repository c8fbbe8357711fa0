ghost use Rattle.std.specs.Prelude.{◌≡◌, [], ◌∷◌, map, IfOk};
ghost use Rattle.dill_pollset.specs.Watching.{fresh};

use dill_base::NoMemory;
use dill_pollset::Pollset;
use std::alloc::Global;
use std::test::Fail;

/// The links 3, 5 and 7, which came in another order.
fn three(alloc: Global) -> Result<Pollset, NoMemory>
    ensures { IfOk result (λ set. set.interests ≡ map fresh (3 ∷ 5 ∷ 7 ∷ [])) }
{
    let mut set = Pollset::new(alloc);
    set.keep()?;
    set.keep()?;
    set.keep()?;
    set.add(7);
    set.add(3);
    set.add(5);
    Ok(set)
}

#[test]
fn the_least_link_that_is_wanted_and_hot_is_due(rt: HostRuntime) -> Result<(), Fail> {
    let mut set = three(rt.alloc())?;
    assert!(rt; set.next_due(true, 0) == None);
    set.want(7, true, true);
    set.want(5, true, false);
    assert!(rt; set.next_due(true, 0) == Some(5));
    assert!(rt; set.next_due(true, 5) == Some(7));
    assert!(rt; set.next_due(true, 7) == None);
    assert!(rt; set.next_due(false, 0) == Some(7));
    Ok(())
}

#[test]
fn a_cold_link_is_not_due_until_it_is_hot_again(rt: HostRuntime) -> Result<(), Fail> {
    let mut set = three(rt.alloc())?;
    set.want(3, true, true);
    set.cool(3, true, false);
    assert!(rt; set.next_due(true, 0) == None);
    assert!(rt; set.next_due(false, 0) == Some(3));
    set.heat(3, true, false);
    assert!(rt; set.next_due(true, 0) == Some(3));
    set.drop_link(3);
    assert!(rt; set.next_due(true, 0) == None);
    Ok(())
}
