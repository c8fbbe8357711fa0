use dill_scope::{Scopes, search_is_cancelled, search_is_inside};
use std::alloc::Global;
use std::process::Abort;
use std::test::Fail;

/// Coroutine 1 owns the bundles 1 and 2. In 1 live the coroutines 2 and 3, and in 2 lives 4. Coroutine 2 owns
/// bundle 3, in which 5 lives.
fn family(alloc: Global) -> Result<Scopes, Fail> {
    let mut scopes = Scopes::new(alloc)?;
    let made = scopes.open(1, 1, 2).is_ok()
        && scopes.enter(1, 3).is_ok()
        && scopes.bundle(2, 1).is_ok()
        && scopes.enter(2, 4).is_ok()
        && scopes.open(3, 2, 5).is_ok();
    if made {
        Ok(scopes)
    } else {
        Err(Fail::from("memory"))
    }
}

/// Who is inside a bundle, in rising order, told one by one.
fn shows(rt: &impl Abort, scopes: &Scopes, bundle: u64, inside: &[u64]) {
    let mut after = 0;
    for who in inside {
        assert!(rt; scopes.inside(*who, bundle));
        assert_eq!(rt; scopes.in_tree(bundle, after), Some(*who));
        after = *who;
    }
    assert_eq!(rt; scopes.in_tree(bundle, after), None);
}

/// A coroutine leaves the bundle that it lived in.
fn leaves(rt: &impl Abort, scopes: &mut Scopes, who: u64, bundle: u64) {
    match scopes.home_of(who) {
        Some(home) => assert!(rt; home == bundle && scopes.ended(who) == bundle),
        None => assert!(rt; false, "it lives nowhere"),
    }
}

#[test]
fn a_bundle_holds_who_lives_in_it_and_what_they_own(rt: HostRuntime) -> Result<(), Fail> {
    let mut scopes = family(rt.alloc())?;
    shows(&rt, &scopes, 0, &[1, 2, 3, 4, 5]);
    shows(&rt, &scopes, 1, &[2, 3, 5]);
    shows(&rt, &scopes, 2, &[4]);
    shows(&rt, &scopes, 3, &[5]);
    scopes.take(3, 4);
    shows(&rt, &scopes, 1, &[2, 3]);
    shows(&rt, &scopes, 2, &[4, 5]);
    assert_eq!(rt; scopes.owner_of(3), Some(4));
    assert_eq!(rt; scopes.owner_of(0), None);
    assert_eq!(rt; scopes.home_of(5), Some(3));
    assert_eq!(rt; scopes.home_of(6), None);
    assert_eq!(rt; scopes.homes().len(), 5);
    assert_eq!(rt; scopes.bundles().len(), 4);
    Ok(())
}

#[test]
fn a_closing_bundle_cancels_who_is_inside_and_is_dropped_when_empty(
    rt: HostRuntime,
) -> Result<(), Fail> {
    let mut scopes = family(rt.alloc())?;
    scopes.close(1);
    assert!(rt; scopes.is_closing(1) && !scopes.is_closing(2));
    for (who, cancelled) in [(1, false), (2, true), (3, true), (4, false), (5, true)] {
        assert_eq!(rt; scopes.cancelled(who), cancelled);
    }
    assert!(rt; !scopes.is_clear(2));
    leaves(&rt, &mut scopes, 5, 3);
    assert!(rt; scopes.is_clear(2) && scopes.is_empty(3) && !scopes.is_empty(1));
    scopes.drop_bundle(3);
    assert!(rt; scopes.look(3).is_none());
    leaves(&rt, &mut scopes, 2, 1);
    leaves(&rt, &mut scopes, 3, 1);
    assert!(rt; scopes.is_empty(1) && !scopes.is_clear(1));
    Ok(())
}
