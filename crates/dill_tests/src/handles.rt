use dill_handles::{HandleFault, Handles};
use std::alloc::Global;
use std::process::Abort;
use std::test::Fail;

/// Numbers 1, 2 and 3 name 10, 20 and 30; 2 is owned by 8, the others by 7. One more is kept.
fn three(alloc: Global) -> Result<Handles<u32>, Fail> {
    let mut handles = Handles::new(alloc);
    if handles.keep_all(3).is_err() {
        return Err(Fail::from("memory"));
    }
    let _ = handles.make(10u32, 7);
    let _ = handles.make(20, 8);
    let _ = handles.make(30, 7);
    if handles.keep().is_err() {
        return Err(Fail::from("memory"));
    }
    Ok(handles)
}

fn names(rt: &impl Abort, handles: &Handles<u32>, number: u64, thing: u32, owner: u64) {
    match handles.look(number) {
        None => assert!(rt; false, "a live number"),
        Some((found, by)) => {
            assert_eq!(rt; *found, thing);
            assert_eq!(rt; by, owner);
        }
    }
}

#[test]
fn handles_are_made_and_looked_up(rt: HostRuntime) -> Result<(), Fail> {
    let handles = three(rt.alloc())?;
    assert_eq!(rt; (handles.len(), handles.kept(), handles.last()), (3, 1, 3));
    names(&rt, &handles, 2, 20, 8);
    assert!(rt; handles.look(4).is_none());
    for (owner, below, highest) in [(7, 4, Some(3)), (7, 3, Some(1)), (8, 2, None)] {
        assert_eq!(rt; handles.owned_by(owner, below), highest);
    }
    Ok(())
}

#[test]
fn a_moved_handle_has_another_number(rt: HostRuntime) -> Result<(), Fail> {
    let mut handles = three(rt.alloc())?;
    assert_eq!(rt; handles.kept(), 1);
    assert_eq!(rt; handles.renumber(1, 9), 4);
    assert!(rt; handles.entry(1).is_none());
    names(&rt, &handles, 4, 10, 9);
    handles.set_owner(3, 9);
    names(&rt, &handles, 3, 30, 9);
    assert!(rt; handles.retire(2) == Some(20));
    assert!(rt; handles.retire(2) == None);
    let mut left = 0u64;
    for entry in handles.as_slice() {
        left = entry.number.saturating_add(left);
    }
    assert!(rt; left == 7);
    Ok(())
}

#[test]
fn no_more_than_65536_are_kept(rt: HostRuntime) -> Result<(), Fail> {
    let mut handles: Handles<u32> = Handles::new(rt.alloc());
    assert!(rt; handles.keep_all(65_536) == Ok(()));
    assert!(rt; !handles.has_room(1));
    assert!(rt; handles.keep() == Err(HandleFault::Full));
    handles.unkeep();
    assert!(rt; handles.keep() == Ok(()));
    Ok(())
}
