use crate::bodies::Brief;
use crate::values::memory;
use dill_base::{Deadline, Errno, Octets};
use dill_calls::{Answer, Arg, Args, Call, Next, Note, Word};
use dill_rules::{Mode, Thing};
use dill_world::World;
use std::alloc::Global;
use std::process::Abort;
use std::test::Fail;

/// `main` owns bundle 1 by number 1, in which coroutine 2 lives, and the value 7 of kind 300 by number 2.
fn two(rt: &impl Abort, alloc: Global) -> Result<World<Brief>, Fail> {
    let mut world = memory(World::new(alloc, Brief { name: 1 }))?;
    assert!(rt; world.handles().has_room(1));
    memory(world.keep_for(&Call::Bundle))?;
    assert!(rt; 1 <= world.handles().kept() && world.last_coroutine() < 9);
    memory(world.bear_apart(1, Brief { name: 2 }))?;
    assert!(rt; world.handles().has_room(1));
    memory(world.keep_for(&Call::Hmake(300, 7)))?;
    assert!(rt; 1 <= world.handles().kept());
    assert_eq!(rt; world.make(Thing::Value(300, 7), 1), 2);
    Ok(world)
}

#[test]
fn handles_of_a_world_are_made_moved_and_released(rt: HostRuntime) -> Result<(), Fail> {
    let mut world = two(&rt, rt.alloc())?;
    assert_eq!(rt; world.bundle_named(1), Some(1));
    assert_eq!(rt; world.bundle_named(2), None);
    assert_eq!(rt; world.kind_of(Thing::Value(300, 7)), 300);
    assert!(rt; world.handles().has_room(1));
    memory(world.keep_for(&Call::Hown(2)))?;
    assert!(rt; 1 <= world.handles().kept());
    world.renumber(2, 2);
    assert!(rt; world.entry_of(2).is_none());
    world.release(3);
    let notes = [Note::Moved(2, 3), Note::Freed(3)];
    for (note, wanted) in world.notes().iter().zip(notes.iter()) {
        assert!(rt; *note == *wanted);
    }
    assert_eq!(rt; world.notes().len(), 2);
    world.begin();
    assert_eq!(rt; world.notes().len(), 0);
    Ok(())
}

#[test]
fn a_bundle_closes_once_nobody_lives_in_it(rt: HostRuntime) -> Result<(), Fail> {
    let mut world = two(&rt, rt.alloc())?;
    assert!(rt; !world.is_cancelled(2) && !world.is_leaving(1));
    if world.entry_of(1).is_some() {
        world.close_bundle(1, 1, 1);
    }
    world.pend(1, Call::Hclose(1));
    assert!(rt; world.is_cancelled(2));
    assert!(rt; world.answer_of(1, &Call::Hclose(1)).is_none());
    assert!(rt;
        matches!(
            world.answer_of(2, &Call::Msleep(Deadline::Never)),
            Some(Answer::Fault(Errno::Ecanceled))
        )
    );
    world.leave(2, None);
    assert!(rt;
        matches!(
            world.answer_of(1, &Call::Hclose(1)),
            Some(Answer::Number(0))
        )
    );
    assert_eq!(rt; world.closings().len(), 1);
    world.reply(1, Word::Hclose, Answer::Number(0));
    assert_eq!(rt; world.coroutines().len(), 1);
    Ok(())
}

#[test]
fn calls_are_refused_in_the_order_of_their_errnos(rt: HostRuntime) -> Result<(), Fail> {
    let alloc = rt.alloc();
    let world = two(&rt, alloc)?;
    let body = Brief { name: 1 };
    let mut twice = Args::new(alloc);
    memory(twice.push(Arg::Give(2)))?;
    memory(twice.push(Arg::Give(2)))?;
    let rows = [
        (Call::Now, 1, None),
        (Call::Hquery(9, 300), 1, Some(Errno::Ebadf)),
        (Call::Hquery(1, 300), 1, Some(Errno::Enotsup)),
        (Call::Hmake(255, 1), 1, Some(Errno::Einval)),
        (Call::Go(0, twice), 1, Some(Errno::Einval)),
        (Call::BundleGo(1, 0, Args::new(alloc)), 1, None),
        (Call::BundleWait(1, Deadline::Never), 2, Some(Errno::Ebusy)),
        (Call::Hown(1), 2, Some(Errno::Ebusy)),
        (
            Call::Msend(2, Octets::new(alloc), Deadline::Never),
            1,
            Some(Errno::Enotsup),
        ),
    ];
    for row in rows.iter() {
        assert!(rt; world.refuse(row.1, &body, &row.0) == row.2);
    }
    Ok(())
}

#[test]
fn a_coroutine_runs_on_from_its_answer(rt: HostRuntime) -> Result<(), Fail> {
    let mut world = memory(World::new(rt.alloc(), Brief { name: 1 }))?;
    let Some((word, given, _told)) = world.take_answer(1) else {
        return Err(Fail::from("nobody"));
    };
    assert!(rt; word == Word::Start);
    assert!(rt; matches!(world.resume(1, given), Some(Next::End(None))));
    world.set_mode(1, Mode::Ending(None));
    assert!(rt; world.is_leaving(1));
    world.leave(1, None);
    assert!(rt; world.ended().is_some());
    Ok(())
}

#[test]
fn the_coroutine_beyond_65536_is_refused_and_none_before_it(rt: HostRuntime) -> Result<(), Fail> {
    let alloc = rt.alloc();
    let mut world = two(&rt, alloc)?;
    let body = Brief { name: 1 };
    let one_more = Call::BundleGo(1, 0, Args::new(alloc));
    for count in 2..65_536u32 {
        if count < 128 || count == 65_535 {
            assert!(rt; world.refuse(1, &body, &one_more).is_none());
        }
        assert!(rt; world.last_coroutine() < 65_536);
        memory(world.bear(Brief { name: 3 }, 1))?;
    }
    assert_eq!(rt; world.coroutines().len(), 65_536);
    assert_eq!(rt; world.refuse(1, &body, &one_more), Some(Errno::Emfile));
    Ok(())
}
