use crate::bodies::Brief;
use dill_base::{Deadline, Errno};
use dill_calls::{Answer, Args, Call, Word};
use dill_rules::Mode;
use dill_steps::{enter, expire_one, first_passed, least_due, settle, turn, waiting_from};
use dill_world::World;
use std::alloc::Global;
use std::process::Abort;
use std::test::Fail;

/// `main` owns bundle 1 by number 1, in which coroutine 2 lives.
fn two(rt: &impl Abort, alloc: Global) -> Result<World<Brief>, Fail> {
    let mut world = World::new(alloc, Brief { name: 1 })?;
    let call = Call::Go(0, Args::new(alloc));
    assert!(rt; !enter(alloc, &mut world, 1, &call, true));
    assert!(rt; is_answered(&world, 1, Word::Go, None));
    assert_eq!(rt; world.coroutines().len(), 2);
    Ok(world)
}

/// Whether a coroutine has the answer of this call: this errno, or a number.
fn is_answered(world: &World<Brief>, who: u64, word: Word, fault: Option<Errno>) -> bool {
    match world.coroutine_of(who) {
        None => false,
        Some(one) => match one.mode() {
            Mode::Fresh(of, Answer::Number(_)) => *of == word && fault.is_none(),
            Mode::Fresh(of, Answer::Fault(errno)) => *of == word && fault == Some(*errno),
            _ => false,
        },
    }
}

#[test]
fn a_bundle_is_closed_once_its_cancelled_sleeper_has_ended(rt: HostRuntime) -> Result<(), Fail> {
    let mut world = two(&rt, rt.alloc())?;
    assert!(rt;
        !enter(
            rt.alloc(),
            &mut world,
            2,
            &Call::Msleep(Deadline::Never),
            true
        )
    );
    assert!(rt; !enter(rt.alloc(), &mut world, 1, &Call::Hclose(1), true));
    settle(&mut world);
    assert!(rt; is_answered(&world, 2, Word::Msleep, Some(Errno::Ecanceled)));
    assert!(rt; !is_answered(&world, 1, Word::Hclose, None));
    world.end(2, None);
    settle(&mut world);
    assert!(rt; is_answered(&world, 1, Word::Hclose, None));
    assert_eq!(rt; world.coroutines().len(), 1);
    assert_eq!(rt; world.closings().len(), 0);
    Ok(())
}

#[test]
fn main_ends_once_its_bundles_are_empty(rt: HostRuntime) -> Result<(), Fail> {
    let mut world = two(&rt, rt.alloc())?;
    world.end(1, None);
    settle(&mut world);
    assert!(rt; world.ended().is_none());
    world.end(2, None);
    settle(&mut world);
    assert!(rt; world.ended().is_some());
    assert_eq!(rt; world.coroutines().len(), 0);
    Ok(())
}

#[test]
fn equal_deadlines_pass_in_the_order_of_coroutines(rt: HostRuntime) -> Result<(), Fail> {
    let mut world = two(&rt, rt.alloc())?;
    assert!(rt;
        !enter(
            rt.alloc(),
            &mut world,
            2,
            &Call::Msleep(Deadline::At(5)),
            true
        )
    );
    assert!(rt;
        !enter(
            rt.alloc(),
            &mut world,
            1,
            &Call::BundleWait(1, Deadline::At(5)),
            true
        )
    );
    assert_eq!(rt; least_due(&world), Some(5));
    assert_eq!(rt; first_passed(&world), None);
    assert!(rt; waiting_from(&world, 0, 0) == Some((1, Word::BundleWait)));
    assert!(rt; waiting_from(&world, 0, 1) == Some((2, Word::Msleep)));
    world.set_moment(5);
    assert_eq!(rt; first_passed(&world), Some(1));
    expire_one(&mut world, 1);
    assert!(rt; is_answered(&world, 1, Word::BundleWait, Some(Errno::Etimedout)));
    assert_eq!(rt; first_passed(&world), Some(2));
    expire_one(&mut world, 2);
    assert!(rt; is_answered(&world, 2, Word::Msleep, None));
    assert_eq!(rt; first_passed(&world), None);
    Ok(())
}

#[test]
fn no_child_is_made_without_room_to_spare(rt: HostRuntime) -> Result<(), Fail> {
    let mut world = two(&rt, rt.alloc())?;
    let call = Call::Go(0, Args::new(rt.alloc()));
    assert!(rt; enter(rt.alloc(), &mut world, 1, &call, false));
    assert!(rt; is_answered(&world, 1, Word::Go, Some(Errno::Enomem)));
    assert_eq!(rt; world.coroutines().len(), 2);
    Ok(())
}

#[test]
fn main_that_ends_at_its_start_is_gone_after_its_turn(rt: HostRuntime) -> Result<(), Fail> {
    let Ok(mut world) = World::new(rt.alloc(), Brief { name: 1 }) else {
        return Err(Fail::from("memory"));
    };
    let ran = turn(rt.alloc(), &mut world, 1, true);
    assert!(rt; ran.word == Word::Start && ran.lack.is_none());
    assert!(rt; matches!(ran.end, Some(None)));
    assert!(rt; matches!(world.ended(), Some(None)));
    assert_eq!(rt; world.coroutines().len(), 0);
    Ok(())
}
