use crate::bodies::Brief;
use crate::values::octets;
use dill_base::{Deadline, Errno};
use dill_calls::{Answer, Args, Call, Clause, Clauses};
use dill_rules::Mode;
use dill_steps::{enter, settle};
use dill_world::World;
use std::alloc::Global;
use std::process::Abort;
use std::test::Fail;

/// What a coroutine is told of its call: nothing yet, that it is well, an errno, or how many bytes and which is the first.
#[derive(Clone, Copy, PartialEq, Eq)]
enum Told {
    Nobody,
    Waits,
    Well,
    Fault(Errno),
    Bytes(usize, u8),
}

/// A call of a coroutine, what it is told of it, and what another is told then.
#[derive(Drop)]
struct Entry {
    who: u64,
    call: Call,
    told: Told,
    other: u64,
    others: Told,
}

fn row(who: u64, call: Call, told: Told, other: u64, others: Told) -> Entry {
    Entry {
        who,
        call,
        told,
        other,
        others,
    }
}

/// `main` owns bundle 1, in which coroutine 2 lives, and the ends 2 and 3 of one channel and 4 and 5 of another.
fn two(rt: &impl Abort, alloc: Global) -> Result<World<Brief>, Fail> {
    let mut world = World::new(alloc, Brief { name: 1 })?;
    let child = Call::Go(0, Args::new(alloc));
    assert!(rt; !enter(alloc, &mut world, 1, &child, true));
    assert!(rt; !enter(alloc, &mut world, 1, &Call::Chmake, true));
    assert!(rt; !enter(alloc, &mut world, 1, &Call::Chmake, true));
    Ok(world)
}

fn bytes_told(bytes: &[u8]) -> Told {
    match bytes.first() {
        None => Told::Bytes(0, 0),
        Some(first) => Told::Bytes(bytes.len(), *first),
    }
}

/// What an answer tells. Of a choice it is the bytes of the clause 1, or the errno of the clause 0.
fn told_of(answer: &Answer) -> Told {
    match answer {
        Answer::Bytes(bytes) => bytes_told(bytes.as_slice()),
        Answer::Fault(errno) => Told::Fault(*errno),
        Answer::Chosen {
            index: 1,
            fault: None,
            bytes: Some(bytes),
        } => bytes_told(bytes.as_slice()),
        Answer::Chosen {
            index: 0,
            fault: Some(errno),
            bytes: None,
        } => Told::Fault(*errno),
        _ => Told::Well,
    }
}

/// What a coroutine is told of its call.
fn told_to(world: &World<Brief>, who: u64) -> Told {
    match world.coroutine_of(who) {
        None => Told::Nobody,
        Some(one) => match one.mode() {
            Mode::Pending(_) => Told::Waits,
            Mode::Fresh(_, answer) => told_of(answer),
            _ => Told::Nobody,
        },
    }
}

/// The calls are entered one after the other, and each time all settles.
fn enter_each(rt: &impl Abort, alloc: Global, world: &mut World<Brief>, rows: &[Entry]) {
    for row in rows {
        assert!(rt; row.call.word().is_built());
        assert!(rt; !enter(alloc, world, row.who, &row.call, true));
        settle(world);
        assert!(rt; told_to(world, row.who) == row.told);
        assert!(rt; told_to(world, row.other) == row.others);
    }
}

fn send(alloc: Global, number: u64, bytes: &[u8]) -> Result<Call, Fail> {
    Ok(Call::Chsend(number, octets(alloc, bytes)?, Deadline::Never))
}

fn recv(number: u64, size: u64) -> Call {
    Call::Chrecv(number, size, Deadline::Never)
}

/// A choice of a clause on each of two ends.
fn choice(alloc: Global, first: Clause, second: Clause) -> Result<Call, Fail> {
    let mut clauses = Clauses::new(alloc);
    clauses.push(first)?;
    clauses.push(second)?;
    Ok(Call::Choose(Deadline::Never, clauses))
}

#[test]
fn who_sends_meets_who_receives_by_equal_sizes(rt: HostRuntime) -> Result<(), Fail> {
    let alloc = rt.alloc();
    let mut world = two(&rt, alloc)?;
    let short = send(alloc, 3, b"ab")?;
    let fit = send(alloc, 3, b"ab")?;
    let back = send(alloc, 2, b"x")?;
    let rows = [
        row(2, recv(2, 1), Told::Waits, 2, Told::Waits),
        row(
            1,
            short,
            Told::Fault(Errno::Emsgsize),
            2,
            Told::Fault(Errno::Emsgsize),
        ),
        row(2, recv(2, 2), Told::Waits, 1, Told::Fault(Errno::Emsgsize)),
        row(1, fit, Told::Well, 2, Told::Bytes(2, 97)),
        row(2, back, Told::Waits, 1, Told::Well),
        row(1, recv(3, 1), Told::Bytes(1, 120), 2, Told::Well),
        row(
            1,
            Call::Chrecv(3, 1, Deadline::At(0)),
            Told::Fault(Errno::Etimedout),
            2,
            Told::Well,
        ),
    ];
    enter_each(&rt, alloc, &mut world, &rows);
    Ok(())
}

#[test]
fn a_direction_that_is_done_takes_and_gives_nothing(rt: HostRuntime) -> Result<(), Fail> {
    let alloc = rt.alloc();
    let mut world = two(&rt, alloc)?;
    let late = send(alloc, 3, b"")?;
    let rows = [
        row(2, recv(2, 1), Told::Waits, 2, Told::Waits),
        row(1, Call::Chdone(3), Told::Well, 2, Told::Fault(Errno::Epipe)),
        row(
            1,
            Call::Chdone(3),
            Told::Fault(Errno::Epipe),
            2,
            Told::Fault(Errno::Epipe),
        ),
        row(
            1,
            late,
            Told::Fault(Errno::Epipe),
            2,
            Told::Fault(Errno::Epipe),
        ),
        row(
            2,
            recv(2, 0),
            Told::Fault(Errno::Epipe),
            1,
            Told::Fault(Errno::Epipe),
        ),
    ];
    enter_each(&rt, alloc, &mut world, &rows);
    Ok(())
}

#[test]
fn a_choice_takes_its_least_clause_that_can_be_done(rt: HostRuntime) -> Result<(), Fail> {
    let alloc = rt.alloc();
    let mut world = two(&rt, alloc)?;
    let item = octets(alloc, b"b")?;
    let other = octets(alloc, b"a")?;
    let waiting = choice(alloc, Clause::Recv(2, 1), Clause::Recv(4, 1))?;
    let sending = choice(alloc, Clause::Send(5, item), Clause::Send(3, other))?;
    let again = choice(alloc, Clause::Recv(4, 1), Clause::Recv(2, 1))?;
    let dead = choice(alloc, Clause::Recv(2, 1), Clause::Recv(4, 1))?;
    let rows = [
        row(2, waiting, Told::Waits, 2, Told::Waits),
        row(1, sending, Told::Well, 2, Told::Bytes(1, 98)),
        row(2, again, Told::Waits, 1, Told::Well),
        row(1, Call::Hclose(4), Told::Well, 2, Told::Fault(Errno::Ebadf)),
        row(2, dead, Told::Fault(Errno::Ebadf), 1, Told::Well),
        row(
            2,
            Call::Choose(Deadline::Never, Clauses::new(alloc)),
            Told::Fault(Errno::Einval),
            1,
            Told::Well,
        ),
    ];
    enter_each(&rt, alloc, &mut world, &rows);
    Ok(())
}

#[test]
fn who_is_cancelled_receives_nothing(rt: HostRuntime) -> Result<(), Fail> {
    let alloc = rt.alloc();
    let mut world = two(&rt, alloc)?;
    let item = send(alloc, 3, b"a")?;
    let rows = [
        row(2, recv(2, 1), Told::Waits, 2, Told::Waits),
        row(
            1,
            Call::Hclose(1),
            Told::Waits,
            2,
            Told::Fault(Errno::Ecanceled),
        ),
        row(2, recv(2, 1), Told::Fault(Errno::Ecanceled), 1, Told::Waits),
    ];
    enter_each(&rt, alloc, &mut world, &rows);
    world.end(2, None);
    settle(&mut world);
    enter_each(
        &rt,
        alloc,
        &mut world,
        &[row(1, item, Told::Waits, 2, Told::Nobody)],
    );
    Ok(())
}

#[test]
fn each_coroutine_has_a_seat_at_channels(rt: HostRuntime) -> Result<(), Fail> {
    let alloc = rt.alloc();
    let mut world = two(&rt, alloc)?;
    let rows = [
        row(
            1,
            Call::BundleGo(1, 0, Args::new(alloc)),
            Told::Well,
            3,
            Told::Well,
        ),
        row(3, recv(2, 1), Told::Waits, 2, Told::Well),
        row(2, recv(4, 1), Told::Waits, 3, Told::Waits),
    ];
    enter_each(&rt, alloc, &mut world, &rows);
    world.end(3, None);
    settle(&mut world);
    let rows = [
        row(
            1,
            Call::BundleGo(1, 0, Args::new(alloc)),
            Told::Well,
            3,
            Told::Nobody,
        ),
        row(4, recv(2, 1), Told::Waits, 2, Told::Waits),
        row(1, recv(5, 1), Told::Waits, 4, Told::Waits),
    ];
    enter_each(&rt, alloc, &mut world, &rows);
    Ok(())
}
