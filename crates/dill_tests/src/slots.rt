ghost use Rattle.std.specs.Prelude.{◌≡◌, IfOk, true, false};
ghost use Rattle.dill_slots.specs.Slots.{insert as inserted, set_value, is_live, is_new_id};

use dill_slots::{SlotFault, Slots, Steps};
use std::alloc::Global;
use std::marker::Brand;
use std::process::Abort;
use std::sync::ledger::{Blank, Ledger};
use std::test::Fail;

fn put(slots: &mut Slots<u32>, id: u64, value: u32) -> Result<u32, Fail>
    requires { is_new_id slots.old id ≡ true }
    ensures put { IfOk result (λ slot. slots.new ≡ inserted slots.old slot id value) }
    ensures free { IfOk result (λ slot. is_live slots.old slot ≡ false) }
{
    match slots.insert(id, value) {
        Ok(slot) => Ok(slot),
        Err(SlotFault::Full(_)) => Err(Fail::from("full")),
        Err(SlotFault::NoMemory(_)) => Err(Fail::from("memory")),
    }
}

/// A caller sees what it wrote through the reference, and that nothing else changed.
fn write_seven<L: Ledger>(slots: &mut Slots<u32>, slot: u32, steps: &mut Steps<L>)
    requires { is_live slots.old slot ≡ true }
    ensures { slots.new ≡ set_value slots.old slot 7 }
{
    *slots.get_mut(slot, steps) = 7;
}

fn values_are_found<L: Ledger>(rt: &(impl Abort + AllocGlobal), blank: Blank) -> Result<(), Fail>
    requires name { blank.name ≡ L.name }
    requires parts { blank.parts ≡ L.parts }
    requires one { blank.parts ≡ 1 }
{
    let mut steps: Steps<L> = Steps::new(blank);
    let mut slots: Slots<u32> = Slots::new(rt.alloc());
    let first = put(&mut slots, 3, 30)?;
    let second = put(&mut slots, 5, 50)?;
    assert!(rt; first != second);
    assert_eq!(rt; *slots.get(first, &mut steps), 30);
    write_seven(&mut slots, second, &mut steps);
    assert_eq!(rt; slots.remove(second, &mut steps), 7);
    let third = put(&mut slots, 6, 60)?;
    assert_eq!(rt; third, second);
    assert_eq!(rt; *slots.get(first, &mut steps), 30);
    slots.known();
    Ok(())
}

#[test]
fn values_are_found_under_their_slots(rt: HostRuntime) -> Result<(), Fail> {
    values_are_found::<Brand>(&rt, Blank::new(1))
}

fn ready_slots_are_taken<L: Ledger>(
    rt: &(impl Abort + AllocGlobal),
    blank: Blank,
) -> Result<(), Fail>
    requires name { blank.name ≡ L.name }
    requires parts { blank.parts ≡ L.parts }
    requires one { blank.parts ≡ 1 }
{
    let mut steps: Steps<L> = Steps::new(blank);
    let mut slots: Slots<u32> = Slots::new(rt.alloc());
    let first = put(&mut slots, 3, 30)?;
    let second = put(&mut slots, 5, 50)?;
    slots.ready_push(second, &mut steps);
    slots.ready_push(first, &mut steps);
    assert_eq!(rt; slots.ready_pop(&mut steps), Some(second));
    assert_eq!(rt; slots.ready_pop(&mut steps), Some(first));
    assert_eq!(rt; slots.ready_pop(&mut steps), None);
    Ok(())
}

#[test]
fn ready_slots_are_taken_in_the_order_of_putting(rt: HostRuntime) -> Result<(), Fail> {
    ready_slots_are_taken::<Brand>(&rt, Blank::new(1))
}

fn timers_pass<L: Ledger>(rt: &(impl Abort + AllocGlobal), blank: Blank) -> Result<(), Fail>
    requires name { blank.name ≡ L.name }
    requires parts { blank.parts ≡ L.parts }
    requires one { blank.parts ≡ 1 }
{
    let mut steps: Steps<L> = Steps::new(blank);
    let mut slots: Slots<u32> = Slots::new(rt.alloc());
    let first = put(&mut slots, 3, 30)?;
    let second = put(&mut slots, 5, 50)?;
    assert_eq!(rt; slots.least_timer(), None);
    slots.set_timer(second, 20, &mut steps);
    slots.set_timer(first, 20, &mut steps);
    assert_eq!(rt; slots.least_timer(), Some(20));
    assert_eq!(rt; slots.expire(19, &mut steps), None);
    assert_eq!(rt; slots.expire(20, &mut steps), Some(first));
    slots.clear_timer(second, &mut steps);
    assert_eq!(rt; slots.expire(20, &mut steps), None);
    Ok(())
}

#[test]
fn timers_pass_by_deadline_and_then_id(rt: HostRuntime) -> Result<(), Fail> {
    timers_pass::<Brand>(&rt, Blank::new(1))
}

fn waiters_are_found<L: Ledger>(rt: &(impl Abort + AllocGlobal), blank: Blank) -> Result<(), Fail>
    requires name { blank.name ≡ L.name }
    requires parts { blank.parts ≡ L.parts }
    requires one { blank.parts ≡ 1 }
{
    let mut steps: Steps<L> = Steps::new(blank);
    let mut slots: Slots<u32> = Slots::new(rt.alloc());
    let first = put(&mut slots, 3, 30)?;
    let second = put(&mut slots, 5, 50)?;
    slots.wait_on(second, 0, 7, &mut steps);
    slots.wait_on(first, 1, 7, &mut steps);
    slots.wait_on(first, 2, 8, &mut steps);
    assert_eq!(rt; slots.first_waiting(7, &mut steps), Some((second, 0)));
    assert_eq!(rt; slots.first_waiting(8, &mut steps), Some((first, 2)));
    slots.leave(second, &mut steps);
    assert_eq!(rt; slots.first_waiting(7, &mut steps), Some((first, 1)));
    slots.leave(first, &mut steps);
    assert_eq!(rt; slots.first_waiting(8, &mut steps), None);
    Ok(())
}

#[test]
fn who_has_waited_longest_is_found_first(rt: HostRuntime) -> Result<(), Fail> {
    waiters_are_found::<Brand>(&rt, Blank::new(1))
}
