ghost use Rattle.std.specs.Prelude.{◌≡◌};

use crate::telling::{is_bytes, met, one_channel, waits};
use dill_base::Octets;
use dill_slots::Steps;
use std::marker::Brand;
use std::process::Abort;
use std::sync::ledger::{Blank, Ledger};
use std::test::Fail;

fn equal_sizes_meet<L: Ledger>(rt: &(impl Abort + AllocGlobal), blank: Blank) -> Result<(), Fail>
    requires name { blank.name ≡ L.name }
    requires parts { blank.parts ≡ L.parts }
    requires one { blank.parts ≡ 1 }
{
    let mut steps: Steps<L> = Steps::new(blank);
    let mut channels = one_channel(rt.alloc())?;
    let bytes = Octets::from_slice(rt.alloc(), b"abc")?;
    let first = channels.send(1, 0, 1, bytes, &mut steps);
    assert!(rt; waits(&first));
    let second = channels.recv(2, 0, 2, 3, &mut steps);
    assert!(rt; met(&second, 1, 0, 103, 0));
    assert!(rt; is_bytes(&second, b"abc"));
    Ok(())
}

#[test]
fn a_receiver_meets_a_sender_that_waits(rt: HostRuntime) -> Result<(), Fail> {
    equal_sizes_meet::<Brand>(&rt, Blank::new(1))
}

fn unequal_sizes_fail<L: Ledger>(rt: &(impl Abort + AllocGlobal), blank: Blank) -> Result<(), Fail>
    requires name { blank.name ≡ L.name }
    requires parts { blank.parts ≡ L.parts }
    requires one { blank.parts ≡ 1 }
{
    let mut steps: Steps<L> = Steps::new(blank);
    let mut channels = one_channel(rt.alloc())?;
    let first = channels.recv(2, 0, 2, 4, &mut steps);
    assert!(rt; waits(&first));
    let bytes = Octets::from_slice(rt.alloc(), b"abc")?;
    let second = channels.send(1, 0, 1, bytes, &mut steps);
    assert!(rt; met(&second, 2, 0, 200, 200));
    let third = channels.recv(2, 0, 2, 4, &mut steps);
    assert!(rt; waits(&third));
    Ok(())
}

#[test]
fn unequal_sizes_are_a_fault_of_both(rt: HostRuntime) -> Result<(), Fail> {
    unequal_sizes_fail::<Brand>(&rt, Blank::new(1))
}

fn the_first_is_met<L: Ledger>(rt: &(impl Abort + AllocGlobal), blank: Blank) -> Result<(), Fail>
    requires name { blank.name ≡ L.name }
    requires parts { blank.parts ≡ L.parts }
    requires one { blank.parts ≡ 1 }
{
    let mut steps: Steps<L> = Steps::new(blank);
    let mut channels = one_channel(rt.alloc())?;
    let first = channels.recv(1, 0, 2, 3, &mut steps);
    let second = channels.recv(2, 0, 2, 3, &mut steps);
    channels.leave(1, &mut steps);
    channels.unseat(1);
    let bytes = Octets::from_slice(rt.alloc(), b"abc")?;
    let third = channels.send(3, 0, 1, bytes, &mut steps);
    assert!(rt; waits(&first) && waits(&second));
    assert!(rt; met(&third, 2, 0, 0, 103));
    Ok(())
}

#[test]
fn who_left_is_not_met(rt: HostRuntime) -> Result<(), Fail> {
    the_first_is_met::<Brand>(&rt, Blank::new(1))
}
