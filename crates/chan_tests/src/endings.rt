ghost use Rattle.std.specs.Prelude.{◌≡◌};

use crate::telling::{ended, one_channel, waits};
use dill_slots::Steps;
use std::marker::Brand;
use std::process::Abort;
use std::sync::ledger::{Blank, Ledger};
use std::test::Fail;

fn done_is_told<L: Ledger>(rt: &(impl Abort + AllocGlobal), blank: Blank) -> Result<(), Fail>
    requires name { blank.name ≡ L.name }
    requires parts { blank.parts ≡ L.parts }
    requires one { blank.parts ≡ 1 }
{
    let mut steps: Steps<L> = Steps::new(blank);
    let mut channels = one_channel(rt.alloc())?;
    let first = channels.recv(2, 0, 2, 1, &mut steps);
    assert!(rt; waits(&first));
    assert!(rt; channels.done(1, &mut steps));
    assert!(rt; !channels.done(1, &mut steps));
    assert!(rt; channels.next_ended(0, &mut steps) == Some((2, 0)));
    assert!(rt; channels.next_ended(2, &mut steps) == None);
    let second = channels.recv(3, 0, 2, 1, &mut steps);
    assert!(rt; ended(&second));
    Ok(())
}

#[test]
fn who_receives_has_its_end_where_the_other_end_is_done(rt: HostRuntime) -> Result<(), Fail> {
    done_is_told::<Brand>(&rt, Blank::new(1))
}

fn a_gone_end_is_told<L: Ledger>(rt: &(impl Abort + AllocGlobal), blank: Blank) -> Result<(), Fail>
    requires name { blank.name ≡ L.name }
    requires parts { blank.parts ≡ L.parts }
    requires one { blank.parts ≡ 1 }
{
    let mut steps: Steps<L> = Steps::new(blank);
    let mut channels = one_channel(rt.alloc())?;
    let first = channels.recv(3, 0, 2, 1, &mut steps);
    let second = channels.recv(2, 1, 2, 1, &mut steps);
    let third = channels.recv(2, 0, 2, 1, &mut steps);
    assert!(rt; waits(&first) && waits(&second));
    assert!(rt; waits(&third));
    assert!(rt; channels.next_ended(0, &mut steps) == None);
    channels.drop_end(1, &mut steps);
    assert!(rt; channels.next_ended(0, &mut steps) == Some((2, 0)));
    assert!(rt; channels.next_ended(2, &mut steps) == Some((3, 0)));
    Ok(())
}

#[test]
fn the_least_waiter_and_its_least_clause_are_told(rt: HostRuntime) -> Result<(), Fail> {
    a_gone_end_is_told::<Brand>(&rt, Blank::new(1))
}
