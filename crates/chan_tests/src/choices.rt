ghost use Rattle.std.specs.Prelude.{◌≡◌};

use crate::telling::{met, one_channel, waits};
use dill_base::Octets;
use dill_slots::Steps;
use std::marker::Brand;
use std::process::Abort;
use std::sync::ledger::{Blank, Ledger};
use std::test::Fail;

fn the_clause_is_told<L: Ledger>(rt: &(impl Abort + AllocGlobal), blank: Blank) -> Result<(), Fail>
    requires name { blank.name ≡ L.name }
    requires parts { blank.parts ≡ L.parts }
    requires one { blank.parts ≡ 1 }
{
    let mut steps: Steps<L> = Steps::new(blank);
    let mut channels = one_channel(rt.alloc())?;
    let _ = channels.make()?;
    let first = channels.recv(1, 0, 2, 1, &mut steps);
    let second = channels.recv(1, 1, 4, 1, &mut steps);
    assert!(rt; waits(&first) && waits(&second));
    let bytes = Octets::from_slice(rt.alloc(), b"b")?;
    let third = channels.send(2, 0, 3, bytes, &mut steps);
    assert!(rt; met(&third, 1, 1, 0, 101));
    let bytes = Octets::from_slice(rt.alloc(), b"a")?;
    let fourth = channels.send(2, 0, 1, bytes, &mut steps);
    assert!(rt; waits(&fourth));
    Ok(())
}

#[test]
fn who_chooses_is_met_under_one_clause(rt: HostRuntime) -> Result<(), Fail> {
    the_clause_is_told::<Brand>(&rt, Blank::new(1))
}
