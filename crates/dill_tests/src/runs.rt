use crate::bodies::{Brief, Counter};
use crate::values::memory;
use dill_base::MemSink;
use dill_core::run;
use dill_drive::RunEnd;
use dill_loop::LoopKernel;
use std::process::Abort;
use std::test::Fail;

#[test]
fn a_main_that_ends_at_once_is_run_and_summed_up(rt: HostRuntime) -> Result<(), Fail> {
    let alloc = rt.alloc();
    let lines =
        "1 start =0\n1 end ok\nsummary status=0 errno=none turns=1 rounds=1 closing=0 made=0 gone=0 lacks=0\n";
    let mut out = memory(MemSink::new(alloc, 1000, Vec::new(alloc)))?;
    let mut kernel = LoopKernel::new(alloc, 4096)?;
    assert_eq!(rt;
        run(
            alloc,
            Brief { name: 1 },
            true,
            1000,
            &mut kernel,
            &mut out,
            &mut Counter(0)
        ),
        RunEnd::Ended
    );
    assert_eq!(rt; out.bytes(), lines.as_bytes());
    Ok(())
}

#[test]
fn the_budget_stops_a_run_and_its_root_is_closed(rt: HostRuntime) -> Result<(), Fail> {
    let alloc = rt.alloc();
    let lines = "summary status=7 errno=none turns=0 rounds=1 closing=1 made=0 gone=0 lacks=0\n";
    let mut out = memory(MemSink::new(alloc, 1000, Vec::new(alloc)))?;
    let mut kernel = LoopKernel::new(alloc, 4096)?;
    assert_eq!(rt;
        run(
            alloc,
            Brief { name: 1 },
            false,
            1,
            &mut kernel,
            &mut out,
            &mut Counter(0)
        ),
        RunEnd::Spent
    );
    assert_eq!(rt; out.bytes(), lines.as_bytes());
    Ok(())
}
