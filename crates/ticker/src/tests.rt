use crate::Ticker;
use dill_base::MemSink;
use dill_core::run;
use dill_drive::RunEnd;
use dill_loop::LoopKernel;
use rand::rngs::StdRng;
use rand_core::SeedableRng;
use std::test::Fail;

#[test]
fn it_sleeps_and_is_cancelled_where_its_turns_are_spent(rt: HostRuntime) -> Result<(), Fail> {
    let alloc = rt.alloc();
    let cases = [
        (
            1000,
            RunEnd::Ended,
            "1 start =0\n1 msleep =0\n1 msleep =0\n1 msleep =0\n1 end ok\n\
             summary status=0 errno=none turns=4 rounds=4 closing=0 made=0 gone=0 lacks=0\n",
        ),
        (
            2,
            RunEnd::Spent,
            "1 start =0\n1 msleep ECANCELED\n1 end ECANCELED\n\
             summary status=7 errno=none turns=1 rounds=1 closing=1 made=0 gone=0 lacks=0\n",
        ),
    ];
    for (turns, end, lines) in cases {
        let mut out = MemSink::new(alloc, 1000, Vec::new(alloc)).map_err(|_| Fail::from("memory"))?;
        let mut kernel = LoopKernel::new(alloc, 4096)?;
        let mut keys = StdRng::seed_from_u64(1);
        let first = Ticker::new(3);
        assert_eq!(rt;
            run(alloc, first, true, turns, &mut kernel, &mut out, &mut keys),
            end
        );
        assert_eq!(rt; out.bytes(), lines.as_bytes());
    }
    Ok(())
}
