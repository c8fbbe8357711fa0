use crate::cases::{BUDGET, Case, End, ends, plain};
use dill_base::Status;
use std::process::Abort;
use std::test::Fail;

/// A whole run: the script behind its first line, whether it is traced, its budget, and what it comes to.
#[derive(Clone, Copy)]
struct Row<'a> {
    script: &'a [u8],
    traced: bool,
    turns: u64,
    status: Status,
    shown: &'a str,
}

fn holds(rt: &(impl Abort + AllocGlobal), row: Row<'_>) -> Result<(), Fail> {
    let case = Case {
        traced: row.traced,
        turns: row.turns,
        ..plain(row.script)
    };
    let end = End {
        status: row.status,
        shown: row.shown,
        said: "",
    };
    ends(rt, "x", case, end)
}

fn traced<'a>(script: &'a [u8], shown: &'a str) -> Row<'a> {
    Row {
        script,
        traced: true,
        turns: BUDGET,
        status: Status::Well,
        shown,
    }
}

fn run<'a>(script: &'a [u8], shown: &'a str) -> Row<'a> {
    Row {
        traced: false,
        ..traced(script, shown)
    }
}

#[test]
fn sleeping(rt: HostRuntime) -> Result<(), Fail> {
    let equal_deadlines_lower_first = run(
        b"dill 1\nprogram s 2\nmsleep n0\nmsleep 50\nprint n1\nend\nprogram main 0\nn0 = bundle\n\
          bundle_go n0 s 30 1\nbundle_go n0 s 20 2\nbundle_go n0 s 10 3\nbundle_wait n0 -1\nend\n",
        "1\n2\n3\nsummary status=0 errno=none turns=18 rounds=5 closing=0 made=1 gone=1 lacks=0\n",
    );
    holds(&rt, equal_deadlines_lower_first)?;
    let sleep_forever_is_stuck = Row {
        status: Status::Stuck,
        ..traced(
            b"dill 1\nprogram main 0\nmsleep -1\nend\n",
            "1 start =0\nwaiting 1 msleep\n1 msleep ECANCELED\n1 end ECANCELED\n\
             summary status=8 errno=none turns=1 rounds=1 closing=1 made=0 gone=0 lacks=0\n",
        )
    };
    holds(&rt, sleep_forever_is_stuck)?;
    let counted: &[u8] =
        b"dill 1\nprogram main 0\nset n0 3\nloop n0\nmsleep +10\nend\nn1 = now\nprint n1\nend\n";
    let counted_sleeps = run(
        counted,
        "30\nsummary status=0 errno=none turns=8 rounds=4 closing=0 made=0 gone=0 lacks=0\n",
    );
    holds(&rt, counted_sleeps)?;
    let within_a_budget = Row {
        turns: 5,
        status: Status::Spent,
        ..run(
            counted,
            "summary status=7 errno=none turns=3 rounds=2 closing=1 made=0 gone=0 lacks=0\n",
        )
    };
    holds(&rt, within_a_budget)
}

#[test]
fn handles(rt: HostRuntime) -> Result<(), Fail> {
    let renumbered_handle = traced(
        b"dill 1\nprogram main 0\nn0 = hmake 256 7\nn1 = hown n0\ntry hquery n0 256\nn2 = hquery n1 256\n\
          hclose n1\nend\n",
        "1 start =0\n1 hmake =1\nmoved 1 2\n1 hown =2\n1 hquery EBADF\n1 hquery =7\nfreed 2\n1 hclose =0\n1 end ok\n\
         summary status=0 errno=none turns=6 rounds=1 closing=0 made=2 gone=2 lacks=0\n",
    );
    holds(&rt, renumbered_handle)?;
    let of_another_kind = Row {
        status: Status::Fault,
        ..traced(
            b"dill 1\nprogram main 0\nn0 = hmake 256 7\nn1 = hown n0\nn2 = hquery n1 257\nend\n",
            "1 start =0\n1 hmake =1\nmoved 1 2\n1 hown =2\n1 hquery ENOTSUP\n1 end ENOTSUP\nfreed 2\n\
             summary status=1 errno=ENOTSUP turns=4 rounds=1 closing=0 made=2 gone=2 lacks=0\n",
        )
    };
    holds(&rt, of_another_kind)?;
    let renumbered_without_close = traced(
        b"dill 1\nprogram main 0\nn0 = hmake 256 7\nn1 = hown n0\ntry hquery n0 256\nn2 = hquery n1 256\nend\n",
        "1 start =0\n1 hmake =1\nmoved 1 2\n1 hown =2\n1 hquery EBADF\n1 hquery =7\n1 end ok\nfreed 2\n\
         summary status=0 errno=none turns=5 rounds=1 closing=0 made=2 gone=2 lacks=0\n",
    );
    holds(&rt, renumbered_without_close)?;
    let fault_ends_main = Row {
        status: Status::Fault,
        ..run(
            b"dill 1\nprogram main 0\nhclose 9\nend\n",
            "summary status=1 errno=EBADF turns=2 rounds=1 closing=0 made=0 gone=0 lacks=0\n",
        )
    };
    holds(&rt, fault_ends_main)?;
    let handle_limit = run(
        b"dill 1\nprogram main 0\nloop 65536\nhmake 256 0\nend\ntry hmake 256 0\nend\n",
        "summary status=0 errno=none turns=131073 rounds=2049 closing=0 made=65536 gone=65536 lacks=0\n",
    );
    holds(&rt, handle_limit)
}

#[test]
fn bundles(rt: HostRuntime) -> Result<(), Fail> {
    let own_bundle_is_busy = traced(
        b"dill 1\nprogram k 1\ntry hclose n0\nend\nprogram main 0\nn0 = bundle\nbundle_go n0 k n0\n\
          bundle_wait n0 -1\nend\n",
        "1 start =0\n1 bundle =1\n1 bundle_go =0\n2 start =0\n2 hclose EBUSY\n2 end ok\n1 bundle_wait =0\n1 end ok\n\
         freed 1\nsummary status=0 errno=none turns=6 rounds=1 closing=0 made=1 gone=1 lacks=0\n",
    );
    holds(&rt, own_bundle_is_busy)?;
    let own_bundle_busy_without_close = traced(
        b"dill 1\nprogram k 1\ntry n1 = hown n0\nend\nprogram main 0\nn0 = bundle\nbundle_go n0 k n0\n\
          bundle_wait n0 -1\nend\n",
        "1 start =0\n1 bundle =1\n1 bundle_go =0\n2 start =0\n2 hown EBUSY\n2 end ok\n1 bundle_wait =0\n1 end ok\n\
         freed 1\nsummary status=0 errno=none turns=6 rounds=1 closing=0 made=1 gone=1 lacks=0\n",
    );
    holds(&rt, own_bundle_busy_without_close)?;
    let crossed_gifts = traced(
        b"dill 1\nprogram k 1\ntry hclose n0\nend\nprogram main 0\nn0 = bundle\nn1 = bundle\nbundle_go n0 k n1\n\
          bundle_go n1 k n0\nbundle_wait n0 -1\nend\n",
        "1 start =0\n1 bundle =1\n1 bundle =2\n1 bundle_go =0\n2 start =0\n1 bundle_go =0\n3 start =0\n\
         3 hclose ECANCELED\n3 end ok\nfreed 2\n2 hclose =0\n2 end ok\n1 bundle_wait =0\n1 end ok\nfreed 1\n\
         summary status=0 errno=none turns=10 rounds=1 closing=0 made=2 gone=2 lacks=0\n",
    );
    holds(&rt, crossed_gifts)?;
    let close_sleeper_and_yielder = traced(
        b"dill 1\nprogram a 0\nmsleep -1\nend\nprogram y 0\nloop\nend\nend\nprogram main 0\nn0 = bundle\n\
          bundle_go n0 a\nbundle_go n0 y\nhclose n0\nend\n",
        "1 start =0\n1 bundle =1\n1 bundle_go =0\n2 start =0\n1 bundle_go =0\n3 start =0\n2 msleep ECANCELED\n\
         2 end ECANCELED\n3 yield ECANCELED\n3 end ECANCELED\nfreed 1\n1 hclose =0\n1 end ok\n\
         summary status=0 errno=none turns=9 rounds=1 closing=0 made=1 gone=1 lacks=0\n",
    );
    holds(&rt, close_sleeper_and_yielder)?;
    let nested_close_with_finally = traced(
        b"dill 1\nprogram leaf 0\nmsleep -1\nfinally\ntry msleep -1\nend\nprogram mid 0\nn0 = go leaf\nhclose n0\nend\n\
          program main 0\nn0 = go mid\nyield\nyield\nhclose n0\nend\n",
        "1 start =0\n1 go =1\n2 start =0\n1 yield =0\n2 go =2\n3 start =0\n1 yield =0\n3 msleep ECANCELED\n\
         3 msleep ECANCELED\n3 end ECANCELED\nfreed 2\n2 hclose =0\n2 end ok\nfreed 1\n1 hclose =0\n1 end ok\n\
         summary status=0 errno=none turns=11 rounds=1 closing=0 made=2 gone=2 lacks=0\n",
    );
    holds(&rt, nested_close_with_finally)
}
