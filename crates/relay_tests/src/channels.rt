use crate::cases::{Case, End, ends, plain};
use dill_base::Status;
use std::process::Abort;
use std::test::Fail;

/// A script, its status, and what it prints with its trace.
type Run = (&'static [u8], Status, &'static str);

/// Runs a script with its trace, and compares its status and all that it prints.
fn traces(rt: &(impl Abort + AllocGlobal), run: Run) -> Result<(), Fail> {
    let (script, status, shown) = run;
    let case = Case {
        traced: true,
        ..plain(script)
    };
    let end = End {
        status,
        shown,
        said: "",
    };
    ends(rt, "x", case, end)
}

#[test]
fn worked_runs_of_channels(rt: HostRuntime) -> Result<(), Fail> {
    let runs: [Run; 4] = [
        // bundle_closed_whole
        (
            b"dill 1\nprogram a 0\nmsleep -1\nend\nprogram r 1\nchrecv n0 1 -1\nend\nprogram y 0\nloop\nend\n\
              end\nprogram main 0\nn0 = bundle\nn1 n2 = chmake\nbundle_go n0 a\nbundle_go n0 r n1\n\
              bundle_go n0 y\nhclose n0\nend\n",
            Status::Well,
            "1 start =0\n1 bundle =1\n1 chmake =2,3\n1 bundle_go =0\n2 start =0\n1 bundle_go =0\n3 start =0\n\
             1 bundle_go =0\n4 start =0\n2 msleep ECANCELED\n2 end ECANCELED\n3 chrecv ECANCELED\n\
             3 end ECANCELED\n4 yield ECANCELED\n4 end ECANCELED\nfreed 1\n1 hclose =0\n1 end ok\nfreed 3\n\
             freed 2\nsummary status=0 errno=none turns=13 rounds=1 closing=0 made=3 gone=3 lacks=0\n",
        ),
        // unequal_sizes_then_done
        (
            b"dill 1\nprogram s 1\ntry chsend n0 \"abc\" -1\ntry chdone n0\nend\nprogram main 0\n\
              n0 n1 = chmake\nn2 = go s n0\ntry chrecv n1 4 -1\ntry chrecv n1 4 -1\nend\n",
            Status::Well,
            "1 start =0\n1 chmake =1,2\n1 go =3\n2 start =0\n1 chrecv EMSGSIZE\n2 chsend EMSGSIZE\n\
             1 chrecv EPIPE\n1 end ok\n2 chdone =0\n2 end ok\nfreed 3\nfreed 2\nfreed 1\n\
             summary status=0 errno=none turns=8 rounds=1 closing=0 made=3 gone=3 lacks=0\n",
        ),
        // choose_earliest_clause
        (
            b"dill 1\nprogram s 1\nchsend n0 \"x\" -1\nend\nprogram main 0\nn0 n1 = chmake\nn2 n3 = chmake\n\
              try choose 0\ntry choose 0 recv n1 1 recv n3 1\nn4 = go s n0\nn5 = go s n2\nyield\n\
              n6 b0 = choose -1 recv n3 1 recv n1 1\nprint n6 b0\nend\n",
            Status::Well,
            "1 start =0\n1 chmake =1,2\n1 chmake =3,4\n1 choose EINVAL\n1 choose ETIMEDOUT\n1 go =5\n\
             2 start =0\n1 go =6\n3 start =0\n1 yield =0\n1 choose @0 #1:78\n0x\n3 chsend =0\n3 end ok\n\
             1 print =0\n1 end ok\n2 chsend ECANCELED\n2 end ECANCELED\nfreed 6\nfreed 5\nfreed 4\nfreed 3\n\
             freed 2\nfreed 1\nsummary status=0 errno=none turns=14 rounds=1 closing=0 made=6 gone=6 lacks=0\n",
        ),
        // the same channels, and a choice that meets another choice
        (
            b"dill 1\nprogram w 2\nchoose -1 recv n0 1 recv n1 1\nend\nprogram main 0\nn0 n1 = chmake\n\
              n2 n3 = chmake\nn4 = go w n1 n3\nyield\nchoose -1 send n2 \"b\" send n0 \"a\"\nend\n",
            Status::Well,
            "1 start =0\n1 chmake =1,2\n1 chmake =3,4\n1 go =5\n2 start =0\n1 yield =0\n1 choose @0 =0\n\
             1 end ok\n2 choose @1 #1:62\n2 end ok\nfreed 5\nfreed 4\nfreed 3\nfreed 2\nfreed 1\n\
             summary status=0 errno=none turns=8 rounds=1 closing=0 made=5 gone=5 lacks=0\n",
        ),
    ];
    for run in runs {
        traces(&rt, run)?;
    }
    Ok(())
}

#[test]
fn what_channels_refuse(rt: HostRuntime) -> Result<(), Fail> {
    let runs: [Run; 3] = [
        // sizes over 1,048,576, no clause, and more than 16
        (
            b"dill 1\nprogram main 0\nn0 n1 = chmake\ntry chrecv n1 1048577 -1\ntry chrecv n1 1048576 0\n\
              try choose -1\ntry choose -1 recv n1 1 recv n1 1048577\n\
              try choose -1 recv n1 1 recv n1 1 recv n1 1 recv n1 1 recv n1 1 recv n1 1 recv n1 1 recv n1 1 \
              recv n1 1 recv n1 1 recv n1 1 recv n1 1 recv n1 1 recv n1 1 recv n1 1 recv n1 1 recv n1 1\n\
              try choose 0 recv n1 1 recv n1 1 recv n1 1 recv n1 1 recv n1 1 recv n1 1 recv n1 1 recv n1 1 \
              recv n1 1 recv n1 1 recv n1 1 recv n1 1 recv n1 1 recv n1 1 recv n1 1 recv n1 1\nend\n",
            Status::Well,
            "1 start =0\n1 chmake =1,2\n1 chrecv EINVAL\n1 chrecv ETIMEDOUT\n1 choose EINVAL\n1 choose EINVAL\n\
             1 choose EINVAL\n1 choose ETIMEDOUT\n1 end ok\nfreed 2\nfreed 1\n\
             summary status=0 errno=none turns=8 rounds=1 closing=0 made=2 gone=2 lacks=0\n",
        ),
        // numbers of another kind, and dead ones
        (
            b"dill 1\nprogram main 0\nn0 n1 = chmake\nn2 = bundle\ntry chsend n2 \"x\" -1\ntry chrecv 9 1 -1\n\
              try chdone n2\ntry choose -1 recv n1 1 recv 9 1\ntry choose -1 recv n2 1 recv 9 1048577\n\
              try choose -1 recv n2 1 recv n1 1048577\ntry hquery n1 2\ntry hquery n1 1\nend\n",
            Status::Well,
            "1 start =0\n1 chmake =1,2\n1 bundle =3\n1 chsend ENOTSUP\n1 chrecv EBADF\n1 chdone ENOTSUP\n\
             1 choose EBADF\n1 choose EBADF\n1 choose ENOTSUP\n1 hquery =0\n1 hquery ENOTSUP\n1 end ok\n\
             freed 3\nfreed 2\nfreed 1\n\
             summary status=0 errno=none turns=11 rounds=1 closing=0 made=3 gone=3 lacks=0\n",
        ),
        // directions that are done, and ends that are closed
        (
            b"dill 1\nprogram main 0\nn0 n1 = chmake\nchdone n0\ntry chdone n0\ntry chsend n0 \"x\" -1\n\
              try chrecv n1 1 -1\ntry choose -1 recv n0 1 recv n1 1\ntry chsend n1 \"x\" 0\nhclose n0\n\
              try chsend n1 \"x\" -1\ntry chdone n1\ntry chrecv n0 1 -1\nend\n",
            Status::Well,
            "1 start =0\n1 chmake =1,2\n1 chdone =0\n1 chdone EPIPE\n1 chsend EPIPE\n1 chrecv EPIPE\n\
             1 choose @1 EPIPE\n1 chsend ETIMEDOUT\nfreed 1\n1 hclose =0\n1 chsend EPIPE\n1 chdone EPIPE\n\
             1 chrecv EBADF\n1 end ok\nfreed 2\n\
             summary status=0 errno=none turns=12 rounds=1 closing=0 made=2 gone=2 lacks=0\n",
        ),
    ];
    for run in runs {
        traces(&rt, run)?;
    }
    Ok(())
}

#[test]
fn ends_that_die_while_others_wait(rt: HostRuntime) -> Result<(), Fail> {
    let runs: [Run; 4] = [
        // a number of a clause dies
        (
            b"dill 1\nprogram w 2\ntry n2 b0 = choose -1 recv n0 1 recv n1 1\nprint n2\nend\nprogram main 0\n\
              n0 n1 = chmake\nn2 n3 = chmake\nn4 = go w n1 n3\nyield\nhclose n3\nbundle_wait n4 -1\nend\n",
            Status::Well,
            "1 start =0\n1 chmake =1,2\n1 chmake =3,4\n1 go =5\n2 start =0\n1 yield =0\nfreed 4\n1 hclose =0\n\
             2 choose @1 EBADF\n1\n2 print =0\n2 end ok\n1 bundle_wait =0\n1 end ok\nfreed 5\nfreed 3\nfreed 2\n\
             freed 1\nsummary status=0 errno=none turns=10 rounds=1 closing=0 made=5 gone=5 lacks=0\n",
        ),
        // the other end of a clause is closed, while its own is in use
        (
            b"dill 1\nprogram w 2\ntry n2 b0 = choose -1 recv n0 1 recv n1 1\nprint n2\nend\nprogram main 0\n\
              n0 n1 = chmake\nn2 n3 = chmake\nn4 = go w n1 n3\nyield\ntry hown n1\nhclose n2\n\
              bundle_wait n4 -1\nend\n",
            Status::Well,
            "1 start =0\n1 chmake =1,2\n1 chmake =3,4\n1 go =5\n2 start =0\n1 yield =0\n1 hown EBUSY\nfreed 3\n\
             1 hclose =0\n2 choose @1 EPIPE\n1\n2 print =0\n2 end ok\n1 bundle_wait =0\n1 end ok\nfreed 5\n\
             freed 4\nfreed 2\nfreed 1\n\
             summary status=0 errno=none turns=11 rounds=1 closing=0 made=5 gone=5 lacks=0\n",
        ),
        // its owner ends
        (
            b"dill 1\nprogram k 1\nyield\nend\nprogram main 0\nn0 n1 = chmake\nn2 = go k give n0\n\
              try chrecv n1 1 -1\nbundle_wait n2 -1\nend\n",
            Status::Well,
            "1 start =0\n1 chmake =1,2\nmoved 1 4\n1 go =3\n2 start =0\n2 yield =0\n2 end ok\nfreed 4\n\
             1 chrecv EPIPE\n1 bundle_wait =0\n1 end ok\nfreed 3\nfreed 2\n\
             summary status=0 errno=none turns=7 rounds=1 closing=0 made=4 gone=4 lacks=0\n",
        ),
        // receives at both ends
        (
            b"dill 1\nprogram r 1\ntry chrecv n0 1 -1\nend\nprogram main 0\nn0 n1 = chmake\nn2 = go r n0\n\
              n3 = go r n1\nyield\nhclose n0\nend\n",
            Status::Well,
            "1 start =0\n1 chmake =1,2\n1 go =3\n2 start =0\n1 go =4\n3 start =0\n1 yield =0\nfreed 1\n\
             1 hclose =0\n1 end ok\n2 chrecv EBADF\n2 end ok\n3 chrecv EPIPE\n3 end ok\nfreed 4\nfreed 3\n\
             freed 2\nsummary status=0 errno=none turns=10 rounds=1 closing=0 made=4 gone=4 lacks=0\n",
        ),
    ];
    for run in runs {
        traces(&rt, run)?;
    }
    Ok(())
}

#[test]
fn who_is_cancelled_receives_nothing(rt: HostRuntime) -> Result<(), Fail> {
    let runs: [Run; 2] = [
        // while the call is pending and at its entry: the item is still there
        (
            b"dill 1\nprogram r 1\ntry chrecv n0 1 -1\ntry chrecv n0 1 -1\ntry choose -1 recv n0 1\ntry chmake\n\
              end\nprogram s 1\nchsend n0 \"x\" -1\nend\nprogram main 0\nn0 n1 = chmake\nn2 = go r n1\nyield\n\
              n3 = go s n0\nhclose n2\nchrecv n1 1 -1\nend\n",
            Status::Well,
            "1 start =0\n1 chmake =1,2\n1 go =3\n2 start =0\n1 yield =0\n1 go =4\n3 start =0\n\
             2 chrecv ECANCELED\n2 chrecv ECANCELED\n2 choose ECANCELED\n2 chmake ECANCELED\n2 end ok\nfreed 3\n\
             1 hclose =0\n1 chrecv #1:78\n1 end ok\n3 chsend =0\n3 end ok\nfreed 4\nfreed 2\nfreed 1\n\
             summary status=0 errno=none turns=14 rounds=1 closing=0 made=4 gone=4 lacks=0\n",
        ),
        // an answer that came before is given
        (
            b"dill 1\nprogram r 1\ntry chrecv n0 1 -1\nend\nprogram main 0\nn0 n1 = chmake\nn2 = go r n1\n\
              yield\nchsend n0 \"x\" -1\nhclose n2\nend\n",
            Status::Well,
            "1 start =0\n1 chmake =1,2\n1 go =3\n2 start =0\n1 yield =0\n1 chsend =0\n2 chrecv #1:78\n2 end ok\n\
             freed 3\n1 hclose =0\n1 end ok\nfreed 2\nfreed 1\n\
             summary status=0 errno=none turns=8 rounds=1 closing=0 made=3 gone=3 lacks=0\n",
        ),
    ];
    for run in runs {
        traces(&rt, run)?;
    }
    Ok(())
}

#[test]
fn who_meets_whom(rt: HostRuntime) -> Result<(), Fail> {
    let runs: [Run; 4] = [
        // who has waited longest, and no clause of its own choice
        (
            b"dill 1\nprogram late 1\nyield\nb0 = chrecv n0 1 -1\nend\nprogram early 1\nb0 = chrecv n0 1 -1\n\
              end\nprogram main 0\nn0 n1 = chmake\nn2 = go late n1\nn3 = go early n1\nyield\n\
              chsend n0 \"a\" -1\nchsend n0 \"b\" -1\ntry choose 0 send n0 \"x\" recv n1 1\nend\n",
            Status::Well,
            "1 start =0\n1 chmake =1,2\n1 go =3\n2 start =0\n1 go =4\n3 start =0\n2 yield =0\n1 yield =0\n\
             1 chsend =0\n3 chrecv #1:61\n3 end ok\n1 chsend =0\n2 chrecv #1:62\n2 end ok\n1 choose ETIMEDOUT\n\
             1 end ok\nfreed 4\nfreed 3\nfreed 2\nfreed 1\n\
             summary status=0 errno=none turns=13 rounds=1 closing=0 made=4 gone=4 lacks=0\n",
        ),
        // a request and its reply over one channel
        (
            b"dill 1\nprogram k 1\nb0 = chrecv n0 1 -1\nchsend n0 \"b\" -1\nend\nprogram main 0\n\
              n0 n1 = chmake\nn2 = go k n1\nchsend n0 \"a\" -1\nb0 = chrecv n0 1 -1\nend\n",
            Status::Well,
            "1 start =0\n1 chmake =1,2\n1 go =3\n2 start =0\n1 chsend =0\n2 chrecv #1:61\n1 chrecv #1:62\n\
             1 end ok\n2 chsend =0\n2 end ok\nfreed 3\nfreed 2\nfreed 1\n\
             summary status=0 errno=none turns=8 rounds=1 closing=0 made=3 gone=3 lacks=0\n",
        ),
        // a choice that was met waits in no other clause
        (
            b"dill 1\nprogram c 2\nn2 b0 = choose -1 recv n0 1 recv n1 1\nend\nprogram main 0\nn0 n1 = chmake\n\
              n2 n3 = chmake\nn4 = go c n1 n3\nyield\nchsend n0 \"a\" -1\ntry chsend n2 \"b\" 0\nend\n",
            Status::Well,
            "1 start =0\n1 chmake =1,2\n1 chmake =3,4\n1 go =5\n2 start =0\n1 yield =0\n1 chsend =0\n\
             2 choose @0 #1:61\n2 end ok\n1 chsend ETIMEDOUT\n1 end ok\nfreed 5\nfreed 4\nfreed 3\nfreed 2\n\
             freed 1\nsummary status=0 errno=none turns=9 rounds=1 closing=0 made=5 gone=5 lacks=0\n",
        ),
        // choices whose sizes differ
        (
            b"dill 1\nprogram c 2\ntry n2 b0 = choose -1 recv n0 1 recv n1 2\nend\nprogram main 0\n\
              n0 n1 = chmake\nn2 n3 = chmake\nn4 = go c n1 n3\nyield\n\
              try n5 b0 = choose -1 send n2 \"b\" send n0 \"a\"\nend\n",
            Status::Well,
            "1 start =0\n1 chmake =1,2\n1 chmake =3,4\n1 go =5\n2 start =0\n1 yield =0\n1 choose @0 EMSGSIZE\n\
             1 end ok\n2 choose @1 EMSGSIZE\n2 end ok\nfreed 5\nfreed 4\nfreed 3\nfreed 2\nfreed 1\n\
             summary status=0 errno=none turns=8 rounds=1 closing=0 made=5 gone=5 lacks=0\n",
        ),
    ];
    for run in runs {
        traces(&rt, run)?;
    }
    Ok(())
}

#[test]
fn channels_and_deadlines(rt: HostRuntime) -> Result<(), Fail> {
    let runs: [Run; 4] = [
        // a deadline that passes
        (
            b"dill 1\nprogram main 0\nn0 n1 = chmake\ntry chsend n0 \"x\" +5\ntry chrecv n1 1 +5\n\
              try n2 b0 = choose 20 send n0 \"x\" recv n1 1\ntry choose 20 recv n1 1\nend\n",
            Status::Well,
            "1 start =0\n1 chmake =1,2\n1 chsend ETIMEDOUT\n1 chrecv ETIMEDOUT\n1 choose ETIMEDOUT\n\
             1 choose ETIMEDOUT\n1 end ok\nfreed 2\nfreed 1\n\
             summary status=0 errno=none turns=6 rounds=4 closing=0 made=2 gone=2 lacks=0\n",
        ),
        // nobody is met behind the deadline
        (
            b"dill 1\nprogram s 1\ntry chsend n0 \"x\" +5\nend\nprogram main 0\nn0 n1 = chmake\nn2 = go s n0\n\
              msleep +5\ntry chrecv n1 1 0\nend\n",
            Status::Well,
            "1 start =0\n1 chmake =1,2\n1 go =3\n2 start =0\n1 msleep =0\n2 chsend ETIMEDOUT\n2 end ok\n\
             1 chrecv ETIMEDOUT\n1 end ok\nfreed 3\nfreed 2\nfreed 1\n\
             summary status=0 errno=none turns=7 rounds=2 closing=0 made=3 gone=3 lacks=0\n",
        ),
        // who waits is met, though the deadline has passed
        (
            b"dill 1\nprogram s 1\nchsend n0 \"x\" -1\nend\nprogram main 0\nn0 n1 = chmake\nn2 = go s n0\n\
              yield\nchrecv n1 1 0\nend\n",
            Status::Well,
            "1 start =0\n1 chmake =1,2\n1 go =3\n2 start =0\n1 yield =0\n1 chrecv #1:78\n1 end ok\n2 chsend =0\n\
             2 end ok\nfreed 3\nfreed 2\nfreed 1\n\
             summary status=0 errno=none turns=7 rounds=1 closing=0 made=3 gone=3 lacks=0\n",
        ),
        // nobody is left to be met
        (
            b"dill 1\nprogram c 1\nchoose -1 recv n0 1\nend\nprogram main 0\nn0 n1 = chmake\nn2 = go c n1\n\
              chsend n1 \"x\" -1\nend\n",
            Status::Stuck,
            "1 start =0\n1 chmake =1,2\n1 go =3\n2 start =0\nwaiting 1 chsend\nwaiting 2 choose\n\
             1 chsend ECANCELED\n1 end ECANCELED\n2 choose ECANCELED\n2 end ECANCELED\nfreed 3\nfreed 2\n\
             freed 1\nsummary status=8 errno=none turns=4 rounds=1 closing=2 made=3 gone=3 lacks=0\n",
        ),
    ];
    for run in runs {
        traces(&rt, run)?;
    }
    Ok(())
}
