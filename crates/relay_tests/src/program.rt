use crate::cases::{Case, End, does, ends, ends_over, plain};
use dill_base::Status;
use dill_kernel::{KernelFault, KernelReply, ReplayKernel};
use std::process::Abort;
use std::test::Fail;

const TWO_PRINTS: &[u8] = b"dill 1\nprogram main 0\nprint \"hello\"\nprint \"bye\"\nend\n";

#[test]
fn two_prints(rt: HostRuntime) -> Result<(), Fail> {
    let shown =
        "hello\nbye\nsummary status=0 errno=none turns=3 rounds=1 closing=0 made=0 gone=0 lacks=0\n";
    let well = End {
        status: Status::Well,
        shown,
        said: "",
    };
    ends(&rt, "x", plain(TWO_PRINTS), well)?;
    let traced = Case {
        traced: true,
        ..plain(TWO_PRINTS)
    };
    let lines = "1 start =0\nhello\n1 print =0\nbye\n1 print =0\n1 end ok\n\
        summary status=0 errno=none turns=3 rounds=1 closing=0 made=0 gone=0 lacks=0\n";
    ends(
        &rt,
        "x",
        traced,
        End {
            shown: lines,
            ..well
        },
    )
}

#[test]
fn refused_scripts(rt: HostRuntime) -> Result<(), Fail> {
    let cases: [(&[u8], &str); 12] = [
        (b"", "dillrelay: script line 1: no version\n"),
        (b"dill 2\n", "dillrelay: script line 1: no version\n"),
        (b"dill 1\n", "dillrelay: script line 1: no main\n"),
        (b"dill 1", "dillrelay: script line 1: no main\n"),
        (
            b"dill 1\nprogram main 1\nend\n",
            "dillrelay: script line 2: bad operand\n",
        ),
        (
            b"dill 1\nprogram main 0\nprint \"a\"\ntcp_done 1 -1\nend\n",
            "dillrelay: script line 4: not built\n",
        ),
        (
            b"dill 1\nprogram main 0\nprint \"a\"\n",
            "dillrelay: script line 3: bad block\n",
        ),
        (
            b"dill 1\nprogram main 0\nwrite \"a\"\nend\n",
            "dillrelay: script line 3: unknown word\n",
        ),
        (
            b"dill 1\nprogram main 0\nprint \"a\nend\n",
            "dillrelay: script line 3: bad text\n",
        ),
        (
            b"dill 1\nprogram main 0\nprint \x07\nend\n",
            "dillrelay: script line 3: bad byte\n",
        ),
        (
            b"dill 1\nprogram main 0\nend\nprogram main 0\nend\n",
            "dillrelay: script line 4: repeated name\n",
        ),
        (
            b"dill 1\nprogram main 0\ngo child\nend\n",
            "dillrelay: script line 3: no program\n",
        ),
    ];
    for (script, said) in cases {
        let end = End {
            status: Status::Script,
            shown: "",
            said,
        };
        ends(&rt, "x", plain(script), end)?;
    }
    Ok(())
}

#[test]
fn too_large_scripts_are_refused(rt: HostRuntime) -> Result<(), Fail> {
    let alloc = rt.alloc();
    let large = vec![in alloc; b'a'; 1_048_577]?;
    let end = End {
        status: Status::Script,
        shown: "",
        said: "dillrelay: script line 1: too large\n",
    };
    ends(&rt, "x", plain(large.as_slice()), end)?;
    let mut many = Vec::from_slice(alloc, b"dill 1\nprogram main 0\n")?;
    for _line in 0..4097 {
        many.extend_from_slice(b"print \"a\"\n")?;
    }
    many.extend_from_slice(b"end\n")?;
    let line = End {
        said: "dillrelay: script line 4099: too large\n",
        ..end
    };
    ends(&rt, "x", plain(many.as_slice()), line)
}

#[test]
fn failed_output_and_shelf(rt: HostRuntime) -> Result<(), Fail> {
    let row = plain(TWO_PRINTS);
    let unwritten = End {
        status: Status::Sink,
        shown: "hello\n",
        said: "dillrelay: output not written\n",
    };
    ends(
        &rt,
        "x",
        Case {
            out_fails: 2,
            ..row
        },
        unwritten,
    )?;
    let silent = End {
        shown: "",
        ..unwritten
    };
    ends(
        &rt,
        "x",
        Case {
            out_fails: 1,
            ..row
        },
        silent,
    )?;
    let unsaid = End {
        said: "",
        ..unwritten
    };
    ends(
        &rt,
        "x",
        Case {
            out_fails: 2,
            err_fails: 1,
            ..row
        },
        unsaid,
    )?;
    let unread = End {
        status: Status::Shelf,
        shown: "",
        said: "dillrelay: script not read\n",
    };
    ends(
        &rt,
        "x",
        Case {
            shelf_fails: 1,
            ..row
        },
        unread,
    )?;
    ends(
        &rt,
        "x",
        Case {
            shelf_fails: 2,
            ..row
        },
        unread,
    )?;
    ends(&rt, "y", row, unread)
}

#[test]
fn a_failed_wait_and_a_spent_budget_close_the_program(rt: HostRuntime) -> Result<(), Fail> {
    let row = plain(TWO_PRINTS);
    let unwoken = End {
        status: Status::Wait,
        shown: "hello\nbye\nsummary status=9 errno=none turns=0 rounds=1 closing=3 made=0 gone=0 lacks=0\n",
        said: "dillrelay: wait failed\n",
    };
    let replies = vec![in rt.alloc(); KernelReply::Failed(KernelFault::Other)]?;
    let mut kernel = ReplayKernel::new(rt.alloc(), replies);
    ends_over(&rt, "x", row, &mut kernel, unwoken)?;
    assert_eq!(rt; kernel.history().unwrap_or(&[]).len(), 1);
    let spent = End {
        status: Status::Spent,
        shown: "hello\nbye\nsummary status=7 errno=none turns=1 rounds=1 closing=2 made=0 gone=0 lacks=0\n",
        said: "",
    };
    ends(&rt, "x", Case { turns: 2, ..row }, spent)
}

const SUMMARY: &str =
    "hello\nbye\nsummary status=0 errno=none turns=3 rounds=1 closing=0 made=0 gone=0 lacks=0\n";

#[test]
fn words_say_what_is_done(rt: HostRuntime) -> Result<(), Fail> {
    let runs = End {
        status: Status::Well,
        shown: SUMMARY,
        said: "",
    };
    let traces = End {
        shown: "1 start =0\nhello\n1 print =0\nbye\n1 print =0\n1 end ok\n\
            summary status=0 errno=none turns=3 rounds=1 closing=0 made=0 gone=0 lacks=0\n",
        ..runs
    };
    let spent = End {
        status: Status::Spent,
        shown: "hello\nbye\nsummary status=7 errno=none turns=1 rounds=1 closing=2 made=0 gone=0 lacks=0\n",
        said: "",
    };
    let unread = End {
        status: Status::Shelf,
        shown: "",
        said: "dillrelay: script not read\n",
    };
    let refused = End {
        status: Status::Words,
        shown: "",
        said: "usage: dillrelay [--mode run|trace|check|load] [--net real|loop] [--turns N] [--cut N] SCRIPT\n",
    };
    let cases: [(&[&str], End<'_>); 11] = [
        (&["x"], runs),
        (&["x", "--net", "loop", "--mode=run"], runs),
        (&["--mode", "trace", "x"], traces),
        (&["--mode=trace", "--net=loop", "--", "x"], traces),
        (&["--turns", "2", "x"], spent),
        (&["y"], unread),
        (&[], refused),
        (&["-x"], refused),
        (&["x", "x"], refused),
        (&["--turns", "0", "x"], refused),
        (&["--mode", "load", "5"], refused),
    ];
    for (args, end) in cases {
        does(&rt, args, TWO_PRINTS, 0, end)?;
    }
    Ok(())
}

#[test]
fn canonical_text(rt: HostRuntime) -> Result<(), Fail> {
    let text = b"dill 1\n\n  program main 0 # go\nprint   \"a\\x41\"\nend";
    let canonical = End {
        status: Status::Well,
        shown: "dill 1\nprogram main 0\nprint \"aA\"\nend\n",
        said: "",
    };
    does(&rt, &["--mode", "check", "x"], text, 0, canonical)?;
    let refused = End {
        status: Status::Script,
        shown: "",
        said: "dillrelay: script line 2: bad block\n",
    };
    does(&rt, &["--mode", "check", "x"], b"dill 1\nend\n", 0, refused)
}

#[test]
fn a_shelf_that_fails_is_no_want_of_memory_where_a_script_is_checked(
    rt: HostRuntime,
) -> Result<(), Fail> {
    let unread = End {
        status: Status::Shelf,
        shown: "",
        said: "dillrelay: script not read\n",
    };
    let start = 1;
    let first_read = 2;
    let second_read = 3;
    for call in [start, first_read, second_read] {
        does(&rt, &["--mode", "check", "x"], TWO_PRINTS, call, unread)?;
    }
    Ok(())
}
