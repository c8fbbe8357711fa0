use relay_command::{Command, Mode, Net, command_of};
use std::alloc::Global;
use std::process::Abort;
use std::test::Fail;

fn said(alloc: Global, args: &[&str]) -> Result<Vec<String>, Fail> {
    let mut all = Vec::new(alloc);
    for arg in args {
        all.push(String::from_str(alloc, arg)?)?;
    }
    Ok(all)
}

/// What these arguments are, where no option is said.
fn plain(script: &str) -> Command<'_> {
    Command {
        mode: Mode::Run,
        net: Net::Real,
        turns: 1_000_000_000,
        cut: 4096,
        script,
    }
}

fn are(
    rt: &(impl Abort + AllocGlobal),
    args: &[&str],
    want: Option<Command<'_>>,
) -> Result<(), Fail> {
    let all = said(rt.alloc(), args)?;
    assert_eq!(rt; command_of(all.as_slice()), want, "{args:?}");
    Ok(())
}

#[test]
fn one_word_is_the_script(rt: HostRuntime) -> Result<(), Fail> {
    let rows: [(&[&str], &str); 8] = [
        (&["a"], "a"),
        (&["dir/a b.dill"], "dir/a b.dill"),
        (&["é"], "é"),
        (&[""], ""),
        (&["a-b=c"], "a-b=c"),
        (&["--", "--mode"], "--mode"),
        (&["--", "--"], "--"),
        (&["a", "--"], "a"),
    ];
    for (args, script) in rows {
        are(&rt, args, Some(plain(script)))?;
    }
    Ok(())
}

#[test]
fn options_stand_in_any_order_and_form(rt: HostRuntime) -> Result<(), Fail> {
    let all = Command {
        mode: Mode::Trace,
        net: Net::Loop,
        turns: 999_999_999_999_999_999,
        cut: 1,
        script: "a",
    };
    let rows: [&[&str]; 3] = [
        &[
            "--mode",
            "trace",
            "a",
            "--net=loop",
            "--cut",
            "1",
            "--turns=999999999999999999",
        ],
        &[
            "--turns",
            "999999999999999999",
            "--cut=1",
            "--net",
            "loop",
            "--mode=trace",
            "--",
            "a",
        ],
        &[
            "a",
            "--cut",
            "1",
            "--turns=999999999999999999",
            "--net=loop",
            "--mode",
            "trace",
        ],
    ];
    for args in rows {
        are(&rt, args, Some(all))?;
    }
    let check = Command {
        mode: Mode::Check,
        ..plain("x")
    };
    are(&rt, &["--mode=check", "x"], Some(check))?;
    let one = Command {
        turns: 1,
        ..plain("x")
    };
    are(&rt, &["--turns", "1", "x", "--mode=run"], Some(one))?;
    let whole = plain("x");
    are(&rt, &["--cut=4096", "--net=real", "x"], Some(whole))
}

#[test]
fn a_load_has_its_clients_over_the_network_in_memory(rt: HostRuntime) -> Result<(), Fail> {
    let rows: [(&[&str], &str, u64); 3] = [
        (
            &["--mode", "load", "--net", "real", "10000"],
            "10000",
            10_000,
        ),
        (&["1", "--mode=load"], "1", 1),
        (&["--net=loop", "--mode=load", "--", "72"], "72", 72),
    ];
    for (args, script, clients) in rows {
        let load = Command {
            mode: Mode::Load,
            net: Net::Loop,
            ..plain(script)
        };
        are(&rt, args, Some(load))?;
        assert_eq!(rt; load.clients(), Some(clients));
    }
    assert_eq!(rt; plain("10001").clients(), None);
    Ok(())
}

#[test]
fn other_words_are_no_command(rt: HostRuntime) -> Result<(), Fail> {
    let rows: [&[&str]; 34] = [
        &[],
        &["--"],
        &["-"],
        &["-x"],
        &["--help"],
        &["--mode", "run"],
        &["a", "b"],
        &["--", "a", "b"],
        &["a", "--", "b"],
        &["a", "--mode"],
        &["a", "--cut"],
        &["--mode", "--", "x"],
        &["--mode", "runs", "x"],
        &["--mode=", "x"],
        &["--mode=Run", "x"],
        &["--mod=run", "x"],
        &["--mode:run", "x"],
        &["--net", "loops", "x"],
        &["--net", "", "x"],
        &["--turns", "0", "x"],
        &["--turns", "01", "x"],
        &["--turns=1000000000000000000", "x"],
        &["--turns=99999999999999999999", "x"],
        &["--cut", "+1", "x"],
        &["--cut=0", "x"],
        &["--cut=4097", "x"],
        &["--cut= 1", "x"],
        &["--mode=run", "--mode=run", "x"],
        &["--net", "loop", "--net=real", "x"],
        &["--cut=1", "x", "--cut", "1"],
        &["--mode", "load", "0"],
        &["--mode=load", "10001"],
        &["--mode=load", "a.dill"],
        &["--mode=load", "--turns=0", "1"],
    ];
    for args in rows {
        are(&rt, args, None)?;
    }
    Ok(())
}
