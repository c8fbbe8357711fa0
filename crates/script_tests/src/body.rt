ghost use Rattle.std.specs.Prelude.{◌≡◌, true, IfOk};
ghost use Rattle.std.specs.Rc.{rc_value};
ghost use Rattle.relay_body.specs.Running.{is_runnable};

use crate::values::{memory, octets};
use dill_base::Errno;
use dill_calls::{Answer, Body};
use dill_script::Script;
use relay_body::{ScriptBody, scripts_begin};
use relay_reader::read_script;
use std::alloc::Global;
use std::process::Abort;
use std::rc::Rc;
use std::test::Fail;

/// The script of a text. What is read can be run.
fn script_of(alloc: Global, text: &[u8]) -> Result<Rc<Script>, Fail>
    ensures { IfOk result (λ script. is_runnable (rc_value script) ≡ true) }
{
    scripts_begin();
    let Ok(script) = read_script(alloc, text) else {
        return Err(Fail::from("refused"));
    };
    Ok(Rc::new(alloc, script)?)
}

/// `main` of a script before its first turn.
fn begin(alloc: Global, text: &[u8]) -> Result<ScriptBody, Fail> {
    memory(ScriptBody::first(alloc, script_of(alloc, text)?))
}

/// The program behind `main` before its first turn.
fn begin_next(alloc: Global, text: &[u8], args: &[u64]) -> Result<ScriptBody, Fail> {
    let main = begin(alloc, text)?;
    if main.knows(1, args.len()) {
        return memory(main.child(1, args));
    }
    Err(Fail::from("unknown"))
}

/// Gives the answers in their order. Each leads to what stands beside it, and leaves so much to be answered.
fn plays(
    rt: &impl Abort,
    alloc: Global,
    mut body: ScriptBody,
    table: Vec<(Answer, &'static str, u64)>,
) -> Result<(), Fail> {
    let most = body.most();
    assert_eq!(rt; body.left(), most);
    for (given, want, left) in table {
        let next = body.turn(given);
        let told = format!(in alloc; "{next:?}")?;
        assert_eq!(rt; told.as_str(), want);
        assert_eq!(rt; body.left(), left, "{want}");
        assert_eq!(rt; body.most(), most);
    }
    Ok(())
}

#[test]
fn a_loop_runs_its_rounds_and_goes_on_behind_its_end(rt: HostRuntime) -> Result<(), Fail> {
    let alloc = rt.alloc();
    let text = b"dill 1
program main 0
  set n0 2
  loop n0
    add n0 5
    msleep n0
  end
  now
end
";
    let table = vec![in alloc;
        (Answer::Number(0), "Call(Msleep(At(7)))", 3),
        (Answer::Number(0), "Call(Yield)", 2),
        (Answer::Number(0), "Call(Msleep(At(12)))", 3),
        (Answer::Number(0), "Call(Now)", 1),
        (Answer::Number(9), "End(None)", 1),
    ]?;
    plays(&rt, alloc, begin(alloc, text)?, table)
}

#[test]
fn break_leaves_the_innermost_loop_and_a_loop_of_no_rounds_is_passed(
    rt: HostRuntime,
) -> Result<(), Fail> {
    let alloc = rt.alloc();
    let text = b"dill 1
program main 0
  loop
    loop 0
      now
    end
    n1 = now
    if n1 >= 5
      loop 2
        break
      end
      break
    else
      msleep +1
    end
  end
  yield
end
";
    let table = vec![in alloc;
        (Answer::Number(0), "Call(Now)", 5),
        (Answer::Number(4), "Call(Msleep(After(1)))", 3),
        (Answer::Number(0), "Call(Yield)", 2),
        (Answer::Number(0), "Call(Now)", 5),
        (Answer::Number(5), "Call(Yield)", 1),
        (Answer::Number(0), "End(None)", 1),
    ]?;
    plays(&rt, alloc, begin(alloc, text)?, table)
}

/// Loops that are written one behind the other take the same four slots.
#[test]
fn loops_are_four_deep_and_any_number_behind_each_other(rt: HostRuntime) -> Result<(), Fail> {
    let alloc = rt.alloc();
    let text = b"dill 1
program main 0
  loop 2
    loop 1
      loop 1
        loop 1
          now
        end
      end
    end
  end
  loop 1
    loop 1
      loop 1
        loop
          yield
          break
        end
      end
    end
    msleep +1
  end
end
";
    let table = vec![in alloc;
        (Answer::Number(0), "Call(Now)", 11),
        (Answer::Number(0), "Call(Yield)", 7),
        (Answer::Number(0), "Call(Now)", 11),
        (Answer::Number(0), "Call(Yield)", 6),
        (Answer::Number(0), "Call(Msleep(After(1)))", 2),
        (Answer::Number(0), "End(None)", 1),
    ]?;
    plays(&rt, alloc, begin(alloc, text)?, table)
}

#[test]
fn try_sets_err_and_a_fault_without_it_leads_to_finally(rt: HostRuntime) -> Result<(), Fail> {
    let alloc = rt.alloc();
    let text = b"dill 1
program main 0
  try msleep +1
  if err ETIMEDOUT
    try msleep +2
  end
  if err none
    msleep +3
  end
  msleep +4
finally
  try msleep +5
  if err EBUSY
    msleep +6
  end
  msleep +7
end
";
    let table = vec![in alloc;
        (Answer::Number(0), "Call(Msleep(After(1)))", 7),
        (Answer::Fault(Errno::Etimedout), "Call(Msleep(After(2)))", 6),
        (Answer::Number(0), "Call(Msleep(After(3)))", 5),
        (Answer::Fault(Errno::Ecanceled), "Call(Msleep(After(5)))", 3),
        (Answer::Fault(Errno::Ebusy), "Call(Msleep(After(6)))", 2),
        (Answer::Fault(Errno::Epipe), "End(Some(Ecanceled))", 1),
    ]?;
    plays(&rt, alloc, begin(alloc, text)?, table)
}

#[test]
fn a_fault_of_the_end_of_a_loop_leads_to_finally(rt: HostRuntime) -> Result<(), Fail> {
    let alloc = rt.alloc();
    let text = b"dill 1
program main 0
  loop
    try now
  end
  fail EPIPE
finally
  now
end
";
    let table = vec![in alloc;
        (Answer::Number(0), "Call(Now)", 3),
        (Answer::Fault(Errno::Ecanceled), "Call(Yield)", 2),
        (Answer::Fault(Errno::Ecanceled), "Call(Now)", 1),
        (Answer::Number(3), "End(Some(Ecanceled))", 1),
    ]?;
    plays(&rt, alloc, begin(alloc, text)?, table)
}

#[test]
fn return_leads_to_finally_and_the_program_ends_well(rt: HostRuntime) -> Result<(), Fail> {
    let alloc = rt.alloc();
    let text = b"dill 1
program main 0
  if n0 < 1
    return
  end
  fail EPIPE
finally
  bundle
end
";
    let table = vec![in alloc;
        (Answer::Number(0), "Call(Bundle)", 1),
        (Answer::Number(3), "End(None)", 1),
    ]?;
    plays(&rt, alloc, begin(alloc, text)?, table)
}

#[test]
fn bytes_are_set_and_joined_up_to_the_limit(rt: HostRuntime) -> Result<(), Fail> {
    let alloc = rt.alloc();
    let text = b"dill 1
program main 0
  set b1 \"a\"
  loop 20
    join b1 b1
  end
  try join b1 \"b\"
  if err EMSGSIZE
    len n0 b1
  end
  sub n0 1048570
  set b2 \"ok \"
  join b2 \"so\"
  if b2 = \"ok so\"
    print b2 n0 \"!\"
  end
end
";
    let mut table = vec![in alloc; (Answer::Number(0), "Call(Pass(Set, None))", 7)]?;
    for _round in 0..19u8 {
        table.push((Answer::Number(0), "Call(Pass(Join, None))", 6))?;
        table.push((Answer::Number(0), "Call(Yield)", 5))?;
    }
    table.push((Answer::Number(0), "Call(Pass(Join, None))", 6))?;
    table.push((Answer::Number(0), "Call(Pass(Join, Some(Emsgsize)))", 4))?;
    table.push((Answer::Fault(Errno::Emsgsize), "Call(Pass(Set, None))", 3))?;
    table.push((Answer::Number(0), "Call(Pass(Join, None))", 2))?;
    table.push((
        Answer::Number(0),
        "Call(Print(Octets { bytes: [111, 107, 32, 115, 111, 54, 33] }))",
        1,
    ))?;
    table.push((Answer::Number(0), "End(None)", 1))?;
    plays(&rt, alloc, begin(alloc, text)?, table)
}

/// `main` is program 0, and `kid` program 1.
#[test]
fn each_call_has_its_operands(rt: HostRuntime) -> Result<(), Fail> {
    let alloc = rt.alloc();
    let text = b"dill 1
program main 0
end
program kid 2
  n1 = now
  n2 = hmake 300 n1
  hquery n2 300
  n2 = hown n2
  n3 = go kid 8 give n2
  bundle_go n3 main
  try bundle_wait n3 -1
  hclose n3
end
";
    let table = vec![in alloc;
        (Answer::Number(0), "Call(Now)", 8),
        (Answer::Number(40), "Call(Hmake(300, 40))", 7),
        (Answer::Number(2), "Call(Hquery(2, 300))", 6),
        (Answer::Number(40), "Call(Hown(2))", 5),
        (
            Answer::Number(3),
            "Call(Go(1, Sequence { items: [Show(8), Give(3)] }))",
            4
        ),
        (
            Answer::Number(4),
            "Call(BundleGo(4, 0, Sequence { items: [] }))",
            3
        ),
        (Answer::Number(0), "Call(BundleWait(4, Never))", 2),
        (Answer::Fault(Errno::Ecanceled), "Call(Hclose(4))", 1),
        (Answer::Number(0), "End(None)", 1),
    ]?;
    plays(&rt, alloc, begin_next(alloc, text, &[0, 0])?, table)
}

#[test]
fn calls_of_channels_have_their_operands_and_keep_their_answers(
    rt: HostRuntime,
) -> Result<(), Fail> {
    let alloc = rt.alloc();
    let text = b"dill 1
program main 0
  n0 n1 = chmake
  set b0 \"hi\"
  try chsend n0 b0 +20
  b1 = chrecv n1 n0 -1
  n2 b1 = choose 9 send n0 b1 recv n1 4
  n2 b1 = choose -1 recv n1 n2
  print n2 b1
  chdone n0
end
";
    let came = octets(alloc, b"abc")?;
    let chosen = octets(alloc, b"xy")?;
    let table = vec![in alloc;
        (Answer::Number(0), "Call(Chmake)", 8),
        (Answer::Pair(3, 4), "Call(Pass(Set, None))", 7),
        (
            Answer::Number(0),
            "Call(Chsend(3, Octets { bytes: [104, 105] }, After(20)))",
            6
        ),
        (
            Answer::Fault(Errno::Etimedout),
            "Call(Chrecv(4, 3, Never))",
            5
        ),
        (
            Answer::Bytes(came),
            "Call(Choose(At(9), Sequence { items: [Send(3, Octets { bytes: [97, 98, 99] }), Recv(4, 4)] }))",
            4
        ),
        (
            Answer::Chosen {
                index: 7,
                fault: None,
                bytes: None
            },
            "Call(Choose(Never, Sequence { items: [Recv(4, 7)] }))",
            3
        ),
        (
            Answer::Chosen {
                index: 1,
                fault: None,
                bytes: Some(chosen)
            },
            "Call(Print(Octets { bytes: [49, 120, 121] }))",
            2
        ),
        (Answer::Number(0), "Call(Chdone(3))", 1),
        (Answer::Number(0), "End(None)", 1),
    ]?;
    plays(&rt, alloc, begin(alloc, text)?, table)
}

/// Its index is kept, and a byte register stays as it was where no bytes came.
#[test]
fn the_errno_of_a_clause_is_a_fault_of_its_choice(rt: HostRuntime) -> Result<(), Fail> {
    let alloc = rt.alloc();
    let text = b"dill 1
program main 0
  set b0 \"a\"
  try n0 b0 = choose 0 recv 2 1 recv 4 1
  if err EBADF
    n0 b0 = choose -1
  end
  now
finally
  print n0 b0
end
";
    let table = vec![in alloc;
        (Answer::Number(0), "Call(Pass(Set, None))", 5),
        (
            Answer::Number(0),
            "Call(Choose(At(0), Sequence { items: [Recv(2, 1), Recv(4, 1)] }))",
            4
        ),
        (
            Answer::Chosen {
                index: 1,
                fault: Some(Errno::Ebadf),
                bytes: None
            },
            "Call(Choose(Never, Sequence { items: [] }))",
            3
        ),
        (
            Answer::Chosen {
                index: 5,
                fault: Some(Errno::Epipe),
                bytes: None
            },
            "Call(Print(Octets { bytes: [53, 97] }))",
            1
        ),
        (Answer::Number(0), "End(Some(Epipe))", 1),
    ]?;
    plays(&rt, alloc, begin(alloc, text)?, table)
}

/// `kid` sleeps for its second argument if its first is 6.
#[test]
fn a_child_has_its_arguments_in_its_first_registers(rt: HostRuntime) -> Result<(), Fail> {
    let alloc = rt.alloc();
    let text = b"dill 1
program main 0
end
program kid 2
  if n0 = 6
    msleep +n1
  end
end
";
    let table = vec![in alloc;
        (Answer::Number(0), "Call(Msleep(After(70)))", 1),
        (Answer::Number(0), "End(None)", 1),
    ]?;
    plays(&rt, alloc, begin_next(alloc, text, &[6, 70])?, table)
}

#[test]
fn a_program_is_known_by_its_number_and_its_arguments(rt: HostRuntime) -> Result<(), Fail> {
    let alloc = rt.alloc();
    let main = begin(alloc, b"dill 1\nprogram main 0\nend\nprogram kid 2\nend\n")?;
    for (program, args, known) in [
        (0, 0, true),
        (0, 1, false),
        (1, 2, true),
        (1, 0, false),
        (2, 0, false),
    ] {
        assert_eq!(rt; main.knows(program, args), known, "{program} {args}");
    }
    plays(
        &rt,
        alloc,
        main,
        vec![in alloc; (Answer::Number(0), "End(None)", 1)]?,
    )
}
