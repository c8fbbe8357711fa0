use crate::values::{memory, octets};
use dill_base::Octets;
use dill_script::{Program, Script, Statement, Statements};
use relay_lines::{Line, heading_of, line_of, tokens};
use relay_printer::print_script;
use relay_reader::read_script;
use std::alloc::Global;
use std::process::Abort;
use std::test::Fail;

/// The canonical text of the script that a text is.
fn printed(alloc: Global, text: &[u8]) -> Result<Octets, Fail> {
    match read_script(alloc, text) {
        Ok(script) => memory(print_script(alloc, &script)),
        Err(_) => Err(Fail::from("refused")),
    }
}

fn prints(rt: &(impl Abort + AllocGlobal), text: &[u8], want: &[u8]) -> Result<(), Fail> {
    let printed = printed(rt.alloc(), text)?;
    assert_eq!(rt; printed.as_slice(), want);
    Ok(())
}

#[test]
fn canonical_texts_are_printed_as_they_were_read(rt: HostRuntime) -> Result<(), Fail> {
    let texts: [&[u8]; 5] = [
        b"dill 1\nprogram main 0\nend\n",
        b"dill 1\nprogram main 0\nend\nprogram other_2 16\nend\n",
        // statements that are no call
        b"dill 1
program main 0
set n15 9223372036854775807
add n0 n10
sub n9 0
len n1 b12
set b3 \"\"
try set b3 b4
join b5 \"#\"
try join b6 b7
if n0 = 1
else
end
if n1 != n2
end
if n2 < 3
end
if n3 <= 4
end
if n4 > 5
end
if n5 >= 6
end
if b6 = \"x y\"
end
if b7 != b8
end
if err none
end
if err EADDRNOTAVAIL
end
loop
break
end
loop n3
end
loop 3
end
return
fail EPIPE
finally
end
",
        // texts, byte by byte
        b"dill 1
program main 0
print \"\\\"\\\\\"
print \"\\n\\r\\t\"
print \" ~!#\"
print \"\\x00\\x0b\\x1f\"
print \"\\x7f\\x80\\xff\"
end
",
        // blocks in blocks
        b"dill 1
program main 0
if n0 = 0
loop
if b0 = b0
break
else
loop 2
end
end
end
end
end
",
    ];
    for text in texts {
        prints(&rt, text, text)?;
    }
    Ok(())
}

/// The statement that a line says.
fn said(alloc: Global, line: &[u8]) -> Result<Statement, Fail> {
    if let Some(tokens) = tokens(alloc, line)? {
        let heading = heading_of(alloc, tokens.as_slice())?;
        if let Some(Line::Says(statement)) = line_of(alloc, &heading)? {
            return Ok(statement);
        }
    }
    Err(Fail::from("no statement"))
}

/// A script whose `main` has these lines.
fn script_of(alloc: Global, lines: &[&[u8]]) -> Result<Script, Fail> {
    let mut statements = Statements::new(alloc);
    for line in lines {
        memory(statements.push(said(alloc, line)?))?;
    }
    let mut script = Script::new(alloc);
    memory(script.push(Program {
        name: octets(alloc, b"main")?,
        params: 0,
        statements,
    }))?;
    Ok(script)
}

fn text_of(alloc: Global, lines: &[&[u8]]) -> Result<Octets, Fail> {
    let mut text = octets(alloc, b"dill 1\nprogram main 0\n")?;
    for line in lines {
        memory(text.push_all(line))?;
        memory(text.push_all(b"\n"))?;
    }
    memory(text.push_all(b"end\n"))?;
    Ok(text)
}

#[test]
fn lines_of_calls_are_printed_as_they_were_read(rt: HostRuntime) -> Result<(), Fail> {
    let lines: [&[u8]; 20] = [
        // what stands before a word
        b"try hclose n1",
        b"n2 = now",
        b"try n1 n2 = chmake",
        b"b0 = brecv n1 n1 5",
        b"try b1 b0 = http_recvrequest n1 0",
        b"n3 b4 = http_recvstatus n1 7",
        b"try n0 b0 = choose 9 send n1 \"s\" recv n1 4",
        // each kind of operand
        b"print n1 b2",
        b"go worker_1 n1 give n15",
        b"prefix_attach n1 8 big",
        b"prefix_attach n1 n1 little",
        b"ws_attach_nohttp n1 client text",
        b"ws_attach_nohttp n1 server binary",
        b"tcp_listen 0.0.0.0:1 n1",
        b"tcp_connect 255.10.9.100:65535 1",
        b"msleep -1",
        b"msleep 50",
        b"msleep n0",
        b"msleep +0",
        b"msleep +n12",
    ];
    let alloc = rt.alloc();
    let printed = memory(print_script(alloc, &script_of(alloc, &lines)?))?;
    assert_eq!(rt; printed.as_slice(), text_of(alloc, &lines)?.as_slice());
    Ok(())
}

#[test]
fn other_texts_are_printed_canonically(rt: HostRuntime) -> Result<(), Fail> {
    let cases: [(&[u8], &[u8]); 4] = [
        (
            b"dill 1\r\n\tprogram\tmain 0 # the first\r\nend",
            b"dill 1\nprogram main 0\nend\n",
        ),
        (
            b"dill 1\nprogram main 0\nprint   \"a\\x41\\x0A\"\nend\n",
            b"dill 1\nprogram main 0\nprint \"aA\\n\"\nend\n",
        ),
        (
            b"dill 1\nprogram main 0\nprint \"\\xFF\\x5c\\x22\"\nend\n",
            b"dill 1\nprogram main 0\nprint \"\\xff\\\\\\\"\"\nend\n",
        ),
        (
            b"dill 1\n\n\nprogram main 0\n\n  loop  #\n  end\nend\n",
            b"dill 1\nprogram main 0\nloop\nend\nend\n",
        ),
    ];
    for (text, want) in cases {
        prints(&rt, text, want)?;
    }
    Ok(())
}
