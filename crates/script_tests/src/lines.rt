use dill_calls::Word;
use dill_script::{Dest, Keyword, Num, Operand, Order, Statement};
use relay_lines::{Line, Tokens, has_tokens, heading_of, is_line, line_of, tokens};
use std::alloc::Global;
use std::process::Abort;
use std::test::Fail;

/// What becomes of a line.
#[derive(Clone, Copy, Debug, PartialEq, Eq)]
enum Fate {
    BadText,
    UnknownWord,
    BadOperand,
    Opens,
    Ends,
    Says,
}

fn fate_of(alloc: Global, line: &[u8]) -> Result<Fate, Fail> {
    let Some(tokens) = tokens(alloc, line)? else {
        return Ok(Fate::BadText);
    };
    let heading = heading_of(alloc, tokens.as_slice())?;
    if heading.keyword().is_none() {
        return Ok(Fate::UnknownWord);
    }
    match line_of(alloc, &heading)? {
        Some(Line::Opens(_, _)) => Ok(Fate::Opens),
        Some(Line::Ends) => Ok(Fate::Ends),
        Some(Line::Says(_)) => Ok(Fate::Says),
        None => Ok(Fate::BadOperand),
    }
}

fn meets(rt: &(impl Abort + AllocGlobal), lines: &[&[u8]], want: Fate) -> Result<(), Fail> {
    for line in lines {
        assert_eq!(rt; fate_of(rt.alloc(), line)?, want, "{line:?}");
    }
    Ok(())
}

#[test]
fn lines_of_every_form_are_read(rt: HostRuntime) -> Result<(), Fail> {
    meets(
        &rt,
        &[b"program server 1", b"program main 0", b"program a_1 16"],
        Fate::Opens,
    )?;
    meets(
        &rt,
        &[b"end", b"\tend  # of the loop", b"end #"],
        Fate::Ends,
    )?;
    let lines: [&[u8]; 32] = [
        b"loop",
        b"loop n15",
        b"n1 = tcp_accept n0 -1",
        b"n1 = prefix_attach n1 2 big",
        b"b0 = mrecv n1 65536 +1000",
        b"msend n1 \"hello\" -1",
        b"try hclose n1",
        b"n0 = tcp_listen 127.0.0.1:7000 16",
        b"n1 = go server give n0 5 n2",
        b"n2 = tcp_connect 255.0.0.1:65535 n3",
        b"n2 = ws_attach_client n2 text \"/\" \"127.0.0.1:7002\" +n4",
        b"ws_attach_nohttp n0 server binary",
        b"b0 b1 = http_recvrequest n0 0",
        b"n0 b1 = http_recvstatus n0 0",
        b"n0 n1 = chmake",
        b"try n0 b0 = choose -1 send n1 b2 recv n1 9223372036854775807",
        b"choose 0",
        b"print \"\" b0 n3 \"\\x41\\\"\\\\\\n\\r\\t\"",
        b"set n0 0",
        b"try set b0 \"a\"",
        b"try join b15 b0",
        b"add n0 n1",
        b"sub n0 1",
        b"len n0 b0",
        b"if n0 <= 10",
        b"if b0 != \"a\"",
        b"if err EHOSTUNREACH",
        b"if err none",
        b"else",
        b"fail EPIPE",
        b"finally",
        b"break",
    ];
    meets(&rt, &lines, Fate::Says)
}

#[test]
fn faulty_lines_are_told_apart(rt: HostRuntime) -> Result<(), Fail> {
    let texts: [&[u8]; 6] = [
        b"print \"a",
        b"print \"a\"b",
        b"print \"\\q\"",
        b"print \"\\x4\"",
        b"print \"\\x4",
        b"print \"a\\",
    ];
    meets(&rt, &texts, Fate::BadText)?;
    let words: [&[u8]; 8] = [
        b"frob 1",
        b"Print",
        b"\"end\"",
        b"try",
        b"= now",
        b"n0 =",
        b"n0 now",
        b"n0 = n1 = now",
    ];
    meets(&rt, &words, Fate::UnknownWord)?;
    let operands: [&[u8]; 34] = [
        b"program Main 0",
        b"program main 1",
        b"program a 17",
        b"program aaaaaaaaaaaaaaaaaaaaaaaaaaaaaaaaa 0",
        b"end 1",
        b"try end",
        b"n0 = end",
        b"set n16 1",
        b"set n0 01",
        b"set n0 9223372036854775808",
        b"set n0 \"1\"",
        b"try set n0 1",
        b"n1 = set n0 1",
        b"try add n0 1",
        b"b0 = now",
        b"n0 n1 = now",
        b"msleep",
        b"msleep -2",
        b"msleep + 5",
        b"tcp_listen 1.2.3:80 1",
        b"tcp_listen 1.2.3.4.5:80 1",
        b"tcp_listen 1.2.3.256:80 1",
        b"tcp_listen 1.2.3.4:0 1",
        b"tcp_listen 1.2.3.4:65536 1",
        b"tcp_listen 1.2.3.4:8:0 1",
        b"choose -1 send n0",
        b"go a give 5",
        b"prefix_attach n0 2 BIG",
        b"print",
        b"print b0 b0 b0 b0 b0 b0 b0 b0 b0 b0 b0 b0 b0 b0 b0 b0 b0",
        b"if n0 == 1",
        b"if b0 < \"a\"",
        b"if err epipe",
        b"fail none",
    ];
    meets(&rt, &operands, Fate::BadOperand)
}

#[test]
fn bytes_and_comments_of_lines(rt: HostRuntime) {
    let cases: [(&[u8], bool, bool); 6] = [
        (b"", true, false),
        (b" \t ", true, false),
        (b"  # end", true, false),
        (b"\tend", true, true),
        (b"end\r", false, true),
        (b"\x7f", false, true),
    ];
    for (line, fits, has) in cases {
        assert_eq!(rt; is_line(line), fits, "{line:?}");
        assert_eq!(rt; has_tokens(line), has, "{line:?}");
    }
}

/// A line with each of its parts.
const WHOLE: &[u8] = b" try b0\tb1 = http_recvfield n0 \"#\\x7A\" # more";

fn cut(alloc: Global, line: &[u8]) -> Result<Tokens, Fail> {
    match tokens(alloc, line)? {
        Some(tokens) => Ok(tokens),
        None => Err(Fail::from("no tokens")),
    }
}

#[test]
fn a_line_is_cut_into_tokens(rt: HostRuntime) -> Result<(), Fail> {
    let tokens = cut(rt.alloc(), WHOLE)?;
    let parts: [(Option<&[u8]>, Option<&[u8]>); 7] = [
        (Some(b"try"), None),
        (Some(b"b0"), None),
        (Some(b"b1"), None),
        (Some(b"="), None),
        (Some(b"http_recvfield"), None),
        (Some(b"n0"), None),
        (None, Some(b"#z")),
    ];
    assert_eq!(rt; tokens.as_slice().len(), parts.len());
    for (token, (plain, text)) in tokens.as_slice().iter().zip(parts) {
        assert_eq!(rt; token.plain(), plain);
        assert_eq!(rt; token.text(), text);
    }
    Ok(())
}

#[test]
fn a_heading_has_its_parts(rt: HostRuntime) -> Result<(), Fail> {
    let tokens = cut(rt.alloc(), WHOLE)?;
    let heading = heading_of(rt.alloc(), tokens.as_slice())?;
    assert!(rt; heading.tried());
    assert_eq!(rt; (heading.targets().len(), heading.operands().len()), (2, 2));
    match heading.keyword() {
        Some(Keyword::Call(word)) => {
            assert_eq!(rt; word.name(), b"http_recvfield".as_slice());
            Ok(())
        }
        _ => Err(Fail::from("no call")),
    }
}

#[test]
fn a_call_has_its_operands(rt: HostRuntime) -> Result<(), Fail> {
    let tokens = cut(rt.alloc(), b"n3 = prefix_attach n1 2 big")?;
    let heading = heading_of(rt.alloc(), tokens.as_slice())?;
    let line = line_of(rt.alloc(), &heading)?;
    let Some(Line::Says(Statement::Call { tried, dest, form })) = line else {
        return Err(Fail::from("no call"));
    };
    assert_eq!(rt; tried, false);
    assert_eq!(rt; dest, Some(Dest::Number(3)));
    assert_eq!(rt; form.word, Word::PrefixAttach);
    let operands = form.operands.as_slice();
    assert_eq!(rt; operands.len(), 3);
    assert!(rt; matches!(&operands[0], Operand::Num(Num::Register(1))));
    assert!(rt; matches!(&operands[1], Operand::Num(Num::Literal(2))));
    assert!(rt; matches!(&operands[2], Operand::Order(Order::Big)));
    Ok(())
}
