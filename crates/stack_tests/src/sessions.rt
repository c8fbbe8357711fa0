use crate::acts::{bare, exactly, message, parted, sent, stood};
use crate::counting::Counter;
use crate::messages::Kind;
use dill_base::Octets;
use dill_stack::{Layer, Stack, Top};
use std::alloc::Global;
use std::test::Fail;

/// An end by the empty message is put on top of a framing.
fn cap(alloc: Global, stack: &mut Stack) -> Result<(), Fail> {
    let end = Octets::from_slice(alloc, b"")?;
    match stack.top() {
        Top::Prefix => match stack.attach(Layer::Term(end)) {
            Ok(()) => Ok(()),
            Err(_) => Err(Fail::from("attach")),
        },
        _ => Err(Fail::from("no framing")),
    }
}

/// Messages up to the peer's end; both layers are left, and three bytes are read.
fn ends(alloc: Global, log: &mut Vec<u8>, stack: &mut Stack) -> Result<(), Fail> {
    message(alloc, log, stack, 10)?;
    message(alloc, log, stack, 10)?;
    parted(log, stack)?;
    parted(log, stack)?;
    exactly(alloc, log, stack, 3)
}

fn ended(alloc: Global, bytes: &[u8]) -> Result<Vec<u8>, Fail> {
    let mut stack = stood(alloc, bytes, Kind::Prefix(2, false))?;
    cap(alloc, &mut stack)?;
    let mut log = Vec::new(alloc);
    ends(alloc, &mut log, &mut stack)?;
    Ok(log)
}

#[test]
fn an_end_by_a_terminal_message_leaves_what_is_unread(rt: HostRuntime) -> Result<(), Fail> {
    let told = ended(rt.alloc(), b"\x00\x01a\x00\x00xyz")?;
    assert_eq!(rt;
        told.as_slice(),
        b"a;EPIPE;\0\0;number;;number;xyz;" as &[u8]
    );
    Ok(())
}

/// What a message is sent as.
fn spelled(alloc: Global, kind: Kind, text: &[u8]) -> Result<Vec<u8>, Fail> {
    let mut stack = stood(alloc, b"", kind)?;
    let mut log = Vec::new(alloc);
    sent(&mut log, &mut stack, text)?;
    Ok(log)
}

#[test]
fn a_message_is_sent_in_its_framing(rt: HostRuntime) -> Result<(), Fail> {
    let alloc = rt.alloc();
    let table = [
        (
            Kind::Prefix(2, false),
            b"hello" as &[u8],
            b"\0\x05hello;" as &[u8],
        ),
        (Kind::Prefix(2, true), b"hello", b"\x05\0hello;"),
        (Kind::Prefix(2, false), b"", b"\0\0;"),
        (Kind::Suffix, b"ab\r", b"ab\r\r\n;"),
        (Kind::Suffix, b"a\r\nb", b"EINVAL;"),
        (Kind::Server, b"Hello", b"\x81\x05Hello;"),
        (Kind::Client, b"Hello", b"\x81\x85\0\0\0\x01Helmo;"),
    ];
    for (kind, text, want) in table {
        let told = spelled(alloc, kind, text)?;
        assert_eq!(rt; told.as_slice(), want);
    }
    Ok(())
}

fn letters(alloc: Global, count: u32) -> Result<Vec<u8>, Fail> {
    let mut text = Vec::new(alloc);
    for _at in 0..count {
        text.push(b'a')?;
    }
    Ok(text)
}

/// How many bytes two writes are offered of a message, or nothing where it is refused.
fn pieces(stack: &mut Stack, text: &[u8]) -> Option<(usize, usize)> {
    if !stack.is_sent() || stack.frame(text, &mut Counter(0)).is_err() {
        return None;
    }
    let first = stack.offered().len();
    stack.took(first);
    Some((first, stack.offered().len()))
}

/// The same of a message of so many letters behind its length.
fn counted(alloc: Global, count: u32) -> Result<Option<(usize, usize)>, Fail> {
    let text = letters(alloc, count)?;
    let mut stack = stood(alloc, b"", Kind::Prefix(2, false))?;
    Ok(pieces(&mut stack, text.as_slice()))
}

#[test]
fn a_long_message_is_offered_in_pieces_or_refused(rt: HostRuntime) -> Result<(), Fail> {
    let alloc = rt.alloc();
    for (count, want) in [(65_535, Some((65_536, 1))), (65_536, None)] {
        assert_eq!(rt; counted(alloc, count)?, want);
    }
    Ok(())
}

/// Bytes are given up when so many have gone: what a second send gives then, and one of no bytes.
fn gives_up(log: &mut Vec<u8>, stack: &mut Stack, count: usize) -> Result<(), Fail> {
    if !stack.is_sent() || stack.frame(b"abcdef", &mut Counter(0)).is_err() {
        return Err(Fail::from("frame"));
    }
    if stack.offered().len() < count {
        return Err(Fail::from("offered"));
    }
    stack.took(count);
    stack.withdraw();
    sent(log, stack, b"")?;
    sent(log, stack, b"gh")
}

fn given_up(alloc: Global, count: usize) -> Result<Vec<u8>, Fail> {
    let mut stack = bare(alloc, b"")?;
    let mut log = Vec::new(alloc);
    gives_up(&mut log, &mut stack, count)?;
    Ok(log)
}

#[test]
fn a_send_that_is_given_up_breaks_its_direction_once_bytes_have_gone(
    rt: HostRuntime,
) -> Result<(), Fail> {
    let alloc = rt.alloc();
    let table = [
        (0, b";gh;" as &[u8]),
        (2, b"ECONNRESET;ECONNRESET;"),
        (6, b";gh;"),
    ];
    for (count, want) in table {
        let told = given_up(alloc, count)?;
        assert_eq!(rt; told.as_slice(), want);
    }
    Ok(())
}
