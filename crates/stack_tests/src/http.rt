use crate::acts::{done, exactly, gone, note, parted, read, stood};
use crate::messages::Kind;
use dill_base::Octets;
use dill_http::write_status;
use dill_stack::{ReadOut, Stack, Want};
use std::alloc::Global;
use std::test::Fail;

fn is_given(said: &ReadOut) -> bool {
    match said {
        ReadOut::Given(_) => true,
        _ => false,
    }
}

/// Writes down a request and its fields as far as they are given, and answers what isn't.
pub fn head(alloc: Global, log: &mut Vec<u8>, stack: &mut Stack) -> Result<ReadOut, Fail> {
    let first = read(alloc, stack, Want::Request)?;
    if !is_given(&first) {
        return Ok(first);
    }
    note(log, &first)?;
    for _at in 0..8u32 {
        let said = read(alloc, stack, Want::Field)?;
        if !is_given(&said) {
            return Ok(said);
        }
        note(log, &said)?;
    }
    Err(Fail::from("too many fields"))
}

/// A first line is sent.
fn line(log: &mut Vec<u8>, stack: &mut Stack, line: Octets) -> Result<(), Fail> {
    if !stack.is_sent() {
        return Err(Fail::from("pending"));
    }
    match stack.line(true, line) {
        Ok(()) => gone(log, stack),
        Err(_) => Err(Fail::from("line")),
    }
}

/// A request is answered, the head is left, and three bytes are read.
fn exchanges(alloc: Global, log: &mut Vec<u8>, stack: &mut Stack) -> Result<(), Fail> {
    let last = head(alloc, log, stack)?;
    note(log, &last)?;
    match write_status(alloc, 200, b"OK") {
        Ok(status) => line(log, stack, status)?,
        Err(_) => return Err(Fail::from("status")),
    }
    done(log, stack)?;
    parted(log, stack)?;
    exactly(alloc, log, stack, 3)
}

fn exchanged(alloc: Global, bytes: &[u8]) -> Result<Vec<u8>, Fail> {
    let mut stack = stood(alloc, bytes, Kind::Http)?;
    let mut log = Vec::new(alloc);
    exchanges(alloc, &mut log, &mut stack)?;
    Ok(log)
}

#[test]
fn a_request_is_answered_and_its_body_stays_unread(rt: HostRuntime) -> Result<(), Fail> {
    let told = exchanged(
        rt.alloc(),
        b"POST /a HTTP/1.1\r\nHost: x\r\nUser-Agent: curl/8.0\r\nAccept: */*\r\nContent-Length: 3\r\n\r\nxyz",
    )?;
    assert_eq!(rt;
        told.as_slice(),
        b"POST|/a;Host|x;User-Agent|curl/8.0;Accept|*/*;Content-Length|3;EPIPE;HTTP/1.1 200 OK\r\n;\r\n;;number;xyz;" as &[u8]
    );
    Ok(())
}

/// A request line of so many bytes without its CRLF.
fn line_of(alloc: Global, count: u32) -> Result<Vec<u8>, Fail> {
    let mut bytes = Vec::new(alloc);
    bytes.extend_from_slice(b"GET /")?;
    for _at in 14..count {
        bytes.push(b'a')?;
    }
    bytes.extend_from_slice(b" HTTP/1.1")?;
    Ok(bytes)
}

/// Writes down what a receive finds: that a line is given, that more is awaited, or an errno.
fn looks(alloc: Global, log: &mut Vec<u8>, stack: &mut Stack) -> Result<(), Fail> {
    let said = read(alloc, stack, Want::Request)?;
    match said {
        ReadOut::Given(_) => log.extend_from_slice(b"given;")?,
        other => note(log, &other)?,
    }
    Ok(())
}

/// What a receive finds in these bytes.
fn found(alloc: Global, bytes: &[u8]) -> Result<Vec<u8>, Fail> {
    let mut stack = stood(alloc, bytes, Kind::Http)?;
    let mut log = Vec::new(alloc);
    looks(alloc, &mut log, &mut stack)?;
    Ok(log)
}

fn long_line(alloc: Global, count: u32, rest: &[u8]) -> Result<Vec<u8>, Fail> {
    let mut bytes = line_of(alloc, count)?;
    bytes.extend_from_slice(rest)?;
    found(alloc, bytes.as_slice())
}

#[test]
fn a_line_has_at_most_8192_bytes(rt: HostRuntime) -> Result<(), Fail> {
    let alloc = rt.alloc();
    let table = [
        (8_192, b"" as &[u8], b"need;" as &[u8]),
        (8_192, b"\r\n", b"given;"),
        (8_193, b"", b"EMSGSIZE;"),
    ];
    for (count, rest, want) in table {
        let told = long_line(alloc, count, rest)?;
        assert_eq!(rt; told.as_slice(), want);
    }
    Ok(())
}

#[test]
fn a_line_is_refused_at_the_byte_that_shows_it(rt: HostRuntime) -> Result<(), Fail> {
    let alloc = rt.alloc();
    let table = [
        (b"\n" as &[u8], b"EPROTO;" as &[u8]),
        (b"a\r", b"need;"),
        (b"a\rb", b"EPROTO;"),
    ];
    for (bytes, want) in table {
        let told = found(alloc, bytes)?;
        assert_eq!(rt; told.as_slice(), want);
    }
    Ok(())
}
