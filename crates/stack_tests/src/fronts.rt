use crate::acts::{message, refused, stood};
use crate::messages::Kind;
use std::alloc::Global;
use std::test::Fail;

/// What a receive finds in these bytes, and what a further one is refused with then.
fn front(
    alloc: Global,
    log: &mut Vec<u8>,
    kind: Kind,
    bytes: &[u8],
    limit: usize,
) -> Result<(), Fail> {
    let mut stack = stood(alloc, bytes, kind)?;
    message(alloc, log, &mut stack, limit)?;
    refused(log, &stack, limit)
}

/// The same of each front of these bytes that isn't empty.
fn fronts(alloc: Global, kind: Kind, bytes: &[u8], limit: usize) -> Result<Vec<u8>, Fail> {
    let mut log = Vec::new(alloc);
    for count in 0..bytes.len() {
        front(alloc, &mut log, kind, &bytes[..count + 1], limit)?;
    }
    Ok(log)
}

#[test]
fn each_front_is_judged_at_its_last_byte(rt: HostRuntime) -> Result<(), Fail> {
    let alloc = rt.alloc();
    let table = [
        (
            Kind::Prefix(2, false),
            b"\x00\x05hello" as &[u8],
            64,
            b"need;need;need;need;need;need;hello;" as &[u8],
        ),
        (
            Kind::Prefix(2, true),
            b"\x05\x00hello",
            64,
            b"need;need;need;need;need;need;hello;",
        ),
        (
            Kind::Prefix(8, false),
            b"\xff\xff\xff\xff\xff\xff\xff\xff",
            10,
            b"need;need;need;need;need;need;need;EMSGSIZE;ECONNRESET;",
        ),
        (Kind::Prefix(1, false), b"\x05", 4, b"EMSGSIZE;ECONNRESET;"),
        (
            Kind::Suffix,
            b"abcde\r",
            4,
            b"need;need;need;need;need;EMSGSIZE;ECONNRESET;",
        ),
        (Kind::Suffix, b"ab\r\r\n", 64, b"need;need;need;need;ab\r;"),
        (
            Kind::Server,
            b"\x82\xfe\x00\x7e",
            100,
            b"need;need;need;EMSGSIZE;ECONNRESET;",
        ),
        (
            Kind::Server,
            b"\x82\xfe\x00\x7d",
            100,
            b"need;need;need;EPROTO;ECONNRESET;",
        ),
        (
            Kind::Server,
            b"\x81\xfe\x00\x05",
            100,
            b"need;need;need;EPROTO;ECONNRESET;",
        ),
        (Kind::Server, b"\xc1\x80", 100, b"need;EPROTO;ECONNRESET;"),
        (Kind::Server, b"\x89\xfe", 100, b"need;EPROTO;ECONNRESET;"),
        (Kind::Server, b"\x80\x80", 100, b"need;EPROTO;ECONNRESET;"),
        (Kind::Server, b"\x81\x05", 100, b"need;EPROTO;ECONNRESET;"),
        (
            Kind::Server,
            b"\x82\xff\x80\0\0\0\0\0\0\0",
            100,
            b"need;need;need;need;need;need;need;need;need;EPROTO;ECONNRESET;",
        ),
    ];
    for (kind, bytes, limit, want) in table {
        let told = fronts(alloc, kind, bytes, limit)?;
        assert_eq!(rt; told.as_slice(), want);
    }
    Ok(())
}
