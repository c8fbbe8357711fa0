use dill_base::{Errno, Front, Octets, WriteFault};
use dill_http::{
    Cut, Span, field_fault, line_front, read_field, read_request, read_status, request_fault,
    status_fault, write_field, write_request, write_status,
};
use std::alloc::Global;
use std::process::Abort;
use std::test::Fail;

const EPROTO: Front = Front::Fault(Errno::Eproto);

const EMSGSIZE: Front = Front::Fault(Errno::Emsgsize);

fn whole(to: usize, used: usize) -> Front {
    Front::Whole { from: 0, to, used }
}

/// So many times `a`, and then these bytes.
fn letters(alloc: Global, count: u32, rest: &[u8]) -> Result<Vec<u8>, Fail> {
    let mut bytes = Vec::new(alloc);
    for _at in 0..count {
        bytes.push(b'a')?;
    }
    bytes.extend_from_slice(rest)?;
    Ok(bytes)
}

fn cut(first: (usize, usize), second: (usize, usize)) -> Option<Cut> {
    Some(Cut {
        first: Span {
            from: first.0,
            to: first.1,
        },
        second: Span {
            from: second.0,
            to: second.1,
        },
    })
}

fn is_part(bytes: &[u8], span: Span, want: &[u8]) -> bool {
    match bytes.get(span.from..span.to) {
        Some(part) => part == want,
        None => false,
    }
}

fn written(rt: &impl Abort, answer: Result<Octets, WriteFault>, want: &[u8]) {
    match answer {
        Ok(line) => assert_eq!(rt; line.as_slice(), want),
        Err(_) => assert!(rt; false, "refused"),
    }
}

fn refused(rt: &impl Abort, answer: Result<Octets, WriteFault>, want: Errno) {
    match answer {
        Err(WriteFault::Refused(errno)) => assert_eq!(rt; errno, want),
        _ => assert!(rt; false, "not refused"),
    }
}

#[test]
fn a_head_is_read_line_by_line_and_the_body_stays(rt: HostRuntime) {
    let head =
        b"POST /a HTTP/1.1\r\nHost: x\r\nUser-Agent: curl/8.0\r\nAccept: */*\r\nContent-Length: 3\r\n\r\nxyz";
    let wants: [(&[u8], &[u8]); 5] = [
        (b"POST", b"/a"),
        (b"Host", b"x"),
        (b"User-Agent", b"curl/8.0"),
        (b"Accept", b"*/*"),
        (b"Content-Length", b"3"),
    ];
    let mut rest = head.as_slice();
    for (at, (first, second)) in wants.iter().enumerate() {
        match line_front(rest) {
            Front::Whole { from: 0, to, used } => {
                let line = &rest[..to];
                let found = if at == 0 {
                    read_request(line)
                } else {
                    read_field(line)
                };
                match found {
                    Some(cut) => {
                        assert!(rt; is_part(line, cut.first, first), "line {at}");
                        assert!(rt; is_part(line, cut.second, second), "line {at}");
                    }
                    None => assert!(rt; false, "line {at}"),
                }
                rest = &rest[used..];
            }
            _ => assert!(rt; false, "line {at}"),
        }
    }
    assert_eq!(rt; line_front(rest), whole(0, 2));
    assert_eq!(rt; rest.get(2..), Some(b"xyz".as_slice()));
}

#[test]
fn a_line_is_judged_at_the_first_byte_that_shows_it(rt: HostRuntime) {
    let rows: [(&[u8], Front); 9] = [
        (b"\n", EPROTO),
        (b"a\rb", EPROTO),
        (b"ab\n", EPROTO),
        (b"\r\r", EPROTO),
        (b"a\r\r", EPROTO),
        (b"\r\n", whole(0, 2)),
        (b"a\r\n", whole(1, 3)),
        (b"a\r", Front::Need),
        (b"", Front::Need),
    ];
    for (bytes, front) in rows.iter() {
        assert_eq!(rt; line_front(bytes), *front);
        for end in 0..bytes.len() {
            assert_eq!(rt;
                line_front(&bytes[..end]),
                Front::Need,
                "before the byte at {end}"
            );
        }
    }
    assert_eq!(rt;
        line_front(b"a\r\nb\nc"),
        whole(1, 3),
        "what follows isn't judged"
    );
}

#[test]
fn the_length_of_a_line_is_judged_first(rt: HostRuntime) -> Result<(), Fail> {
    let rows: [(u32, &[u8], Front); 14] = [
        (8192, b"", Front::Need),
        (8193, b"", EMSGSIZE),
        (8192, b"\r", Front::Need),
        (8192, b"\r\n", whole(8192, 8194)),
        (8192, b"\n", EMSGSIZE),
        (8192, b"\ra", EPROTO),
        (8192, b"\r\r", EPROTO),
        (8193, b"\r\n", EMSGSIZE),
        (8191, b"\r", Front::Need),
        (8191, b"\r\n", whole(8191, 8193)),
        (8191, b"\ra", EMSGSIZE),
        (8191, b"\r\r", EPROTO),
        (8191, b"\n", EPROTO),
        (8190, b"\ra", EPROTO),
    ];
    for (count, rest, front) in rows.iter() {
        let bytes = letters(rt.alloc(), *count, rest)?;
        assert_eq!(rt; line_front(&bytes), *front, "behind {count} letters");
    }
    Ok(())
}

#[test]
fn lines_are_read_by_their_forms(rt: HostRuntime) {
    let fields: [(&[u8], Option<Cut>); 10] = [
        (b"Host:  x ", cut((0, 4), (7, 8))),
        (b"Ho st: x", None),
        (b": x", None),
        (b"Host : x", None),
        (b"Host", None),
        (b"a:", cut((0, 1), (2, 2))),
        (b"a: \t ", cut((0, 1), (5, 5))),
        (b"a:\tb c\xff\t", cut((0, 1), (3, 7))),
        (b"a: b\x7f", None),
        (b"!#$%&'*+-.^_`|~09AZaz:x", cut((0, 21), (22, 23))),
    ];
    for (at, (line, want)) in fields.iter().enumerate() {
        assert_eq!(rt; read_field(line), *want, "field line {at}");
    }
    let requests: [(&[u8], Option<Cut>); 8] = [
        (b"GET / HTTP/1.1", cut((0, 3), (4, 5))),
        (b"GET /a HTTP/1.0", cut((0, 3), (4, 6))),
        (b"GET / HTTP/1.2", None),
        (b"GET  / HTTP/1.1", None),
        (b"GET  HTTP/1.1", None),
        (b"GET / HTTP/1.1 ", None),
        (b"GET /\x80 HTTP/1.1", None),
        (b" / HTTP/1.1", None),
    ];
    for (at, (line, want)) in requests.iter().enumerate() {
        assert_eq!(rt; read_request(line), *want, "request line {at}");
    }
    let statuses: [(&[u8], Option<(u32, Span)>); 9] = [
        (b"HTTP/1.0 204", Some((204, Span { from: 12, to: 12 }))),
        (b"HTTP/1.1 204 ", Some((204, Span { from: 13, to: 13 }))),
        (b"HTTP/1.1 200 OK", Some((200, Span { from: 13, to: 15 }))),
        (b"HTTP/1.1 999  a ", Some((999, Span { from: 13, to: 16 }))),
        (b"HTTP/1.1 099 a", None),
        (b"HTTP/1.1 20 OK", None),
        (b"HTTP/1.1 2000", None),
        (b"HTTP/2.0 200 OK", None),
        (b"HTTP/1.1 200 \x00", None),
    ];
    for (at, (line, want)) in statuses.iter().enumerate() {
        assert_eq!(rt; read_status(line), *want, "status line {at}");
    }
}

#[test]
fn lines_are_written_in_one_form_and_no_other_is_sent(rt: HostRuntime) {
    let alloc = rt.alloc();
    written(
        &rt,
        write_request(alloc, b"GET", b"/"),
        b"GET / HTTP/1.1\r\n",
    );
    written(&rt, write_status(alloc, 200, b"OK"), b"HTTP/1.1 200 OK\r\n");
    written(&rt, write_status(alloc, 100, b""), b"HTTP/1.1 100 \r\n");
    written(&rt, write_status(alloc, 999, b" a"), b"HTTP/1.1 999  a\r\n");
    written(&rt, write_field(alloc, b"Host", b"h"), b"Host: h\r\n");
    written(&rt, write_field(alloc, b"a", b""), b"a: \r\n");
    refused(&rt, write_field(alloc, b"a", b" b"), Errno::Einval);
    refused(&rt, write_field(alloc, b"a", b"b\t"), Errno::Einval);
    refused(&rt, write_field(alloc, b"a", b"b\r\nc: d"), Errno::Einval);
    refused(&rt, write_field(alloc, b"", b"b"), Errno::Einval);
    refused(&rt, write_request(alloc, b"G T", b"/"), Errno::Einval);
    refused(&rt, write_request(alloc, b"GET", b""), Errno::Einval);
    refused(&rt, write_request(alloc, b"GET", b"/ a"), Errno::Einval);
    refused(&rt, write_status(alloc, 99, b"OK"), Errno::Einval);
    refused(&rt, write_status(alloc, 1000, b"OK"), Errno::Einval);
    refused(&rt, write_status(alloc, 200, b"O\nK"), Errno::Einval);
}

#[test]
fn a_writer_sends_lines_of_8192_bytes_and_none_longer(rt: HostRuntime) -> Result<(), Fail> {
    let alloc = rt.alloc();
    let longest = letters(alloc, 8179, b"")?;
    assert_eq!(rt; status_fault(200, &longest), None);
    assert!(rt; write_status(alloc, 200, &longest).is_ok());
    let longer = letters(alloc, 8180, b"")?;
    assert_eq!(rt; status_fault(200, &longer), Some(Errno::Emsgsize));
    refused(&rt, write_status(alloc, 200, &longer), Errno::Emsgsize);
    refused(&rt, write_status(alloc, 99, &longer), Errno::Einval);
    assert_eq!(rt;
        request_fault(b"GET", &longest),
        None,
        "3 and 10 bytes more"
    );
    assert!(rt; write_request(alloc, b"GET", &longest).is_ok());
    assert_eq!(rt; request_fault(b"GET", &longer), Some(Errno::Emsgsize));
    refused(&rt, write_request(alloc, &longer, b"abc"), Errno::Emsgsize);
    assert_eq!(rt;
        field_fault(b"eleven-byte", &longest),
        None,
        "11 and 2 bytes more"
    );
    assert!(rt; write_field(alloc, b"eleven-byte", &longest).is_ok());
    assert_eq!(rt; field_fault(b"eleven-byte", &longer), Some(Errno::Emsgsize));
    refused(
        &rt,
        write_field(alloc, &longer, b"eleven-byte"),
        Errno::Emsgsize,
    );
    Ok(())
}
