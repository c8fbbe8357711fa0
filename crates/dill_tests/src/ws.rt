use dill_base::{Errno, Front};
use dill_ws::{
    Asked, Head, HeadFront, Side, accept_of, client_head, close_code, control_write, frame_front,
    frame_write, head_fault, mask, read_client_head, read_server_head, server_head,
};
use std::alloc::Global;
use std::test::Fail;

const EPROTO: HeadFront = HeadFront::Fault(Errno::Eproto);

const KEY: [u8; 4] = [0x37, 0xfa, 0x21, 0x3d];

const ASKED_KEY: [u8; 24] = *b"dGhlIHNhbXBsZSBub25jZQ==";

const ACCEPT: [u8; 28] = *b"s3pPLMBiTxaQ9kYGzzhZRbK+xOo=";

fn head(fin: bool, opcode: u8, key: Option<[u8; 4]>, start: usize, length: u64) -> HeadFront {
    HeadFront::Whole(Head {
        fin,
        opcode,
        key,
        start,
        length,
    })
}

#[test]
fn heads_of_the_standards_frames_are_read(rt: HostRuntime) {
    let hello = [
        0x81, 0x85, 0x37, 0xfa, 0x21, 0x3d, 0x7f, 0x9f, 0x4d, 0x51, 0x58,
    ];
    assert_eq!(rt;
        frame_front(Side::Server, false, &hello),
        head(true, 1, Some(KEY), 6, 5)
    );
    let part = [0x01, 0x83, 0, 0, 0, 0, 0x48, 0x65, 0x6c];
    assert_eq!(rt;
        frame_front(Side::Server, false, &part),
        head(false, 1, Some([0; 4]), 6, 3)
    );
    let ping = [0x89, 0x80, 0, 0, 0, 0];
    assert_eq!(rt;
        frame_front(Side::Server, true, &ping),
        head(true, 9, Some([0; 4]), 6, 0)
    );
    let last = [0x80, 0x82, 0, 0, 0, 0, 0x6c, 0x6f];
    assert_eq!(rt;
        frame_front(Side::Server, true, &last),
        head(true, 0, Some([0; 4]), 6, 2)
    );
    let middle = [0x82, 0x7e, 1, 0];
    assert_eq!(rt;
        frame_front(Side::Client, false, &middle),
        head(true, 2, None, 4, 256)
    );
    let long = [0x82, 0x7f, 0, 0, 0, 0, 0, 1, 0, 0];
    assert_eq!(rt;
        frame_front(Side::Client, false, &long),
        head(true, 2, None, 10, 65_536)
    );
}

#[test]
fn a_head_is_refused_at_the_byte_that_shows_it(rt: HostRuntime) {
    let bad: [&[u8]; 7] = [
        &[0xc1, 0x80],
        &[0x89, 0xfe],
        &[0x80, 0x80],
        &[0x81, 0x05],
        &[0x82, 0xfe, 0x00, 0x7d],
        &[0x81, 0xfe, 0x00, 0x05],
        &[0x82, 0xff, 0x80, 0, 0, 0, 0, 0, 0, 0],
    ];
    for bytes in bad {
        assert_eq!(rt; frame_front(Side::Server, false, bytes), EPROTO);
        let shorter = bytes.len().saturating_sub(1);
        assert_eq!(rt;
            frame_front(Side::Server, false, &bytes[..shorter]),
            HeadFront::Need
        );
    }
    assert_eq!(rt;
        frame_front(Side::Server, true, &[0x81, 0x85]),
        EPROTO,
        "a text in a text"
    );
    assert_eq!(rt;
        frame_front(Side::Client, false, &[0x81, 0x85]),
        EPROTO,
        "a server's mask"
    );
}

#[test]
fn the_standards_frames_are_written(rt: HostRuntime) -> Result<(), Fail> {
    let memory = |_| Fail::from("memory");
    let plain = frame_write(rt.alloc(), 1, None, b"Hello").map_err(memory)?;
    assert_eq!(rt; plain.as_slice(), b"\x81\x05Hello".as_slice());
    let masked = frame_write(rt.alloc(), 1, Some(KEY), b"Hello").map_err(memory)?;
    assert_eq!(rt;
        masked.as_slice(),
        b"\x81\x85\x37\xfa\x21\x3d\x7f\x9f\x4d\x51\x58".as_slice()
    );
    let long = frame_write(rt.alloc(), 2, None, &[7; 256]).map_err(memory)?;
    assert_eq!(rt; &long.as_slice()[..5], b"\x82\x7e\x01\x00\x07".as_slice());
    assert_eq!(rt; long.as_slice().len(), 260);
    let pong = control_write(10, None, b"");
    assert_eq!(rt; &pong.bytes[..pong.length], b"\x8a\x00".as_slice());
    let close = control_write(8, Some(KEY), b"\x03\xe8");
    assert_eq!(rt;
        &close.bytes[..close.length],
        b"\x88\x82\x37\xfa\x21\x3d\x34\x12".as_slice()
    );
    let mut payload = *b"Hello";
    mask(KEY, &mut payload);
    assert_eq!(rt; payload, [0x7f, 0x9f, 0x4d, 0x51, 0x58]);
    Ok(())
}

#[test]
fn close_payloads_have_a_code_that_may_be_sent_and_a_text(rt: HostRuntime) {
    let rows: [(&[u8], Option<u16>); 8] = [
        (b"", Some(0)),
        (b"\x03\xe8", Some(1000)),
        (b"\x03\xed", None),
        (b"\x03", None),
        (b"\x03\xe8\xff", None),
        (b"\x03\xf6bye", Some(1014)),
        (b"\x13\x87", Some(4999)),
        (b"\x13\x88", None),
    ];
    for (payload, want) in rows {
        assert_eq!(rt; close_code(payload), want);
    }
}

const HOST: &[u8; 9] = b"Host: h\r\n";

const WANTS: &[u8; 53] = b"Upgrade: websocket\r\nConnection: keep-alive, Upgrade\r\n";

const KEY_LINE: &[u8; 45] = b"Sec-WebSocket-Key: dGhlIHNhbXBsZSBub25jZQ==\r\n";

const VERSION: &[u8; 27] = b"Sec-WebSocket-Version: 13\r\n";

/// These lines, and the empty one.
fn lines(alloc: Global, lines: &[&[u8]]) -> Result<Vec<u8>, Fail> {
    let mut head = Vec::new(alloc);
    for line in lines {
        head.extend_from_slice(line)?;
    }
    head.extend_from_slice(b"\r\n")?;
    Ok(head)
}

#[test]
fn the_standards_handshake_is_read_and_answered(rt: HostRuntime) -> Result<(), Fail> {
    let first = b"GET /chat HTTP/1.1\r\n".as_slice();
    let mut came = lines(rt.alloc(), &[first, HOST, WANTS, KEY_LINE, VERSION])?;
    let used = came.len();
    came.extend_from_slice(b"\x81\x85")?;
    assert_eq!(rt;
        read_client_head(&came),
        Asked::Whole {
            key: ASKED_KEY,
            used
        }
    );
    assert_eq!(rt;
        read_client_head(&came[..used.saturating_sub(1)]),
        Asked::Need
    );
    assert_eq!(rt; accept_of(&ASKED_KEY), ACCEPT);
    let answer = server_head(ACCEPT);
    assert_eq!(rt;
        answer,
        *b"HTTP/1.1 101 Switching Protocols\r\nUpgrade: websocket\r\nConnection: Upgrade\r\nSec-WebSocket-Accept: s3pPLMBiTxaQ9kYGzzhZRbK+xOo=\r\n\r\n"
    );
    let whole = Front::Whole {
        from: 0,
        to: 129,
        used: 129,
    };
    assert_eq!(rt; read_server_head(&answer, ACCEPT), whole);
    assert_eq!(rt; read_server_head(&answer[..128], ACCEPT), Front::Need);
    assert_eq!(rt;
        read_server_head(&answer, [b'='; 28]),
        Front::Fault(Errno::Eproto)
    );
    Ok(())
}

#[test]
fn a_clients_head_is_written_and_read_again(rt: HostRuntime) -> Result<(), Fail> {
    let Ok(head) = client_head(rt.alloc(), b"/chat", b"h", *b"the sample nonce") else {
        return Err(Fail::from("refused"));
    };
    assert_eq!(rt;
        head.as_slice(),
        b"GET /chat HTTP/1.1\r\nHost: h\r\nUpgrade: websocket\r\nConnection: Upgrade\r\nSec-WebSocket-Key: dGhlIHNhbXBsZSBub25jZQ==\r\nSec-WebSocket-Version: 13\r\n\r\n".as_slice()
    );
    let used = head.as_slice().len();
    assert_eq!(rt;
        read_client_head(head.as_slice()),
        Asked::Whole {
            key: ASKED_KEY,
            used
        }
    );
    Ok(())
}

#[test]
fn resources_and_hosts_of_another_form_or_too_long_are_refused(rt: HostRuntime) {
    let rows: [(&[u8], &[u8], Option<Errno>); 7] = [
        (b"/", b"h", None),
        (b"", b"h", Some(Errno::Einval)),
        (b"/", b"", Some(Errno::Einval)),
        (b"/ x", b"h", Some(Errno::Einval)),
        (&[b'a'; 8_179], b"h", None),
        (&[b'a'; 8_180], b"h", Some(Errno::Emsgsize)),
        (&[b'a'; 8_100], &[b'a'; 8_147], Some(Errno::Emsgsize)),
    ];
    for (resource, host, want) in rows {
        assert_eq!(rt; head_fault(resource, host), want);
    }
}

#[test]
fn a_client_that_asks_otherwise_is_refused(rt: HostRuntime) -> Result<(), Fail> {
    let get = b"GET / HTTP/1.1\r\n".as_slice();
    let bad_key = b"Sec-WebSocket-Key: dGhlIHNhbXBsZSBub25jZR==\r\n".as_slice();
    let rows: [[&[u8]; 5]; 8] = [
        [b"get / HTTP/1.1\r\n", HOST, WANTS, KEY_LINE, VERSION],
        [b"GET / HTTP/1.0\r\n", HOST, WANTS, KEY_LINE, VERSION],
        [get, b"no field\r\n", WANTS, KEY_LINE, VERSION],
        [get, b"", WANTS, KEY_LINE, VERSION],
        [get, HOST, b"Connection: Upgrade\r\n", KEY_LINE, VERSION],
        [get, HOST, WANTS, bad_key, VERSION],
        [get, HOST, WANTS, KEY_LINE, KEY_LINE],
        [get, HOST, WANTS, KEY_LINE, b"Sec-WebSocket-Version: 8\r\n"],
    ];
    for row in rows {
        let head = lines(rt.alloc(), &row)?;
        assert_eq!(rt; read_client_head(&head), Asked::Fault(Errno::Eproto));
    }
    Ok(())
}

#[test]
fn names_and_tokens_are_compared_without_case(rt: HostRuntime) -> Result<(), Fail> {
    let wants = b"UPGRADE: a,\tWebSocket \r\nconnection: UPGRADE\r\n".as_slice();
    let get = b"GET / HTTP/1.1\r\n".as_slice();
    let head = lines(rt.alloc(), &[get, b"host: h\r\n", wants, KEY_LINE, VERSION])?;
    let used = head.len();
    assert_eq!(rt;
        read_client_head(&head),
        Asked::Whole {
            key: ASKED_KEY,
            used
        }
    );
    Ok(())
}

#[test]
fn a_head_without_its_end_is_refused_at_its_last_byte(rt: HostRuntime) -> Result<(), Fail> {
    let mut head = Vec::from_slice(rt.alloc(), b"GET / HTTP/1.1\r\n")?;
    for _line in 0..3_000u32 {
        head.extend_from_slice(b"a: b\r\n")?;
    }
    let rows = [
        (16_383, Asked::Need),
        (16_384, Asked::Fault(Errno::Emsgsize)),
    ];
    for (count, want) in rows {
        let Some(came) = head.get(..count) else {
            return Err(Fail::from("too short"));
        };
        assert_eq!(rt; read_client_head(came), want);
    }
    assert_eq!(rt;
        read_client_head(b"GET / HTTP/1.1\n"),
        Asked::Fault(Errno::Eproto)
    );
    Ok(())
}

#[test]
fn a_server_that_answers_otherwise_is_refused(rt: HostRuntime) -> Result<(), Fail> {
    let accept = b"Sec-WebSocket-Accept: s3pPLMBiTxaQ9kYGzzhZRbK+xOo=\r\n".as_slice();
    let first = b"HTTP/1.1 101 OK\r\n".as_slice();
    let rows: [[&[u8]; 4]; 6] = [
        [b"HTTP/1.1 200 OK\r\n", WANTS, accept, b""],
        [b"HTTP/1.0 101 OK\r\n", WANTS, accept, b""],
        [
            first,
            b"Upgrade: h2c\r\nConnection: Upgrade\r\n",
            accept,
            b"",
        ],
        [first, WANTS, accept, accept],
        [first, WANTS, accept, b"Sec-WebSocket-Protocol: chat\r\n"],
        [first, WANTS, accept, b"Sec-WebSocket-Extensions: x\r\n"],
    ];
    for row in rows {
        let head = lines(rt.alloc(), &row)?;
        assert_eq!(rt;
            read_server_head(&head, ACCEPT),
            Front::Fault(Errno::Eproto)
        );
    }
    Ok(())
}
