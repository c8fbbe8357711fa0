use crate::asks::{Ask, plays, shown};
use dill_kernel::Limit;
use dill_loop::LoopKernel;
use std::test::Fail;

#[test]
fn a_stream_carries_bytes_both_ways_and_ends(rt: HostRuntime) -> Result<(), Fail> {
    let alloc = rt.alloc();
    let table = vec![in alloc;
        (Ask::Listen(1, 1), "Ok(())"),
        (Ask::Listen(2, 1), "Err(InUse)"),
        (Ask::Connect(2), "Ok(())"),
        (Ask::Connect(3), "Err(Refused)"),
        (Ask::Finish(2), "Done"),
        (
            Ask::Wait(Limit::Until(9)),
            "Ok(0) 1 Ready { link: 1, read: true, write: false }"
        ),
        (Ask::Wait(Limit::Until(9)), "Ok(9)"),
        (Ask::Accept(1, 3), "Made"),
        (Ask::Accept(1, 4), "NotYet"),
        (Ask::Write(2, b"abcd"), "Moved(4)"),
        (Ask::Read(3, 9), "Moved(3) [97, 98, 99, 0, 0, 0, 0, 0, 0]"),
        (Ask::Read(3, 9), "Moved(1) [100, 0, 0, 0, 0, 0, 0, 0, 0]"),
        (Ask::Read(3, 9), "NotYet [0, 0, 0, 0, 0, 0, 0, 0, 0]"),
        (Ask::Shut(2), "Ok(())"),
        (Ask::Write(2, b"x"), "Failed(Reset)"),
        (Ask::Read(3, 1), "End [0]"),
        (Ask::Write(3, b"back"), "Moved(4)"),
        (Ask::Close(3), "closed"),
        (
            Ask::Wait(Limit::NoWait),
            "Ok(9) 1 Ready { link: 2, read: true, write: true }"
        ),
        (Ask::Read(2, 4), "Moved(3) [98, 97, 99, 0]"),
        (Ask::Close(1), "closed"),
        (Ask::Close(2), "closed"),
        (Ask::Close(2), "closed"),
        (Ask::Shut(2), "Err(Other)"),
    ]?;
    let mut kernel = LoopKernel::new(alloc, 3)?;
    plays(&rt, alloc, &mut kernel, table)
}

/// A client sends `hi` behind its length, and the answer comes back so.
#[test]
fn a_session_of_messages_behind_their_length(rt: HostRuntime) -> Result<(), Fail> {
    let alloc = rt.alloc();
    let table = vec![in alloc;
        (Ask::Listen(1, 16), "Ok(())"),
        (Ask::Connect(2), "Ok(())"),
        (Ask::Finish(2), "Done"),
        (Ask::Accept(1, 3), "Made"),
        (Ask::Read(3, 9), "NotYet [0, 0, 0, 0, 0, 0, 0, 0, 0]"),
        (Ask::Write(2, b"\x00\x02hi"), "Moved(4)"),
        (Ask::Gets(3, b"\x00\x02hi"), "these"),
        (Ask::Write(3, b"\x00\x02hi"), "Moved(4)"),
        (Ask::Gets(2, b"\x00\x02hi"), "these"),
        (Ask::Close(3), "closed"),
        (Ask::Read(2, 1), "End [0]"),
        (Ask::Close(2), "closed"),
        (Ask::Close(1), "closed"),
    ]?;
    let mut kernel = LoopKernel::new(alloc, 4096)?;
    plays(&rt, alloc, &mut kernel, table)
}

/// What a client of WebSocket sends to be let in, and what it is answered.
const ASKED: &[u8] =
    b"GET / HTTP/1.1\r\nHost: 127.0.0.1:7000\r\nUpgrade: websocket\r\nConnection: Upgrade\r\nSec-WebSocket-Key: dGhlIHNhbXBsZSBub25jZQ==\r\nSec-WebSocket-Version: 13\r\n\r\n";

const ANSWERED: &[u8] =
    b"HTTP/1.1 101 Switching Protocols\r\nUpgrade: websocket\r\nConnection: Upgrade\r\nSec-WebSocket-Accept: s3pPLMBiTxaQ9kYGzzhZRbK+xOo=\r\n\r\n";

/// The handshake of WebSocket, and then `hi` there in a masked frame and back in a plain one.
#[test]
fn a_session_of_web_socket(rt: HostRuntime) -> Result<(), Fail> {
    let alloc = rt.alloc();
    let masked = b"\x81\x82\x37\xfa\x21\x3d\x5f\x93";
    let table = vec![in alloc;
        (Ask::Listen(1, 16), "Ok(())"),
        (Ask::Connect(2), "Ok(())"),
        (Ask::Finish(2), "Done"),
        (Ask::Write(2, ASKED), "Moved(153)"),
        (Ask::Accept(1, 3), "Made"),
        (Ask::Gets(3, ASKED), "these"),
        (Ask::Write(3, ANSWERED), "Moved(129)"),
        (Ask::Gets(2, ANSWERED), "these"),
        (Ask::Write(2, masked), "Moved(8)"),
        (Ask::Gets(3, masked), "these"),
        (Ask::Write(3, b"\x81\x02hi"), "Moved(4)"),
        (Ask::Gets(2, b"\x81\x02hi"), "these"),
        (Ask::Close(2), "closed"),
        (Ask::Read(3, 1), "End [0]"),
        (Ask::Close(3), "closed"),
        (Ask::Close(1), "closed"),
    ]?;
    let mut kernel = LoopKernel::new(alloc, 4096)?;
    plays(&rt, alloc, &mut kernel, table)
}

/// How many bytes an answer says that moved, none of another answer.
fn moved(told: &str) -> u64 {
    let count = told
        .strip_prefix("Moved(")
        .and_then(|rest| rest.strip_suffix(")"));
    match count {
        Some(count) => count.parse::<u64>().unwrap_or(0),
        None => 0,
    }
}

const PIECE: [u8; 3000] = [7; 3000];

#[test]
fn a_direction_holds_as_much_as_it_may_however_it_is_cut(rt: HostRuntime) -> Result<(), Fail> {
    let alloc = rt.alloc();
    let mut kernel = LoopKernel::new(alloc, 4096)?;
    let table = vec![in alloc;
        (Ask::Listen(1, 1), "Ok(())"),
        (Ask::Connect(2), "Ok(())"),
        (Ask::Accept(1, 3), "Made"),
    ]?;
    plays(&rt, alloc, &mut kernel, table)?;
    let mut sent = 0u64;
    let mut came = 0u64;
    for round in 0..400u64 {
        let told = shown(alloc, &mut kernel, Ask::Write(2, &PIECE))?;
        sent = sent.saturating_add(moved(told.as_str()));
        if round % 3 == 0 {
            let told = shown(alloc, &mut kernel, Ask::Read(3, 4096))?;
            came = came.saturating_add(moved(told.as_str()));
        }
    }
    assert_eq!(rt; sent.saturating_sub(came), 65_536 - 4096);
    Ok(())
}

#[test]
fn closing_a_listener_resets_those_that_wait(rt: HostRuntime) -> Result<(), Fail> {
    let alloc = rt.alloc();
    let mut kernel = LoopKernel::new(alloc, 4096)?;
    plays(
        &rt,
        alloc,
        &mut kernel,
        vec![in alloc; (Ask::Listen(1, 4096), "Ok(())")]?,
    )?;
    for link in 2..302u64 {
        let told = shown(alloc, &mut kernel, Ask::Connect(link))?;
        assert_eq!(rt; told.as_str(), "Ok(())");
    }
    let table = vec![in alloc;
        (Ask::Close(1), "closed"),
        (
            Ask::Wait(Limit::NoWait),
            "Ok(0) 256 Ready { link: 2, read: true, write: true }"
        ),
        (
            Ask::Wait(Limit::NoWait),
            "Ok(0) 44 Ready { link: 258, read: true, write: true }"
        ),
        (Ask::Write(2, b"x"), "Failed(Reset)"),
        (Ask::Connect(1), "Err(Refused)"),
    ]?;
    plays(&rt, alloc, &mut kernel, table)
}
