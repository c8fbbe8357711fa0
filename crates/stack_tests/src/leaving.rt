use crate::acts::{exactly, gone, note, stood};
use crate::counting::Counter;
use crate::messages::Kind;
use dill_base::Octets;
use dill_stack::{Parting, Stack};
use std::alloc::Global;
use std::test::Fail;

/// A detach of the top layer without code and reason: what it sends, what it answers, and the next three bytes.
fn leaves(alloc: Global, log: &mut Vec<u8>, stack: &mut Stack) -> Result<(), Fail> {
    if !stack.is_sent() {
        return Err(Fail::from("pending"));
    }
    let parting = Parting::Close {
        code: 0,
        reason: Octets::new(alloc),
    };
    match stack.detach_start(&parting, &mut Counter(0)) {
        Ok(()) => {}
        Err(_) => return Err(Fail::from("start")),
    }
    gone(log, stack)?;
    note(log, &stack.detach_finish(&mut Counter(7)))?;
    exactly(alloc, log, stack, 3)
}

/// The same of a WebSocket layer, to which these bytes have come.
fn left(alloc: Global, kind: Kind, bytes: &[u8]) -> Result<Vec<u8>, Fail> {
    let mut stack = stood(alloc, bytes, kind)?;
    let mut log = Vec::new(alloc);
    leaves(alloc, &mut log, &mut stack)?;
    Ok(log)
}

#[test]
fn a_detach_drops_messages_until_the_close_frame_and_leaves_the_rest(
    rt: HostRuntime,
) -> Result<(), Fail> {
    let alloc = rt.alloc();
    let table = [
        (
            Kind::Server,
            b"\x81\x81\0\0\0\0a\x89\x80\0\0\0\0\x88\x80\0\0\0\0xyz" as &[u8],
            b"\x88\0;number;xyz;" as &[u8],
        ),
        (
            Kind::Client,
            b"\x88\x00xyz",
            b"\x88\x80\0\0\0\x01;number;xyz;",
        ),
        (Kind::Server, b"\x81\x81\0\0\0\0a", b"\x88\0;need;need;"),
    ];
    for (kind, bytes, want) in table {
        let told = left(alloc, kind, bytes)?;
        assert_eq!(rt; told.as_slice(), want);
    }
    Ok(())
}
