ghost use Rattle.std.specs.Prelude.{◌≡◌, []};

use crate::acts::{gone, message, stood};
use dill_base::Octets;
use dill_frames::PrefixForm;
use dill_stack::{Layer, Stack, StackFault};
use dill_ws::Side;
use std::alloc::Global;
use std::test::Fail;

/// The layer of a stack. A length has so many bytes, and is little-endian or not.
#[derive(Clone, Copy)]
pub enum Kind {
    Prefix(u8, bool),
    Suffix,
    Server,
    Client,
    Http,
}

/// Puts a layer of this kind on a byte socket.
pub fn put(alloc: Global, stack: &mut Stack, kind: Kind) -> Result<Result<(), StackFault>, Fail>
    requires { stack.old.held.layers ≡ [] }
{
    match kind {
        Kind::Prefix(size, little) => {
            Ok(stack.attach(Layer::Prefix(PrefixForm { size, little })))
        }
        Kind::Suffix => {
            let end = Octets::from_slice(alloc, b"\r\n")?;
            Ok(stack.attach(Layer::Suffix(end)))
        }
        Kind::Server => Ok(stack.attach(Layer::Ws {
            side: Side::Server,
            text: true,
        })),
        Kind::Client => Ok(stack.attach(Layer::Ws {
            side: Side::Client,
            text: true,
        })),
        Kind::Http => Ok(stack.attach(Layer::Http)),
    }
}

/// A message, a second one behind it, and what is to be sent then.
fn twice(alloc: Global, log: &mut Vec<u8>, stack: &mut Stack, limit: usize) -> Result<(), Fail> {
    message(alloc, log, stack, limit)?;
    message(alloc, log, stack, limit)?;
    gone(log, stack)
}

/// The same where these bytes have come to a stack of this layer.
fn answered(alloc: Global, kind: Kind, bytes: &[u8], limit: usize) -> Result<Vec<u8>, Fail> {
    let mut stack = stood(alloc, bytes, kind)?;
    let mut log = Vec::new(alloc);
    twice(alloc, &mut log, &mut stack, limit)?;
    Ok(log)
}

#[test]
fn a_message_is_given_through_its_layer_and_the_last_ping_is_answered(
    rt: HostRuntime,
) -> Result<(), Fail> {
    let alloc = rt.alloc();
    let table = [
        (
            Kind::Prefix(2, false),
            b"\x00\x02hi\x00" as &[u8],
            8,
            b"hi;need;;" as &[u8],
        ),
        (
            Kind::Prefix(2, false),
            b"\x00\x09",
            8,
            b"EMSGSIZE;EMSGSIZE;;",
        ),
        (Kind::Suffix, b"hi\r\n\r\n", 8, b"hi;;;"),
        (
            Kind::Server,
            b"\x81\x85\x37\xfa\x21\x3d\x7f\x9f\x4d\x51\x58",
            64,
            b"Hello;need;;",
        ),
        (
            Kind::Server,
            b"\x01\x83\0\0\0\0Hel\x89\x80\0\0\0\0\x80\x82\0\0\0\0lo",
            64,
            b"Hello;need;\x8a\0;",
        ),
        (
            Kind::Server,
            b"\x81\x85\0\0\0\0Hello",
            4,
            b"EMSGSIZE;EMSGSIZE;;",
        ),
        (
            Kind::Server,
            b"\x81\x81\0\0\0\0\xff",
            64,
            b"EPROTO;EPROTO;;",
        ),
        (Kind::Server, b"\x88\x80\0\0\0\0", 64, b"EPIPE;EPIPE;;"),
        (Kind::Server, b"\x01\x81\0\0\0\0a", 64, b"need;need;;"),
        (
            Kind::Client,
            b"\x89\x02hi",
            8,
            b"need;need;\x8a\x82\0\0\0\x01hi;",
        ),
        (
            Kind::Server,
            b"\x89\x81\0\0\0\0a\x89\x81\0\0\0\0b",
            8,
            b"need;need;\x8a\x01b;",
        ),
        (Kind::Server, b"\x8a\x80\0\0\0\0", 8, b"need;need;;"),
    ];
    for (kind, bytes, limit, want) in table {
        let told = answered(alloc, kind, bytes, limit)?;
        assert_eq!(rt; told.as_slice(), want);
    }
    Ok(())
}
