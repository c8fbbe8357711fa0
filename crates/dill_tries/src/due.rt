ghost use Rattle.std.specs.Prelude.{◌≡◌, ◌&&◌, ℕ, not, true, is_some};
ghost use Rattle.std.specs.List.{list_any};
ghost use Rattle.dill_rules.specs.Giving.{is_connecting_for};
ghost use Rattle.dill_rules.specs.Links as links;
ghost use Rattle.dill_rules.specs.Trying as trying;
ghost use Rattle.dill_world.specs.Store.{world_of};
ghost use Rattle.dill_tries.specs.Dues.{is_due, due_by, due_in, of_links, try_of, try_on};

use crate::kind::Kind;
use crate::pending::{Sort, is_pending_on};
use dill_base::Address;
use dill_calls::Call;
use dill_links::LinkRow;
use dill_rules::Sort as LinkSort;
use dill_world::{Row, World, pending_call};

/// An ask of the kernel that is due, with the number of its link; of a listen and a connect, that of the coroutine that waits for
/// the next link. A write has the bytes that are offered.
#[derive(Clone, Copy, Debug)]
pub enum Due<'a> {
    Close(u64),
    Listen(u64, Address, u64),
    Connect(u64, Address),
    Finish(u64),
    Accept(u64),
    Write(u64, &'a [u8]),
    Shut(u64),
    Read(u64),
}

fn is_connecting(sort: LinkSort) -> bool
    ensures { result ≡ is_some (links.connector sort) }
{
    matches!(sort, LinkSort::Connecting(_))
}

fn is_listening(sort: LinkSort) -> bool
    ensures { result ≡ links.is_listening sort }
{
    matches!(sort, LinkSort::Listening)
}

fn is_stream(sort: LinkSort) -> bool
    ensures { result ≡ links.is_stream sort }
{
    matches!(sort, LinkSort::Stream)
}

/// Bytes may come that a pending call needs.
fn is_needy<B>(world: &World<B>, x: &LinkRow) -> bool
    ensures { result ≡ trying.is_needy (world_of world.now) x.now }
{
    x.stack().needs_bytes() && is_pending_on(world, Sort::Needs, x.number())
}

/// A stream that is there takes more bytes in, as far as its peer has neither ended nor failed.
fn takes_in(x: &LinkRow) -> bool
    ensures { result ≡ (links.is_stream x.now.sort && (x.now.read_hot && (not x.now.stack.receiving.done && not x.now.stack.receiving.broken))) }
{
    let receiving = x.stack().receiving();
    is_stream(x.sort()) && x.read_hot() && !receiving.done && !receiving.broken
}

/// An ask of this kind is due of a link.
pub(crate) fn is_due<B>(world: &World<B>, kind: Kind, x: &LinkRow) -> bool
    ensures { result ≡ is_due (world_of world.now) kind x.now }
{
    match kind {
        Kind::Close => x.closing(),
        Kind::Finish => !x.closing() && is_connecting(x.sort()) && x.write_hot(),
        Kind::Accept => {
            !x.closing()
                && is_listening(x.sort())
                && x.read_hot()
                && is_pending_on(world, Sort::Accepts, x.number())
        }
        Kind::Write => {
            !x.closing() && is_stream(x.sort()) && x.write_hot() && !x.stack().is_idle()
        }
        Kind::Shut => {
            !x.closing()
                && is_stream(x.sort())
                && !x.shut()
                && x.stack().is_idle()
                && is_pending_on(world, Sort::Ends, x.number())
        }
        Kind::Read => !x.closing() && takes_in(x) && is_needy(world, x),
        Kind::Listen => false,
        Kind::Connect => false,
    }
}

/// The ask of this kind on a link.
pub(crate) fn due_on(kind: Kind, x: &LinkRow) -> Due<'_>
    requires { of_links kind ≡ true }
    ensures { (next : ℕ) → try_of next result ≡ try_on next kind x.now }
{
    let number = x.number();
    match kind {
        Kind::Finish => Due::Finish(number),
        Kind::Accept => Due::Accept(number),
        Kind::Write => Due::Write(number, x.stack().offered()),
        Kind::Shut => Due::Shut(number),
        Kind::Read => Due::Read(number),
        _ => Due::Close(number),
    }
}

/// A link connects for this coroutine.
fn connects_for<B>(world: &World<B>, who: u64) -> bool
    ensures { result ≡ list_any (is_connecting_for who) world.now.links.all }
{
    world
        .links()
        .rows()
        .iter()
        .any(|x| is_connecting_for(x, who))
}

fn is_connecting_for(x: &LinkRow, who: u64) -> bool
    ensures { result ≡ is_connecting_for who x.now }
{
    let connects = match x.sort() {
        LinkSort::Connecting(other) => other == who,
        _ => false,
    };
    !x.closing() && connects
}

/// The ask of a call that makes a link, where it has none.
fn due_of<'a, B>(world: &World<B>, kind: Kind, who: u64, call: &Call) -> Option<Due<'a>>
    ensures { result ≡ due_by (world_of world.now) kind who call.now }
{
    match (kind, call) {
        (Kind::Listen, Call::TcpListen(address, backlog)) => {
            Some(Due::Listen(who, *address, *backlog))
        }
        (Kind::Connect, Call::TcpConnect(address, _)) => {
            if connects_for(world, who) {
                None
            } else {
                Some(Due::Connect(who, *address))
            }
        }
        _ => None,
    }
}

/// The ask of this kind that a coroutine waits for.
pub(crate) fn due_in<'a, B>(world: &World<B>, kind: Kind, c: &Row<B>) -> Option<Due<'a>>
    ensures { result ≡ due_in (world_of world.now) kind c.now }
{
    match pending_call(c.mode()) {
        None => None,
        Some(call) => due_of(world, kind, c.number(), call),
    }
}
