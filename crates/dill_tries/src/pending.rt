ghost use Rattle.std.specs.Prelude.{◌≡◌, ◌==◌, false};
ghost use Rattle.std.specs.List.{list_any};
ghost use Rattle.dill_base.specs.Maps.{if_some};
ghost use Rattle.dill_calls.specs.CallTable.{named_by};
ghost use Rattle.dill_rules.specs.Directions as directions;
ghost use Rattle.dill_rules.specs.Sockets as sockets;
ghost use Rattle.dill_rules.specs.Trying as trying;
ghost use Rattle.dill_world.specs.Store.{world_of};
ghost use Rattle.dill_tries.specs.Dues.{sort_of, awaits};

use dill_calls::{Call, Word};
use dill_rules::Mode;
use dill_world::{Row, World, pending_call};

/// The calls that are looked for on a link: an accept; a call that ends by a `shut`; a call that may need bytes.
#[derive(Clone, Copy, Debug, PartialEq, Eq)]
pub(crate) enum Sort {
    Accepts,
    Ends,
    Needs,
}

impl Sort {
    /// A call of this sort.
    fn has(self, word: Word) -> bool
        ensures { result ≡ sort_of self word }
    {
        match self {
            Sort::Accepts => matches!(word, Word::TcpAccept),
            Sort::Ends => matches!(word, Word::TcpDone | Word::TcpClose),
            Sort::Needs => may_need(word),
        }
    }
}

/// A receive, a handshake or a call that gives its stack up.
fn may_need(word: Word) -> bool
    ensures { result ≡ trying.may_need word }
{
    is_receive(word)
        || matches!(word, Word::WsAttachClient | Word::WsAttachServer)
        || word.gives_up()
}

/// A receive.
fn is_receive(word: Word) -> bool
    ensures { result ≡ directions.is_receive word }
{
    matches!(
        word,
        Word::Brecv
            | Word::Mrecv
            | Word::HttpRecvrequest
            | Word::HttpRecvstatus
            | Word::HttpRecvfield
    )
}

/// The call names this link.
fn is_on<B>(world: &World<B>, link: u64, call: &Call) -> bool
    ensures { result ≡ if_some (named_by call.now) false (λ number. if_some (sockets.link_number (world_of world.now) number) false (λ n. n == link)) }
{
    match call.handle() {
        None => false,
        Some(number) => match world.link_number(number) {
            None => false,
            Some(named) => named == link,
        },
    }
}

/// Who stands there is pending on the link in a call of this sort.
fn awaits<B>(world: &World<B>, sort: Sort, link: u64, mode: &Mode) -> bool
    ensures { result ≡ awaits (world_of world.now) link (sort_of sort) mode.now }
{
    match pending_call(mode) {
        None => false,
        Some(call) => sort.has(call.word()) && is_on(world, link, call),
    }
}

/// One of these coroutines is pending on the link in a call of this sort.
fn anybody_awaits<B>(world: &World<B>, sort: Sort, link: u64, coroutines: &[Row<B>]) -> bool
    ensures { result ≡ list_any (λ c. awaits (world_of world.now) link (sort_of sort) c.mode) coroutines.now }
{
    coroutines
        .iter()
        .any(|c| awaits(world, sort, link, c.mode()))
}

/// Somebody is pending on the link in a call of this sort.
pub(crate) fn is_pending_on<B>(world: &World<B>, sort: Sort, link: u64) -> bool
    ensures { result ≡ trying.is_pending_on (world_of world.now) (sort_of sort) link }
{
    anybody_awaits(world, sort, link, world.coroutines())
}
