ghost use Rattle.std.specs.Prelude.{◌≡◌, [], true, None, IfSome, OnOk, OnErr};
ghost use Rattle.rand_core.specs.Stream.{Stream};
ghost use Rattle.dill_calls.specs.CallTable.{word_of};
ghost use Rattle.dill_stack.specs.Interface.{is_sent, drop_unread};
ghost use Rattle.dill_stack.specs.Refusals.{is_allowed_parting};
ghost use Rattle.dill_stack.specs.Standing.{FitsBelow};
ghost use Rattle.dill_rules.specs.Directions.{layer_of, parting_of, is_handshake};
ghost use Rattle.dill_rules.specs.Giving as giving;
ghost use Rattle.dill_rules.specs.Linking.{greet_by};
ghost use Rattle.dill_rules.specs.Links as links;
ghost use Rattle.dill_sockets.specs.Entering.{queue_due, attach_due, detach_due};
ghost use Rattle.dill_sockets.specs.Faults.{spelling_fault};
ghost use Rattle.dill_giving.specs.Entering.{Puts};

use dill_base::NoMemory;
use dill_calls::{Answer, Call, Word};
use dill_links::LinkRow;
use dill_stack::Want;
use rand_core::Rng;
use std::alloc::Global;

/// There is room on the link for what a receive may need. Refused, nothing changes.
pub(crate) fn reserve(row: &mut LinkRow, want: Want) -> Result<(), NoMemory>
    ensures ok { OnOk result (row.new ≡ links.reserved want row.old) }
    ensures err { OnErr result (row.new ≡ row.old) }
{
    row.stack_mut().reserve(want)
}

/// All that is unread is dropped.
pub(crate) fn drop_unread(row: &mut LinkRow)
    ensures { row.new ≡ links.with_stack drop_unread row.old }
{
    let _ = row.stack_mut().drop_unread();
}

/// A send on the link is answered.
pub(crate) fn after_send(word: Word, answer: &Answer, row: &mut LinkRow)
    ensures { row.new ≡ links.with_stack (giving.after_send word answer.now) row.old }
{
    dill_sockets::after_send(word, answer, row.stack_mut());
}

/// A send queues its item on the link.
pub(crate) fn queue<R: Rng>(
    alloc: Global,
    call: &Call,
    row: &mut LinkRow,
    keys: &mut R,
) -> Result<(), NoMemory>
    requires sent { is_sent row.old.stack ≡ true }
    requires spelled { spelling_fault call.now ≡ None }
    ensures { Puts (queue_due call.now (R.stream keys.old) row.old.stack) result row.old row.new (R.stream keys.old) (R.stream keys.new) }
{
    dill_sockets::queue(alloc, call, row.stack_mut(), keys)
}

/// An attach puts its layer on the link's stack.
pub(crate) fn attach(alloc: Global, call: &Call, row: &mut LinkRow) -> Result<(), NoMemory>
    requires fits { IfSome (layer_of call.now) (λ layer. FitsBelow layer row.old.stack.layers) }
    ensures { (random : Stream) → Puts (attach_due call.now random row.old.stack) result row.old row.new random random }
{
    dill_sockets::attach(alloc, call, row.stack_mut())
}

/// A handshake begins on the link.
pub(crate) fn greet<R: Rng>(call: &Call, row: &mut LinkRow, keys: &mut R) -> Result<(), NoMemory>
    requires bare { is_handshake (word_of call.now) ≡ true → row.old.stack.layers ≡ [] }
    requires sent { is_sent row.old.stack ≡ true }
    ensures { Puts (greet_by call.now (R.stream keys.old) row.old.stack) result row.old row.new (R.stream keys.old) (R.stream keys.new) }
{
    dill_sockets::greet(call, row.stack_mut(), keys)
}

/// A detach begins on the link.
pub(crate) fn detach_start<R: Rng>(
    alloc: Global,
    call: &Call,
    row: &mut LinkRow,
    keys: &mut R,
) -> Result<(), NoMemory>
    requires sent { is_sent row.old.stack ≡ true }
    requires allowed { IfSome (parting_of call.now) (λ parting. is_allowed_parting parting ≡ true) }
    ensures { Puts (detach_due call.now (R.stream keys.old) row.old.stack) result row.old row.new (R.stream keys.old) (R.stream keys.new) }
{
    dill_sockets::detach_start(alloc, call, row.stack_mut(), keys)
}
