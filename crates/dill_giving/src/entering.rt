ghost use Rattle.std.specs.Prelude.{◌≡◌, ◌≤◌, [], true, None, Some, IfSome, OnOk, OnErr, is_some};
ghost use Rattle.dill_base.specs.Maps.{if_some};
ghost use Rattle.dill_calls.specs.CallTable.{word_of, named_by};
ghost use Rattle.dill_links.specs.Changing.{changed_link};
ghost use Rattle.dill_stack.specs.Interface as stacks;
ghost use Rattle.dill_stack.specs.Refusals.{is_allowed_parting};
ghost use Rattle.dill_stack.specs.Standing.{FitsBelow};
ghost use Rattle.dill_rules.specs.Directions.{layer_of, parting_of, is_handshake};
ghost use Rattle.dill_rules.specs.Linking as linking;
ghost use Rattle.dill_rules.specs.Links as links;
ghost use Rattle.dill_rules.specs.Sockets as sockets;
ghost use Rattle.dill_sockets.specs.Entering.{attach_due};
ghost use Rattle.dill_sockets.specs.Faults.{spelling_fault};
ghost use Rattle.dill_world.specs.Store.{world_of};
ghost use Rattle.dill_giving.specs.Entering.{Asks, start_handshake, start_leaving};
ghost use Rattle.dill_giving.specs.Finding.{on_handle};

use crate::finding::{link_at, link_on};
use crate::rows;
use dill_base::{Errno, NoMemory};
use dill_calls::{Answer, Call};
use dill_links::Change;
use dill_sockets::asked;
use dill_stack::Want;
use dill_world::World;
use rand_core::Rng;
use std::alloc::Global;

/// The link that a live number names is changed.
fn change_named<B: Drop>(world: &mut World<B>, number: u64, change: Change)
    ensures { world_of world.new ≡ sockets.on_named (world_of world.old) number (changed_link change) }
{
    if let Some(link) = world.link_number(number) {
        world.change_link(link, change);
    }
}

/// These directions of the call's link are hot.
pub fn heat<B: Drop>(world: &mut World<B>, call: &Call, read: bool, write: bool)
    ensures { world_of world.new ≡ linking.heat (world_of world.old) call.now read write }
{
    if let Some(number) = call.handle() {
        change_named(world, number, Change::Heats(read, write));
    }
}

/// There is room for what this receive may need on the link that a handle names. Refused, nothing changes.
fn reserve_at<B: Drop>(
    world: &mut World<B>,
    handle: Option<u64>,
    want: Want,
) -> Result<(), NoMemory>
    ensures ok { OnOk result (world_of world.new ≡ on_handle (world_of world.old) handle (links.reserved want)) }
    ensures err { OnErr result (world_of world.new ≡ world_of world.old) }
{
    match link_at(world, handle) {
        None => Ok(()),
        Some(link) => rows::reserve(world.row_mut(link), want),
    }
}

/// From the entry of a receive on there is room for what it may need. Refused, nothing changes.
pub fn reserve<B: Drop>(world: &mut World<B>, call: &Call) -> Result<(), NoMemory>
    ensures ok { OnOk result (world_of world.new ≡ linking.reserve (world_of world.old) call.now) }
    ensures err { OnErr result (world_of world.new ≡ world_of world.old) }
{
    match asked(call) {
        None => Ok(()),
        Some(want) => reserve_at(world, call.handle(), want),
    }
}

/// What a send queues on the call's stack. In want of memory nothing changes, and no random number is drawn.
pub fn queue<B: Drop, R: Rng>(
    alloc: Global,
    world: &mut World<B>,
    call: &Call,
    keys: &mut R,
) -> Result<(), NoMemory>
    requires sent { IfSome (sockets.stack_of (world_of world.old) call.now) (λ s. stacks.is_sent s ≡ true) }
    requires spelled { spelling_fault call.now ≡ None }
    ensures { Asks (λ w. linking.queue w call.now) result (world_of world.old) (world_of world.new) (R.stream keys.old) (R.stream keys.new) }
{
    match link_at(world, call.handle()) {
        None => Ok(()),
        Some(link) => rows::queue(alloc, call, world.row_mut(link), keys),
    }
}

/// A handshake begins on the call's stack. In want of memory nothing changes, and no random number is drawn.
pub fn greet<B: Drop, R: Rng>(
    world: &mut World<B>,
    call: &Call,
    keys: &mut R,
) -> Result<(), NoMemory>
    requires bare { is_handshake (word_of call.now) ≡ true → IfSome (sockets.stack_of (world_of world.old) call.now) (λ s. s.layers ≡ []) }
    requires sent { IfSome (sockets.stack_of (world_of world.old) call.now) (λ s. stacks.is_sent s ≡ true) }
    ensures { Asks (λ w. start_handshake w call.now) result (world_of world.old) (world_of world.new) (R.stream keys.old) (R.stream keys.new) }
{
    match link_at(world, call.handle()) {
        None => Ok(()),
        Some(link) => rows::greet(call, world.row_mut(link), keys),
    }
}

/// A detach begins on the call's stack. In want of memory nothing changes, and no random number is drawn.
pub fn detach_start<B: Drop, R: Rng>(
    alloc: Global,
    world: &mut World<B>,
    call: &Call,
    keys: &mut R,
) -> Result<(), NoMemory>
    requires sent { IfSome (sockets.stack_of (world_of world.old) call.now) (λ s. stacks.is_sent s ≡ true) }
    requires allowed { IfSome (parting_of call.now) (λ parting. is_allowed_parting parting ≡ true) }
    ensures { Asks (λ w. start_leaving w call.now) result (world_of world.old) (world_of world.new) (R.stream keys.old) (R.stream keys.new) }
{
    match link_at(world, call.handle()) {
        None => Ok(()),
        Some(link) => rows::detach_start(alloc, call, world.row_mut(link), keys),
    }
}

/// Whether the call attaches a layer at its entry.
fn has_layer(call: &Call) -> bool
    ensures { result ≡ is_some (layer_of call.now) }
{
    matches!(
        call,
        Call::PrefixAttach(_, _, _)
            | Call::SuffixAttach(_, _)
            | Call::TermAttach(_, _)
            | Call::HttpAttach(_)
            | Call::WsAttachNohttp(_, _, _)
    )
}

/// The layer of a call stands on its stack. In want of memory nothing changes.
fn put_layer<B: Drop>(alloc: Global, world: &mut World<B>, call: &Call) -> Result<(), NoMemory>
    requires fits { IfSome (sockets.stack_of (world_of world.old) call.now) (λ s. IfSome (layer_of call.now) (λ layer. FitsBelow layer s.layers)) }
    ensures ok { OnOk result (world_of world.new ≡ linking.ask_stack (world_of world.old) call.now (attach_due call.now)) }
    ensures err { OnErr result (world_of world.new ≡ world_of world.old) }
    ensures handles { world.new.handles ≡ world.old.handles }
{
    match link_at(world, call.handle()) {
        None => Ok(()),
        Some(link) => rows::attach(alloc, call, world.row_mut(link)),
    }
}

/// A layer is attached, and the socket, which the call names, has a new number. In want of memory nothing changes.
fn attach_as<B: Drop>(
    alloc: Global,
    world: &mut World<B>,
    who: u64,
    call: &Call,
    number: u64,
) -> Result<(), NoMemory>
    requires named { named_by call.now ≡ Some number }
    requires fits { IfSome (sockets.stack_of (world_of world.old) call.now) (λ s. IfSome (layer_of call.now) (λ layer. FitsBelow layer s.layers)) }
    requires kept { 1 ≤ world.old.handles.kept }
    ensures ok { OnOk result (world_of world.new ≡ linking.attach_layer (world_of world.old) who call.now) }
    ensures err { OnErr result (world_of world.new ≡ world_of world.old) }
{
    if !has_layer(call) {
        return Ok(());
    }
    put_layer(alloc, world, call)?;
    world.renumber(number, who);
    Ok(())
}

/// A layer is attached, and the socket has a new number, which was kept and which the caller owns. In want of memory nothing
/// changes.
pub fn attach_layer<B: Drop>(
    alloc: Global,
    world: &mut World<B>,
    who: u64,
    call: &Call,
) -> Result<(), NoMemory>
    requires fits { IfSome (sockets.stack_of (world_of world.old) call.now) (λ s. IfSome (layer_of call.now) (λ layer. FitsBelow layer s.layers)) }
    requires kept { 1 ≤ world.old.handles.kept }
    ensures ok { OnOk result (world_of world.new ≡ linking.attach_layer (world_of world.old) who call.now) }
    ensures err { OnErr result (world_of world.new ≡ world_of world.old) }
{
    match call.handle() {
        None => Ok(()),
        Some(number) => attach_as(alloc, world, who, call, number),
    }
}

/// An attach is answered with the new number of the socket, which was kept. In want of memory nothing changes.
pub fn enter_attach<B: Drop>(
    alloc: Global,
    world: &mut World<B>,
    who: u64,
    call: &Call,
) -> Result<(), NoMemory>
    requires fits { IfSome (sockets.stack_of (world_of world.old) call.now) (λ s. IfSome (layer_of call.now) (λ layer. FitsBelow layer s.layers)) }
    requires kept { 1 ≤ world.old.handles.kept }
    ensures ok { OnOk result (world_of world.new ≡ linking.enter_attach (world_of world.old) who call.now) }
    ensures err { OnErr result (world_of world.new ≡ world_of world.old) }
{
    let next = world.handles().last() + 1;
    attach_layer(alloc, world, who, call)?;
    world.reply(who, call.word(), Answer::Number(next));
    Ok(())
}

/// Whether the call leaves the layer on top.
fn leaves(call: &Call) -> bool
    ensures { result ≡ is_some (parting_of call.now) }
{
    matches!(
        call,
        Call::PrefixDetach(_)
            | Call::SuffixDetach(_)
            | Call::TermDetach(_, _)
            | Call::HttpDetach(_, _)
            | Call::WsDetach(_, _, _, _)
    )
}

/// All that is unread on the link that a handle names is dropped.
fn drop_at<B: Drop>(world: &mut World<B>, handle: Option<u64>)
    ensures { world_of world.new ≡ on_handle (world_of world.old) handle (links.with_stack stacks.drop_unread) }
{
    if let Some(link) = link_at(world, handle) {
        rows::drop_unread(world.row_mut(link));
    }
}

/// `tcp_close` drops all that is unread, and a detach nothing.
pub fn dropped_for<B: Drop>(world: &mut World<B>, call: &Call)
    ensures { world_of world.new ≡ linking.dropped_for (world_of world.old) call.now }
{
    if !leaves(call) {
        drop_at(world, call.handle());
    }
}

/// Why the stack of a call can't be left, if it can't.
fn parting_fault<B>(world: &World<B>, call: &Call) -> Option<Errno>
    ensures { result ≡ if_some (sockets.stack_of (world_of world.now) call.now) None stacks.parting_fault }
{
    match link_on(world, call.handle()) {
        None => None,
        Some(row) => row.stack().parting_fault(),
    }
}

/// The errno with which a call that gives its stack up ends at once: the caller is cancelled, or the stack can't be left.
pub fn given_up_at_once<B>(world: &World<B>, who: u64, call: &Call) -> Option<Errno>
    ensures { result ≡ linking.given_up_at_once (world_of world.now) who call.now }
{
    if world.is_cancelled(who) {
        Some(Errno::Ecanceled)
    } else {
        parting_fault(world, call)
    }
}
