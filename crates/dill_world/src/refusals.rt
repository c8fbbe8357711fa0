ghost use Rattle.std.specs.Prelude.{◌≡◌, ◌&&◌, ◌||◌, false, not, length, find, None, option_map, option_copied};
ghost use Rattle.std.specs.List.{list_any};
ghost use Rattle.dill_calls.specs.CallTable.{word_of};
ghost use Rattle.dill_base.specs.Maps.{if_some};
ghost use Rattle.dill_rules.specs.Links.{look};
ghost use Rattle.dill_rules.specs.Naming.{gifts_of};
ghost use Rattle.dill_rules.specs.Sockets.{link_of, stack_of, faults_by};
ghost use Rattle.dill_rules.specs.Refusals as refusals;
ghost use Rattle.dill_rules.specs.Taking.{is_on};
ghost use Rattle.dill_rules.specs.World.{pending_call};
ghost use Rattle.dill_world.specs.Store.{world_of};
ghost use Rattle.dill_world.specs.Ways.{goes_by, is_taken_up};
ghost use Rattle.dill_world.specs.declared.refusals.Way.TheVariants as ways;

use crate::naming::{bears, draws_of, gives_twice, is_accept, is_on, is_receive, is_send, links};
use crate::owning::link_of;
use crate::row::Row;
use crate::world::World;
use dill_base::Errno;
use dill_calls::{Arg, Body, Call, Clause, Word};
use dill_rules::{Mode, Thing};
use dill_sockets::Faults;
use dill_stack::Stack;

/// The most bytes of a message, of an item of a channel and of a receive.
const MOST_BYTES: usize = 1_048_576;

/// The order of refusals; want of memory is the last.
const ORDER: [Errno; 9] = [
    Errno::Ecanceled,
    Errno::Ebadf,
    Errno::Enotsup,
    Errno::Einval,
    Errno::Ebusy,
    Errno::Epipe,
    Errno::Econnreset,
    Errno::Emsgsize,
    Errno::Emfile,
];

/// The order of a call that gives a stack up, before it does.
const GIVING_ORDER: [Errno; 5] = [
    Errno::Ebadf,
    Errno::Enotsup,
    Errno::Einval,
    Errno::Ebusy,
    Errno::Emfile,
];

/// A direction of a handle, of which one call at a time is pending.
#[derive(Clone, Copy)]
enum Way {
    Send,
    Receive,
    Accept,
}

fn goes(way: Way, word: Word) -> bool
    ensures { result ≡ goes_by way word }
{
    match way {
        Way::Send => is_send(word),
        Way::Receive => is_receive(word),
        Way::Accept => is_accept(word),
    }
}

fn waits_so(mode: &Mode, way: Way, number: u64) -> bool
    ensures { result ≡ if_some (pending_call mode.now) false (λ call. goes_by way (word_of call) && is_on number call) }
{
    match mode {
        Mode::Pending(call) => goes(way, call.word()) && is_on(number, call),
        _ => false,
    }
}

fn somebody_waits_so<B>(coroutines: &[Row<B>], way: Way, number: u64) -> bool
    ensures { result ≡ list_any (λ c. if_some (pending_call c.mode) false (λ call. goes_by way (word_of call) && is_on number call)) coroutines.now }
{
    coroutines.iter().any(|c| waits_so(c.mode(), way, number))
}

/// Whether a call of this word uses a direction that is in use.
fn is_taken_up<B>(coroutines: &[Row<B>], word: Word, way: Way, number: u64) -> bool
    ensures { result ≡ is_taken_up coroutines.now word way number }
{
    goes(way, word) && somebody_waits_so(coroutines, way, number)
}

/// Whether a call of this word uses any direction that is in use.
fn is_in_some_use<B>(coroutines: &[Row<B>], word: Word, number: u64) -> bool
    ensures { result ≡ (is_taken_up coroutines.now word ways.Send number || (is_taken_up coroutines.now word ways.Receive number || is_taken_up coroutines.now word ways.Accept number)) }
{
    if is_taken_up(coroutines, word, Way::Send, number) {
        return true;
    }
    if is_taken_up(coroutines, word, Way::Receive, number) {
        return true;
    }
    is_taken_up(coroutines, word, Way::Accept, number)
}

/// Whether a clause is of a size over the limit.
fn is_over_limit(clause: &Clause) -> bool
    ensures { result ≡ refusals.is_over_limit clause.now }
{
    match clause {
        Clause::Send(_, bytes) => MOST_BYTES < bytes.as_slice().len(),
        Clause::Recv(_, size) => 1_048_576 < *size,
    }
}

fn some_over_limit(clauses: &[Clause]) -> bool
    ensures { result ≡ list_any refusals.is_over_limit clauses.now }
{
    clauses.iter().any(|x| is_over_limit(x))
}

fn cannot_bear<B: Body>(body: &B, program: u32, args: &[Arg]) -> bool
    ensures { result ≡ not (refusals.can_bear B.means body.now program (length args.now) (gifts_of args.now)) }
{
    !(body.knows(program, args.len()) && !gives_twice(args))
}

/// Whether an argument of the call is outside its range.
fn is_invalid<B: Body>(body: &B, call: &Call) -> bool
    ensures { result ≡ refusals.is_invalid B.means body.now call.now }
{
    match call {
        Call::Hmake(kind, _) => *kind < 256 || 4_294_967_295 < *kind,
        Call::Go(program, args) => cannot_bear(body, *program, args.as_slice()),
        Call::BundleGo(_, program, args) => cannot_bear(body, *program, args.as_slice()),
        Call::Chsend(_, bytes, _) => MOST_BYTES < bytes.as_slice().len(),
        Call::Chrecv(_, size, _) => 1_048_576 < *size,
        Call::Choose(_, clauses) => {
            let all = clauses.as_slice();
            all.len() == 0 || 16 < all.len() || some_over_limit(all)
        }
        Call::TcpListen(_, backlog) => *backlog < 1 || 4096 < *backlog,
        _ => false,
    }
}

/// Whether a stack refuses so.
fn is_one_of(faults: &Option<Faults>, errno: Errno) -> bool
    ensures { result ≡ if_some faults.now false (list_any (refusals.is_same errno)) }
{
    match faults {
        None => false,
        Some(all) => all.has(errno),
    }
}

impl<B> World<B> {
    fn is_called_off(&self, who: u64, call: &Call) -> bool
        ensures { result ≡ refusals.is_called_off (world_of self.now) who call.now }
    {
        let word = call.word();
        self.is_cancelled(who) && (word.blocks() || word.makes() || self.takes_anothers(who, call))
    }

    fn is_closed_to(&self, number: u64) -> bool
        ensures { result ≡ refusals.is_closed_to (world_of self.now) number }
    {
        match self.entry_of(number) {
            None => false,
            Some(found) => self.is_leaving(found.owner),
        }
    }

    fn waits_inside(&self, who: u64, number: u64) -> bool
        ensures { result ≡ refusals.waits_inside (world_of self.now) who number }
    {
        match self.bundle_named(number) {
            None => false,
            Some(name) => self.scopes().inside(who, name),
        }
    }

    fn is_closed_bundle(&self, who: u64, call: &Call) -> bool
        ensures { result ≡ refusals.is_closed_bundle (world_of self.now) who call.now }
    {
        match call {
            Call::BundleGo(number, _, _) => self.is_closed_to(*number),
            Call::BundleWait(number, _) => self.waits_inside(who, *number),
            _ => false,
        }
    }

    fn is_in_use(&self, call: &Call) -> bool
        ensures { result ≡ refusals.is_in_use (world_of self.now) call.now }
    {
        let word = call.word();
        match call.handle() {
            None => false,
            Some(number) => { is_in_some_use(self.coroutines(), word, number) }
        }
    }

    fn is_busy(&self, who: u64, call: &Call) -> bool
        ensures { result ≡ refusals.is_busy (world_of self.now) who call.now }
    {
        self.takes_wrongly(who, call)
            || self.is_occupied(call)
            || self.is_in_use(call)
            || self.is_closed_bundle(who, call)
    }

    fn has_no_coroutine(&self) -> bool
        ensures { result ≡ refusals.has_no_coroutine (world_of self.now) }
    {
        65_536 <= self.coroutines().len() || u64::MAX <= self.last_coroutine()
    }

    fn is_short(&self, call: &Call) -> bool
        ensures { result ≡ refusals.is_short (world_of self.now) call.now }
    {
        let word = call.word();
        !self.handles().has_room(draws_of(call))
            || (bears(word) && self.has_no_coroutine())
            || (links(word) && self.links().is_full())
    }

    /// The stack on the link that a thing is on.
    fn stack_on(&self, thing: Thing) -> Option<&Stack>
        ensures { option_map (λ s. s.held) (option_copied result) ≡ if_some (link_of thing) None (λ link. option_map (λ x. x.stack) (look self.now.links link)) }
    {
        match link_of(thing) {
            None => None,
            Some(link) => match self.links().find(link) {
                None => None,
                Some(found) => Some(found.stack()),
            },
        }
    }

    /// The stack that a call is on.
    fn stack_of(&self, call: &Call) -> Option<&Stack>
        ensures { option_map (λ s. s.held) (option_copied result) ≡ stack_of (world_of self.now) call.now }
    {
        match call.handle() {
            None => None,
            Some(number) => match self.entry_of(number) {
                None => None,
                Some(found) => self.stack_on(found.thing),
            },
        }
    }

    /// What the stack that a call is on refuses of it, if it is on one.
    fn faults_of(&self, call: &Call) -> Option<Faults>
        ensures { result ≡ option_map (faults_by call.now (refusals.is_in_use (world_of self.now) call.now)) (stack_of (world_of self.now) call.now) }
    {
        match self.stack_of(call) {
            None => None,
            Some(stack) => Some(Faults::of(call, self.is_in_use(call), stack)),
        }
    }
}

impl<B: Body> World<B> {
    /// Whether the condition of an errno holds, but for what a stack refuses.
    fn holds_of_itself(&self, who: u64, body: &B, call: &Call, errno: Errno) -> bool
        ensures { result ≡ refusals.holds_of_itself B.means (world_of self.now) who body.now call.now errno }
    {
        match errno {
            Errno::Ecanceled => self.is_called_off(who, call),
            Errno::Ebadf => self.names_dead(call),
            Errno::Enotsup => self.names_other(call),
            Errno::Einval => is_invalid(body, call),
            Errno::Ebusy => self.is_busy(who, call),
            Errno::Emfile => self.is_short(call),
            _ => false,
        }
    }

    /// Whether the condition of an errno holds, where the stack refuses so of the call.
    fn holds(&self, who: u64, body: &B, call: &Call, faults: &Option<Faults>, errno: Errno) -> bool
        requires { faults.now ≡ option_map (faults_by call.now (refusals.is_in_use (world_of self.now) call.now)) (stack_of (world_of self.now) call.now) }
        ensures { result ≡ refusals.holds B.means (world_of self.now) who body.now call.now errno }
    {
        self.holds_of_itself(who, body, call, errno) || is_one_of(faults, errno)
    }

    /// The first errno of an order whose condition holds, where the stack refuses so of the call.
    fn first_of(
        &self,
        who: u64,
        body: &B,
        call: &Call,
        faults: &Option<Faults>,
        order: &[Errno],
    ) -> Option<Errno>
        requires { faults.now ≡ option_map (faults_by call.now (refusals.is_in_use (world_of self.now) call.now)) (stack_of (world_of self.now) call.now) }
        ensures { result ≡ find (refusals.holds B.means (world_of self.now) who body.now call.now) order.now }
    {
        for errno in order {
            if self.holds(who, body, call, faults, *errno) {
                return Some(*errno);
            }
        }
        None
    }

    /// Why the call of a coroutine with this program is refused at its entry, if it is; want of memory is no part of it.
    pub fn refuse(&self, who: u64, body: &B, call: &Call) -> Option<Errno>
        ensures { result ≡ refusals.refuse B.means (world_of self.now) who body.now call.now }
    {
        let faults = self.faults_of(call);
        if call.word().gives_up() {
            self.first_of(who, body, call, &faults, &GIVING_ORDER)
        } else {
            self.first_of(who, body, call, &faults, &ORDER)
        }
    }
}
