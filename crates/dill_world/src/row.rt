ghost use Rattle.std.specs.Prelude.{◌≡◌, ◌≤◌, Some, None, IfSome, is_some};
ghost use Rattle.dill_calls.specs.Program.{Turns};
ghost use Rattle.dill_calls.specs.declared.answer.Answer.TheVariants.{Number};
ghost use Rattle.dill_calls.specs.declared.word.Word.TheVariants as words;
ghost use Rattle.dill_rules.specs.State as states;
ghost use Rattle.dill_rules.specs.Turning as turning;
ghost use Rattle.dill_rules.specs.World.{with_mode};
ghost use Rattle.dill_rules.specs.declared.coroutine.Mode.TheVariants as modes;
ghost use Rattle.dill_rules.specs.Directions.{asked};
ghost use Rattle.dill_rules.specs.LinkAnswers.{answer_said};
ghost use Rattle.dill_stack.specs.Interface.{limit_of_want};
ghost use Rattle.dill_world.specs.Looks.{wanted, seen_by, answered_by, HasTwice};
ghost use Rattle.dill_world.specs.Twins.{answer_in};

use crate::rooms::Rooms;
use dill_calls::{Answer, Body, Call, Next, Word};
use dill_rules::{Coroutine, Mode};
use dill_sockets::asked;
use dill_stack::{Stack, Want};
use rand_core::Rng;
use std::marker::Model;
use std::mem;

/// A coroutine, and its answer once more while it has one: one for its program, and one for what is told of its turn. A receive
/// that is pending has room for both.
#[derive(Drop)]
pub struct Row<B> {
    one: Coroutine<B>,
    twin: Option<Answer>,
    rooms: Option<Rooms>,
}

impl<B> Model for Row<B> {
    ghost use Rattle.dill_rules.specs.declared.coroutine.Coroutine.{Coroutine};
    ghost use Rattle.std.specs.Prelude.{◌≡◌};
    ghost use Rattle.dill_world.specs.Looks.{HasRooms};
    ghost use Rattle.dill_world.specs.Twins.{answer_in};

    ghost Value = { Coroutine B };

    ghost view = { λ r. r.one };

    ghost invariant = { λ r. (r.twin ≡ answer_in r.one.mode) × HasRooms r.one.mode r.rooms };
}

impl<B> Row<B> {
    /// A coroutine that stands there.
    pub fn new(number: u64, body: B, mode: Mode, twin: Option<Answer>) -> Row<B>
        requires twin { twin ≡ answer_in mode }
        requires quiet { wanted mode ≡ None }
        ensures { result ≡ record { number = number; body = body; mode = mode } }
    {
        Row {
            one: Coroutine { number, body, mode },
            twin,
            rooms: None,
        }
    }

    /// Its number.
    pub fn number(&self) -> u64
        ensures { result ≡ self.now.number }
    {
        self.one.number
    }

    /// Where it stands.
    pub fn mode(&self) -> &Mode
        ensures { result.now ≡ self.now.mode }
    {
        &self.one.mode
    }

    /// What it runs.
    pub fn body(&self) -> &B
        ensures { result.now ≡ self.now.body }
    {
        &self.one.body
    }
}

/// Where who stands there stands once the step is over.
fn lined_mode(mode: Mode) -> Mode
    ensures mode { result ≡ states.lined_mode mode }
    ensures twin { answer_in result ≡ answer_in mode }
    ensures waits { wanted result ≡ wanted mode }
{
    match mode {
        Mode::Fresh(word, answer) => Mode::Answered(word, answer),
        other => other,
    }
}

/// What a receive that is pending asks for.
fn wanted(mode: &Mode) -> Option<Want>
    ensures { result ≡ wanted mode.now }
{
    match mode {
        Mode::Pending(call) => asked(call),
        _ => None,
    }
}

/// Where who stands there stands once it has this answer.
fn answered_by(mode: Mode, answer: Answer) -> Mode
    ensures mode { result ≡ answered_by (Some answer) mode }
{
    match mode {
        Mode::Pending(call) => Mode::Fresh(call.word(), answer),
        other => other,
    }
}

/// What is given, to a program and to who is told of its turn, of an answer that waits.
fn given_of(mode: Mode, twin: Option<Answer>) -> (Word, Answer, Answer)
    requires { twin ≡ answer_in mode }
    ensures { result ≡ ((turning.given_of mode).0, (turning.given_of mode).1, (turning.given_of mode).1) }
{
    match mode {
        Mode::Answered(word, answer) => match twin {
            Some(second) => (word, answer, second),
            None => (word, answer, Answer::Number(0)),
        },
        _ => (Word::Start, Answer::Number(0), Answer::Number(0)),
    }
}

impl<B: Drop> Row<B> {
    /// It stands there once the step is over.
    pub fn line(&mut self)
        ensures { self.new ≡ states.lined self.old }
    {
        let mode = mem::replace(&mut self.one.mode, Mode::Running);
        self.one.mode = lined_mode(mode);
    }

    /// It makes its call, and the answer that waited is taken twice.
    pub fn take(&mut self) -> (Word, Answer, Answer)
        ensures given { result ≡ ((turning.given_of self.old.mode).0, (turning.given_of self.old.mode).1, (turning.given_of self.old.mode).1) }
        ensures runs { self.new ≡ with_mode modes.Running self.old }
    {
        let twin = mem::replace(&mut self.twin, None);
        let mode = mem::replace(&mut self.one.mode, Mode::Running);
        given_of(mode, twin)
    }

    /// It stands there now.
    pub fn put(&mut self, mode: Mode, twin: Option<Answer>)
        requires twin { twin ≡ answer_in mode }
        requires quiet { wanted mode ≡ None }
        ensures { self.new ≡ with_mode mode self.old }
    {
        self.one.mode = mode;
        self.twin = twin;
        self.rooms = None;
    }

    /// It waits for the answer of a receive, for which it has room twice.
    pub fn receive(&mut self, call: Call, rooms: Rooms)
        requires { IfSome (asked call) (λ want. HasTwice want rooms) }
        ensures { self.new ≡ with_mode (modes.Pending call) self.old }
    {
        self.one.mode = Mode::Pending(call);
        self.twin = None;
        self.rooms = Some(rooms);
    }

    /// A receive that is pending looks at its stack, and is answered, if it can be. It takes no memory.
    pub fn look<R: Rng>(&mut self, stack: &mut Stack, keys: &mut R) -> bool
        requires { IfSome (wanted self.old.mode) (λ want. limit_of_want want ≤ stack.old.most) }
        ensures answered { result ≡ is_some (answer_said (seen_by self.old.mode (R.stream keys.old) stack.old.held).said) }
        ensures stack { stack.new ≡ record stack.old { held = (seen_by self.old.mode (R.stream keys.old) stack.old.held).stack } }
        ensures random { R.stream keys.new ≡ (seen_by self.old.mode (R.stream keys.old) stack.old.held).random }
        ensures row { self.new ≡ with_mode (answered_by (answer_said (seen_by self.old.mode (R.stream keys.old) stack.old.held).said) self.old.mode) self.old }
    {
        let Some(want) = wanted(&self.one.mode) else {
            return false;
        };
        let Some(rooms) = &mut self.rooms else {
            return false;
        };
        match rooms.read(want, stack, keys) {
            None => false,
            Some((answer, twin)) => {
                let mode = mem::replace(&mut self.one.mode, Mode::Running);
                self.one.mode = answered_by(mode, answer);
                self.twin = Some(twin);
                true
            }
        }
    }
}

impl<B: Body> Row<B> {
    /// Its program runs on from an answer.
    pub fn run(&mut self, given: Answer) -> Next
        requires { 1 ≤ B.means.left self.old.body }
        ensures turns { Turns B.means self.old.body given self.new.body result }
        ensures runs { self.new ≡ turning.as_running self.new.body self.old }
    {
        self.one.mode = Mode::Running;
        self.twin = None;
        self.one.body.turn(given)
    }
}
