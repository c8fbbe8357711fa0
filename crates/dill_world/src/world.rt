ghost use Rattle.std.specs.Prelude.{◌≡◌, ◌≤◌, true, find, IfOk, IfSome, Some, None};
ghost use Rattle.dill_base.specs.Maps.{if_some, change};
ghost use Rattle.dill_rules.specs.declared.coroutine.Mode.TheVariants as modes;
ghost use Rattle.dill_world.specs.Twins.{answer_in};
ghost use Rattle.dill_rules.specs.World as worlds;
ghost use Rattle.dill_scope.specs.Scopes as scopes;
ghost use Rattle.dill_world.specs.Store.{world_of, no_random, place_of, may_wait, is_plain_mode, is_short_answer, ArePlain};
ghost use Rattle.dill_rules.specs.Turning as turning;
ghost use Rattle.dill_world.specs.Steps.{left, RunsOn, Resumed};

use crate::answers::copy_answer;
use crate::place::Place;
use crate::row::Row;
use crate::rows::{drop_coroutine, place_of, put_mode};
use dill_base::{Errno, NoMemory};
use dill_calls::{Answer, Body, Call, Next, Note, Word};
use dill_chan::Channels;
use dill_handles::Handles;
use dill_links::Links;
use dill_rules::{Closing, Mode, Thing};
use dill_scope::Scopes;
use std::alloc::Global;
use std::marker::Model;

/// All that a machine keeps but the order of the answers: the coroutines and the bundles that are closing in the order in
/// which they came, the channels and who waits at them, the links and the place in the round, the notes of this step, the moment in
/// milliseconds, and how the program of `main` ended once it has.
/// There is room for each note that the step can still take, and for each closing.
#[derive(Drop)]
pub struct World<B> {
    pub(crate) coroutines: Vec<Row<B>>,
    pub(crate) handles: Handles<Thing>,
    pub(crate) scopes: Scopes,
    pub(crate) closings: Vec<Closing>,
    pub(crate) channels: Channels,
    pub(crate) links: Links,
    pub(crate) place: Place,
    pub(crate) moment: u64,
    pub(crate) last_coroutine: u64,
    pub(crate) last_bundle: u64,
    pub(crate) ended: Option<Option<Errno>>,
    pub(crate) notes: Vec<Note>,
}

impl<B> Model for World<B> {
    ghost use Rattle.std.specs.Prelude.{◌+◌, ◌≤◌, length, vec_capacity};
    ghost use Rattle.dill_world.specs.Store.{Store, place_of, ArePlain};

    ghost Value = { Store B };

    ghost view = { λ w. record { coroutines = w.coroutines.items; handles = w.handles; scopes = w.scopes; closings = w.closings.items; channels = w.channels.channels; links = w.links; place = place_of w.place; moment = w.moment; last_coroutine = w.last_coroutine; last_bundle = w.last_bundle; ended = w.ended; notes = w.notes.items } };

    ghost invariant = { λ w. (length w.notes.items + (length w.handles.entries + w.handles.kept + length w.closings.items) ≤ vec_capacity w.notes) × (length w.closings.items + (length w.handles.entries + w.handles.kept) ≤ vec_capacity w.closings) × (w.last_bundle ≤ w.handles.last) × ArePlain w.coroutines.items };
}

/// A coroutine lives nowhere any more.
fn leave_home(forest: &mut Scopes, who: u64)
    ensures { forest.new ≡ scopes.ended forest.old who }
{
    match forest.home_of(who) {
        None => {}
        Some(_) => {
            let _ = forest.ended(who);
        }
    }
}

/// Where a coroutine stands, it runs on from an answer.
fn run_at<B: Body>(coroutines: &mut Vec<Row<B>>, who: u64, given: Answer) -> Option<Next>
    requires { IfSome (find (worlds.is_coroutine who) coroutines.old.items) (λ c. 1 ≤ B.means.left c.body) }
    ensures runs { RunsOn B.means coroutines.old.items coroutines.new.items who given result }
    ensures plain { ArePlain coroutines.old.items → ArePlain coroutines.new.items }
{
    match place_of(coroutines, who) {
        None => None,
        Some(at) => {
            let one = &mut coroutines[at];
            Some(one.run(given))
        }
    }
}

impl<B> World<B> {
    /// `main` is about to start.
    pub fn new(alloc: Global, body: B) -> Result<World<B>, NoMemory>
    where
        B: Drop,
        ensures { IfOk result (λ w. world_of w ≡ worlds.opening body no_random) }
    {
        let scopes = Scopes::new(alloc)?;
        let mut coroutines = Vec::new(alloc);
        let mode = Mode::Answered(Word::Start, Answer::Number(0));
        let first = Row::new(1, body, mode, Some(Answer::Number(0)));
        if coroutines.push(first).is_err() {
            return Err(NoMemory);
        }
        let mut channels = Channels::new(alloc);
        channels.sit(1)?;
        Ok(World {
            coroutines,
            handles: Handles::new(alloc),
            scopes,
            closings: Vec::new(alloc),
            channels,
            links: Links::new(alloc),
            place: Place { kind: 0, number: 0 },
            moment: 0,
            last_coroutine: 1,
            last_bundle: 0,
            ended: None,
            notes: Vec::new(alloc),
        })
    }
}

/// What can be read.
impl<B> World<B> {
    /// The coroutines by rising number.
    pub fn coroutines(&self) -> &[Row<B>]
        ensures rows { result.now ≡ self.now.coroutines }
        ensures plain { ArePlain result.now }
    {
        self.coroutines.as_slice()
    }

    /// What the handle numbers name.
    pub fn handles(&self) -> &Handles<Thing>
        ensures { result.now ≡ self.now.handles }
    {
        &self.handles
    }

    /// Who lives in which bundle.
    pub fn scopes(&self) -> &Scopes
        ensures { result.now ≡ self.now.scopes }
    {
        &self.scopes
    }

    /// The bundles that are closing and whose numbers died with that.
    pub fn closings(&self) -> &[Closing]
        ensures { result.now ≡ self.now.closings }
    {
        self.closings.as_slice()
    }

    /// The channels, and who waits at them.
    pub fn channels(&self) -> &Channels
        ensures { result.now.channels ≡ self.now.channels }
    {
        &self.channels
    }

    /// The links, and the stacks on them.
    pub fn links(&self) -> &Links
        ensures { result.now ≡ self.now.links }
    {
        &self.links
    }

    /// The place in the round.
    pub fn place(&self) -> Place
        ensures { place_of result ≡ self.now.place }
    {
        self.place
    }

    /// The moment, in milliseconds.
    pub fn moment(&self) -> u64
        ensures { result ≡ self.now.moment }
    {
        self.moment
    }

    /// The number of the coroutine that was made last.
    pub fn last_coroutine(&self) -> u64
        ensures { result ≡ self.now.last_coroutine }
    {
        self.last_coroutine
    }

    /// The name of the bundle that was made last, 0 before the first.
    pub fn last_bundle(&self) -> u64
        ensures { result ≡ self.now.last_bundle }
    {
        self.last_bundle
    }

    /// How the program of `main` ended, once it has.
    pub fn ended(&self) -> Option<Option<Errno>>
        ensures { result ≡ self.now.ended }
    {
        self.ended
    }

    /// What became of handle numbers in this step.
    pub fn notes(&self) -> &[Note]
        ensures { result.now ≡ self.now.notes }
    {
        self.notes.as_slice()
    }
}

/// What changes where coroutines stand.
impl<B: Drop> World<B> {
    /// A step begins.
    pub fn begin(&mut self)
        ensures { world_of self.new ≡ worlds.begin (world_of self.old) }
    {
        self.notes.clear();
    }

    /// The moment is another, in milliseconds.
    pub fn set_moment(&mut self, moment: u64)
        ensures { world_of self.new ≡ record (world_of self.old) { moment = moment } }
    {
        self.moment = moment;
    }

    /// The last ask of the round is another.
    pub fn set_place(&mut self, place: Place)
        ensures { world_of self.new ≡ record (world_of self.old) { place = place_of place } }
    {
        self.place = place;
    }

    /// What is asked goes on from before the first kind, and no link had a write since.
    pub fn restart(&mut self)
        ensures { world_of self.new ≡ worlds.from_start (world_of self.old) }
    {
        self.place = Place { kind: 0, number: 0 };
        self.links.rest();
    }

    /// The root begins to close, so that everybody is cancelled.
    pub fn close_root(&mut self)
        ensures { world_of self.new ≡ record (world_of self.old) { scopes = scopes.close self.old.scopes 0 } }
    {
        self.scopes.close(0);
    }

    /// A coroutine stands there now.
    pub fn set_mode(&mut self, who: u64, mode: Mode)
        requires plain { is_plain_mode mode ≡ true }
        requires none { answer_in mode ≡ None }
        ensures { world_of self.new ≡ worlds.set_mode (world_of self.old) who mode }
    {
        put_mode(&mut self.coroutines, who, mode, None);
    }

    /// A coroutine is answered by what has no bytes, and waits at no channel any more.
    pub fn reply(&mut self, who: u64, word: Word, answer: Answer)
        requires { is_short_answer answer ≡ true }
        ensures { world_of self.new ≡ worlds.reply (world_of self.old) who word answer }
    {
        let twin = copy_answer(&answer);
        self.reply_twice(who, word, answer, twin);
    }

    /// A coroutine is answered, and waits at no channel any more. The answer is had twice: for its program, and to be told.
    pub fn reply_twice(&mut self, who: u64, word: Word, answer: Answer, twin: Answer)
        requires { twin ≡ answer }
        ensures { world_of self.new ≡ worlds.reply (world_of self.old) who word answer }
    {
        put_mode(
            &mut self.coroutines,
            who,
            Mode::Fresh(word, answer),
            Some(twin),
        );
        self.channels.forget(who);
    }

    /// A coroutine waits for its answer.
    pub fn pend(&mut self, who: u64, call: Call)
        requires { may_wait call ≡ true }
        ensures { world_of self.new ≡ worlds.pend (world_of self.old) who call }
    {
        self.set_mode(who, Mode::Pending(call));
    }

    /// An ended coroutine is gone. How `main` ended is kept, and what is asked goes on from before the first kind then.
    pub fn leave(&mut self, who: u64, outcome: Option<Errno>)
        ensures { world_of self.new ≡ left (world_of self.old) who outcome }
    {
        drop_coroutine(&mut self.coroutines, who);
        leave_home(&mut self.scopes, who);
        self.channels.rise(who);
        if who == 1 {
            self.ended = Some(outcome);
            self.restart();
        }
    }
}

/// The answer of a coroutine that is there is taken twice, and it makes its call.
fn take_at<B: Drop>(coroutines: &mut Vec<Row<B>>, who: u64) -> Option<(Word, Answer, Answer)>
    ensures given { result ≡ if_some (find (worlds.is_coroutine who) coroutines.old.items) None (λ c. Some ((turning.given_of c.mode).0, (turning.given_of c.mode).1, (turning.given_of c.mode).1)) }
    ensures rows { coroutines.new.items ≡ change (worlds.is_coroutine who) (worlds.with_mode modes.Running) coroutines.old.items }
    ensures plain { ArePlain coroutines.old.items → ArePlain coroutines.new.items }
{
    match place_of(coroutines, who) {
        None => None,
        Some(at) => {
            let one = &mut coroutines[at];
            Some(one.take())
        }
    }
}

impl<B: Drop> World<B> {
    /// The answer that a coroutine is given at its turn, twice, with the word of its call: for its program, and to be told. The
    /// coroutine makes its call. None where it isn't there.
    pub fn take_answer(&mut self, who: u64) -> Option<(Word, Answer, Answer)>
        ensures given { result ≡ if_some (worlds.coroutine_of (world_of self.old) who) None (λ c. Some ((turning.given_of c.mode).0, (turning.given_of c.mode).1, (turning.given_of c.mode).1)) }
        ensures runs { world_of self.new ≡ worlds.set_mode (world_of self.old) who modes.Running }
    {
        take_at(&mut self.coroutines, who)
    }
}

impl<B: Body> World<B> {
    /// A coroutine is given an answer and runs on to its next call or its end. None where it isn't there.
    pub fn resume(&mut self, who: u64, given: Answer) -> Option<Next>
        requires { IfSome (worlds.coroutine_of (world_of self.old) who) (λ c. 1 ≤ B.means.left c.body) }
        ensures { Resumed B.means (world_of self.old) (world_of self.new) who given result }
    {
        run_at(&mut self.coroutines, who, given)
    }
}
