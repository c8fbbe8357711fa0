ghost use Rattle.std.specs.Prelude.{[], not, ◌≡◌, ◌+◌, ◌<◌, ◌≤◌, ◌^◌, length, find, is_some, true, IfOk, OnOk, OnErr};
ghost use Rattle.dill_chan.specs.declared.end.Want.TheVariants.{Send};
ghost use Rattle.dill_chan.specs.Meetings.{has_ended};
ghost use Rattle.dill_chan.specs.Seats.{done_unless_ended};
ghost use Rattle.dill_rules.specs.Naming as naming;
ghost use Rattle.dill_rules.specs.Owning as owning;
ghost use Rattle.dill_rules.specs.Effects as effects;
ghost use Rattle.dill_rules.specs.Sockets.{link_of};
ghost use Rattle.dill_rules.specs.Entering as entering;
ghost use Rattle.dill_handles.specs.Handles as handles;
ghost use Rattle.dill_calls.specs.declared.answer.Answer.TheVariants.{Number};
ghost use Rattle.dill_calls.specs.declared.word.Word.TheVariants as words;
ghost use Rattle.dill_rules.specs.declared.coroutine.Mode.TheVariants as modes;
ghost use Rattle.dill_world.specs.Store.{world_of};
ghost use Rattle.dill_world.specs.Releases.{drop_end_of, close_link};
ghost use Rattle.dill_world.specs.Steps.{add_channel, bear_apart};

use crate::answers::end_of;
use crate::naming::draws_of;
use crate::row::Row;
use crate::rows::drop_closing;
use crate::world::World;
use dill_base::NoMemory;
use dill_calls::{Answer, Arg, Call, Note, Word};
use dill_chan::Channels;
use dill_links::{Change, Links};
use dill_rules::{Closing, Mode, Thing};

/// A coroutine that is about to start.
fn born<B>(number: u64, body: B) -> Row<B>
    ensures { result ≡ record { number = number; body = body; mode = modes.Fresh words.Start (Number 0) } }
{
    let mode = Mode::Fresh(Word::Start, Answer::Number(0));
    Row::new(number, body, mode, Some(Answer::Number(0)))
}

/// A coroutine that is about to be there has room for its clauses at channels.
fn seat(channels: &mut Channels, number: u64) -> Result<(), NoMemory>
    ensures { channels.new.channels ≡ channels.old.channels }
{
    if channels.has_room_for(number) {
        return Ok(());
    }
    channels.sit(number)
}

/// The link of a listener or of a socket.
pub fn link_of(thing: Thing) -> Option<u64>
    ensures { result ≡ link_of thing }
{
    match thing {
        Thing::Listener(link) => Some(link),
        Thing::Socket(link) => Some(link),
        _ => None,
    }
}

/// The `close` of the link that a thing is on is due, if it is on one.
fn close_link(links: &mut Links, thing: Thing)
    ensures { links.new ≡ close_link links.old thing }
{
    if let Some(link) = link_of(thing) {
        links.change(link, Change::Closes);
    }
}

/// An end of a channel is gone, if a thing is one.
fn drop_end_of(channels: &mut Channels, thing: Thing)
    ensures { channels.new.channels ≡ drop_end_of channels.old.channels thing }
{
    if let Some(end) = end_of(thing) {
        channels.remove(end);
    }
}

/// A thing is released: an end of a channel is gone, and the `close` of a link is due.
pub fn let_go(channels: &mut Channels, links: &mut Links, thing: Thing)
    ensures channels { channels.new.channels ≡ drop_end_of channels.old.channels thing }
    ensures links { links.new ≡ close_link links.old thing }
{
    drop_end_of(channels, thing);
    close_link(links, thing);
}

impl<B: Drop> World<B> {
    /// Keeps the numbers that the answer of a call draws, with room for the notes and closings of their things. Refused,
    /// it changes nothing.
    pub fn keep_for(&mut self, call: &Call) -> Result<(), NoMemory>
        requires { handles.has_room self.old.handles (naming.draws_of call.now) ≡ true }
        ensures ok { OnOk result (world_of self.new ≡ entering.keep_for (world_of self.old) call.now) }
        ensures err { OnErr result (self.new ≡ self.old) }
    {
        let count = draws_of(call);
        let live = self.handles.len() + self.handles.kept() + count;
        if self.closings.reserve(live).is_err() {
            return Err(NoMemory);
        }
        if self.notes.reserve(live + self.closings.len()).is_err() {
            return Err(NoMemory);
        }
        match self.handles.keep_all(count) {
            Ok(()) => Ok(()),
            Err(_) => Err(NoMemory),
        }
    }

    /// So many kept numbers are given back.
    pub fn unkeep(&mut self, count: usize)
        requires { count ≤ self.old.handles.kept }
        ensures { world_of self.new ≡ record (world_of self.old) { handles = handles.unkeep self.old.handles count } }
    {
        self.handles.unkeep_all(count);
    }

    /// The next number, which was kept, names a thing from now on. Answers that number.
    pub fn make(&mut self, thing: Thing, owner: u64) -> u64
        requires { 1 ≤ self.old.handles.kept }
        ensures made { world_of self.new ≡ effects.make (world_of self.old) thing owner }
        ensures number { result ≡ effects.next_number (world_of self.old) }
    {
        self.handles.make(thing, owner)
    }

    /// A new bundle of a coroutine. Answers its number, which was kept. Refused, it changes nothing.
    pub fn add_bundle(&mut self, who: u64) -> Result<u64, NoMemory>
        requires { 1 ≤ self.old.handles.kept }
        ensures ok { OnOk result (world_of self.new ≡ effects.add_bundle (world_of self.old) who) }
        ensures number { IfOk result (λ number. number ≡ effects.next_number (world_of self.old)) }
        ensures err { OnErr result (self.new ≡ self.old) }
    {
        let _ = self.handles.last();
        let name = self.last_bundle + 1;
        self.scopes.bundle(name, who)?;
        self.last_bundle = name;
        Ok(self.handles.make(Thing::Bundle(name), who))
    }

    /// A new channel, whose two ends have this owner. Answers their numbers, which were kept. Refused, it changes nothing.
    pub fn add_channel(&mut self, who: u64) -> Result<(u64, u64), NoMemory>
        requires { 2 ≤ self.old.handles.kept }
        ensures ok { OnOk result (world_of self.new ≡ add_channel (world_of self.old) who) }
        ensures numbers { IfOk result (λ ends. ends ≡ (effects.next_number (world_of self.old), effects.next_number (world_of self.old) + 1)) }
        ensures err { OnErr result (self.new ≡ self.old) }
    {
        let (here, there) = self.channels.add()?;
        let first = self.handles.make(Thing::End(here), who);
        let second = self.handles.make(Thing::End(there), who);
        Ok((first, second))
    }

    /// The sending direction of an end is done. False, where it was done or an end is gone; then it changes nothing.
    pub fn finish_end(&mut self, end: u64) -> bool
        ensures done { result ≡ not (has_ended self.old.channels end (Send [])) }
        ensures left { world_of self.new ≡ record (world_of self.old) { channels = done_unless_ended self.old.channels end } }
    {
        self.channels.finish(end)
    }

    /// A new coroutine lives in a bundle. Refused, it changes nothing.
    pub fn bear(&mut self, body: B, home: u64) -> Result<(), NoMemory>
        requires { self.old.last_coroutine + 1 < 2 ^ 64 }
        ensures ok { OnOk result (world_of self.new ≡ effects.bear (world_of self.old) body home) }
        ensures err { OnErr result (self.new ≡ self.old) }
    {
        let number = self.last_coroutine + 1;
        if self.coroutines.reserve(1).is_err() {
            return Err(NoMemory);
        }
        seat(&mut self.channels, number)?;
        self.scopes.enter(home, number)?;
        self.coroutines.push_reserved(born(number, body));
        self.last_coroutine = number;
        Ok(())
    }

    /// A new coroutine lives in a new bundle of a coroutine, whose number was kept. Refused, it changes nothing.
    pub fn bear_apart(&mut self, who: u64, body: B) -> Result<(), NoMemory>
        requires kept { 1 ≤ self.old.handles.kept }
        requires few { self.old.last_coroutine + 1 < 2 ^ 64 }
        ensures ok { OnOk result (world_of self.new ≡ bear_apart (world_of self.old) who body) }
        ensures err { OnErr result (self.new ≡ self.old) }
    {
        let _ = self.handles.last();
        let name = self.last_bundle + 1;
        let number = self.last_coroutine + 1;
        if self.coroutines.reserve(1).is_err() {
            return Err(NoMemory);
        }
        seat(&mut self.channels, number)?;
        self.scopes.open(name, who, number)?;
        self.coroutines.push_reserved(born(number, body));
        let _ = self.handles.make(Thing::Bundle(name), who);
        self.last_bundle = name;
        self.last_coroutine = number;
        Ok(())
    }

    /// A bundle goes to the owner of its handle, and nothing else has an owner beside its handle's.
    pub fn take_thing(&mut self, thing: Thing, owner: u64)
        ensures taken { world_of self.new ≡ owning.take_thing (world_of self.old) thing owner }
        ensures handles { self.new.handles ≡ self.old.handles }
    {
        if let Thing::Bundle(name) = thing {
            self.scopes.take(name, owner);
        }
    }

    /// A number is dead, and the next one, which was kept, names its thing for an owner. Of a dead number it changes nothing.
    pub fn renumber(&mut self, number: u64, owner: u64)
        requires { 1 ≤ self.old.handles.kept }
        ensures moved { world_of self.new ≡ owning.move (world_of self.old) number owner }
        ensures kept { self.old.handles.kept ≤ self.new.handles.kept + 1 }
    {
        if let Some(thing) = self.handles.retire(number) {
            let next = self.handles.make(thing, owner);
            self.notes.push_reserved(Note::Moved(number, next));
            self.take_thing(thing, owner);
        }
    }

    /// The gifts among the arguments go to an owner, in their order.
    pub fn give_all(&mut self, args: &[Arg], owner: u64)
        requires { length (naming.gifts_of args.now) ≤ self.old.handles.kept }
        ensures { world_of self.new ≡ effects.give_all (world_of self.old) (naming.gifts_of args.now) owner }
    {
        for arg in args {
            if let Arg::Give(number) = arg {
                self.renumber(*number, owner);
            }
        }
    }

    /// What becomes of a thing that is released: an end of a channel is gone, and the `close` of a link is due.
    fn drop_thing(&mut self, thing: Thing)
        ensures { world_of self.new ≡ owning.drop (world_of self.old) thing }
    {
        let_go(&mut self.channels, &mut self.links, thing);
    }

    /// A number is dead, and its thing is gone. Of a dead number it changes nothing.
    pub fn release(&mut self, number: u64)
        ensures { world_of self.new ≡ owning.release (world_of self.old) number }
    {
        if let Some(thing) = self.handles.retire(number) {
            self.notes.push_reserved(Note::Freed(number));
            self.drop_thing(thing);
        }
    }

    /// A bundle of an owner begins to close, and its number, which was live, is dead.
    pub fn close_bundle(&mut self, owner: u64, name: u64, number: u64)
        requires { is_some (owning.entry_of (world_of self.old) number) ≡ true }
        ensures { world_of self.new ≡ owning.close_bundle (world_of self.old) owner name number }
    {
        let _ = self.handles.retire(number);
        self.scopes.take(name, owner);
        self.scopes.close(name);
        self.closings.push_reserved(Closing {
            bundle: name,
            number,
        });
    }

    /// A bundle that has closed is gone.
    pub fn free_bundle(&mut self, closing: Closing)
        requires { is_some (find (owning.is_closing_of closing.bundle) self.old.closings) ≡ true }
        ensures { world_of self.new ≡ owning.free_bundle (world_of self.old) closing }
    {
        drop_closing(&mut self.closings, closing.bundle);
        self.scopes.drop_bundle(closing.bundle);
        self.notes.push_reserved(Note::Freed(closing.number));
    }
}
