ghost use Rattle.std.specs.Prelude.{◌≡◌, ◌+◌, ◌<◌, ◌≤◌, List, ◌∷◌, ◌++◌, length, vec_capacity, find};
ghost use Rattle.std.specs.Option.{option_to_list};
ghost use Rattle.dill_base.specs.Maps.{if_some};
ghost use Rattle.dill_handles.specs.Handles.{retire};
ghost use Rattle.dill_rules.specs.Owning as owning;
ghost use Rattle.dill_rules.specs.Settling as settling;
ghost use Rattle.dill_rules.specs.Settling.{placed};
ghost use Rattle.dill_rules.specs.declared.coroutine.Closing.{Closing};
ghost use Rattle.dill_world.specs.Closings.{closing_of, closings_of, retire_each, close_each};
ghost use Rattle.dill_world.specs.Freeings.{drop_each, notes_of, is_owned_closing, others_of};
ghost use Rattle.dill_world.specs.Gathering.{spot, gathered};
ghost use Rattle.dill_world.specs.Releases.{freed, owned_number, falling, retire_noted_one, retire_noted, drop_named, drop_noted_one, drop_noted, close_named, close_noted_one, close_noted};
ghost use Rattle.dill_world.specs.Steps.{left};
ghost use Rattle.dill_world.specs.Store.{world_of};

use crate::owning::let_go;
use crate::rows::find_dead_as;
use crate::taking::bundle_of;
use crate::world::World;
use dill_base::Errno;
use dill_calls::Note;
use dill_chan::Channels;
use dill_handles::{Entry, Handles};
use dill_links::Links;
use dill_rules::{Closing, Mode, Thing};
use dill_scope::Scopes;

/// The closing of a handle's bundle, where a coroutine owns it and it is one.
fn closing_of(entry: &Entry<Thing>, who: u64) -> Option<Closing>
    ensures { result ≡ closing_of who entry.now }
{
    if entry.owner == who {
        match bundle_of(entry.thing) {
            None => None,
            Some(bundle) => Some(Closing {
                bundle,
                number: entry.number,
            }),
        }
    } else {
        None
    }
}

/// The closing of a handle's bundle is added, where a coroutine owns it and it is one.
fn add_closing(entry: &Entry<Thing>, who: u64, closings: &mut Vec<Closing>)
    requires { length closings.old.items + 1 ≤ vec_capacity closings.old }
    ensures items { closings.new.items ≡ closings.old.items ++ option_to_list (closing_of who entry.now) }
    ensures capacity { vec_capacity closings.new ≡ vec_capacity closings.old }
{
    if let Some(closing) = closing_of(entry, who) {
        closings.push_reserved(closing);
    }
}

/// The closings of the bundles that a coroutine owns are added.
fn add_closings(entries: &[Entry<Thing>], who: u64, closings: &mut Vec<Closing>)
    requires { length closings.old.items + length entries.now ≤ vec_capacity closings.old }
    ensures items { closings.new.items ≡ closings.old.items ++ closings_of who entries.now }
    ensures capacity { vec_capacity closings.new ≡ vec_capacity closings.old }
{
    for entry in entries {
        add_closing(entry, who, closings);
    }
}

/// The numbers of closings are dead, and their bundles, which a coroutine owns, begin to close.
fn close_each(handles: &mut Handles<Thing>, scopes: &mut Scopes, closings: &[Closing], who: u64)
    ensures handles { handles.new ≡ retire_each handles.old closings.now }
    ensures scopes { scopes.new ≡ close_each who scopes.old closings.now }
{
    for x in closings {
        let _ = handles.retire(x.number);
        scopes.take(x.bundle, who);
        scopes.close(x.bundle);
    }
}

/// The number of a handle is noted as released, if a coroutine owns it.
fn note_one_freed(entry: &Entry<Thing>, who: u64, notes: &mut Vec<Note>)
    requires { length notes.old.items + 1 ≤ vec_capacity notes.old }
    ensures items { notes.new.items ≡ notes.old.items ++ freed (owned_number who entry.now) }
    ensures capacity { vec_capacity notes.new ≡ vec_capacity notes.old }
{
    if entry.owner == who {
        notes.push_reserved(Note::Freed(entry.number));
    }
}

/// The numbers that a coroutine owns are noted as released, the highest first.
fn note_freed(entries: &[Entry<Thing>], who: u64, notes: &mut Vec<Note>)
    requires { length notes.old.items + length entries.now ≤ vec_capacity notes.old }
    ensures items { notes.new.items ≡ notes.old.items ++ freed (falling who entries.now) }
    ensures capacity { vec_capacity notes.new ≡ vec_capacity notes.old }
{
    for i in (0..entries.len()).rev() {
        note_one_freed(&entries[i], who, notes);
    }
}

/// A number is dead, and what it named is released.
fn release_number(
    handles: &mut Handles<Thing>,
    channels: &mut Channels,
    links: &mut Links,
    number: u64,
)
    ensures handles { handles.new ≡ retire handles.old number }
    ensures channels { channels.new.channels ≡ drop_named handles.old channels.old.channels number }
    ensures links { links.new ≡ close_named handles.old links.old number }
{
    if let Some(thing) = handles.retire(number) {
        let_go(channels, links, thing);
    }
}

/// The number that a note says was released is dead, and what it named is released.
fn release_one_noted(
    handles: &mut Handles<Thing>,
    channels: &mut Channels,
    links: &mut Links,
    note: Note,
)
    ensures handles { handles.new ≡ retire_noted_one handles.old note }
    ensures channels { channels.new.channels ≡ drop_noted_one handles.old channels.old.channels note }
    ensures links { links.new ≡ close_noted_one handles.old links.old note }
{
    if let Note::Freed(number) = note {
        release_number(handles, channels, links, number);
    }
}

/// The numbers that notes say were released are dead, and what they named is released.
fn release_noted(
    handles: &mut Handles<Thing>,
    channels: &mut Channels,
    links: &mut Links,
    notes: &[Note],
)
    ensures handles { handles.new ≡ retire_noted handles.old notes.now }
    ensures channels { channels.new.channels ≡ drop_noted handles.old channels.old.channels notes.now }
    ensures links { links.new ≡ close_noted handles.old links.old notes.now }
{
    for note in notes {
        release_one_noted(handles, channels, links, *note);
    }
}

/// Whether the bundle of a closing has this owner.
fn is_owned_closing(scopes: &Scopes, who: u64, x: Closing) -> bool
    ensures { result ≡ is_owned_closing scopes.now who x }
{
    match scopes.owner_of(x.bundle) {
        None => false,
        Some(owner) => owner == who,
    }
}

/// How many closings have a higher number, up to the first that has not.
fn spot(closings: &[Closing], number: u64) -> usize
    ensures value { result ≡ spot number closings.now }
    ensures within { result ≤ length closings.now }
{
    for i in 0..closings.len() {
        if closings[i].number <= number {
            return i;
        }
    }
    closings.len()
}

/// A closing goes behind the others, which end before a place, to where its number is in order.
fn move_behind(closings: &mut Vec<Closing>, i: usize, from: usize)
    requires before { i < from }
    requires within { from ≤ length closings.old.items }
    ensures items { (front mid tail : List Closing) (x : Closing) → closings.old.items ≡ front ++ x ∷ (mid ++ tail) → length front ≡ i → i + 1 + length mid ≡ from → closings.new.items ≡ front ++ (mid ++ placed x tail) }
    ensures len { length closings.new.items ≡ length closings.old.items }
    ensures capacity { vec_capacity closings.old ≤ vec_capacity closings.new }
{
    let x = closings.remove(i);
    let at = from - 1 + spot(&closings[from - 1..], x.number);
    let _ = closings.insert(at, x);
}

/// The closings of an owner's bundles go behind the others, the highest number first. Answers where they begin.
fn gather(closings: &mut Vec<Closing>, scopes: &Scopes, who: u64) -> usize
    ensures items { closings.new.items ≡ gathered scopes.now who closings.old.items }
    ensures from { result ≡ length (others_of scopes.now who closings.old.items) }
    ensures len { length closings.new.items ≡ length closings.old.items }
    ensures capacity { vec_capacity closings.old ≤ vec_capacity closings.new }
{
    let mut from = closings.as_slice().len();
    for i in (0..closings.as_slice().len()).rev() {
        if is_owned_closing(scopes, who, closings[i]) {
            move_behind(closings, i, from);
            from -= 1;
        }
    }
    from
}

/// The bundles of closings are gone.
fn drop_each(scopes: &mut Scopes, closings: &[Closing])
    ensures { scopes.new ≡ drop_each scopes.old closings.now }
{
    for x in closings {
        scopes.drop_bundle(x.bundle);
    }
}

/// It is noted that the bundles of closings are gone.
fn note_each(notes: &mut Vec<Note>, closings: &[Closing])
    requires { length notes.old.items + length closings.now ≤ vec_capacity notes.old }
    ensures items { notes.new.items ≡ notes.old.items ++ notes_of closings.now }
    ensures capacity { vec_capacity notes.new ≡ vec_capacity notes.old }
{
    for x in closings {
        notes.push_reserved(Note::Freed(x.number));
    }
}

/// What becomes of the bundles and handles of who ends.
impl<B: Drop> World<B> {
    /// The bundles of a coroutine are gone, the highest number first.
    fn free_all(&mut self, who: u64)
        ensures { world_of self.new ≡ settling.free_all (world_of self.old) who }
    {
        let first = gather(&mut self.closings, &self.scopes, who);
        drop_each(&mut self.scopes, &self.closings[first..]);
        note_each(&mut self.notes, &self.closings[first..]);
        self.closings.truncate(first);
    }

    /// The other handles of a coroutine are released, the highest number first.
    fn release_all(&mut self, who: u64)
        ensures { world_of self.new ≡ settling.release_all (world_of self.old) who }
    {
        let first = self.notes.as_slice().len();
        note_freed(self.handles.as_slice(), who, &mut self.notes);
        release_noted(
            &mut self.handles,
            &mut self.channels,
            &mut self.links,
            &self.notes[first..],
        );
    }

    /// The bundles of a coroutine begin to close.
    fn close_all(&mut self, who: u64)
        ensures { world_of self.new ≡ settling.close_all (world_of self.old) who }
    {
        let first = self.closings.as_slice().len();
        add_closings(self.handles.as_slice(), who, &mut self.closings);
        close_each(
            &mut self.handles,
            &mut self.scopes,
            &self.closings[first..],
            who,
        );
    }

    /// A program has ended: its bundles begin to close, and it waits for them.
    pub fn end(&mut self, who: u64, outcome: Option<Errno>)
        ensures { world_of self.new ≡ settling.end (world_of self.old) who outcome }
    {
        self.close_all(who);
        self.set_mode(who, Mode::Ending(outcome));
    }

    /// An ending finishes: first its bundles are gone, then its other handles, then the coroutine itself.
    pub fn finish(&mut self, who: u64, outcome: Option<Errno>)
        ensures { world_of self.new ≡ left (settling.release_all (settling.free_all (world_of self.old) who) who) who outcome }
    {
        self.free_all(who);
        self.release_all(who);
        self.leave(who, outcome);
    }

    /// The bundle that is closing is gone whose number died with that, where there is one.
    pub fn free_dead(&mut self, number: u64)
        ensures { world_of self.new ≡ if_some (find (owning.is_dead_as number) self.old.closings) (world_of self.old) (owning.free_bundle (world_of self.old)) }
    {
        if let Some(found) = find_dead_as(self.closings(), number) {
            let closing = *found;
            self.free_bundle(closing);
        }
    }
}
