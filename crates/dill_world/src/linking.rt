ghost use Rattle.std.specs.Prelude.{◌≡◌, ◌+◌, ◌<◌, ◌≤◌, ◌^◌, is_some, true, OnOk, OnErr, Some};
ghost use Rattle.std.specs.Borrow.{sem};
ghost use Rattle.dill_rules.specs.Links as links;
ghost use Rattle.dill_rules.specs.Sockets as sockets;
ghost use Rattle.dill_links.specs.Changing.{changed_link};
ghost use Rattle.dill_world.specs.Lending.{lends_link};
ghost use Rattle.dill_world.specs.Store.{world_of};

use crate::owning::link_of;
use crate::world::World;
use dill_base::NoMemory;
use dill_links::{Change, LinkRow};
use dill_rules::Sort;

impl<B> World<B> {
    /// The number of the link that a live number names.
    pub fn link_number(&self, number: u64) -> Option<u64>
        ensures { result ≡ sockets.link_number (world_of self.now) number }
    {
        match self.entry_of(number) {
            None => None,
            Some(found) => link_of(found.thing),
        }
    }
}

/// What changes links.
impl<B: Drop> World<B> {
    /// What becomes of a link, if it is there.
    pub fn change_link(&mut self, link: u64, change: Change)
        ensures { world_of self.new ≡ sockets.on_link (world_of self.old) link (changed_link change) }
    {
        self.links.change(link, change);
    }

    /// A link that is there, to be changed.
    pub fn row_mut(&mut self, link: u64) -> &mut LinkRow
        requires { is_some (links.look self.old.links link) ≡ true }
        ensures* writes_back { sem 𝓛 (lends_link B.row self.entry link result) }
        ensures row { links.look self.old.links link ≡ Some result.now }
    {
        self.links.row_mut(link)
    }

    /// Keeps a link for a call: its stack, and room for it. Refused, it changes nothing.
    pub fn keep_link(&mut self) -> Result<(), NoMemory>
        requires { self.old.links.last + self.old.links.kept + 1 < 2 ^ 64 }
        ensures ok { OnOk result (world_of self.new ≡ record (world_of self.old) { links = links.keep self.old.links }) }
        ensures err { OnErr result (world_of self.new ≡ world_of self.old) }
    {
        self.links.keep()
    }

    /// Gives a kept link back, if one is kept.
    pub fn unkeep_link(&mut self)
        ensures { world_of self.new ≡ record (world_of self.old) { links = links.unkeep self.old.links } }
    {
        self.links.unkeep();
    }

    /// The kernel made the next link, which was kept. Answers its number. It takes no memory.
    pub fn add_link(&mut self, sort: Sort) -> u64
        requires { 1 ≤ self.old.links.kept }
        ensures number { result ≡ self.old.links.last + 1 }
        ensures added { world_of self.new ≡ record (world_of self.old) { links = links.add self.old.links sort } }
    {
        self.links.add(sort)
    }

    /// A link is gone, if it is there.
    pub fn remove_link(&mut self, link: u64)
        ensures { world_of self.new ≡ record (world_of self.old) { links = links.gone self.old.links link } }
    {
        self.links.remove(link);
    }
}
