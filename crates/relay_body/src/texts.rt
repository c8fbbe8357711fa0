ghost use Rattle.std.specs.Prelude.{◌≡◌, ◌++◌, [], List, ℕ, replicate, get_or, set, IfOk, OnOk, OnErr};

use dill_base::{NoMemory, Octets};
use std::alloc::Global;
use std::marker::Model;

/// The byte registers of a coroutine.
#[derive(Drop)]
pub(crate) struct Texts {
    texts: Vec<Octets>,
}

impl Model for Texts {
    ghost Value = { List (List ℕ) };

    ghost view = { λ t. t.texts.items };
}

impl Texts {
    /// 16 registers without bytes.
    pub(crate) fn new(alloc: Global) -> Result<Texts, NoMemory>
        ensures { IfOk result (λ t. t ≡ replicate 16 []) }
    {
        let mut texts = Vec::new(alloc);
        for _index in 0..16usize {
            if texts.push(Octets::new(alloc)).is_err() {
                return Err(NoMemory);
            }
        }
        Ok(Texts { texts })
    }

    /// What a register holds.
    pub(crate) fn get(&self, place: u8) -> &[u8]
        ensures { result.now ≡ get_or self.now place [] }
    {
        match self.texts.get(usize::from(place)) {
            Some(bytes) => bytes.as_slice(),
            None => &[],
        }
    }

    /// Other bytes in a register.
    pub(crate) fn set(&mut self, place: u8, bytes: Octets)
        ensures { self.new ≡ set self.old place bytes }
    {
        if usize::from(place) < self.texts.len() {
            self.texts[usize::from(place)] = bytes;
        }
    }

    /// More bytes at the end of a register. Refused, it changes nothing.
    pub(crate) fn append(&mut self, place: u8, more: &[u8]) -> Result<(), NoMemory>
        ensures ok { OnOk result (self.new ≡ set self.old place (get_or self.old place [] ++ more.now)) }
        ensures err { OnErr result (self.new ≡ self.old) }
    {
        if usize::from(place) < self.texts.len() {
            let text = &mut self.texts[usize::from(place)];
            return text.push_all(more);
        }
        Ok(())
    }
}
