ghost use Rattle.std.specs.Prelude.{◌≡◌, OnOk, OnErr, IfOk, IsSome, Some, false, filter, find, map, nat_lt, option_copied};
ghost use Rattle.std.specs.List.{list_all};
ghost use Rattle.dill_base.specs.Maps.{if_some};
ghost use Rattle.dill_scope.specs.Scopes as scopes;

use crate::forest::{Bundle, Home};
use crate::places::{end_home, free_bundle, is_lived_in, is_owned_by, note_closing, note_owner};
use dill_base::NoMemory;
use std::alloc::Global;
use std::marker::Model;

/// Who lives in which bundle, who owns each bundle, and which bundles are closing. Coroutines and bundles
/// are named by numbers, and are kept in the order in which they came.
#[derive(Debug, Drop)]
pub struct Scopes {
    homes: Vec<Home>,
    bundles: Vec<Bundle>,
}

impl Model for Scopes {
    ghost use Rattle.dill_scope.specs.Scopes.{Scopes};

    ghost Value = { Scopes };

    ghost view = { λ s. record { homes = s.homes.items; bundles = s.bundles.items } };
}

impl Scopes {
    /// Coroutine 1 lives in bundle 0, the root, which nobody owns.
    pub fn new(alloc: Global) -> Result<Scopes, NoMemory>
        ensures { IfOk result (λ s. s ≡ scopes.opening_scopes) }
    {
        let mut homes = Vec::new(alloc);
        let mut bundles = Vec::new(alloc);
        let root = Bundle {
            name: 0,
            owner: None,
            closing: false,
        };
        if homes.push(Home { who: 1, bundle: 0 }).is_err() {
            return Err(NoMemory);
        }
        if bundles.push(root).is_err() {
            return Err(NoMemory);
        }
        Ok(Scopes { homes, bundles })
    }

    /// A new bundle of an owner, in which nobody lives. Refused, it changes nothing.
    pub fn bundle(&mut self, name: u64, owner: u64) -> Result<(), NoMemory>
        ensures ok { OnOk result (self.new ≡ scopes.bundle self.old name owner) }
        ensures err { OnErr result (self.new ≡ self.old) }
    {
        let new = Bundle {
            name,
            owner: Some(owner),
            closing: false,
        };
        match self.bundles.push(new) {
            Ok(()) => Ok(()),
            Err(_) => Err(NoMemory),
        }
    }

    /// A new coroutine lives in a bundle. Refused, it changes nothing.
    pub fn enter(&mut self, bundle: u64, who: u64) -> Result<(), NoMemory>
        ensures ok { OnOk result (self.new ≡ scopes.enter self.old bundle who) }
        ensures err { OnErr result (self.new ≡ self.old) }
    {
        match self.homes.push(Home { who, bundle }) {
            Ok(()) => Ok(()),
            Err(_) => Err(NoMemory),
        }
    }

    /// A new bundle of an owner, with a new coroutine in it. Refused, it changes nothing.
    pub fn open(&mut self, name: u64, owner: u64, who: u64) -> Result<(), NoMemory>
        ensures ok { OnOk result (self.new ≡ scopes.enter (scopes.bundle self.old name owner) name who) }
        ensures err { OnErr result (self.new ≡ self.old) }
    {
        if self.bundles.reserve(1).is_err() {
            return Err(NoMemory);
        }
        if self.homes.push(Home { who, bundle: name }).is_err() {
            return Err(NoMemory);
        }
        let new = Bundle {
            name,
            owner: Some(owner),
            closing: false,
        };
        let _ = self.bundles.push(new);
        Ok(())
    }

    /// The coroutines and the bundles that they live in, in the order in which they came.
    pub fn homes(&self) -> &[Home]
        ensures { result.now ≡ self.now.homes }
    {
        self.homes.as_slice()
    }

    /// The bundles, in the order in which they came.
    pub fn bundles(&self) -> &[Bundle]
        ensures { result.now ≡ self.now.bundles }
    {
        self.bundles.as_slice()
    }

    /// A bundle with its owner, and whether it is closing.
    pub fn look(&self, bundle: u64) -> Option<&Bundle>
        ensures { option_copied result ≡ find (scopes.is_bundle bundle) self.now.bundles }
    {
        self.bundles.iter().find(|x| x.name == bundle)
    }

    /// The bundle that a coroutine lives in.
    pub fn home_of(&self, who: u64) -> Option<u64>
        ensures { result ≡ scopes.home_of self.now who }
    {
        self.homes.iter().find(|x| x.who == who).map(|x| x.bundle)
    }

    /// The owner of a bundle. Nobody owns the root.
    pub fn owner_of(&self, bundle: u64) -> Option<u64>
        ensures { result ≡ scopes.owner_of self.now bundle }
    {
        match self.look(bundle) {
            Some(found) => found.owner,
            None => None,
        }
    }

    /// Whether the closing of a bundle has begun.
    pub fn is_closing(&self, bundle: u64) -> bool
        ensures { result ≡ if_some (find (scopes.is_bundle bundle) self.now.bundles) false (λ x. x.closing) }
    {
        match self.look(bundle) {
            Some(found) => found.closing,
            None => false,
        }
    }

    /// Whether a coroutine is inside a bundle: it lives there, or its parent is inside it.
    pub fn inside(&self, who: u64, bundle: u64) -> bool
        ensures { result ≡ scopes.is_inside self.now bundle who }
    {
        let mut at = who;
        for _ in 0..self.homes.len() {
            let Some(home) = self.home_of(at) else {
                return false;
            };
            if home == bundle {
                return true;
            }
            let Some(owner) = self.owner_of(home) else {
                return false;
            };
            at = owner;
        }
        false
    }

    /// Whether a coroutine is inside a bundle that is closing.
    pub fn cancelled(&self, who: u64) -> bool
        ensures { result ≡ scopes.is_cancelled self.now who }
    {
        self.bundles
            .iter()
            .any(|x| x.closing && self.inside(who, x.name))
    }

    /// The least coroutine inside a bundle above a number.
    pub fn in_tree(&self, bundle: u64, after: u64) -> Option<u64>
        ensures { result ≡ scopes.in_tree self.now bundle after }
    {
        self.first_above(bundle, after)
    }

    /// Of the coroutines above a number, which are fewer to search for, the first that is inside the bundle.
    fn first_above(&self, bundle: u64, after: u64) -> Option<u64>
        ensures { result ≡ find (scopes.is_inside self.now bundle) (filter (nat_lt after) (map (λ x. x.who) self.now.homes)) }
    {
        self.homes
            .iter()
            .map(|x| x.who)
            .filter(|who| after < *who)
            .find(|who| self.inside(*who, bundle))
    }

    /// Whether nobody lives in a bundle.
    pub fn is_empty(&self, bundle: u64) -> bool
        ensures { result ≡ scopes.is_empty self.now bundle }
    {
        !is_lived_in(&self.homes, bundle)
    }

    /// Whether nobody lives in a bundle of this owner.
    pub fn is_clear(&self, who: u64) -> bool
        ensures { result ≡ list_all (scopes.is_empty self.now) (scopes.bundles_of self.now who) }
    {
        self.bundles
            .iter()
            .filter(|x| is_owned_by(x, who))
            .map(|x| x.name)
            .all(|name| self.is_empty(name))
    }

    /// A bundle has another owner.
    pub fn take(&mut self, bundle: u64, owner: u64)
        ensures { self.new ≡ scopes.take self.old bundle owner }
    {
        note_owner(&mut self.bundles, bundle, owner);
    }

    /// The closing of a bundle begins.
    pub fn close(&mut self, bundle: u64)
        ensures { self.new ≡ scopes.close self.old bundle }
    {
        note_closing(&mut self.bundles, bundle);
    }

    /// A coroutine is gone; the bundle that it lived in.
    pub fn ended(&mut self, who: u64) -> u64
        requires { IsSome (scopes.home_of self.old who) }
        ensures gone { self.new ≡ scopes.ended self.old who }
        ensures home { scopes.home_of self.old who ≡ Some result }
    {
        end_home(&mut self.homes, who)
    }

    /// A bundle is gone.
    pub fn drop_bundle(&mut self, bundle: u64)
        ensures { self.new ≡ scopes.drop_bundle self.old bundle }
    {
        free_bundle(&mut self.bundles, bundle);
    }
}
