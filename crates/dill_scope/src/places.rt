ghost use Rattle.std.specs.Prelude.{◌≡◌, ◌==◌, ◌<◌, IfSome, IsSome, Some, false, find, length, option_map};
ghost use Rattle.std.specs.List.{list_any, position_from};
ghost use Rattle.dill_base.specs.Maps.{if_some, change, without};
ghost use Rattle.dill_scope.specs.Scopes.{is_home, is_bundle, with_owner, as_closing};

use crate::forest::{Bundle, Home};

/// Whether somebody owns the bundle who is this one.
pub fn is_owned_by(x: &Bundle, who: u64) -> bool
    ensures { result ≡ if_some x.now.owner false (λ owner. owner == who) }
{
    match x.owner {
        Some(owner) => owner == who,
        None => false,
    }
}

/// Whether somebody lives in the bundle.
pub fn is_lived_in(homes: &[Home], bundle: u64) -> bool
    ensures { result ≡ list_any (λ x. x.bundle == bundle) homes.now }
{
    homes.iter().any(|x| x.bundle == bundle)
}

fn home_place(homes: &[Home], who: u64) -> Option<usize>
    ensures place { result ≡ position_from (is_home who) 0 homes.now }
    ensures within { IfSome result (λ at. at < length homes.now) }
{
    homes.iter().position(|x| x.who == who)
}

fn bundle_place(bundles: &[Bundle], name: u64) -> Option<usize>
    ensures place { result ≡ position_from (is_bundle name) 0 bundles.now }
    ensures within { IfSome result (λ at. at < length bundles.now) }
{
    bundles.iter().position(|x| x.name == name)
}

/// The first bundle of the name has another owner.
pub fn note_owner(bundles: &mut Vec<Bundle>, name: u64, owner: u64)
    ensures { bundles.new.items ≡ change (is_bundle name) (with_owner owner) bundles.old.items }
{
    if let Some(at) = bundle_place(bundles, name) {
        let found = &mut bundles[at];
        found.owner = Some(owner);
    }
}

/// The closing of the first bundle of the name begins.
pub fn note_closing(bundles: &mut Vec<Bundle>, name: u64)
    ensures { bundles.new.items ≡ change (is_bundle name) as_closing bundles.old.items }
{
    if let Some(at) = bundle_place(bundles, name) {
        let found = &mut bundles[at];
        found.closing = true;
    }
}

/// The first bundle of the name is gone.
pub fn free_bundle(bundles: &mut Vec<Bundle>, name: u64)
    ensures { bundles.new.items ≡ without (is_bundle name) bundles.old.items }
{
    if let Some(at) = bundle_place(bundles, name) {
        let _ = bundles.remove(at);
    }
}

/// The first coroutine of the number is gone; the bundle that it lived in.
pub fn end_home(homes: &mut Vec<Home>, who: u64) -> u64
    requires { IsSome (option_map (λ x. x.bundle) (find (is_home who) homes.old.items)) }
    ensures gone { homes.new.items ≡ without (is_home who) homes.old.items }
    ensures home { option_map (λ x. x.bundle) (find (is_home who) homes.old.items) ≡ Some result }
{
    match home_place(homes, who) {
        Some(at) => homes.remove(at).bundle,
        None => 0,
    }
}
