//! The forest of bundles: who lives in which bundle, who owns it, and which are closing.
#![tactic(auto)]

ghost use Rattle.dill_scope.specs.Forest.{SearchIsInside, SearchIsCancelled};

mod forest;
mod laws;
mod places;
mod scopes;

pub use forest::{Bundle, Home};
pub use laws::{
    an_insider_may_not_take, bundle_keeps_the_forest, bundle_moves_nobody,
    close_cancels_who_is_inside, close_keeps_the_forest, close_moves_nobody, drop_keeps_the_forest,
    drop_moves_nobody, ended_keeps_the_forest, ended_moves_no_other, enter_keeps_the_forest,
    enter_moves_no_other, enter_places_the_new_one, open_keeps_the_forest, opening_is_a_forest,
    take_cancels_nobody, take_cancels_only_inside, take_frees_nobody, take_keeps_the_forest,
    tree_lists_who_is_inside,
};
pub use scopes::Scopes;

/// In a forest the search finds exactly those who are inside a bundle.
pub fn search_is_inside()
    ensures { SearchIsInside }
{}

/// In a forest the test finds exactly those who are inside a bundle that is closing.
pub fn search_is_cancelled()
    ensures { SearchIsCancelled }
{}
