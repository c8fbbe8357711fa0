//! What the laws of closing say of whole runs: their states are steady, an `hclose` waits for few turns, and the turns
//! after a stop are few, at most what is owed once the root is closed. Definitions and laws; it holds no code.
#![tactic(auto)]

mod laws;

pub use laws::{
    bundles_go_empty, closing_is_bounded, runs_are_bounded, runs_are_steady, runs_close_well,
    runs_end, stopped_runs_end, waiting_is_for_somebody,
};
