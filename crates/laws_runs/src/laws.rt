ghost use Rattle.laws_runs.specs.Bound.{ClosingIsBounded, RunsAreBounded, StoppedRunsEnd};
ghost use Rattle.laws_runs.specs.Closes.{RunsCloseWell};
ghost use Rattle.laws_runs.specs.Ends.{RunsEnd};
ghost use Rattle.laws_runs.specs.Goes.{BundlesGoEmpty};
ghost use Rattle.laws_runs.specs.States.{RunsAreSteady};
ghost use Rattle.laws_runs.specs.Waits.{WaitingIsForSomebody};

use dill_plain::PlainBody;
use laws_debt::{debts_fall, root_debt_falls, steps_keep_stable};
use laws_queue::steps_keep_well;
use laws_sound::{follows_linkless, steps_keep_order};

/// Once a run has stopped no more turns are made than are owed: a summary's `closing` is at most what is owed of what a
/// core keeps once the root is closed, whatever comes from outside.
pub fn closing_is_bounded<B: PlainBody>()
    ensures { ClosingIsBounded B.means }
{
    follows_linkless::<B>();
    root_debt_falls::<B>();
}

/// Once a run has stopped `main` ends, and the run is over after three steps for each turn that is owed and four more.
pub fn stopped_runs_end<B: PlainBody>()
    ensures { StoppedRunsEnd B.means }
{
    follows_linkless::<B>();
    root_debt_falls::<B>();
}

/// A run from its beginning counts no turn after a stop; or it stops, and counts no more of them than the debt of the root
/// was once it was closed, which is at most 2^48.
pub fn runs_are_bounded<B: PlainBody>()
    ensures { RunsAreBounded B.means }
{
    steps_keep_well::<B>();
    steps_keep_stable::<B>();
    follows_linkless::<B>();
    root_debt_falls::<B>();
}

/// Each state of a run from its beginning is steady: so the laws of debts speak of every state that a run comes through,
/// and of every bundle that is closing there.
pub fn runs_are_steady<B: PlainBody>()
    ensures { RunsAreSteady B.means }
{
    follows_linkless::<B>();
    debts_fall::<B>();
}

/// A run from its beginning that closes its open root makes no more turns from then on than the debt of the root is there,
/// and it is over, with `main` ended, after three steps for each of them and four more.
pub fn runs_end<B: PlainBody>()
    ensures { RunsEnd B.means }
{
    follows_linkless::<B>();
    debts_fall::<B>();
    root_debt_falls::<B>();
}

/// In a steady state whoever is pending in `hclose` has begun to close a bundle in which somebody lives, whoever is
/// pending in `bundle_wait` names no bundle that is empty, and whoever is ending owns a bundle in which somebody lives: so
/// they wait no longer than up to the step in which the last one of the bundle goes.
pub fn waiting_is_for_somebody<B: PlainBody>()
    ensures { WaitingIsForSomebody B.means }
{}

/// A bundle that is closing goes in a step only if nobody who was inside it is there after that step.
pub fn bundles_go_empty<B: PlainBody>()
    ensures { BundlesGoEmpty B.means }
{
    debts_fall::<B>();
}

/// In each state of a run whoever is pending in `hclose` waits for a bundle that is closing, in which somebody lives and
/// somebody has an answer. As long as it waits those inside the bundle take at most as many turns as the bundle's debt,
/// whatever the steps are: so a bundle closes in a bounded number of its own turns.
pub fn runs_close_well<B: PlainBody>()
    ensures { RunsCloseWell B.means }
{
    steps_keep_well::<B>();
    steps_keep_order::<B>();
    steps_keep_stable::<B>();
    follows_linkless::<B>();
    debts_fall::<B>();
}
