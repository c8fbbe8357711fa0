ghost use Rattle.laws_debt.specs.Debts.{DebtFalls};
ghost use Rattle.relay_body.specs.Running.{running};
ghost use Rattle.laws_scripts.specs.Runs.{ScriptsEnd};

use laws_debt::debts_fall;
use laws_runs::{
    runs_are_bounded, runs_are_steady, runs_close_well, runs_end, waiting_is_for_somebody,
};
use relay_body::{ScriptBody, scripts_begin};

/// Each state of a run of a script that was read is steady, so that the laws of debts speak of it. Once such a run has
/// stopped it makes no more turns than the debt of the root was at that stop, and it ends.
pub fn scripts_end()
    ensures runs { ScriptsEnd }
    ensures debts { DebtFalls running }
{
    scripts_begin();
    debts_fall::<ScriptBody>();
    runs_are_steady::<ScriptBody>();
    runs_are_bounded::<ScriptBody>();
    runs_end::<ScriptBody>();
    runs_close_well::<ScriptBody>();
    waiting_is_for_somebody::<ScriptBody>();
}
