ghost use Rattle.relay_body.specs.Beginning.{ScriptsBegin};

use dill_meaning::scripts_are_lawful;
use dill_script::script_laws;

/// A script that was read can be run, and its run begins at its program `main`.
pub fn scripts_begin()
    ensures { ScriptsBegin }
{
    script_laws();
    scripts_are_lawful();
}
