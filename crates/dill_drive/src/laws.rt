ghost use Rattle.std.specs.Prelude.{ℕ, Bool};
ghost use Rattle.dill_drive.specs.ByRules.{machine_of};
ghost use Rattle.dill_drive.specs.Play.{OneEnd};
ghost use Rattle.dill_drive.specs.Rows.{Rows};

use dill_calls::Body;

/// What comes from outside determines a run.
pub fn one_end<B: Body>()
    ensures { (traced : Bool) (most : ℕ) → OneEnd (machine_of B.means) traced most }
{}

/// Runs that the definitions compute.
pub fn rows()
    ensures { Rows }
{}
