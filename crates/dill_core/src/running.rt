ghost use Rattle.std.specs.Prelude.{◌≡◌, ◌≤◌, true, false};
ghost use Rattle.dill_calls.specs.Program.{Begins};
ghost use Rattle.dill_base.specs.Causes.{Rose};
ghost use Rattle.dill_kernel.specs.Entry.{ReplyHasCause};
ghost use Rattle.dill_rules.specs.State.{opening_state};
ghost use Rattle.dill_drive.specs.Asks.{Counted};
ghost use Rattle.dill_drive.specs.ByRules.{machine_of};
ghost use Rattle.dill_drive.specs.Progress.{is_wait};
ghost use Rattle.dill_drive.specs.Story.{is_sink};
ghost use Rattle.dill_drive.specs.Tells.{Concludes, status_of};
ghost use Rattle.dill_core.specs.Begun.{has_begun, IsUntouched};

use crate::Core;
use dill_base::Sink;
use dill_drive::{RunEnd, drive};
use dill_kernel::Kernel;
use dill_plain::PlainBody;
use laws_queue::steps_keep_well;
use laws_sound::{follows_linkless, steps_keep_linkless};
use rand_core::Rng;
use std::alloc::Global;

/// Runs a program as `main`, over a kernel and a sink, until it has ended and its summary was written, and says how the run ended.
/// Where memory for its core is refused nothing is asked or written.
///
/// `turns` bounds turns and rounds together; at most 999,999,999,999,999,999. After a stop further turns, which are counted apart, go on until `main` has ended. `traced` adds each call, answer and note to the texts that are printed. After a failed write no more is written: where a run goes on, the count of failed writes stayed. The kernel's count of failures rose in each of its calls that failed, and in no other. The run draws no random number.
pub fn run<B: PlainBody, K: Kernel, W: Sink, R: Rng>(
    alloc: Global,
    first: B,
    traced: bool,
    turns: u64,
    kernel: &mut K,
    out: &mut W,
    keys: &mut R,
) -> RunEnd
    requires begins { Begins B.means first }
    requires limit { turns ≤ 999999999999999999 }
    ensures refused { has_begun result ≡ false → IsUntouched kernel.old kernel.new out.old out.new keys.old keys.new }
    ensures runs { has_begun result ≡ true → Concludes (machine_of B.means) (Counted K.step K.faults) kernel.old kernel.new traced turns (opening_state first (R.stream keys.old)) (R.stream keys.old) (R.stream keys.new) (W.told out.old) (W.told out.new) result }
    ensures cause { ReplyHasCause (W.faults out.old) (W.faults out.new) (is_sink (status_of result)) }
    ensures kernel_cause { K.faults kernel.old ≤ K.faults kernel.new }
    ensures wait { is_wait (status_of result) ≡ true → Rose (K.faults kernel.old) (K.faults kernel.new) }
{
    steps_keep_well::<B>();
    steps_keep_linkless::<B>();
    follows_linkless::<B>();
    match Core::new(alloc, first) {
        Ok(core) => drive(core, traced, turns, kernel, out, keys),
        Err(_) => RunEnd::NoMemory,
    }
}
