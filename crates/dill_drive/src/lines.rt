ghost use Rattle.std.specs.Prelude.{◌≡◌, ◌++◌, flat_map, OnOk, OnErr};
ghost use Rattle.std.specs.Io.KnownBytes.{Appends};
ghost use Rattle.dill_base.specs.Causes.{HasCause};
ghost use Rattle.relay_trace.specs.Flows.{AppendsProper};
ghost use Rattle.relay_trace.specs.Lines.{note_line, ran_bytes};
ghost use Rattle.dill_drive.specs.Waiting.{note_lines, waiter_lines};

use crate::Stepper;
use dill_base::{Failed, Sink};
use dill_calls::{Note, Ran};
use relay_trace::{write_note, write_ran, write_waiting};

fn write_each<W: Sink>(notes: &[Note], out: &mut W) -> Result<(), Failed>
    ensures ok { OnOk result (Appends (W.told out.old) (W.told out.new) (flat_map note_line notes.now)) }
    ensures err { OnErr result (AppendsProper (W.told out.old) (W.told out.new) (flat_map note_line notes.now)) }
    ensures cause { HasCause (W.faults out.old) (W.faults out.new) result }
{
    for note in notes {
        write_note(*note, out)?;
    }
    Ok(())
}

/// The notes of a step, in a trace.
pub(crate) fn write_notes<W: Sink>(notes: &[Note], traced: bool, out: &mut W) -> Result<(), Failed>
    ensures ok { OnOk result (Appends (W.told out.old) (W.told out.new) (note_lines traced notes.now)) }
    ensures err { OnErr result (AppendsProper (W.told out.old) (W.told out.new) (note_lines traced notes.now)) }
    ensures cause { HasCause (W.faults out.old) (W.faults out.new) result }
{
    if traced {
        return write_each(notes, out);
    }
    Ok(())
}

/// The lines of a turn, and then the notes of its step.
pub(crate) fn write_turn<W: Sink>(
    ran: &Ran,
    notes: &[Note],
    traced: bool,
    out: &mut W,
) -> Result<(), Failed>
    ensures ok { OnOk result (Appends (W.told out.old) (W.told out.new) (ran_bytes traced ran.now ++ note_lines traced notes.now)) }
    ensures err { OnErr result (AppendsProper (W.told out.old) (W.told out.new) (ran_bytes traced ran.now ++ note_lines traced notes.now)) }
    ensures cause { HasCause (W.faults out.old) (W.faults out.new) result }
{
    write_ran(ran, traced, out)?;
    write_notes(notes, traced, out)
}

/// Who waits in which call, in a run that is stuck.
pub(crate) fn write_waiters<M: Stepper, W: Sink>(core: &M, out: &mut W) -> Result<(), Failed>
    ensures ok { OnOk result (Appends (W.told out.old) (W.told out.new) (waiter_lines (M.means.waiting core.now))) }
    ensures err { OnErr result (AppendsProper (W.told out.old) (W.told out.new) (waiter_lines (M.means.waiting core.now))) }
    ensures cause { HasCause (W.faults out.old) (W.faults out.new) result }
{
    let mut after = 0;
    while let Some((who, word)) = core.waiting(after) {
        write_waiting(who, word, out)?;
        after = who;
    }
    Ok(())
}
