ghost use Rattle.std.specs.Prelude.{◌≡◌, ◌≤◌, length, OnOk, OnErr};
ghost use Rattle.std.specs.Io.KnownBytes.{Appends};
ghost use Rattle.dill_base.specs.Causes.{HasCause};
ghost use Rattle.relay_trace.specs.Flows.{AppendsProper};
ghost use Rattle.relay_trace.specs.Lines.{line, note_line, waiting_line, fault_text, summary_line};

use crate::short::Short;
use crate::write_line;
use dill_base::{Errno, Failed, Sink, Status};
use dill_calls::{Counts, Note, Word};

/// What a run came to: its status, the errno of `main` where it had one, turns and rounds up to the stop, turns after it,
/// and the counts of handles and of refused memory.
#[derive(Clone, Copy, Debug, PartialEq, Eq)]
pub struct Summary {
    pub status: Status,
    pub errno: Option<Errno>,
    pub turns: u64,
    pub rounds: u64,
    pub closing: u64,
    pub counts: Counts,
}

fn note_short(note: Note) -> Short
    ensures { line result ≡ note_line note }
{
    let mut text = Short::new();
    match note {
        Note::Moved(old, new) => {
            text.put(b"moved ");
            text.number(old);
            text.put(b" ");
            text.number(new);
        }
        Note::Freed(number) => {
            text.put(b"freed ");
            text.number(number);
        }
    }
    text
}

/// Writes what became of a handle number.
pub fn write_note<W: Sink>(note: Note, out: &mut W) -> Result<(), Failed>
    ensures ok { OnOk result (Appends (W.told out.old) (W.told out.new) (note_line note)) }
    ensures err { OnErr result (AppendsProper (W.told out.old) (W.told out.new) (note_line note)) }
    ensures cause { HasCause (W.faults out.old) (W.faults out.new) result }
{
    write_line(note_short(note).as_slice(), out)
}

fn waiting_short(who: u64, word: Word) -> Short
    ensures { line result ≡ waiting_line who word }
{
    let mut text = Short::new();
    text.put(b"waiting ");
    text.number(who);
    text.put(b" ");
    text.put(word.name());
    text
}

/// Writes the call that a coroutine of a stuck run waits in.
pub fn write_waiting<W: Sink>(who: u64, word: Word, out: &mut W) -> Result<(), Failed>
    ensures ok { OnOk result (Appends (W.told out.old) (W.told out.new) (waiting_line who word)) }
    ensures err { OnErr result (AppendsProper (W.told out.old) (W.told out.new) (waiting_line who word)) }
    ensures cause { HasCause (W.faults out.old) (W.faults out.new) result }
{
    write_line(waiting_short(who, word).as_slice(), out)
}

fn fault_name(errno: Option<Errno>) -> &'static [u8]
    ensures text { result.now ≡ fault_text errno }
    ensures len { length result.now ≤ 13 }
{
    match errno {
        None => b"none",
        Some(errno) => errno.name(),
    }
}

fn summary_short(sum: &Summary) -> Short
    ensures { line result ≡ summary_line sum.now }
{
    let mut text = Short::new();
    text.put(b"summary status=");
    text.number(u64::from(sum.status.code()));
    text.put(b" errno=");
    text.put(fault_name(sum.errno));
    text.put(b" turns=");
    text.number(sum.turns);
    text.put(b" rounds=");
    text.number(sum.rounds);
    text.put(b" closing=");
    text.number(sum.closing);
    text.put(b" made=");
    text.number(sum.counts.made);
    text.put(b" gone=");
    text.number(sum.counts.gone);
    text.put(b" lacks=");
    text.number(sum.counts.lacks);
    text
}

/// Writes the last line of a run.
pub fn write_summary<W: Sink>(sum: &Summary, out: &mut W) -> Result<(), Failed>
    ensures ok { OnOk result (Appends (W.told out.old) (W.told out.new) (summary_line sum.now)) }
    ensures err { OnErr result (AppendsProper (W.told out.old) (W.told out.new) (summary_line sum.now)) }
    ensures cause { HasCause (W.faults out.old) (W.faults out.new) result }
{
    write_line(summary_short(sum).as_slice(), out)
}
