ghost use Rattle.std.specs.Prelude.{◌≡◌, ◌≤◌, length, codes};
ghost use Rattle.dill_base.specs.declared.status.Status.TheVariants as status;
ghost use Rattle.dill_drive.specs.Tells.{status_of};
ghost use Rattle.dill_script.specs.Reasons.{reason_text};
ghost use Rattle.relay_main.specs.Outcome.{Says, SaysEnd, IsRefusal, refusal_text};
ghost use Rattle.relay_main.specs.Usage.{usage};

use dill_base::{Sink, Status};
use dill_drive::RunEnd;
use dill_script::{Reason, Refusal};
use relay_trace::{Short, write_line};

/// Writes a line on err. That its write fails changes nothing.
pub fn say<W: Sink>(line: &[u8], err: &mut W)
    ensures { Says W.told W.faults err.old err.new line.now }
{
    let _ = write_line(line, err);
}

/// The arguments aren't those of the program.
pub fn say_usage<W: Sink>(err: &mut W) -> Status
    ensures status { result ≡ status.Words }
    ensures says { Says W.told W.faults err.old err.new usage }
{
    say(
        b"usage: dillrelay [--mode run|trace|check|load] [--net real|loop] [--turns N] [--cut N] SCRIPT",
        err,
    );
    Status::Words
}

/// Memory was refused before anything ran.
pub fn say_want<W: Sink>(err: &mut W) -> Status
    ensures status { result ≡ status.Memory }
    ensures says { Says W.told W.faults err.old err.new (codes "dillrelay: want of memory") }
{
    say(b"dillrelay: want of memory", err);
    Status::Memory
}

/// The script couldn't be read.
pub fn say_not_read<W: Sink>(err: &mut W) -> Status
    ensures status { result ≡ status.Shelf }
    ensures says { Says W.told W.faults err.old err.new (codes "dillrelay: script not read") }
{
    say(b"dillrelay: script not read", err);
    Status::Shelf
}

/// The words of a reason, as bytes.
fn reason_words(reason: Reason) -> &'static [u8]
    ensures text { result.now ≡ reason_text reason }
    ensures len { length result.now ≤ 13 }
{
    reason.text().as_bytes()
}

fn refusal_line(number: u32, reason: Reason) -> Short
    ensures { result ≡ refusal_text number reason }
{
    let mut line = Short::new();
    line.put(b"dillrelay: script line ");
    line.number(u64::from(number));
    line.put(b": ");
    line.put(reason_words(reason));
    line
}

/// Tells why there is no script.
pub fn refuse<W: Sink>(refusal: Refusal, err: &mut W) -> Status
    ensures { IsRefusal W.told W.faults refusal err.old err.new result }
{
    match refusal {
        Refusal::At { line, reason } => {
            say(refusal_line(line, reason).as_slice(), err);
            Status::Script
        }
        Refusal::NoMemory => say_want(err),
    }
}

/// Tells how a run ended.
pub fn tell_end<W: Sink>(end: RunEnd, err: &mut W) -> Status
    ensures status { result ≡ status_of end }
    ensures says { SaysEnd W.told W.faults end err.old err.new }
{
    match end {
        RunEnd::Ended => Status::Well,
        RunEnd::Faulted(_) => Status::Fault,
        RunEnd::Stuck => Status::Stuck,
        RunEnd::Spent => Status::Spent,
        RunEnd::WaitFault => {
            say(b"dillrelay: wait failed", err);
            Status::Wait
        }
        RunEnd::WriteFault => {
            say(b"dillrelay: output not written", err);
            Status::Sink
        }
        RunEnd::NoMemory => say_want(err),
    }
}
