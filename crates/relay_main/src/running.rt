ghost use Rattle.std.specs.Prelude.{◌≡◌, ◌≤◌, Ok, IfOk};
ghost use Rattle.dill_calls.specs.Program.{Begins};
ghost use Rattle.dill_meaning.specs.Views.{main_of};
ghost use Rattle.dill_script.specs.Reading.{script_with};
ghost use Rattle.relay_body.specs.Running.{running};
ghost use Rattle.dill_calls.specs.CallTable.{is_built};
ghost use Rattle.relay_main.specs.Outcome.{Shows, RunShows};

use crate::reading::{ReadFault, read_all};
use crate::saying::{refuse, say_not_read, say_want, tell_end};
use dill_base::{NoMemory, Shelf, Sink, Status};
use dill_core::run;
use dill_kernel::Kernel;
use dill_script::Script;
use rand_core::Rng;
use relay_body::{ScriptBody, scripts_begin};
use relay_reader::read_script;
use std::alloc::Global;
use std::rc::Rc;

/// `main` of a script before its first turn.
fn first_of(alloc: Global, bytes: &[u8], script: Script) -> Result<ScriptBody, NoMemory>
    requires { script_with is_built bytes.now ≡ Ok script }
    ensures body { IfOk result (λ body. body ≡ main_of script) }
    ensures begins { IfOk result (λ body. Begins running body) }
{
    let _ = bytes;
    scripts_begin();
    match Rc::new(alloc, script) {
        Ok(script) => ScriptBody::first(alloc, script),
        Err(_) => Err(NoMemory),
    }
}

/// Runs a script that was read.
fn run_script<W: Sink, K: Kernel, R: Rng>(
    alloc: Global,
    bytes: &[u8],
    script: Script,
    traced: bool,
    turns: u64,
    out: &mut W,
    err: &mut W,
    kernel: &mut K,
    keys: &mut R,
) -> Status
    requires read { script_with is_built bytes.now ≡ Ok script }
    requires limit { turns ≤ 999999999999999999 }
    ensures { RunShows K.step K.faults W.told W.faults script traced turns kernel.old kernel.new (R.stream keys.old) (R.stream keys.new) out.old out.new err.old err.new result }
{
    let Ok(first) = first_of(alloc, bytes, script) else {
        return say_want(err);
    };
    let end = run(alloc, first, traced, turns, kernel, out, keys);
    tell_end(end, err)
}

/// Runs the script of this name, with at most so many turns and rounds, at most 999,999,999,999,999,999. It answers the status of the program.
///
/// Texts and the summary go to `out`, with the calls and answers where the run is traced; a refusal is one line on `err`.
pub fn run_over<F: Shelf, W: Sink, K: Kernel, R: Rng>(
    alloc: Global,
    name: &str,
    traced: bool,
    turns: u64,
    shelf: &mut F,
    out: &mut W,
    err: &mut W,
    kernel: &mut K,
    keys: &mut R,
) -> Status
    requires { turns ≤ 999999999999999999 }
    ensures { Shows K.step K.faults W.told W.faults (F.files shelf.old) name.now traced turns (F.faults shelf.old) (F.faults shelf.new)
        kernel.old kernel.new (R.stream keys.old) (R.stream keys.new) out.old out.new err.old err.new result }
{
    let bytes = match read_all(alloc, name, shelf) {
        Ok(bytes) => bytes,
        Err(ReadFault::Shelf) => return say_not_read(err),
        Err(ReadFault::NoMemory) => return say_want(err),
    };
    match read_script(alloc, bytes.as_slice()) {
        Ok(script) => run_script(
            alloc,
            bytes.as_slice(),
            script,
            traced,
            turns,
            out,
            err,
            kernel,
            keys,
        ),
        Err(refusal) => refuse(refusal, err),
    }
}
