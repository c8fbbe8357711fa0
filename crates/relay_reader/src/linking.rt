ghost use Rattle.std.specs.Prelude.{◌≡◌, ◌==◌, not};
ghost use Rattle.std.specs.List.{list_any};
ghost use Rattle.dill_script.specs.Reading.{takes, with_programs};
ghost use Rattle.relay_reader.specs.Starts.{is_missing, first_missing};
ghost use Rattle.relay_reader.specs.Telling.{Reads};

use crate::judging::{any_has_name, has_name};
use crate::starts::Start;
use dill_script::{Program, Reason, Refusal, Script};

/// The programs of a text, and those that its lines start, in their order.
#[derive(Debug, Drop)]
pub(crate) struct Unlinked {
    pub script: Script,
    pub starts: Vec<Start>,
}

/// Whether the program has this name and takes so many arguments.
fn takes(program: &Program, name: &[u8], args: usize) -> bool
    ensures { result ≡ takes (name.now, args) program.now }
{
    has_name(name, program) && usize::from(program.params) == args
}

fn any_takes(programs: &[Program], name: &[u8], args: usize) -> bool
    ensures { result ≡ list_any (takes (name.now, args)) programs.now }
{
    programs.iter().any(|program| takes(program, name, args))
}

/// Whether what is started isn't among these programs, or takes another number of arguments.
fn is_missing(programs: &[Program], start: &Start) -> bool
    ensures { result ≡ is_missing programs.now start.now }
{
    !any_takes(programs, start.name.as_slice(), start.args)
}

/// The number of the first line that starts a program that isn't among these, or with another number of arguments.
fn first_missing(programs: &[Program], starts: &[Start]) -> Option<u32>
    ensures { result ≡ first_missing programs.now starts.now }
{
    match starts.iter().find(|start| is_missing(programs, start)) {
        Some(start) => Some(start.line),
        None => None,
    }
}

/// The script of a text without a faulty line, where each program that it starts is there, and one named `main`.
pub(crate) fn link(unlinked: Unlinked) -> Result<Script, Refusal>
    ensures { Reads result (with_programs (first_missing unlinked.script unlinked.starts.items) unlinked.script) }
{
    let Unlinked { script, starts } = unlinked;
    match first_missing(script.as_slice(), starts.as_slice()) {
        None => {
            if any_has_name(script.as_slice(), b"main") {
                return Ok(script);
            }
            Err(Refusal::At {
                line: 1,
                reason: Reason::NoMain,
            })
        }
        Some(line) => Err(Refusal::At {
            line,
            reason: Reason::NoProgram,
        }),
    }
}
