ghost use Rattle.std.specs.Prelude.{◌≡◌, ◌≤◌, ◌++◌, length, false};
ghost use Rattle.std.specs.List.{list_any};
ghost use Rattle.dill_script.specs.Contexts.{opening, after};
ghost use Rattle.dill_script.specs.Lines.{lines_of, has_tokens};
ghost use Rattle.dill_script.specs.Reading.{judged, linked, script_with};
ghost use Rattle.dill_script.specs.Refusals.{faults, first_reason, passes_limit};
ghost use Rattle.dill_calls.specs.CallTable.{is_built};
ghost use Rattle.relay_reader.specs.Starts.{start_of, start_at, starts_from, Gathers};
ghost use Rattle.relay_reader.specs.Telling.{Reads, Tells};

use crate::context::Context;
use crate::cut::split_line;
use crate::fault::Fault;
use crate::linking::{Unlinked, link};
use crate::starts::{Start, keep};
use dill_script::{Reason, Refusal, Script};
use relay_lines::has_tokens;
use std::alloc::Global;

/// How many bytes a script has at most.
pub const MOST_BYTES: usize = 1_048_576;

/// Whether a line of the text has tokens.
fn any_has_tokens(bytes: &[u8]) -> bool
    ensures { result ≡ list_any has_tokens (lines_of bytes.now) }
{
    let mut rest = bytes;
    while !rest.is_empty() {
        let (line, behind) = split_line(rest);
        if has_tokens(line) {
            return true;
        }
        rest = behind;
    }
    false
}

/// Reads the line of this number, of which is told whether it is the last, and keeps what it starts. Where it is
/// refused, the context is of no more use.
fn read_line(
    context: &mut Context,
    starts: &mut Vec<Start>,
    alloc: Global,
    line: &[u8],
    number: u32,
    last: bool,
) -> Result<(), Fault>
    requires { passes_limit context.old ≡ false }
    ensures { Tells result
        (first_reason (faults is_built context.old last line.now))
        (λ _. (context.new ≡ after context.old line.now) × (passes_limit context.new ≡ false) × (starts.new.items ≡ starts.old.items ++ start_at number (start_of line.now))) }
{
    let started = context.read(alloc, line, last)?;
    match keep(starts, number, started) {
        Ok(()) => Ok(()),
        Err(_) => Err(Fault::NoMemory),
    }
}

/// The programs of a text and what its lines start, or the refusal of its first faulty line.
fn read_programs(alloc: Global, bytes: &[u8]) -> Result<Unlinked, Refusal>
    requires { length bytes.now ≤ 1048576 }
    ensures { Gathers result (judged is_built 1 opening (lines_of bytes.now)) (starts_from 1 (lines_of bytes.now)) }
{
    let mut context = Context::new(alloc);
    let mut starts = Vec::new(alloc);
    let mut rest = bytes;
    let mut number = 1;
    while !rest.is_empty() {
        let (line, behind) = split_line(rest);
        if let Err(fault) = read_line(
            &mut context,
            &mut starts,
            alloc,
            line,
            number,
            behind.is_empty(),
        ) {
            return Err(fault.at(number));
        }
        rest = behind;
        number += 1;
    }
    Ok(Unlinked {
        script: context.into_whole(),
        starts,
    })
}

/// The script of a text, or the refusal of its first faulty line or of its first start of a program that isn't there.
fn read_linked(alloc: Global, bytes: &[u8]) -> Result<Script, Refusal>
    requires { length bytes.now ≤ 1048576 }
    ensures { Reads result (linked (lines_of bytes.now) (judged is_built 1 opening (lines_of bytes.now))) }
{
    match read_programs(alloc, bytes) {
        Ok(unlinked) => link(unlinked),
        Err(refusal) => Err(refusal),
    }
}

/// Reads the text of a script, or tells the line, counted from 1, and the reason of its refusal. A text of more than
/// 1,048,576 bytes is looked at no further. Calls that aren't built so far are refused.
pub fn read_script(alloc: Global, bytes: &[u8]) -> Result<Script, Refusal>
    ensures { Reads result (script_with is_built bytes.now) }
{
    if bytes.len() > MOST_BYTES {
        return Err(Refusal::At {
            line: 1,
            reason: Reason::TooLarge,
        });
    }
    if !any_has_tokens(bytes) {
        return Err(Refusal::At {
            line: 1,
            reason: Reason::NoVersion,
        });
    }
    read_linked(alloc, bytes)
}
