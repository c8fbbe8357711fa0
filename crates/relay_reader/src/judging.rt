ghost use Rattle.std.specs.Prelude.{◌≡◌, ◌≤◌, ◌∷◌, [], List, Some, None, false, not, IfOk, OnOk, option_map};
ghost use Rattle.std.specs.List.{list_any, list_all};
ghost use Rattle.dill_script.specs.Blocks.{blocks_behind};
ghost use Rattle.dill_script.specs.Contexts.{Context, behind, after, said};
ghost use Rattle.dill_script.specs.Lines.{has_tokens};
ghost use Rattle.dill_script.specs.Refusals.{has_name, names_again, is_version, lacks_version, faults, first_reason, passes_limit};
ghost use Rattle.dill_script.specs.Statements.{line_of};
ghost use Rattle.dill_script.specs.Tokens.{tokens};
ghost use Rattle.relay_lines.specs.Spelled.{line_in};
ghost use Rattle.dill_calls.specs.CallTable.{is_built};
ghost use Rattle.relay_reader.specs.Parts.{byte_faults, word_faults, spelling_faults};
ghost use Rattle.relay_reader.specs.Telling.{Tells};

use crate::blocks::Blocks;
use crate::built::is_unbuilt;
use crate::fault::Fault;
use dill_script::{Keyword, Program, Reason};
use relay_lines::{Heading, Line, Token, Tokens, has_tokens, is_line, line_of, tokens};
use std::alloc::Global;

/// Whether a program has this name.
pub(crate) fn has_name(name: &[u8], program: &Program) -> bool
    ensures { result ≡ has_name name.now program.now }
{
    program.name.as_slice() == name
}

/// Whether one of the programs has this name.
pub(crate) fn any_has_name(programs: &[Program], name: &[u8]) -> bool
    ensures { result ≡ list_any (has_name name.now) programs.now }
{
    programs.iter().any(|program| has_name(name, program))
}

/// Whether the line opens a program of a name that one of these has.
fn names_again(whole: &[Program], line: &Line) -> bool
    ensures { result ≡ names_again whole.now (line_in line.now) }
{
    match line {
        Line::Opens(name, _) => any_has_name(whole, name.as_slice()),
        _ => false,
    }
}

fn are_version(tokens: &[Token]) -> bool
    ensures { result ≡ is_version (Some tokens.now) }
{
    match tokens {
        [first, second] => first.is_plain(b"dill") && second.is_plain(b"1"),
        _ => false,
    }
}

/// Whether they are `dill` and `1`.
fn is_version(tokens: &Option<Tokens>) -> bool
    ensures { result ≡ is_version tokens.now }
{
    match tokens {
        Some(tokens) => are_version(tokens.as_slice()),
        None => false,
    }
}

/// The tokens of a line whose bytes may stand as they do.
pub(crate) fn judge_bytes(alloc: Global, begun: bool, line: &[u8]) -> Result<Tokens, Fault>
    ensures { Tells result
        (first_reason (byte_faults begun line.now))
        (λ found. tokens line.now ≡ Some found) }
{
    let Ok(found) = tokens(alloc, line) else {
        return Err(Fault::NoMemory);
    };
    if !begun && has_tokens(line) && !is_version(&found) {
        return Err(Fault::Against(Reason::NoVersion));
    }
    if !is_line(line) {
        return Err(Fault::Against(Reason::BadByte));
    }
    match found {
        Some(found) => Ok(found),
        None => Err(Fault::Against(Reason::BadText)),
    }
}

/// The keyword of a line that may stand where these blocks are open.
pub(crate) fn judge_word(
    open_blocks: &Blocks,
    word: Option<Keyword>,
    last: bool,
) -> Result<Keyword, Fault>
    ensures { Tells result
        (first_reason (word_faults is_built open_blocks.now last word))
        (λ keyword. word ≡ Some keyword) }
{
    let Some(keyword) = word else {
        return Err(Fault::Against(Reason::UnknownWord));
    };
    if is_unbuilt(keyword) {
        return Err(Fault::Against(Reason::NotBuilt));
    }
    if !open_blocks.may_stand(keyword) || last && open_blocks.leaves_open(keyword) {
        return Err(Fault::Against(Reason::BadBlock));
    }
    Ok(keyword)
}

/// The line, where it spells one that may stand behind these programs.
fn accept_line(whole: &[Program], line: Option<Line>) -> Result<Line, Fault>
    ensures { Tells result
        (first_reason (spelling_faults whole.now (option_map line_in line)))
        (λ kept. option_map line_in line ≡ Some (line_in kept)) }
{
    let Some(line) = line else {
        return Err(Fault::Against(Reason::BadOperand));
    };
    if names_again(whole, &line) {
        return Err(Fault::Against(Reason::RepeatedName));
    }
    Ok(line)
}

/// What a line spells that stands behind these programs.
pub(crate) fn judge_spelling(
    alloc: Global,
    whole: &[Program],
    heading: &Heading<'_>,
) -> Result<Line, Fault>
    ensures { Tells result
        (first_reason (spelling_faults whole.now (line_of heading.now)))
        (λ line. line_of heading.now ≡ Some (line_in line)) }
{
    match line_of(alloc, heading) {
        Ok(line) => accept_line(whole, line),
        Err(_) => Err(Fault::NoMemory),
    }
}
