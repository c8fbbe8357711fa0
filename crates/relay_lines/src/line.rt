ghost use Rattle.std.specs.Prelude.{◌≡◌, IfOk, option_map, option_and_then};
ghost use Rattle.dill_script.specs.Numbers.{number_up_to};
ghost use Rattle.dill_script.specs.Operands.{plain_in};
ghost use Rattle.dill_script.specs.Statements.{params_fit, program_of, with_two, with_none, plain_line, keyword_line, line_of};
ghost use Rattle.relay_lines.specs.Spelled.{line_in};

use crate::cond::cond_of;
use crate::number::byte_up_to;
use crate::operand::name_of;
use crate::statement::{add_of, call_of_line, fail_of, join_of, len_of, loop_of, set_of, sub_of};
use crate::{Heading, Token};
use dill_base::{NoMemory, Octets};
use dill_script::{Keyword, Register, Statement};
use std::alloc::Global;

/// What a line spells: the first line of a program, with its name of 1 to 32 bytes and how many arguments it takes,
/// 0 to 16; the `end` of a block; or a statement.
#[derive(Debug, Drop)]
pub enum Line {
    Opens(Octets, u8),
    Ends,
    Says(Statement),
}

/// Whether a program of this name may take so many arguments, which is 0 of `main`.
fn params_fit(name: &[u8], params: u8) -> bool
    ensures { result ≡ params_fit name.now params }
{
    name != b"main".as_slice() || params == 0
}

/// How many arguments a program takes.
fn params_of(token: &Token) -> Option<u8>
    ensures { result ≡ option_and_then (number_up_to 16) (plain_in token.now) }
{
    byte_up_to(16, token.plain()?)
}

/// The first line of a program, by its name and its parameters.
fn program_with(alloc: Global, name: &Token, params: &Token) -> Result<Option<Line>, NoMemory>
    ensures { IfOk result (λ r. option_map line_in r ≡ program_of name.now params.now) }
{
    let Some(name) = name_of(alloc, name)? else {
        return Ok(None);
    };
    match params_of(params) {
        Some(params) if params_fit(name.as_slice(), params) => Ok(Some(Line::Opens(name, params))),
        _ => Ok(None),
    }
}

/// The first line of a program.
fn program_of(alloc: Global, tokens: &[Token]) -> Result<Option<Line>, NoMemory>
    ensures { IfOk result (λ r. option_map line_in r ≡ with_two program_of tokens.now) }
{
    match tokens {
        [name, params] => program_with(alloc, name, params),
        _ => Ok(None),
    }
}

/// A line that has no operands.
fn alone(line: Line, tokens: &[Token]) -> Option<Line>
    ensures { option_map line_in result ≡ with_none (line_in line) tokens.now }
{
    if tokens.is_empty() { Some(line) } else { None }
}

/// A line that may have neither `try` nor registers before a `=`.
fn plain_line(alloc: Global, keyword: Keyword, tokens: &[Token]) -> Result<Option<Line>, NoMemory>
    ensures { IfOk result (λ r. option_map line_in r ≡ plain_line keyword tokens.now) }
{
    match keyword {
        Keyword::Program => program_of(alloc, tokens),
        Keyword::Finally => Ok(alone(Line::Says(Statement::Finally), tokens)),
        Keyword::Else => Ok(alone(Line::Says(Statement::Else), tokens)),
        Keyword::End => Ok(alone(Line::Ends, tokens)),
        Keyword::Add => Ok(add_of(tokens).map(Line::Says)),
        Keyword::Sub => Ok(sub_of(tokens).map(Line::Says)),
        Keyword::Len => Ok(len_of(tokens).map(Line::Says)),
        Keyword::If => Ok(cond_of(alloc, tokens)?.map(|cond| Line::Says(Statement::If(cond)))),
        Keyword::Loop => Ok(loop_of(tokens).map(Line::Says)),
        Keyword::Break => Ok(alone(Line::Says(Statement::Break), tokens)),
        Keyword::Return => Ok(alone(Line::Says(Statement::Return), tokens)),
        Keyword::Fail => Ok(fail_of(tokens).map(Line::Says)),
        Keyword::Set | Keyword::Join | Keyword::Call(_) => Ok(None),
    }
}

/// A line by its keyword. Calls may have both `try` and registers, `set` of bytes and `join` may have `try`, and no other
/// line has either.
fn keyword_line(
    alloc: Global,
    tried: bool,
    targets: &[Register],
    keyword: Keyword,
    tokens: &[Token],
) -> Result<Option<Line>, NoMemory>
    ensures { IfOk result (λ r. option_map line_in r ≡ keyword_line tried targets.now keyword tokens.now) }
{
    match keyword {
        Keyword::Call(word) => {
            Ok(call_of_line(alloc, tried, word, targets, tokens)?.map(Line::Says))
        }
        _ if !targets.is_empty() => Ok(None),
        Keyword::Set => Ok(set_of(alloc, tried, tokens)?.map(Line::Says)),
        Keyword::Join => Ok(join_of(alloc, tried, tokens)?.map(Line::Says)),
        _ if tried => Ok(None),
        _ => plain_line(alloc, keyword, tokens),
    }
}

/// What a line spells; none where its keyword is unknown or its operands don't fit.
pub fn line_of(alloc: Global, heading: &Heading<'_>) -> Result<Option<Line>, NoMemory>
    ensures { IfOk result (λ r. option_map line_in r ≡ line_of heading.now) }
{
    match heading.keyword() {
        Some(keyword) => keyword_line(
            alloc,
            heading.tried(),
            heading.targets(),
            keyword,
            heading.operands(),
        ),
        None => Ok(None),
    }
}
