ghost use Rattle.std.specs.Prelude.{◌≡◌, ◌<◌, length, IfOk, MatchOption, None};
ghost use Rattle.dill_script.specs.Operands.{items_of, args_of, clauses_of, rest_of, operands_of};
ghost use Rattle.relay_lines.specs.Clauses.{clause_in};
ghost use Rattle.relay_lines.specs.Prefixes.{all_before, Takes};

use crate::Token;
use crate::operand::{item_of, num_of, number_register, operand_of, recv_of, send_of};
use dill_base::NoMemory;
use dill_script::{Kind, Operand, Operands, Rest};
use std::alloc::Global;

/// These operands with 1 to 16 items behind them.
fn with_items(
    alloc: Global,
    mut operands: Operands,
    tokens: &[Token],
) -> Result<Option<Operands>, NoMemory>
    ensures { IfOk result (λ r. r ≡ all_before operands (items_of tokens.now)) }
{
    if tokens.is_empty() || 16 < tokens.len() {
        return Ok(None);
    }
    for token in tokens {
        match item_of(alloc, token)? {
            Some(item) => operands.push(item)?,
            None => return Ok(None),
        }
    }
    Ok(Some(operands))
}

/// The argument at the front, and the tokens behind it.
fn first_arg(tokens: &[Token]) -> Option<(Operand, &[Token])>
    requires { 0 < length tokens.now }
    ensures { MatchOption result (args_of tokens.now ≡ None) (λ a. Takes args_of tokens.now a.0 a.1.now) }
{
    match tokens {
        [give, register, rest @ ..] if give.is_plain(b"give") => {
            Some((Operand::Give(number_register(register)?), rest))
        }
        [number, rest @ ..] => Some((Operand::Num(num_of(number)?), rest)),
        [] => None,
    }
}

/// These operands with arguments behind them.
fn with_args(mut operands: Operands, tokens: &[Token]) -> Result<Option<Operands>, NoMemory>
    ensures { IfOk result (λ r. r ≡ all_before operands (args_of tokens.now)) }
{
    let mut rest = tokens;
    while !rest.is_empty() {
        match first_arg(rest) {
            Some((arg, behind)) => {
                operands.push(arg)?;
                rest = behind;
            }
            None => return Ok(None),
        }
    }
    Ok(Some(operands))
}

/// A clause: `send`, an end and an item, or `recv`, an end and a size.
fn clause_of(
    alloc: Global,
    word: &Token,
    end: &Token,
    what: &Token,
) -> Result<Option<Operand>, NoMemory>
    ensures { IfOk result (λ r. r ≡ clause_in word.now end.now what.now) }
{
    if word.is_plain(b"send") {
        return send_of(alloc, end, what);
    }
    if word.is_plain(b"recv") {
        return Ok(recv_of(end, what));
    }
    Ok(None)
}

/// The clause at the front, and the tokens behind it.
fn first_clause(alloc: Global, tokens: &[Token]) -> Result<Option<(Operand, &[Token])>, NoMemory>
    requires { 0 < length tokens.now }
    ensures { IfOk result (λ r. MatchOption r (clauses_of tokens.now ≡ None) (λ c. Takes clauses_of tokens.now c.0 c.1.now)) }
{
    match tokens {
        [word, end, what, rest @ ..] => match clause_of(alloc, word, end, what)? {
            Some(clause) => Ok(Some((clause, rest))),
            None => Ok(None),
        },
        _ => Ok(None),
    }
}

/// These operands with clauses behind them.
fn with_clauses(
    alloc: Global,
    mut operands: Operands,
    tokens: &[Token],
) -> Result<Option<Operands>, NoMemory>
    ensures { IfOk result (λ r. r ≡ all_before operands (clauses_of tokens.now)) }
{
    let mut rest = tokens;
    while !rest.is_empty() {
        match first_clause(alloc, rest)? {
            Some((clause, behind)) => {
                operands.push(clause)?;
                rest = behind;
            }
            None => return Ok(None),
        }
    }
    Ok(Some(operands))
}

/// These operands with what may stand behind them.
fn with_rest(
    alloc: Global,
    operands: Operands,
    rest: Rest,
    tokens: &[Token],
) -> Result<Option<Operands>, NoMemory>
    ensures { IfOk result (λ r. r ≡ all_before operands (rest_of rest tokens.now)) }
{
    match rest {
        Rest::Nothing if tokens.is_empty() => Ok(Some(operands)),
        Rest::Nothing => Ok(None),
        Rest::Items => with_items(alloc, operands, tokens),
        Rest::Args => with_args(operands, tokens),
        Rest::Clauses => with_clauses(alloc, operands, tokens),
    }
}

/// Operands of these kinds, and what may stand behind them.
pub(crate) fn operands_of(
    alloc: Global,
    kinds: &[Kind],
    rest: Rest,
    tokens: &[Token],
) -> Result<Option<Operands>, NoMemory>
    ensures { IfOk result (λ r. r ≡ operands_of kinds.now rest tokens.now) }
{
    let mut operands = Operands::new(alloc);
    let mut tokens = tokens;
    for kind in kinds {
        let Some((token, behind)) = tokens.split_first() else {
            return Ok(None);
        };
        match operand_of(alloc, *kind, token)? {
            Some(operand) => operands.push(operand)?,
            None => return Ok(None),
        }
        tokens = behind;
    }
    with_rest(alloc, operands, rest, tokens)
}
