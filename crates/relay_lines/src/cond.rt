ghost use Rattle.std.specs.Prelude.{◌≡◌, IfOk};
ghost use Rattle.dill_script.specs.Statements.{relation_of, number_cond, bytes_cond, err_of, cond_of};

use crate::Token;
use crate::names::{errno_of, relation_named};
use crate::operand::{bytes_of, bytes_register, num_of, number_register};
use dill_base::NoMemory;
use dill_script::{Cond, Relation};
use std::alloc::Global;

/// The sign of comparing that a token is.
fn relation_of(token: &Token) -> Option<Relation>
    ensures { result ≡ relation_of token.now }
{
    relation_named(token.plain()?)
}

/// A condition on a number register.
fn number_cond(left: &Token, sign: &Token, right: &Token) -> Option<Cond>
    ensures { result ≡ number_cond left.now sign.now right.now }
{
    Some(Cond::Number(number_register(left)?, relation_of(sign)?, num_of(right)?))
}

/// A condition on a byte register.
fn bytes_cond(
    alloc: Global,
    left: &Token,
    sign: &Token,
    right: &Token,
) -> Result<Option<Cond>, NoMemory>
    ensures { IfOk result (λ r. r ≡ bytes_cond left.now sign.now right.now) }
{
    let Some(place) = bytes_register(left) else {
        return Ok(None);
    };
    if sign.is_plain(b"=") {
        return Ok(bytes_of(alloc, right)?.map(|bytes| Cond::Same(place, bytes)));
    }
    if sign.is_plain(b"!=") {
        return Ok(bytes_of(alloc, right)?.map(|bytes| Cond::Differs(place, bytes)));
    }
    Ok(None)
}

/// A condition on `err`: an errno or `none`.
fn err_of(token: &Token) -> Option<Cond>
    ensures { result ≡ err_of token.now }
{
    if token.is_plain(b"none") {
        return Some(Cond::Err(None));
    }
    Some(Cond::Err(Some(errno_of(token.plain()?)?)))
}

/// What an `if` asks.
pub(crate) fn cond_of(alloc: Global, tokens: &[Token]) -> Result<Option<Cond>, NoMemory>
    ensures { IfOk result (λ r. r ≡ cond_of tokens.now) }
{
    match tokens {
        [left, sign, right] => match number_cond(left, sign, right) {
            Some(cond) => Ok(Some(cond)),
            None => bytes_cond(alloc, left, sign, right),
        },
        [first, second] if first.is_plain(b"err") => Ok(err_of(second)),
        _ => Ok(None),
    }
}
