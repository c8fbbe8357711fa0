ghost use Rattle.std.specs.Prelude.{◌≡◌, IfOk};
ghost use Rattle.dill_script.specs.Statements.{set_at, fail_of, loop_of, call_of_line};
ghost use Rattle.relay_lines.specs.Pairs.{add_of, sub_of, len_of, set_of, join_of};

use crate::Token;
use crate::dest::dest_at;
use crate::names::errno_of;
use crate::operand::{bytes_of, bytes_register, num_of, number_register, register_in};
use crate::operands::operands_of;
use crate::table::{kinds_of, rest_kind};
use dill_base::NoMemory;
use dill_calls::Word;
use dill_script::{Form, Register, Statement};
use std::alloc::Global;

/// `set` of a register.
fn set_at(
    alloc: Global,
    tried: bool,
    register: Register,
    value: &Token,
) -> Result<Option<Statement>, NoMemory>
    ensures { IfOk result (λ r. r ≡ set_at tried register value.now) }
{
    match register {
        Register::Number(_) if tried => Ok(None),
        Register::Number(place) => Ok(num_of(value).map(|value| Statement::Set(place, value))),
        Register::Bytes(register) => match bytes_of(alloc, value)? {
            Some(bytes) => Ok(Some(Statement::Keep {
                tried,
                register,
                bytes,
            })),
            None => Ok(None),
        },
    }
}

/// What stands behind `set`.
pub(crate) fn set_of(
    alloc: Global,
    tried: bool,
    tokens: &[Token],
) -> Result<Option<Statement>, NoMemory>
    ensures { IfOk result (λ r. r ≡ set_of tried tokens.now) }
{
    match tokens {
        [target, value] => match register_in(target) {
            Some(register) => set_at(alloc, tried, register, value),
            None => Ok(None),
        },
        _ => Ok(None),
    }
}

/// What stands behind `join`.
pub(crate) fn join_of(
    alloc: Global,
    tried: bool,
    tokens: &[Token],
) -> Result<Option<Statement>, NoMemory>
    ensures { IfOk result (λ r. r ≡ join_of tried tokens.now) }
{
    let [place, value] = tokens else {
        return Ok(None);
    };
    let Some(register) = bytes_register(place) else {
        return Ok(None);
    };
    match bytes_of(alloc, value)? {
        Some(bytes) => Ok(Some(Statement::Join {
            tried,
            register,
            bytes,
        })),
        None => Ok(None),
    }
}

/// What stands behind `add`.
pub(crate) fn add_of(tokens: &[Token]) -> Option<Statement>
    ensures { result ≡ add_of tokens.now }
{
    match tokens {
        [place, value] => Some(Statement::Add(number_register(place)?, num_of(value)?)),
        _ => None,
    }
}

/// What stands behind `sub`.
pub(crate) fn sub_of(tokens: &[Token]) -> Option<Statement>
    ensures { result ≡ sub_of tokens.now }
{
    match tokens {
        [place, value] => Some(Statement::Sub(number_register(place)?, num_of(value)?)),
        _ => None,
    }
}

/// What stands behind `len`.
pub(crate) fn len_of(tokens: &[Token]) -> Option<Statement>
    ensures { result ≡ len_of tokens.now }
{
    match tokens {
        [place, source] => Some(Statement::Len(number_register(place)?, bytes_register(source)?)),
        _ => None,
    }
}

/// What stands behind `fail`.
pub(crate) fn fail_of(tokens: &[Token]) -> Option<Statement>
    ensures { result ≡ fail_of tokens.now }
{
    match tokens {
        [errno] => Some(Statement::Fail(errno_of(errno.plain()?)?)),
        _ => None,
    }
}

/// What stands behind `loop`.
pub(crate) fn loop_of(tokens: &[Token]) -> Option<Statement>
    ensures { result ≡ loop_of tokens.now }
{
    match tokens {
        [] => Some(Statement::Loop(None)),
        [rounds] => Some(Statement::Loop(Some(num_of(rounds)?))),
        _ => None,
    }
}

/// The call of a line, with the registers for its answer.
pub(crate) fn call_of_line(
    alloc: Global,
    tried: bool,
    word: Word,
    targets: &[Register],
    tokens: &[Token],
) -> Result<Option<Statement>, NoMemory>
    ensures { IfOk result (λ r. r ≡ call_of_line tried word targets.now tokens.now) }
{
    let Some(dest) = dest_at(word, targets) else {
        return Ok(None);
    };
    match operands_of(alloc, kinds_of(word), rest_kind(word), tokens)? {
        Some(operands) => Ok(Some(Statement::Call {
            tried,
            dest,
            form: Form { word, operands },
        })),
        None => Ok(None),
    }
}
