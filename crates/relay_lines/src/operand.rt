ghost use Rattle.std.specs.Prelude.{◌≡◌, IfOk};
ghost use Rattle.dill_script.specs.Operands.{register_in, number_register, bytes_register, num_of_plain, num_of, bytes_of, wait_of_plain, wait_of, name_of, operand_of, item_of, send_of, recv_of};

use crate::Token;
use crate::address::address_of;
use crate::names::{mode_of, order_of, role_of};
use crate::number::{is_name, number_of, register_of};
use dill_base::{NoMemory, Octets};
use dill_script::{Bytes, Kind, Num, Operand, Register, Wait};
use std::alloc::Global;

/// The register that a token is.
pub(crate) fn register_in(token: &Token) -> Option<Register>
    ensures { result ≡ register_in token.now }
{
    register_of(token.plain()?)
}

/// A token that is a number register.
pub(crate) fn number_register(token: &Token) -> Option<u8>
    ensures { result ≡ number_register token.now }
{
    match register_in(token)? {
        Register::Number(place) => Some(place),
        Register::Bytes(_) => None,
    }
}

/// A token that is a byte register.
pub(crate) fn bytes_register(token: &Token) -> Option<u8>
    ensures { result ≡ bytes_register token.now }
{
    match register_in(token)? {
        Register::Number(_) => None,
        Register::Bytes(place) => Some(place),
    }
}

/// A number or a number register.
fn num_of_plain(word: &[u8]) -> Option<Num>
    ensures { result ≡ num_of_plain word.now }
{
    if let Some(number) = number_of(word) {
        return Some(Num::Literal(number));
    }
    match register_of(word) {
        Some(Register::Number(place)) => Some(Num::Register(place)),
        _ => None,
    }
}

/// A token that is a number or a number register.
pub(crate) fn num_of(token: &Token) -> Option<Num>
    ensures { result ≡ num_of token.now }
{
    num_of_plain(token.plain()?)
}

/// A token that is a text or a byte register.
pub(crate) fn bytes_of(alloc: Global, token: &Token) -> Result<Option<Bytes>, NoMemory>
    ensures { IfOk result (λ r. r ≡ bytes_of token.now) }
{
    match token.text() {
        Some(literal) => Ok(Some(Bytes::Literal(Octets::from_slice(alloc, literal)?))),
        None => Ok(bytes_register(token).map(Bytes::Register)),
    }
}

/// `-1`, a number, or `+` directly followed by one.
fn wait_of_plain(word: &[u8]) -> Option<Wait>
    ensures { result ≡ wait_of_plain word.now }
{
    match word {
        b"-1" => Some(Wait::Never),
        [b'+', rest @ ..] => Some(Wait::After(num_of_plain(rest)?)),
        _ => Some(Wait::At(num_of_plain(word)?)),
    }
}

/// A token that says how long to wait.
fn wait_of(token: &Token) -> Option<Wait>
    ensures { result ≡ wait_of token.now }
{
    wait_of_plain(token.plain()?)
}

/// A token that is a name.
pub(crate) fn name_of(alloc: Global, token: &Token) -> Result<Option<Octets>, NoMemory>
    ensures { IfOk result (λ r. r ≡ name_of token.now) }
{
    match token.plain() {
        Some(word) if is_name(word) => Ok(Some(Octets::from_slice(alloc, word)?)),
        _ => Ok(None),
    }
}

/// A token that is an operand of this kind.
pub(crate) fn operand_of(
    alloc: Global,
    kind: Kind,
    token: &Token,
) -> Result<Option<Operand>, NoMemory>
    ensures { IfOk result (λ r. r ≡ operand_of kind token.now) }
{
    match kind {
        Kind::Num => Ok(num_of(token).map(Operand::Num)),
        Kind::Bytes => Ok(bytes_of(alloc, token)?.map(Operand::Bytes)),
        Kind::Wait => Ok(wait_of(token).map(Operand::Wait)),
        Kind::Address => Ok(token.plain().and_then(address_of).map(Operand::Address)),
        Kind::Program => Ok(name_of(alloc, token)?.map(Operand::Program)),
        Kind::Order => Ok(token.plain().and_then(order_of).map(Operand::Order)),
        Kind::Mode => Ok(token.plain().and_then(mode_of).map(Operand::Mode)),
        Kind::Role => Ok(token.plain().and_then(role_of).map(Operand::Role)),
    }
}

/// A token that is a text, a byte register or a number register.
pub(crate) fn item_of(alloc: Global, token: &Token) -> Result<Option<Operand>, NoMemory>
    ensures { IfOk result (λ r. r ≡ item_of token.now) }
{
    match bytes_of(alloc, token)? {
        Some(bytes) => Ok(Some(Operand::Bytes(bytes))),
        None => Ok(number_register(token).map(|place| Operand::Num(Num::Register(place)))),
    }
}

/// An end, and what is sent to it.
pub(crate) fn send_of(alloc: Global, end: &Token, item: &Token) -> Result<Option<Operand>, NoMemory>
    ensures { IfOk result (λ r. r ≡ send_of end.now item.now) }
{
    match num_of(end) {
        Some(end) => Ok(bytes_of(alloc, item)?.map(|item| Operand::Send(end, item))),
        None => Ok(None),
    }
}

/// An end, and a size in bytes.
pub(crate) fn recv_of(end: &Token, size: &Token) -> Option<Operand>
    ensures { result ≡ recv_of end.now size.now }
{
    Some(Operand::Recv(num_of(end)?, num_of(size)?))
}
