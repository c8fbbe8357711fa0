ghost use Rattle.std.specs.Prelude.{◌≡◌, ◌≤◌, ◌==◌, ◌∷◌, [], length, not, MatchOption};
ghost use Rattle.std.specs.List.{prefix_len};
ghost use Rattle.dill_script.specs.Numbers.{number_up_to, parts, each, address_with, address_of};
ghost use Rattle.relay_lines.specs.Addresses.{ip_in};

use crate::number::{byte_up_to, number_up_to};
use dill_base::Address;

/// How many bytes stand before the first separator.
fn part_length(bytes: &[u8], separator: u8) -> usize
    ensures run { result ≡ prefix_len (λ byte. not (byte == separator)) bytes.now }
    ensures within { result ≤ length bytes.now }
{
    bytes.iter().take_while(|byte| **byte != separator).count()
}

/// What stands before the first separator, and what stands behind it; none where there is none.
fn split_at_first(bytes: &[u8], separator: u8) -> Option<(&[u8], &[u8])>
    ensures { MatchOption result (parts separator bytes.now ≡ bytes.now ∷ []) (λ p. parts separator bytes.now ≡ p.0.now ∷ parts separator p.1.now) }
{
    let length = part_length(bytes, separator);
    if length == bytes.len() {
        return None;
    }
    Some((&bytes[..length], &bytes[length + 1..]))
}

/// Four numbers up to 255.
fn numbers_of(first: &[u8], second: &[u8], third: &[u8], fourth: &[u8]) -> Option<[u8; 4]>
    ensures { result ≡ each (number_up_to 255) (first.now ∷ second.now ∷ third.now ∷ fourth.now ∷ []) }
{
    Some([
        byte_up_to(255, first)?,
        byte_up_to(255, second)?,
        byte_up_to(255, third)?,
        byte_up_to(255, fourth)?,
    ])
}

/// Four numbers up to 255 that are joined by `.`.
fn ip_of(word: &[u8]) -> Option<[u8; 4]>
    ensures { result ≡ ip_in (parts 46 word.now) }
{
    let (first, rest) = split_at_first(word, b'.')?;
    let (second, rest) = split_at_first(rest, b'.')?;
    let (third, fourth) = split_at_first(rest, b'.')?;
    numbers_of(first, second, third, fourth)
}

/// An address of four numbers and a port, which isn't 0.
fn address_from(ip: &[u8], port: &[u8]) -> Option<Address>
    ensures { result ≡ address_with (ip_in (parts 46 ip.now)) (number_up_to 65535 port.now) }
{
    let ip = ip_of(ip)?;
    let port = number_up_to(65535, port)? as u16;
    if port == 0 {
        return None;
    }
    Some(Address { ip, port })
}

/// Four numbers joined by `.`, then `:` and a port.
pub(crate) fn address_of(word: &[u8]) -> Option<Address>
    ensures { result ≡ address_of word.now }
{
    let (ip, port) = split_at_first(word, b':')?;
    address_from(ip, port)
}
