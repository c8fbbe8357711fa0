ghost use Rattle.std.specs.Prelude.{◌≡◌, ◌≤◌, ◌+◌, ◌*◌, ◌&&◌, length, IfOk, MatchOption, ⊤, None};
ghost use Rattle.dill_script.specs.Tokens.{is_hex, hex_value, escaped, tokens_from, InText, InEscape, InHex};
ghost use Rattle.dill_script.specs.Numbers.{only_if};
ghost use Rattle.relay_lines.specs.Cutting.{behind_piece, Means, Fits, CutsText};

use crate::bytes::ends_token;
use dill_base::{NoMemory, Octets};
use std::alloc::Global;

/// What stands at the front of a text's rest: what a byte or an escape means, and how many bytes it takes; the `"`
/// that ends the text; or neither.
#[derive(Clone, Copy, Debug)]
pub(crate) enum Piece {
    Byte(u8, usize),
    End,
    Fault,
}

/// What a hexadecimal digit means.
fn hex_digit(byte: u8) -> Option<u8>
    ensures digit { result ≡ only_if (is_hex byte) (hex_value byte) }
    ensures small { MatchOption result ⊤ (λ digit. digit ≤ 15) }
{
    match byte {
        b'0'..=b'9' => Some(byte - b'0'),
        b'A'..=b'F' => Some(byte - b'A' + 10),
        b'a'..=b'f' => Some(byte - b'a' + 10),
        _ => None,
    }
}

/// What the letter behind a `\` means, but for `x`.
fn escaped(letter: u8) -> Option<u8>
    ensures { result ≡ escaped letter }
{
    match letter {
        b'"' | b'\\' => Some(letter),
        b'n' => Some(b'\n'),
        b'r' => Some(b'\r'),
        b't' => Some(b'\t'),
        _ => None,
    }
}

/// What two hexadecimal digits mean.
fn hex_byte(high: u8, low: u8) -> Option<u8>
    ensures { result ≡ only_if (is_hex high && is_hex low) (16 * hex_value high + hex_value low) }
{
    match (hex_digit(high), hex_digit(low)) {
        (Some(high), Some(low)) => Some(16 * high + low),
        _ => None,
    }
}

/// What the escape means whose two digits stand at the front.
fn hex_escape(bytes: &[u8]) -> Option<u8>
    ensures { MatchOption result (tokens_from InHex bytes.now ≡ None) (λ meant. Means InHex bytes.now meant 2) }
{
    match bytes {
        [high, low, ..] => hex_byte(*high, *low),
        _ => None,
    }
}

/// What an escape means, and how many bytes it takes behind its `\`.
fn escape(bytes: &[u8]) -> Option<(u8, usize)>
    ensures { MatchOption result (tokens_from InEscape bytes.now ≡ None) (λ e. Means InEscape bytes.now e.0 e.1) }
{
    match bytes {
        [] => None,
        [b'x', digits @ ..] => Some((hex_escape(digits)?, 3)),
        [letter, ..] => Some((escaped(*letter)?, 1)),
    }
}

/// What stands at the front.
fn next_piece(bytes: &[u8]) -> Piece
    ensures tokens { behind_piece result bytes.now ≡ tokens_from InText bytes.now }
    ensures fits { Fits result (length bytes.now) }
{
    match bytes {
        [] => Piece::Fault,
        [b'"', ..] => Piece::End,
        [b'\\', rest @ ..] => match escape(rest) {
            Some((meant, used)) => Piece::Byte(meant, used + 1),
            None => Piece::Fault,
        },
        [byte, ..] => Piece::Byte(*byte, 1),
    }
}

/// A text from behind its first `"`, and what stands behind the second; nothing where it has no end, another escape,
/// or something else than a blank behind it.
pub(crate) fn read_text(alloc: Global, bytes: &[u8]) -> Result<Option<(Octets, &[u8])>, NoMemory>
    ensures { IfOk result (λ r. MatchOption r (tokens_from InText bytes.now ≡ None) (λ t. CutsText bytes.now t.0 t.1.now)) }
{
    let mut meant = Octets::new(alloc);
    let mut rest = bytes;
    loop {
        match next_piece(rest) {
            Piece::Fault => return Ok(None),
            Piece::End => {
                let behind = &rest[1..];
                if !ends_token(behind) {
                    return Ok(None);
                }
                return Ok(Some((meant, behind)));
            }
            Piece::Byte(byte, used) => {
                meant.push_all(&[byte])?;
                rest = &rest[used..];
            }
        }
    }
}
