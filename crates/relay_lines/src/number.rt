ghost use Rattle.std.specs.Prelude.{◌≡◌, ◌≤◌, ◌==◌, ◌||◌, IfSome, nat_le};
ghost use Rattle.std.specs.List.{list_all};
ghost use Rattle.dill_script.specs.Numbers.{is_digit, is_lower, is_decimal, is_name, value_of, only_if, number_up_to, number_of, register_of};

use dill_script::Register;

/// The greatest number of a script.
const GREATEST: u64 = 9_223_372_036_854_775_807;

fn is_digit(byte: u8) -> bool
    ensures { result ≡ is_digit byte }
{
    b'0' <= byte && byte <= b'9'
}

fn is_lower(byte: u8) -> bool
    ensures { result ≡ is_lower byte }
{
    b'a' <= byte && byte <= b'z'
}

fn are_digits(bytes: &[u8]) -> bool
    ensures { result ≡ list_all is_digit bytes.now }
{
    bytes.iter().all(|byte| is_digit(*byte))
}

/// One digit or more, and `0` first only where it is alone.
fn is_decimal(word: &[u8]) -> bool
    ensures { result ≡ is_decimal word.now }
{
    match word {
        [] => false,
        [digit] => is_digit(*digit),
        [first, rest @ ..] => is_digit(*first) && *first != b'0' && are_digits(rest),
    }
}

/// What digits mean, where that is at most the greatest.
fn value_up_to(greatest: u64, digits: &[u8]) -> Option<u64>
    ensures { result ≡ only_if (nat_le (value_of digits.now) greatest) (value_of digits.now) }
{
    let mut value = 0u64;
    for digit in digits {
        value = value
            .checked_mul(10)?
            .checked_add(u64::from(digit.saturating_sub(b'0')))?;
        if greatest < value {
            return None;
        }
    }
    Some(value)
}

/// A number up to the greatest.
pub fn number_up_to(greatest: u64, word: &[u8]) -> Option<u64>
    ensures number { result ≡ number_up_to greatest word.now }
    ensures within { IfSome result (λ n. n ≤ greatest) }
{
    if is_decimal(word) {
        value_up_to(greatest, word)
    } else {
        None
    }
}

/// The same, where the greatest is a byte.
pub(crate) fn byte_up_to(greatest: u8, word: &[u8]) -> Option<u8>
    ensures { result ≡ number_up_to greatest word.now }
{
    Some(number_up_to(u64::from(greatest), word)? as u8)
}

/// A number of a script.
pub(crate) fn number_of(word: &[u8]) -> Option<u64>
    ensures { result ≡ number_of word.now }
{
    number_up_to(GREATEST, word)
}

fn is_name_byte(byte: u8) -> bool
    ensures { result ≡ is_lower byte || (is_digit byte || (byte == 95)) }
{
    is_lower(byte) || is_digit(byte) || byte == b'_'
}

fn are_name_bytes(bytes: &[u8]) -> bool
    ensures { result ≡ list_all (λ byte. is_lower byte || (is_digit byte || (byte == 95))) bytes.now }
{
    bytes.iter().all(|byte| is_name_byte(*byte))
}

/// A lower-case letter, and at most 31 more lower-case letters, digits or `_`.
pub(crate) fn is_name(word: &[u8]) -> bool
    ensures { result ≡ is_name word.now }
{
    match word {
        [] => false,
        [first, rest @ ..] => is_lower(*first) && rest.len() <= 31 && are_name_bytes(rest),
    }
}

/// A register: `n0` to `n15`, or `b0` to `b15`.
pub(crate) fn register_of(word: &[u8]) -> Option<Register>
    ensures { result ≡ register_of word.now }
{
    match word {
        [b'n', rest @ ..] => Some(Register::Number(byte_up_to(15, rest)?)),
        [b'b', rest @ ..] => Some(Register::Bytes(byte_up_to(15, rest)?)),
        _ => None,
    }
}
