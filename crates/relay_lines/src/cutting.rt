ghost use Rattle.std.specs.Prelude.{◌≡◌, ◌≤◌, ◌<◌, length, not, true, false, IfOk, MatchOption, None};
ghost use Rattle.std.specs.List.{prefix_len};
ghost use Rattle.dill_script.specs.Lines.{is_blank};
ghost use Rattle.dill_script.specs.Tokens.{tokens, before, tokens_from, Between, InPlain};
ghost use Rattle.relay_lines.specs.Cutting.{begins_token, ends_token, CutsToken};

use crate::bytes::{first_token, is_blank};
use crate::text::read_text;
use crate::{Token, Tokens};
use dill_base::{NoMemory, Octets};
use std::alloc::Global;

/// How many bytes stand before the first blank.
fn word_length(bytes: &[u8]) -> usize
    ensures run { result ≡ prefix_len (λ byte. not (is_blank byte)) bytes.now }
    ensures within { result ≤ length bytes.now }
{
    bytes.iter().take_while(|byte| !is_blank(**byte)).count()
}

/// The plain token at the front, and what stands behind it.
fn cut_word(alloc: Global, bytes: &[u8]) -> Result<(Token, &[u8]), NoMemory>
    requires { ends_token bytes.now ≡ false }
    ensures tokens { IfOk result (λ t. tokens_from InPlain bytes.now ≡ before t.0 (tokens_from Between t.1.now)) }
    ensures shorter { IfOk result (λ t. length t.1.now < length bytes.now) }
{
    let length = word_length(bytes);
    let word = Octets::from_slice(alloc, &bytes[..length])?;
    Ok((Token::from_plain(word), &bytes[length..]))
}

/// The token at the front, and what stands behind it; nothing where a text has no end, another escape, or something
/// else than a blank behind it.
fn cut_token(alloc: Global, bytes: &[u8]) -> Result<Option<(Token, &[u8])>, NoMemory>
    requires { begins_token bytes.now ≡ true }
    ensures { IfOk result (λ r. MatchOption r (tokens_from Between bytes.now ≡ None) (λ t. CutsToken bytes.now t.0 t.1.now)) }
{
    match bytes {
        [b'"', inside @ ..] => match read_text(alloc, inside)? {
            Some((text, behind)) => Ok(Some((Token::from_text(text), behind))),
            None => Ok(None),
        },
        _ => Ok(Some(cut_word(alloc, bytes)?)),
    }
}

/// The tokens of a line; none where a text has no end, another escape, or something else than a blank behind it.
pub fn tokens(alloc: Global, line: &[u8]) -> Result<Option<Tokens>, NoMemory>
    ensures { IfOk result (λ r. r ≡ tokens line.now) }
{
    let mut tokens = Tokens::new(alloc);
    let mut rest = line;
    while let Some(bytes) = first_token(rest) {
        match cut_token(alloc, bytes)? {
            Some((token, behind)) => {
                tokens.push(token)?;
                rest = behind;
            }
            None => return Ok(None),
        }
    }
    Ok(Some(tokens))
}
