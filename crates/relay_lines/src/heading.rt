ghost use Rattle.std.specs.Prelude.{◌≡◌, IfOk, option_map};
ghost use Rattle.dill_script.specs.Headings.{keyword_of, up_to_equals, with_keyword, with_targets, heading_of};
ghost use Rattle.relay_lines.specs.Targets.{targets_in};

use crate::Token;
use crate::keyword::keyword_named;
use crate::operand::register_in;
use crate::targets::Targets;
use dill_base::NoMemory;
use dill_script::{Keyword, Register};
use std::alloc::Global;
use std::marker::Model;

/// A line that has tokens, by its parts: `try`, the registers before its `=`, its keyword and what stands behind it.
#[derive(Debug, Drop)]
pub struct Heading<'a> {
    tried: bool,
    targets: Targets,
    keyword: Option<Keyword>,
    operands: &'a [Token],
}

impl<'a> Model for Heading<'a> {
    ghost use Rattle.dill_script.specs.Headings.{Heading};

    ghost Value = { Heading };

    ghost view = { λ h. record { tried = h.tried; targets = h.targets; keyword = h.keyword; operands = h.operands.now } };
}

impl Heading<'_> {
    /// The line's keyword; none where it is unknown.
    pub fn keyword(&self) -> Option<Keyword>
        ensures { result ≡ self.now.keyword }
    {
        self.keyword
    }

    /// Whether it begins with `try`.
    pub fn tried(&self) -> bool
        ensures { result ≡ self.now.tried }
    {
        self.tried
    }

    /// The registers before its `=`, none where it has no such `=`.
    pub fn targets(&self) -> &[Register]
        ensures { result.now ≡ self.now.targets }
    {
        self.targets.as_slice()
    }

    /// What stands behind its keyword.
    pub fn operands(&self) -> &[Token]
        ensures { result.now ≡ self.now.operands }
    {
        self.operands
    }
}

/// The keyword that a token is.
fn keyword_of(token: &Token) -> Option<Keyword>
    ensures { result ≡ keyword_of token.now }
{
    keyword_named(token.plain()?)
}

/// The registers that stand alone before a `=`, and what stands behind it; nothing where there is no such `=`.
fn up_to_equals(alloc: Global, tokens: &[Token]) -> Result<Option<(Targets, &[Token])>, NoMemory>
    ensures { IfOk result (λ r. option_map targets_in r ≡ up_to_equals tokens.now) }
{
    let mut targets = Targets::new(alloc);
    let mut rest = tokens;
    while let Some((token, behind)) = rest.split_first() {
        if token.is_plain(b"=") {
            return Ok(Some((targets, behind)));
        }
        let Some(register) = register_in(token) else {
            return Ok(None);
        };
        targets.push(register)?;
        rest = behind;
    }
    Ok(None)
}

/// The keyword stands first, and its operands behind it.
fn with_keyword(tried: bool, targets: Targets, tokens: &[Token]) -> Heading<'_>
    ensures { result ≡ with_keyword tried targets tokens.now }
{
    match tokens {
        [] => Heading {
            tried,
            targets,
            keyword: None,
            operands: tokens,
        },
        [first, operands @ ..] => Heading {
            tried,
            targets,
            keyword: keyword_of(first),
            operands,
        },
    }
}

/// What stands behind `try`, or the whole line.
fn with_targets(alloc: Global, tried: bool, tokens: &[Token]) -> Result<Heading<'_>, NoMemory>
    ensures { IfOk result (λ h. h ≡ with_targets tried tokens.now (up_to_equals tokens.now)) }
{
    if let Some((targets, behind)) = up_to_equals(alloc, tokens)? {
        if !targets.as_slice().is_empty() {
            return Ok(with_keyword(tried, targets, behind));
        }
    }
    Ok(with_keyword(tried, Targets::new(alloc), tokens))
}

/// The heading of a line's tokens.
pub fn heading_of(alloc: Global, tokens: &[Token]) -> Result<Heading<'_>, NoMemory>
    ensures { IfOk result (λ h. h ≡ heading_of tokens.now) }
{
    match tokens {
        [first, rest @ ..] if first.is_plain(b"try") => with_targets(alloc, true, rest),
        _ => with_targets(alloc, false, tokens),
    }
}
