ghost use Rattle.std.specs.Prelude.{◌≡◌, ◌<◌, ◌∷◌, [], length, IfSome, IfNone, Some, None};
ghost use Rattle.dill_ws.specs.HeadLines.{next_line, lines_at, behind};

use dill_base::Front;
use dill_http::{http_laws, line_front};

/// A line of a head, without its CRLF, and what stands behind it.
#[derive(Clone, Copy, Debug)]
pub struct Line<'a> {
    pub text: &'a [u8],
    pub rest: &'a [u8],
}

/// The first line, unless it is empty or isn't whole.
pub fn first_line(bytes: &[u8]) -> Option<Line<'_>>
    ensures none { IfNone result ((lines_at bytes.now ≡ []) × (behind bytes.now ≡ bytes.now)) }
    ensures lines { IfSome result (λ l. lines_at bytes.now ≡ l.text.now ∷ lines_at l.rest.now) }
    ensures rest { IfSome result (λ l. behind bytes.now ≡ behind l.rest.now) }
    ensures less { IfSome result (λ l. length l.rest.now < length bytes.now) }
{
    http_laws();
    cut_line(bytes)
}

#[tactic(auto, unfolding(crate::specs::HeadLines::next_line))]
fn cut_line(bytes: &[u8]) -> Option<Line<'_>>
    ensures none { IfNone result (next_line bytes.now ≡ None) }
    ensures some { IfSome result (λ l. next_line bytes.now ≡ Some (l.text.now, l.rest.now)) }
    ensures less { IfSome result (λ l. length l.rest.now < length bytes.now) }
{
    match line_front(bytes) {
        Front::Whole { to, used, .. } => {
            if to == 0 {
                return None;
            }
            Some(Line {
                text: &bytes[..to],
                rest: &bytes[used..],
            })
        }
        Front::Need => None,
        Front::Fault(_) => None,
    }
}

/// What stands behind the lines: the empty line, too little, or what is no line.
pub fn behind(bytes: &[u8]) -> &[u8]
    ensures { result.now ≡ behind bytes.now }
{
    let mut rest = bytes;
    while let Some(line) = first_line(rest) {
        rest = line.rest;
    }
    rest
}
