ghost use Rattle.std.specs.Prelude.{◌≡◌, ◌≤◌, length};
ghost use Rattle.dill_base.specs.Reading.{IsFront};
ghost use Rattle.dill_http.specs.Lines.{line_limit, front_of_line, LineSpells, LineShows};
ghost use Rattle.dill_ws.specs.HeadLines.{behind, HasLineFront, head_size, head_stop, at_limit};

use crate::line::behind;
use dill_base::{Errno, Front};
use dill_http::{http_laws, line_front};

/// The most bytes of a head.
pub const HEAD_LIMIT: usize = 16_384;

/// Where a head stops: whole at its empty line, open, or refused before its lines are judged.
#[tactic(auto, unfolding(crate::specs::HeadLines::head_stop))]
pub fn stop_of_head(bytes: &[u8]) -> Front
    ensures stop { result ≡ head_stop bytes.now }
    ensures line { HasLineFront bytes.now }
{
    if bytes.len() < HEAD_LIMIT {
        return stop_of(bytes);
    }
    match stop_of(&bytes[..HEAD_LIMIT - 1]) {
        Front::Whole { from, to, used } => Front::Whole { from, to, used },
        Front::Need => last_stop(&bytes[..HEAD_LIMIT]),
        Front::Fault(errno) => Front::Fault(errno),
    }
}

// What stands behind the lines.
fn stop_of(text: &[u8]) -> Front
    ensures stop { result ≡ front_of_line (behind text.now) }
    ensures line { IsFront LineSpells LineShows line_limit (behind text.now) result }
{
    line_front(behind(text))
}

// All bytes that a head may have are there.
fn last_stop(text: &[u8]) -> Front
    ensures { result ≡ at_limit (front_of_line (behind text.now)) }
{
    match stop_of(text) {
        Front::Whole { from, to, used } => Front::Whole { from, to, used },
        Front::Need | Front::Fault(_) => Front::Fault(Errno::Emsgsize),
    }
}

/// How many bytes the head has, which stops at its empty line.
pub fn size_of_head(bytes: &[u8]) -> usize
    requires { head_size bytes.now ≤ length bytes.now }
    ensures { result ≡ head_size bytes.now }
{
    http_laws();
    bytes.len() - (behind(bytes).len() - 2)
}
