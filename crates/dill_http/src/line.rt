ghost use Rattle.std.specs.Prelude.{◌≡◌, ◌≤◌, ◌+◌, ◌<◌, IsTrue, length, nat_lt, if◌then◌else◌};
ghost use Rattle.dill_base.specs.Reading.{IsFront};
ghost use Rattle.dill_http.specs.Lines.{line_limit, front_of_line, front_behind, front_behind_cr, LineSpells, LineShows};
ghost use Rattle.dill_http.specs.Reading.{stands_at};

use crate::bytes::inner_length;
use dill_base::{Errno, Front};

// The most bytes of a line, without its CRLF.
const LINE_LIMIT: usize = 8192;

fn front_behind_cr(length: usize, rest: &[u8]) -> Front
    requires { length ≤ line_limit }
    ensures { result ≡ front_behind_cr length rest.now }
{
    match rest.first() {
        None => Front::Need,
        Some(b'\n') => Front::Whole {
            from: 0,
            to: length,
            used: length + 2,
        },
        Some(byte) if length + 1 == LINE_LIMIT && *byte != b'\r' => Front::Fault(Errno::Emsgsize),
        Some(_) => Front::Fault(Errno::Eproto),
    }
}

fn front_behind(length: usize, rest: &[u8]) -> Front
    requires { length ≤ line_limit }
    ensures { result ≡ front_behind length rest.now }
{
    match rest.first() {
        None => Front::Need,
        Some(b'\r') => front_behind_cr(length, &rest[1..]),
        Some(_) if length == LINE_LIMIT => Front::Fault(Errno::Emsgsize),
        Some(_) => Front::Fault(Errno::Eproto),
    }
}

#[tactic(auto, unfolding(crate::specs::Lines::front_of_line))]
fn front_by_length(bytes: &[u8]) -> Front
    ensures { result ≡ front_of_line bytes.now }
{
    let length = inner_length(bytes);
    if LINE_LIMIT < length {
        return Front::Fault(Errno::Emsgsize);
    }
    front_behind(length, &bytes[length..])
}

/// The line at the front of the bytes: `from` and `to` bound it without its CRLF.
/// It has at most 8,192 bytes; a longer one is EMSGSIZE at the byte in place 8,193. CR or LF alone is EPROTO.
/// RFC 9112, section 2.2, with CRLF as the only end of a line.
pub fn line_front(bytes: &[u8]) -> Front
    ensures front { result ≡ front_of_line bytes.now }
    ensures spelled { IsFront LineSpells LineShows line_limit bytes.now result }
{
    front_by_length(bytes)
}

/// The refusal of a line that has so many bytes in three parts, for its length.
pub fn length_fault(first: usize, second: usize, marks: usize) -> Option<Errno>
    requires { marks ≤ 16 }
    ensures { result ≡ (if nat_lt line_limit (first + second + marks) then Some Errno.Emsgsize else None) }
{
    if first <= LINE_LIMIT && second <= LINE_LIMIT && first + second + marks <= LINE_LIMIT {
        return None;
    }
    Some(Errno::Emsgsize)
}

/// Does this byte, which isn't 0, stand at this place?
pub fn stands_at(line: &[u8], place: usize, byte: u8) -> bool
    requires { 0 < byte }
    ensures test { result ≡ stands_at line.now place byte }
    ensures there { IsTrue result → place < length line.now }
{
    match line.get(place) {
        Some(found) => *found == byte,
        None => false,
    }
}
