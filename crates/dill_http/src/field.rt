ghost use Rattle.std.specs.Prelude.{◌≡◌, ◌≤◌, ◌++◌, IfOk, length};
ghost use Rattle.dill_base.specs.Writing.{Writes};
ghost use Rattle.dill_http.specs.Lines.{crlf};
ghost use Rattle.dill_http.specs.Heads.{Field, line_of};
ghost use Rattle.dill_http.specs.Reading.{field_cut, bare_from, IsCut};
ghost use Rattle.dill_http.specs.Writing.{fault_of, line_due};

use crate::bytes::{bare_length, blank_length, is_bare, is_text, is_token, token_length};
use crate::line::{length_fault, stands_at};
use crate::{Cut, Span};
use dill_base::{Errno, NoMemory, Octets, WriteFault};
use std::alloc::Global;

// The value from this place on, without the blanks round it.
fn bare_span(line: &[u8], place: usize) -> Span
    requires { place ≤ length line.now }
    ensures { result ≡ bare_from line.now place }
{
    let from = place + blank_length(&line[place..]);
    Span {
        from,
        to: from + bare_length(&line[from..]),
    }
}

#[tactic(auto, unfolding(crate::specs::Reading::field_cut))]
fn cut_field(line: &[u8]) -> Option<Cut>
    ensures { result ≡ field_cut line.now }
{
    let name = token_length(line);
    if name == 0 || !stands_at(line, name, b':') || !is_text(&line[name + 1..]) {
        return None;
    }
    Some(Cut {
        first: Span { from: 0, to: name },
        second: bare_span(line, name + 1),
    })
}

/// Name and value of a field line without its CRLF. Spaces and TABs round the value are dropped; the span of an
/// empty value lies at the end. Nothing is EPROTO to the caller.
/// RFC 9112, section 5: no blank stands before the colon, and no line goes on in the next.
pub fn read_field(line: &[u8]) -> Option<Cut>
    ensures cut { result ≡ field_cut line.now }
    ensures reads { IsCut Field line.now result }
{
    cut_field(line)
}

/// The refusal of `write_field`: EINVAL for another form, EMSGSIZE for a line over 8,192 bytes without its CRLF.
pub fn field_fault(name: &[u8], value: &[u8]) -> Option<Errno>
    ensures { result ≡ fault_of (Field name.now value.now) }
{
    if !is_token(name) || !is_text(value) || !is_bare(value) {
        return Some(Errno::Einval);
    }
    length_fault(name.len(), value.len(), 2)
}

fn field_line(alloc: Global, name: &[u8], value: &[u8]) -> Result<Octets, NoMemory>
    ensures { IfOk result (λ o. o ≡ line_of (Field name.now value.now) ++ crlf) }
{
    let mut line = Octets::from_slice(alloc, name)?;
    line.push_all(b": ")?;
    line.push_all(value)?;
    line.push_all(b"\r\n")?;
    Ok(line)
}

/// The field line with its CRLF, one space before the value. The value begins and ends with no space or TAB.
/// Its refusals are those of `field_fault`.
#[tactic(auto, unfolding(crate::specs::Writing::line_due))]
pub fn write_field(alloc: Global, name: &[u8], value: &[u8]) -> Result<Octets, WriteFault>
    ensures { Writes result (line_due (Field name.now value.now)) }
{
    if let Some(errno) = field_fault(name, value) {
        return Err(WriteFault::Refused(errno));
    }
    match field_line(alloc, name, value) {
        Ok(line) => Ok(line),
        Err(_) => Err(WriteFault::NoMemory),
    }
}
