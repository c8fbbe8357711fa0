ghost use Rattle.std.specs.Prelude.{◌≡◌, ◌≤◌, ◌++◌, IfOk, IsTrue, length, if◌then◌else◌};
ghost use Rattle.std.specs.List.{list_all};
ghost use Rattle.std.specs.Char.{is_ascii_digit};
ghost use Rattle.dill_base.specs.Writing.{Writes};
ghost use Rattle.dill_http.specs.Lines.{crlf};
ghost use Rattle.dill_http.specs.Heads.{Status, line_of, code_digits};
ghost use Rattle.dill_http.specs.Reading.{status_cut, is_version, is_reason_end, are_code_digits, code_of, IsStatusCut};
ghost use Rattle.dill_http.specs.Writing.{fault_of, line_due};

use crate::Span;
use crate::bytes::is_text;
use crate::line::{length_fault, stands_at};
use dill_base::{Errno, NoMemory, Octets, WriteFault};
use std::alloc::Global;

fn is_version(bytes: &[u8]) -> bool
    ensures { result ≡ is_version bytes.now }
{
    bytes == b"HTTP/1.1".as_slice() || bytes == b"HTTP/1.0".as_slice()
}

fn is_reason_end(bytes: &[u8]) -> bool
    ensures { result ≡ is_reason_end bytes.now }
{
    match bytes.first() {
        None => true,
        Some(byte) => *byte == b' ' && is_text(&bytes[1..]),
    }
}

fn code_in(digits: &[u8]) -> u32
    requires count { length digits.now ≡ 3 }
    requires ascii { IsTrue (list_all is_ascii_digit digits.now) }
    ensures { result ≡ code_of digits.now }
{
    (digits[0] - b'0') as u32 * 100 + (digits[1] - b'0') as u32 * 10 + (digits[2] - b'0') as u32
}

fn read_code(digits: &[u8]) -> Option<u32>
    requires { length digits.now ≡ 3 }
    ensures { result ≡ (if are_code_digits digits.now then Some (code_of digits.now) else None) }
{
    if !digits.iter().all(|digit| digit.is_ascii_digit()) {
        return None;
    }
    let code = code_in(digits);
    if code < 100 || 999 < code {
        None
    } else {
        Some(code)
    }
}

#[tactic(auto, unfolding(crate::specs::Reading::status_cut))]
fn cut_status(line: &[u8]) -> Option<(u32, Span)>
    ensures { result ≡ status_cut line.now }
{
    if line.len() < 12 || !is_version(&line[..8]) || line[8] != b' ' {
        return None;
    }
    match read_code(&line[9..12]) {
        Some(code) if is_reason_end(&line[12..]) => {
            let reason = Span {
                from: line.len().min(13),
                to: line.len(),
            };
            Some((code, reason))
        }
        _ => None,
    }
}

/// Code and reason of a status line without its CRLF, in version 1.1 or 1.0. The code is from 100 to 999. Where the
/// reason is missing, with or without its space, its span is empty and lies at the end. Nothing is EPROTO to the caller.
/// RFC 9112, section 4.
pub fn read_status(line: &[u8]) -> Option<(u32, Span)>
    ensures cut { result ≡ status_cut line.now }
    ensures reads { IsStatusCut line.now result }
{
    cut_status(line)
}

/// The refusal of `write_status`: EINVAL for another form, EMSGSIZE for a line over 8,192 bytes without its CRLF.
pub fn status_fault(code: u32, reason: &[u8]) -> Option<Errno>
    ensures { result ≡ fault_of (Status code reason.now) }
{
    if code < 100 || 999 < code || !is_text(reason) {
        return Some(Errno::Einval);
    }
    length_fault(reason.len(), 0, 13)
}

fn digits_of(code: u32) -> [u8; 3]
    requires { code ≤ 999 }
    ensures { result ≡ code_digits code }
{
    [
        b'0' + (code / 100) as u8,
        b'0' + (code / 10 % 10) as u8,
        b'0' + (code % 10) as u8,
    ]
}

fn status_line(alloc: Global, code: u32, reason: &[u8]) -> Result<Octets, NoMemory>
    requires { code ≤ 999 }
    ensures { IfOk result (λ o. o ≡ line_of (Status code reason.now) ++ crlf) }
{
    let digits = digits_of(code);
    let mut line = Octets::from_slice(alloc, b"HTTP/1.1 ")?;
    line.push_all(&digits)?;
    line.push_all(b" ")?;
    line.push_all(reason)?;
    line.push_all(b"\r\n")?;
    Ok(line)
}

/// The status line with its CRLF, in version 1.1; a space stands behind the code though the reason is empty.
/// Its refusals are those of `status_fault`.
#[tactic(auto, unfolding(crate::specs::Writing::line_due))]
pub fn write_status(alloc: Global, code: u32, reason: &[u8]) -> Result<Octets, WriteFault>
    ensures { Writes result (line_due (Status code reason.now)) }
{
    if let Some(errno) = status_fault(code, reason) {
        return Err(WriteFault::Refused(errno));
    }
    match status_line(alloc, code, reason) {
        Ok(line) => Ok(line),
        Err(_) => Err(WriteFault::NoMemory),
    }
}
