ghost use Rattle.std.specs.Prelude.{◌≡◌, ◌++◌, IfOk};
ghost use Rattle.dill_base.specs.Writing.{Writes};
ghost use Rattle.dill_http.specs.Lines.{crlf};
ghost use Rattle.dill_http.specs.Heads.{Request, line_of};
ghost use Rattle.dill_http.specs.Reading.{request_cut, is_version_end, IsCut};
ghost use Rattle.dill_http.specs.Writing.{fault_of, line_due};

use crate::bytes::{is_resource, is_token, resource_length, token_length};
use crate::line::{length_fault, stands_at};
use crate::{Cut, Span};
use dill_base::{Errno, NoMemory, Octets, WriteFault};
use std::alloc::Global;

fn is_version_end(bytes: &[u8]) -> bool
    ensures { result ≡ is_version_end bytes.now }
{
    bytes == b" HTTP/1.1".as_slice() || bytes == b" HTTP/1.0".as_slice()
}

#[tactic(auto, unfolding(crate::specs::Reading::request_cut))]
fn cut_request(line: &[u8]) -> Option<Cut>
    ensures { result ≡ request_cut line.now }
{
    let command = token_length(line);
    if command == 0 || !stands_at(line, command, b' ') {
        return None;
    }
    let resource = resource_length(&line[command + 1..]);
    let end = command + 1 + resource;
    if resource == 0 || !is_version_end(&line[end..]) {
        return None;
    }
    Some(Cut {
        first: Span {
            from: 0,
            to: command,
        },
        second: Span {
            from: command + 1,
            to: end,
        },
    })
}

/// Command and resource of a request line without its CRLF, in version 1.1 or 1.0. Nothing is EPROTO to the caller.
/// RFC 9112, section 3: the resource is one or more bytes that are seen, in ASCII.
pub fn read_request(line: &[u8]) -> Option<Cut>
    ensures cut { result ≡ request_cut line.now }
    ensures reads { IsCut Request line.now result }
{
    cut_request(line)
}

/// The refusal of `write_request`: EINVAL for another form, EMSGSIZE for a line over 8,192 bytes without its CRLF.
pub fn request_fault(command: &[u8], resource: &[u8]) -> Option<Errno>
    ensures { result ≡ fault_of (Request command.now resource.now) }
{
    if !is_token(command) || !is_resource(resource) {
        return Some(Errno::Einval);
    }
    length_fault(command.len(), resource.len(), 10)
}

fn request_line(alloc: Global, command: &[u8], resource: &[u8]) -> Result<Octets, NoMemory>
    ensures { IfOk result (λ o. o ≡ line_of (Request command.now resource.now) ++ crlf) }
{
    let mut line = Octets::from_slice(alloc, command)?;
    line.push_all(b" ")?;
    line.push_all(resource)?;
    line.push_all(b" HTTP/1.1\r\n")?;
    Ok(line)
}

/// The request line with its CRLF, in version 1.1. Its refusals are those of `request_fault`.
#[tactic(auto, unfolding(crate::specs::Writing::line_due))]
pub fn write_request(alloc: Global, command: &[u8], resource: &[u8]) -> Result<Octets, WriteFault>
    ensures { Writes result (line_due (Request command.now resource.now)) }
{
    if let Some(errno) = request_fault(command, resource) {
        return Err(WriteFault::Refused(errno));
    }
    match request_line(alloc, command, resource) {
        Ok(line) => Ok(line),
        Err(_) => Err(WriteFault::NoMemory),
    }
}
