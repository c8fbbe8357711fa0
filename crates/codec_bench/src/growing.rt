use dill_base::{Front, Octets};
use dill_frames::{PrefixForm, prefix_read, prefix_write, suffix_read, suffix_write};
use dill_http::line_front;
use dill_ws::{HeadFront, Side, frame_front, frame_write};
use std::alloc::Global;

/// Which reader is tried.
#[derive(Clone, Copy, Debug, PartialEq, Eq)]
pub enum Kind {
    Prefix,
    Suffix,
    Line,
    Frame,
}

const FORM: PrefixForm = PrefixForm {
    size: 4,
    little: false,
};

/// A message of so many bytes as it is sent, or nothing for want of memory or of a spelling.
pub fn spelled(alloc: Global, kind: Kind, size: usize) -> Option<Octets> {
    let mut message = Vec::new(alloc);
    for _byte in 0..size {
        message.push(b'a').ok()?;
    }
    let message = message.as_slice();
    match kind {
        Kind::Prefix => prefix_write(alloc, FORM, message).ok(),
        Kind::Suffix => suffix_write(alloc, b"\r\n", message).ok(),
        Kind::Line => suffix_write(alloc, b"\r\n", message).ok(),
        Kind::Frame => frame_write(alloc, 2, Some([1, 2, 3, 4]), message).ok(),
    }
}

/// Whether a message is read at the front of the bytes.
fn is_whole(kind: Kind, bytes: &[u8], limit: usize) -> bool {
    match kind {
        Kind::Prefix => matches!(prefix_read(FORM, bytes, limit), Front::Whole { .. }),
        Kind::Suffix => matches!(suffix_read(b"\r\n", bytes, limit), Front::Whole { .. }),
        Kind::Line => matches!(line_front(bytes), Front::Whole { .. }),
        Kind::Frame => is_whole_frame(bytes),
    }
}

fn is_whole_frame(bytes: &[u8]) -> bool {
    match frame_front(Side::Server, false, bytes) {
        HeadFront::Whole(head) => head.length <= bytes.len().saturating_sub(head.start) as u64,
        _ => false,
    }
}

/// How many fronts of the bytes hold a whole message, each looked at anew as it grows.
pub fn times_whole(kind: Kind, bytes: &[u8], limit: usize) -> usize {
    let mut times = 0usize;
    for n in 0..bytes.len() {
        if is_whole(kind, &bytes[..n], limit) {
            times = times.saturating_add(1);
        }
    }
    if is_whole(kind, bytes, limit) {
        times = times.saturating_add(1);
    }
    times
}
