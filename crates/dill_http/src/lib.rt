//! The lines of HTTP heads: request, status and field lines, read from bytes and written to them.
//! It reads no body, and no socket: the caller owns the bytes.
#![tactic(auto)]

mod bytes;
mod field;
mod laws;
mod line;
mod request;
mod span;
mod status;
mod worked;

pub use field::{field_fault, read_field, write_field};
pub use laws::http_laws;
pub use line::line_front;
pub use request::{read_request, request_fault, write_request};
pub use span::{Cut, Span};
pub use status::{read_status, status_fault, write_status};
pub use worked::rows;
