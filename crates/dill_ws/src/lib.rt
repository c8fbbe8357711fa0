//! Frames and handshake heads of the WebSocket protocol (RFC 6455), over bytes that the caller owns.
//! It opens no socket, keeps no state between calls and joins no message.
#![tactic(auto)]

mod accept;
mod close;
mod control;
mod fields;
mod frame;
mod front;
mod head;
mod laws;
mod line;
mod masking;
mod offer;
mod reading;
mod request;
mod response;
mod side;
mod worked;

pub use accept::accept_of;
pub use close::{close_code, is_text, may_be_sent};
pub use control::{Control, control_write};
pub use frame::{frame_into, frame_write, masked_into};
pub use front::{frame_front, length_told, size_of_length};
pub use head::{Head, HeadFront};
pub use laws::{frame_laws, handshake_laws};
pub use masking::mask;
pub use offer::{client_head, client_head_into, head_fault, key_text};
pub use request::{Asked, read_client_head};
pub use response::{read_server_head, server_head};
pub use side::Side;
pub use worked::{accept_row, rows};
