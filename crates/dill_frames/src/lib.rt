//! libdill's framings as whole byte lists: messages behind a length (PREFIX), before a terminator (SUFFIX), until a last one (TERM).
//! Bytes in, an answer with offsets out: it keeps no buffer, waits for nothing and opens no socket.
#![tactic(auto)]

mod joining;
mod laws;
mod prefix;
mod suffix;
mod terminal;
mod worked;

pub use laws::{prefix_laws, suffix_laws, term_laws};
pub use prefix::{PrefixForm, length_digits, prefix_fits, prefix_read, prefix_write};
pub use suffix::{suffix_fits, suffix_read, suffix_write};
pub use terminal::is_terminal;
pub use worked::rows;
