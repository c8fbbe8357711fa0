//! What every crate of the library shares: errnos, bytes, deadlines, and the shelves and sinks of the outside.
//! It waits for nothing and opens no socket.
#![tactic(auto)]

mod deadline;
mod errno;
mod file_shelf;
mod mem_shelf;
mod mem_sink;
mod octets;
mod out_sink;
mod room;
mod sequence;
mod shelf;
mod sink;
mod status;

pub use deadline::Deadline;
pub use errno::{Errno, Failed, Front, NoMemory, WriteFault};
pub use file_shelf::FileShelf;
pub use mem_shelf::MemShelf;
pub use mem_sink::MemSink;
pub use octets::Octets;
pub use out_sink::OutSink;
pub use room::Room;
pub use sequence::Sequence;
pub use shelf::{Piece, Shelf};
pub use sink::Sink;
pub use status::{Address, Status};
