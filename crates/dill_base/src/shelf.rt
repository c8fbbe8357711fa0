ghost use Rattle.std.specs.Prelude.{◌≡◌, ◌<◌, List, ℕ, length, Option, OnOk};
ghost use Rattle.dill_base.specs.Shelves.{Files, Starts, StartHasCause, Reads, ReadHasCause};

use crate::Failed;

/// What a read of a shelf gave: so many bytes, at least one; the end; or nothing, since the shelf failed.
#[derive(Clone, Copy, Debug, PartialEq, Eq)]
pub enum Piece {
    Got(usize),
    End,
    Failed,
}

/// Where files lie under their names.
pub trait Shelf {
    /// The names and the bytes under them, where it tells.
    ghost files: { Self → Option Files };

    /// What is left of the file that was started, where it tells.
    ghost left: { Self → Option (List ℕ) };

    /// How often it failed, without the starts of names that it doesn't hold. The count stands still at its type's end.
    ghost faults: { Self → ℕ };

    /// Begins with the file of this name, also where another one was begun.
    fn start(&mut self, name: &str) -> Result<(), Failed>
        ensures files { files self.new ≡ files self.old }
        ensures started { OnOk result (Starts (files self.old) name.now (left self.new)) }
        ensures cause { StartHasCause (files self.old) name.now (faults self.old) (faults self.new) result };

    /// Puts the next bytes of the file at the front of the buffer.
    fn read(&mut self, buf: &mut [u8]) -> Piece
        requires { 0 < length buf.old }
        ensures files { files self.new ≡ files self.old }
        ensures piece { Reads (left self.old) (left self.new) buf.new result }
        ensures cause { ReadHasCause (faults self.old) (faults self.new) result };
}
