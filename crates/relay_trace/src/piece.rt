ghost use Rattle.std.specs.Prelude.{◌≡◌, ◌<◌, ◌≤◌, ◌+◌, ◌*◌, ◌++◌, ◌∷◌, List, ℕ, [], length, take, true, false, OnOk, OnErr};
ghost use Rattle.std.specs.Io.KnownBytes.{Appends};
ghost use Rattle.dill_base.specs.Causes.{HasCause};
ghost use Rattle.dill_base.specs.Sinks.{AppendsPart};
ghost use Rattle.relay_trace.specs.Flows.{AppendsProper, Flows, InPieces};
ghost use Rattle.relay_trace.specs.Lines.{hex_of};

use crate::hex::hex_pair;
use dill_base::{Failed, Sink};
use std::marker::Model;

/// How many bytes go out by one write at most.
const PIECE: usize = 4096;

/// The piece of a line that is filled.
#[derive(Drop)]
pub(crate) struct Piece {
    bytes: [u8; 4096],
    len: usize,
}

impl Model for Piece {
    ghost Value = { List ℕ };

    ghost view = { λ p. take p.len p.bytes };

    ghost invariant = { λ p. p.len ≤ 4096 };
}

impl Piece {
    pub(crate) fn new() -> Piece
        ensures { result ≡ [] }
    {
        Piece {
            bytes: [0; 4096],
            len: 0,
        }
    }

    fn is_full(&self) -> bool
        ensures full { result ≡ true → length self.now ≡ 4096 }
        ensures room { result ≡ false → length self.now < 4096 }
    {
        self.len == PIECE
    }

    fn push(&mut self, byte: u8)
        requires { length self.old < 4096 }
        ensures { self.new ≡ self.old ++ byte ∷ [] }
    {
        self.bytes[self.len] = byte;
        self.len += 1;
    }

    /// Writes what is filled.
    pub(crate) fn flush<W: Sink>(&mut self, out: &mut W) -> Result<(), Failed>
        ensures ok { OnOk result ((self.new ≡ []) × Appends (W.told out.old) (W.told out.new) self.old) }
        ensures err { OnErr result (AppendsPart (W.told out.old) (W.told out.new) self.old) }
        ensures cause { HasCause (W.faults out.old) (W.faults out.new) result }
    {
        out.write(&self.bytes[..self.len])?;
        self.len = 0;
        Ok(())
    }

    /// Adds a byte, and first writes a piece that is full.
    pub(crate) fn put<W: Sink>(&mut self, byte: u8, out: &mut W) -> Result<(), Failed>
        ensures ok { OnOk result (Flows (W.told out.old) (W.told out.new) (self.old ++ byte ∷ []) self.new) }
        ensures some { OnOk result (0 < length self.new) }
        ensures pieces { OnOk result (InPieces (length self.old + 1) (length self.new)) }
        ensures room { length self.old < 4096 → out.new ≡ out.old }
        ensures err { OnErr result (AppendsProper (W.told out.old) (W.told out.new) (self.old ++ byte ∷ [])) }
        ensures cause { HasCause (W.faults out.old) (W.faults out.new) result }
    {
        if self.is_full() {
            self.flush(out)?;
        }
        self.push(byte);
        Ok(())
    }

    pub(crate) fn put_all<W: Sink>(&mut self, bytes: &[u8], out: &mut W) -> Result<(), Failed>
        ensures ok { OnOk result (Flows (W.told out.old) (W.told out.new) (self.old ++ bytes.now) self.new) }
        ensures pieces { OnOk result (InPieces (length self.old + length bytes.now) (length self.new)) }
        ensures err { OnErr result (AppendsProper (W.told out.old) (W.told out.new) (self.old ++ bytes.now)) }
        ensures cause { HasCause (W.faults out.old) (W.faults out.new) result }
    {
        for byte in bytes {
            self.put(*byte, out)?;
        }
        Ok(())
    }

    /// Adds two digits for each byte.
    pub(crate) fn put_hex<W: Sink>(&mut self, bytes: &[u8], out: &mut W) -> Result<(), Failed>
        ensures ok { OnOk result (Flows (W.told out.old) (W.told out.new) (self.old ++ hex_of bytes.now) self.new) }
        ensures pieces { OnOk result (InPieces (length self.old + 2 * length bytes.now) (length self.new)) }
        ensures err { OnErr result (AppendsProper (W.told out.old) (W.told out.new) (self.old ++ hex_of bytes.now)) }
        ensures cause { HasCause (W.faults out.old) (W.faults out.new) result }
    {
        for byte in bytes {
            self.put_all(&hex_pair(*byte), out)?;
        }
        Ok(())
    }
}
