ghost use Rattle.std.specs.Prelude.{◌≡◌, ◌+◌, ◌*◌, ◌++◌, length, OnOk, OnErr};
ghost use Rattle.std.specs.Io.KnownBytes.{Appends};
ghost use Rattle.dill_base.specs.Causes.{HasCause};
ghost use Rattle.relay_trace.specs.Flows.{AppendsProper, Flows, InPieces};
ghost use Rattle.relay_trace.specs.Lines.{line as ended, hex_of};

use crate::piece::Piece;
use dill_base::{Failed, Sink};

/// Adds the LF and writes what is left.
fn end_line<W: Sink>(piece: &mut Piece, out: &mut W) -> Result<(), Failed>
    ensures ok { OnOk result (Appends (W.told out.old) (W.told out.new) (ended piece.old)) }
    ensures err { OnErr result (AppendsProper (W.told out.old) (W.told out.new) (ended piece.old)) }
    ensures cause { HasCause (W.faults out.old) (W.faults out.new) result }
{
    piece.put(b'\n', out)?;
    piece.flush(out)
}

/// Writes a line, whose LF it adds, in pieces of 4,096 bytes.
pub fn write_line<W: Sink>(line: &[u8], out: &mut W) -> Result<(), Failed>
    ensures ok { OnOk result (Appends (W.told out.old) (W.told out.new) (ended line.now)) }
    ensures err { OnErr result (AppendsProper (W.told out.old) (W.told out.new) (ended line.now)) }
    ensures cause { HasCause (W.faults out.old) (W.faults out.new) result }
{
    let mut piece = Piece::new();
    piece.put_all(line, out)?;
    end_line(&mut piece, out)
}

/// Fills in a text, bytes in hexadecimal, a second text and bytes again.
fn put_parts<W: Sink>(
    piece: &mut Piece,
    head: &[u8],
    first: &[u8],
    middle: &[u8],
    second: &[u8],
    out: &mut W,
) -> Result<(), Failed>
    ensures ok { OnOk result (Flows (W.told out.old) (W.told out.new) (piece.old ++ head.now ++ hex_of first.now ++ middle.now ++ hex_of second.now) piece.new) }
    ensures pieces { OnOk result (InPieces (length piece.old + length head.now + 2 * length first.now + length middle.now + 2 * length second.now) (length piece.new)) }
    ensures err { OnErr result (AppendsProper (W.told out.old) (W.told out.new) (piece.old ++ head.now ++ hex_of first.now ++ middle.now ++ hex_of second.now)) }
    ensures cause { HasCause (W.faults out.old) (W.faults out.new) result }
{
    piece.put_all(head, out)?;
    piece.put_hex(first, out)?;
    piece.put_all(middle, out)?;
    piece.put_hex(second, out)
}

/// Writes a line of a text, bytes in hexadecimal, a second text and bytes again, in pieces of 4,096 bytes.
pub fn write_hex_line<W: Sink>(
    head: &[u8],
    first: &[u8],
    middle: &[u8],
    second: &[u8],
    out: &mut W,
) -> Result<(), Failed>
    ensures ok { OnOk result (Appends (W.told out.old) (W.told out.new) (ended (head.now ++ hex_of first.now ++ middle.now ++ hex_of second.now))) }
    ensures err { OnErr result (AppendsProper (W.told out.old) (W.told out.new) (ended (head.now ++ hex_of first.now ++ middle.now ++ hex_of second.now))) }
    ensures cause { HasCause (W.faults out.old) (W.faults out.new) result }
{
    let mut piece = Piece::new();
    put_parts(&mut piece, head, first, middle, second, out)?;
    end_line(&mut piece, out)
}
