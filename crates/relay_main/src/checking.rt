ghost use Rattle.std.specs.Prelude.{◌≡◌, ◌<◌, ◌++◌, length, min, OnOk, OnErr};
ghost use Rattle.std.specs.Io.KnownBytes.{Appends};
ghost use Rattle.dill_base.specs.Causes.{HasCause};
ghost use Rattle.dill_base.specs.Sinks.{AppendsPart};
ghost use Rattle.relay_main.specs.Checking.{Checks, PrintsWhole};

use crate::reading::{ReadFault, read_all};
use crate::saying::{refuse, say, say_not_read, say_want};
use dill_base::{Failed, Shelf, Sink, Status};
use dill_script::Script;
use relay_printer::print_script;
use relay_reader::read_script;
use std::alloc::Global;

/// How many bytes go out at once.
const PIECE: usize = 4096;

/// The first 4,096 bytes of some, or all of them where they are fewer, and what is behind them.
fn cut_piece(bytes: &[u8]) -> (&[u8], &[u8])
    requires { 0 < length bytes.now }
    ensures whole { bytes.now ≡ result.0.now ++ result.1.now }
    ensures some { 0 < length result.0.now }
    ensures full { length result.0.now ≡ min 4096 (length bytes.now) }
    ensures less { length result.1.now < length bytes.now }
{
    bytes.split_at(PIECE.min(bytes.len()))
}

/// Writes bytes in pieces. Where a write fails, a front of them went out.
fn write_pieces<W: Sink>(bytes: &[u8], out: &mut W) -> Result<(), Failed>
    ensures ok { OnOk result (Appends (W.told out.old) (W.told out.new) bytes.now) }
    ensures err { OnErr result (AppendsPart (W.told out.old) (W.told out.new) bytes.now) }
    ensures cause { HasCause (W.faults out.old) (W.faults out.new) result }
{
    let mut rest = bytes;
    while !rest.is_empty() {
        let (piece, behind) = cut_piece(rest);
        out.write(piece)?;
        rest = behind;
    }
    Ok(())
}

/// Prints the canonical text of a script.
fn print_whole<W: Sink>(alloc: Global, script: &Script, out: &mut W, err: &mut W) -> Status
    ensures { PrintsWhole W.told W.faults script.now out.old out.new err.old err.new result }
{
    let Ok(text) = print_script(alloc, script) else {
        return say_want(err);
    };
    match write_pieces(text.as_slice(), out) {
        Ok(()) => Status::Well,
        Err(_) => {
            say(b"dillrelay: output not written", err);
            Status::Sink
        }
    }
}

/// Prints the canonical text of the script of this name. It answers the status of the program.
pub fn check_over<F: Shelf, W: Sink>(
    alloc: Global,
    name: &str,
    shelf: &mut F,
    out: &mut W,
    err: &mut W,
) -> Status
    ensures { Checks W.told W.faults (F.files shelf.old) name.now (F.faults shelf.old) (F.faults shelf.new) out.old out.new err.old err.new result }
{
    let bytes = match read_all(alloc, name, shelf) {
        Ok(bytes) => bytes,
        Err(ReadFault::Shelf) => return say_not_read(err),
        Err(ReadFault::NoMemory) => return say_want(err),
    };
    match read_script(alloc, bytes.as_slice()) {
        Ok(script) => print_whole(alloc, &script, out, err),
        Err(refusal) => refuse(refusal, err),
    }
}
