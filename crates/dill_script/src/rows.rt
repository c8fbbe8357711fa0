ghost use Rattle.dill_script.specs.RowsReading.{FirstLineRows, CanonicalRows};
ghost use Rattle.dill_script.specs.RowsRefused.{LimitRows, TokenRows, PlaceRows, LastRows, OperandRows, WholeRows, ByteRows, ReadRows, BuiltRows};
ghost use Rattle.dill_script.specs.RowsScripts.{ScriptRows, ChannelRows, RelayRows, FormRows};

/// First lines that are refused.
pub fn first_line_rows()
    ensures { FirstLineRows }
{}

/// A text and its canonical text.
pub fn canonical_rows()
    ensures { CanonicalRows }
{}

/// Small scripts.
pub fn script_rows()
    ensures { ScriptRows }
{}

/// Scripts of channels and detaches.
pub fn channel_rows()
    ensures { ChannelRows }
{}

/// The load and the relay.
pub fn relay_rows()
    ensures { RelayRows }
{}

/// Each form.
pub fn form_rows()
    ensures { FormRows }
{}

/// Bytes and words.
pub fn token_rows()
    ensures { TokenRows }
{}

/// Lines in a wrong place.
pub fn place_rows()
    ensures { PlaceRows }
{}

/// Last lines.
pub fn last_rows()
    ensures { LastRows }
{}

/// Operands.
pub fn operand_rows()
    ensures { OperandRows }
{}

/// Versions, names and limits.
pub fn whole_rows()
    ensures { WholeRows }
{}

/// Bytes that may not stand in a line.
pub fn byte_rows()
    ensures { ByteRows }
{}

/// Texts that are read.
pub fn read_rows()
    ensures { ReadRows }
{}

/// Calls that are not built.
pub fn built_rows()
    ensures { BuiltRows }
{}

/// Limits that take long texts to reach.
pub fn limit_rows()
    ensures { LimitRows }
{}
