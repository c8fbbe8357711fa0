ghost use Rattle.std.specs.Prelude.{◌≡◌};
ghost use Rattle.dill_script.specs.Reasons.{reason_text};

/// Why a script is refused, at the line that is told with it. Of one line the first reason in this order is told.
#[derive(Clone, Copy, Debug, PartialEq, Eq)]
pub enum Reason {
    /// The first line with tokens isn't `dill 1`.
    NoVersion,
    /// A byte that may not stand in a line.
    BadByte,
    /// A text without its end, with another escape, or not followed by a blank.
    BadText,
    UnknownWord,
    /// The form isn't built yet.
    NotBuilt,
    /// A line in a wrong place, or a block that isn't ended.
    BadBlock,
    /// A wrong number or form of operands.
    BadOperand,
    /// A program's name for the second time.
    RepeatedName,
    /// One of the limits on bytes, programs, places, loops and blocks is passed.
    TooLarge,
    /// It starts a program that isn't there, or with another number of arguments.
    NoProgram,
    NoMain,
}

impl Reason {
    /// Its words, as `no version`.
    pub fn text(self) -> &'static str
        ensures { result.now ≡ reason_text self }
    {
        match self {
            Reason::NoVersion => "no version",
            Reason::BadByte => "bad byte",
            Reason::BadText => "bad text",
            Reason::UnknownWord => "unknown word",
            Reason::NotBuilt => "not built",
            Reason::BadBlock => "bad block",
            Reason::BadOperand => "bad operand",
            Reason::RepeatedName => "repeated name",
            Reason::TooLarge => "too large",
            Reason::NoProgram => "no program",
            Reason::NoMain => "no main",
        }
    }
}

/// A script that was not read: at a line, counted from 1, or for want of memory.
#[derive(Clone, Copy, Debug, PartialEq, Eq)]
pub enum Refusal {
    At { line: u32, reason: Reason },
    NoMemory,
}
