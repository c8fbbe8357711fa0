ghost use Rattle.std.specs.Prelude.{◌≡◌, [], map, Some, option_map, string_bytes};
ghost use Rattle.relay_command.specs.Arguments.{Free, settled_as};
ghost use Rattle.relay_command.specs.Told.{told};
ghost use Rattle.relay_command.specs.Founds.{once, with_value, with_piece, command_after};

use crate::piece::{Flag, Piece};
use crate::value::{mode_of, net_of, number_within};
use crate::{Command, Mode, Net};

/// The greatest number of turns and rounds that arguments may name.
const MOST_TURNS: u64 = 999_999_999_999_999_999;

/// How many turns and rounds there are at most where no argument says it.
const TURNS: u64 = 1_000_000_000;

/// How many bytes a read of the network in memory gives at most, where no argument says less.
const CUT: u64 = 4096;

/// What arguments have said so far.
#[derive(Clone, Copy)]
pub(crate) struct Found<'a> {
    mode: Option<Mode>,
    net: Option<Net>,
    turns: Option<u64>,
    cut: Option<u64>,
    script: Option<&'a str>,
}

/// The value, where none was said before.
fn once<T: Drop>(before: &Option<T>, value: Option<T>) -> Option<T>
    ensures { result ≡ once before.now value }
{
    match before {
        None => value,
        Some(_) => None,
    }
}

/// The command, where it is one by what it loads. A load runs over the network in memory.
fn settled(command: Command<'_>) -> Option<Command<'_>>
    ensures { option_map told result ≡ settled_as command.entry.mode (told command.entry) }
{
    match command.mode {
        Mode::Load => {
            command.clients()?;
            Some(Command {
                net: Net::Loop,
                ..command
            })
        }
        _ => Some(command),
    }
}

impl<'a> Found<'a> {
    /// Nothing was said.
    pub(crate) fn new() -> Found<'a>
        ensures { result ≡ record { mode = None; net = None; turns = None; cut = None; script = None } }
    {
        Found {
            mode: None,
            net: None,
            turns: None,
            cut: None,
            script: None,
        }
    }

    /// With an option's value.
    fn with_value(self, flag: Flag, value: &[u8]) -> Option<Found<'a>>
        ensures { result ≡ with_value self.entry flag value.now }
    {
        match flag {
            Flag::Mode => {
                let mode = once(&self.mode, mode_of(value))?;
                Some(Found {
                    mode: Some(mode),
                    ..self
                })
            }
            Flag::Net => {
                let net = once(&self.net, net_of(value))?;
                Some(Found {
                    net: Some(net),
                    ..self
                })
            }
            Flag::Turns => {
                let turns = once(&self.turns, number_within(1, MOST_TURNS, value))?;
                Some(Found {
                    turns: Some(turns),
                    ..self
                })
            }
            Flag::Cut => {
                let cut = once(&self.cut, number_within(1, CUT, value))?;
                Some(Found {
                    cut: Some(cut),
                    ..self
                })
            }
        }
    }

    /// With what a piece says; nothing where it was said before, or is wrong.
    pub(crate) fn with(self, piece: Piece<'a>) -> Option<Found<'a>>
        ensures { result ≡ with_piece self.entry piece.entry }
    {
        match piece {
            Piece::Value(flag, value) => self.with_value(flag, value),
            Piece::Free(arg) => {
                let script = once(&self.script, Some(arg))?;
                Some(Found {
                    script: Some(script),
                    ..self
                })
            }
        }
    }

    /// The command that was found.
    pub(crate) fn command(self) -> Option<Command<'a>>
        ensures { option_map told result ≡ command_after self.entry [] }
    {
        settled(Command {
            mode: self.mode.unwrap_or(Mode::Run),
            net: self.net.unwrap_or(Net::Real),
            turns: self.turns.unwrap_or(TURNS),
            cut: self.cut.unwrap_or(CUT),
            script: self.script?,
        })
    }

    /// The command, where all these arguments are free.
    pub(crate) fn command_with(self, args: &'a [String]) -> Option<Command<'a>>
        ensures { option_map told result ≡ command_after self.entry (map Free (map string_bytes args.now)) }
    {
        match args {
            [] => self.command(),
            [arg] => self.with(Piece::Free(arg.as_str()))?.command(),
            _ => None,
        }
    }
}
