ghost use Rattle.std.specs.Prelude.{◌≡◌, ◌≤◌, map, option_map, string_bytes, IfSome, IsSome};
ghost use Rattle.relay_command.specs.Arguments.{number_within, pieces, command_of};
ghost use Rattle.relay_command.specs.Told.{told};
ghost use Rattle.relay_command.specs.Founds.{command_left};

use crate::found::Found;
use crate::piece::first_piece;
use crate::{Command, Mode};

/// The command that arguments are behind those that were found.
fn command_behind<'a>(found: Found<'a>, args: &'a [String]) -> Option<Command<'a>>
    ensures { option_map told result ≡ command_left found.entry (pieces (map string_bytes args.now)) }
{
    let Some((arg, rest)) = args.split_first() else {
        return found.command();
    };
    if arg.as_bytes() == b"--".as_slice() {
        return found.command_with(rest);
    }
    let (piece, left) = first_piece(arg.as_str(), rest)?;
    command_behind(found.with(piece)?, left)
}

/// The command that the arguments behind the program's name are.
///
/// Each of `--mode run|trace|check|load`, `--net real|loop`, `--turns N` and `--cut N` may stand once, its value behind
/// it or joined to it by `=`, before or behind the one argument that names the script; behind `--` no argument is an option.
/// A load names its clients there, and runs over the network in memory.
pub fn command_of(args: &[String]) -> Option<Command<'_>>
    ensures command { option_map told result ≡ command_of (map string_bytes args.now) }
    ensures turns { IfSome result (λ c. (1 ≤ c.turns) × (c.turns ≤ 999999999999999999)) }
    ensures cut { IfSome result (λ c. (1 ≤ c.cut) × (c.cut ≤ 4096)) }
    ensures load { IfSome result (λ c. c.mode ≡ Mode.Load → IsSome (number_within 1 10000 c.script.now)) }
{
    command_behind(Found::new(), args)
}
