ghost use Rattle.std.specs.Prelude.{◌≡◌, ◌≤◌, ◌∷◌, ◌++◌, [], length, map, false, None, find, bytes_eq, codes, string_bytes, option_map, IfSome, MatchOption};
ghost use Rattle.dill_base.specs.Maps.{first_some};
ghost use Rattle.relay_command.specs.Arguments.{options, joined, pieces, behind, ends_options};
ghost use Rattle.relay_command.specs.Told.{flag_text, piece_in, alone};

/// Which option.
#[derive(Clone, Copy)]
pub(crate) enum Flag {
    Mode,
    Net,
    Turns,
    Cut,
}

/// What arguments say: an option's value, or an argument that is none.
#[derive(Clone, Copy)]
pub(crate) enum Piece<'a> {
    Value(Flag, &'a [u8]),
    Free(&'a str),
}

/// The option that an argument is by itself.
fn flag_named(arg: &[u8]) -> Option<Flag>
    ensures { option_map flag_text result ≡ find (bytes_eq arg.now) options }
{
    match arg {
        b"--mode" => Some(Flag::Mode),
        b"--net" => Some(Flag::Net),
        b"--turns" => Some(Flag::Turns),
        b"--cut" => Some(Flag::Cut),
        _ => None,
    }
}

/// An option's name and the sign behind it.
fn flag_equals(flag: Flag) -> &'static [u8]
    ensures { result.now ≡ flag_text flag ++ codes "=" }
{
    match flag {
        Flag::Mode => b"--mode=",
        Flag::Net => b"--net=",
        Flag::Turns => b"--turns=",
        Flag::Cut => b"--cut=",
    }
}

/// The option's value that is joined to it by `=`.
fn joined(arg: &[u8], flag: Flag) -> Option<Piece<'_>>
    ensures { option_map piece_in result ≡ joined arg.now (flag_text flag) }
{
    let value = arg.strip_prefix(flag_equals(flag))?;
    Some(Piece::Value(flag, value))
}

/// The value of any option that is joined to it by `=`.
fn any_joined(arg: &[u8]) -> Option<Piece<'_>>
    ensures { option_map piece_in result ≡ first_some (joined arg.now) options }
{
    joined(arg, Flag::Mode)
        .or_else(|| joined(arg, Flag::Net))
        .or_else(|| joined(arg, Flag::Turns))
        .or_else(|| joined(arg, Flag::Cut))
}

/// What an argument says, where it is no option by itself; nothing where it begins with `-` and no option's value is joined.
fn alone(arg: &str) -> Option<Piece<'_>>
    ensures { option_map piece_in result ≡ alone arg.now }
{
    let bytes = arg.as_bytes();
    if let Some(piece) = any_joined(bytes) {
        return Some(piece);
    }
    if bytes.starts_with(b"-") {
        return None;
    }
    Some(Piece::Free(arg))
}

/// What an argument says that isn't `--`, with the argument behind it where it is an option by itself, and the arguments that are left.
pub(crate) fn first_piece<'a>(arg: &'a str, rest: &'a [String]) -> Option<(Piece<'a>, &'a [String])>
    requires { ends_options arg.now ≡ false }
    ensures piece { MatchOption result (pieces (arg.now ∷ map string_bytes rest.now) ≡ None)
        (λ t. pieces (arg.now ∷ map string_bytes rest.now) ≡ behind (piece_in t.0) (pieces (map string_bytes t.1.now))) }
    ensures fewer { IfSome result (λ t. length t.1.now ≤ length rest.now) }
{
    match flag_named(arg.as_bytes()) {
        Some(flag) => {
            let (value, left) = rest.split_first()?;
            Some((Piece::Value(flag, value.as_bytes()), left))
        }
        None => Some((alone(arg)?, rest)),
    }
}
