ghost use Rattle.std.specs.Prelude.{◌≡◌};
ghost use Rattle.relay_command.specs.Arguments.{mode_of, net_of, number_within};

use crate::{Mode, Net};
use relay_lines::number_up_to;

/// A mode by its name.
pub(crate) fn mode_of(arg: &[u8]) -> Option<Mode>
    ensures { result ≡ mode_of arg.now }
{
    match arg {
        b"run" => Some(Mode::Run),
        b"trace" => Some(Mode::Trace),
        b"check" => Some(Mode::Check),
        b"load" => Some(Mode::Load),
        _ => None,
    }
}

/// A network by its name.
pub(crate) fn net_of(arg: &[u8]) -> Option<Net>
    ensures { result ≡ net_of arg.now }
{
    match arg {
        b"real" => Some(Net::Real),
        b"loop" => Some(Net::Loop),
        _ => None,
    }
}

/// A number from the least to the greatest.
pub(crate) fn number_within(least: u64, greatest: u64, arg: &[u8]) -> Option<u64>
    ensures { result ≡ number_within least greatest arg.now }
{
    let number = number_up_to(greatest, arg)?;
    if least <= number { Some(number) } else { None }
}
