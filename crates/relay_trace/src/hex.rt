ghost use Rattle.std.specs.Prelude.{◌≡◌, ◌<◌, ◌∷◌, []};
ghost use Rattle.relay_trace.specs.Lines.{hex_digit, hex_of};

fn digit(n: u8) -> u8
    requires { n < 16 }
    ensures { result ≡ hex_digit n }
{
    if n < 10 { b'0' + n } else { b'a' - 10 + n }
}

/// A byte in two digits.
pub(crate) fn hex_pair(byte: u8) -> [u8; 2]
    ensures { result ≡ hex_of (byte ∷ []) }
{
    [digit(byte / 16), digit(byte % 16)]
}
