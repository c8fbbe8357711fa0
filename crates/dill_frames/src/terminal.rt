ghost use Rattle.std.specs.Prelude.{◌≡◌, ◌↔◌, IsTrue};
ghost use Rattle.std.specs.Str.{bytes_eq};

/// Whether a message of the layer below is the terminal message, with which the direction has its end.
pub fn is_terminal(terminal: &[u8], message: &[u8]) -> bool
    ensures test { result ≡ bytes_eq message.now terminal.now }
    ensures same { IsTrue result ↔ (message.now ≡ terminal.now) }
{
    message == terminal
}
