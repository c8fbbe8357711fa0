ghost use Rattle.std.specs.Prelude.{◌≡◌, ◌<◌, ◌∷◌, List, ℕ, length};
ghost use Rattle.dill_script.specs.Lines.{lines_of, pieces, without_cr};

/// What stands before the first LF and behind it, or all and nothing.
fn split_piece(bytes: &[u8]) -> (&[u8], &[u8])
    requires { 0 < length bytes.now }
    ensures pieces { pieces bytes.now ≡ result.0.now ∷ pieces result.1.now }
    ensures shorter { length result.1.now < length bytes.now }
{
    for (i, byte) in bytes.iter().enumerate() {
        if *byte == b'\n' {
            return (&bytes[..i], &bytes[i + 1..]);
        }
    }
    (bytes, &bytes[bytes.len()..])
}

fn without_return(line: &[u8]) -> &[u8]
    ensures { result.now ≡ without_cr line.now }
{
    if line.is_empty() {
        return line;
    }
    let front = line.len() - 1;
    if line[front] == b'\r' {
        return &line[..front];
    }
    line
}

/// The first line of a text, and the text behind it.
pub(crate) fn split_line(bytes: &[u8]) -> (&[u8], &[u8])
    requires { 0 < length bytes.now }
    ensures lines { lines_of bytes.now ≡ result.0.now ∷ lines_of result.1.now }
    ensures shorter { length result.1.now < length bytes.now }
{
    let (piece, rest) = split_piece(bytes);
    (without_return(piece), rest)
}
