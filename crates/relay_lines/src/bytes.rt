ghost use Rattle.std.specs.Prelude.{◌≡◌, ◌≤◌, length, MatchOption};
ghost use Rattle.std.specs.List.{list_all, prefix_len};
ghost use Rattle.dill_script.specs.Lines.{is_blank, is_line_byte, has_tokens};
ghost use Rattle.relay_lines.specs.Cutting.{begins_token, ends_token, Starts, IsBare};

/// Whether each byte may stand in a line: TAB, and bytes 20 to 7e.
pub fn is_line(line: &[u8]) -> bool
    ensures { result ≡ list_all is_line_byte line.now }
{
    line.iter()
        .all(|byte| *byte == b'\t' || (b' ' <= *byte && *byte <= b'~'))
}

/// A space or a TAB.
pub(crate) fn is_blank(byte: u8) -> bool
    ensures { result ≡ is_blank byte }
{
    byte == b' ' || byte == b'\t'
}

/// How many blanks stand at the front.
fn blank_length(bytes: &[u8]) -> usize
    ensures run { result ≡ prefix_len is_blank bytes.now }
    ensures within { result ≤ length bytes.now }
{
    bytes.iter().take_while(|byte| is_blank(**byte)).count()
}

/// Whether nothing or a blank stands at the front.
pub(crate) fn ends_token(bytes: &[u8]) -> bool
    ensures { result ≡ ends_token bytes.now }
{
    match bytes.first() {
        Some(byte) => is_blank(*byte),
        None => true,
    }
}

/// Whether something stands at the front that is no blank and starts no comment.
fn begins_token(bytes: &[u8]) -> bool
    ensures { result ≡ begins_token bytes.now }
{
    match bytes.first() {
        Some(byte) => !is_blank(*byte) && *byte != b'#',
        None => false,
    }
}

/// The line from its first token on; none where it has no token.
pub(crate) fn first_token(line: &[u8]) -> Option<&[u8]>
    ensures { MatchOption result (IsBare line.now) (λ rest. Starts line.now rest.now) }
{
    let rest = &line[blank_length(line)..];
    if begins_token(rest) { Some(rest) } else { None }
}

/// Whether the line has a token: something that starts no comment stands behind its blanks.
pub fn has_tokens(line: &[u8]) -> bool
    ensures { result ≡ has_tokens line.now }
{
    first_token(line).is_some()
}
