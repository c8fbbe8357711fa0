ghost use Rattle.std.specs.Prelude.{◌≡◌, ◌≤◌, ◌-◌, length};
ghost use Rattle.std.specs.List.{prefix_len, suffix_len, list_all};
ghost use Rattle.dill_http.specs.Bytes.{is_inner, is_blank, is_token_byte, is_resource_byte, is_text_byte, is_token, is_resource, is_text, is_bare, begins_with, ends_with};

/// Neither CR nor LF.
pub fn is_inner_byte(byte: u8) -> bool
    ensures { result ≡ is_inner byte }
{
    byte != b'\r' && byte != b'\n'
}

/// Space or TAB.
pub fn is_blank_byte(byte: u8) -> bool
    ensures { result ≡ is_blank byte }
{
    byte == b' ' || byte == b'\t'
}

/// A byte of a token: RFC 9110, section 5.6.2.
#[tactic(auto, unfolding(crate::specs::Bytes::is_token_byte))]
pub fn is_token_byte(byte: u8) -> bool
    ensures { result ≡ is_token_byte byte }
{
    byte.is_ascii_alphanumeric() || b"!#$%&'*+-.^_`|~".contains(&byte)
}

/// A byte of a resource: one that is seen, in ASCII.
pub fn is_resource_byte(byte: u8) -> bool
    ensures { result ≡ is_resource_byte byte }
{
    b'!' <= byte && byte <= b'~'
}

/// A byte of a value or a reason: RFC 9110, section 5.5, and RFC 9112, section 4.
pub fn is_text_byte(byte: u8) -> bool
    ensures { result ≡ is_text_byte byte }
{
    byte == b'\t' || (b' ' <= byte && byte != 0x7f)
}

/// How many bytes stand before the first CR or LF.
pub fn inner_length(bytes: &[u8]) -> usize
    ensures run { result ≡ prefix_len is_inner bytes.now }
    ensures within { result ≤ length bytes.now }
{
    bytes
        .iter()
        .take_while(|byte| is_inner_byte(**byte))
        .count()
}

/// How many bytes of a token stand at the front.
pub fn token_length(bytes: &[u8]) -> usize
    ensures run { result ≡ prefix_len is_token_byte bytes.now }
    ensures within { result ≤ length bytes.now }
{
    bytes
        .iter()
        .take_while(|byte| is_token_byte(**byte))
        .count()
}

/// How many bytes of a resource stand at the front.
pub fn resource_length(bytes: &[u8]) -> usize
    ensures run { result ≡ prefix_len is_resource_byte bytes.now }
    ensures within { result ≤ length bytes.now }
{
    bytes
        .iter()
        .take_while(|byte| is_resource_byte(**byte))
        .count()
}

/// How many blanks stand at the front.
pub fn blank_length(bytes: &[u8]) -> usize
    ensures run { result ≡ prefix_len is_blank bytes.now }
    ensures within { result ≤ length bytes.now }
{
    bytes
        .iter()
        .take_while(|byte| is_blank_byte(**byte))
        .count()
}

/// How long the bytes are without the blanks at their end.
pub fn bare_length(bytes: &[u8]) -> usize
    ensures bare { result ≡ length bytes.now - suffix_len is_blank bytes.now }
    ensures within { result ≤ length bytes.now }
{
    let mut end = bytes.len();
    while 0 < end && is_blank_byte(bytes[end - 1]) {
        end -= 1;
    }
    end
}

fn are_token_bytes(bytes: &[u8]) -> bool
    ensures { result ≡ list_all is_token_byte bytes.now }
{
    bytes.iter().all(|byte| is_token_byte(*byte))
}

fn are_resource_bytes(bytes: &[u8]) -> bool
    ensures { result ≡ list_all is_resource_byte bytes.now }
{
    bytes.iter().all(|byte| is_resource_byte(*byte))
}

/// One or more bytes of a token.
pub fn is_token(bytes: &[u8]) -> bool
    ensures { result ≡ is_token bytes.now }
{
    !bytes.is_empty() && are_token_bytes(bytes)
}

/// One or more bytes of a resource.
pub fn is_resource(bytes: &[u8]) -> bool
    ensures { result ≡ is_resource bytes.now }
{
    !bytes.is_empty() && are_resource_bytes(bytes)
}

/// Bytes of a value or a reason, maybe none.
pub fn is_text(bytes: &[u8]) -> bool
    ensures { result ≡ is_text bytes.now }
{
    bytes.iter().all(|byte| is_text_byte(*byte))
}

fn begins_blank(bytes: &[u8]) -> bool
    ensures { result ≡ begins_with is_blank bytes.now }
{
    match bytes.first() {
        Some(byte) => is_blank_byte(*byte),
        None => false,
    }
}

#[tactic(auto, using(crate::proofs::Ends::ends_at))]
fn ends_blank(bytes: &[u8]) -> bool
    ensures { result ≡ ends_with is_blank bytes.now }
{
    match bytes.last() {
        Some(byte) => is_blank_byte(*byte),
        None => false,
    }
}

/// No blank stands at either end.
pub fn is_bare(bytes: &[u8]) -> bool
    ensures { result ≡ is_bare bytes.now }
{
    !begins_blank(bytes) && !ends_blank(bytes)
}
