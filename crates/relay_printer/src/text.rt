ghost use Rattle.std.specs.Prelude.{◌≡◌, ◌<◌, ◌++◌, ◌∷◌, [], flat_map, OnOk};
ghost use Rattle.dill_script.specs.Printing.{hex_digit as hex_letter, byte_text, token_text};
ghost use Rattle.dill_script.specs.Tokens.{Text};

use dill_base::{NoMemory, Octets};

/// A lower-case digit of base 16.
fn hex_digit(value: u8) -> u8
    requires { value < 16 }
    ensures { result ≡ hex_letter value }
{
    b"0123456789abcdef"[value as usize]
}

/// Adds a byte as a text writes it.
fn put_byte(out: &mut Octets, byte: u8) -> Result<(), NoMemory>
    ensures { OnOk result (out.new ≡ out.old ++ byte_text byte) }
{
    match byte {
        b'"' => out.push_all(b"\\\""),
        b'\\' => out.push_all(b"\\\\"),
        b'\n' => out.push_all(b"\\n"),
        b'\r' => out.push_all(b"\\r"),
        b'\t' => out.push_all(b"\\t"),
        32..=126 => out.push_all(&[byte]),
        _ => out.push_all(&[b'\\', b'x', hex_digit(byte / 16), hex_digit(byte % 16)]),
    }
}

fn put_escaped(out: &mut Octets, text: &[u8]) -> Result<(), NoMemory>
    ensures { OnOk result (out.new ≡ out.old ++ flat_map byte_text text.now) }
{
    for byte in text {
        put_byte(out, *byte)?;
    }
    Ok(())
}

/// Adds a text in quotes.
pub(crate) fn put_text(out: &mut Octets, text: &[u8]) -> Result<(), NoMemory>
    ensures { OnOk result (out.new ≡ out.old ++ token_text (Text text.now)) }
{
    out.push_all(b"\"")?;
    put_escaped(out, text)?;
    out.push_all(b"\"")
}
