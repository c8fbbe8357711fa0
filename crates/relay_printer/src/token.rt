ghost use Rattle.std.specs.Prelude.{◌≡◌, ◌++◌, ◌∷◌, [], map, decimal, OnOk};
ghost use Rattle.std.specs.List.{join_with_byte};
ghost use Rattle.dill_script.specs.Printing.{number_register_text, bytes_register_text, num_text, bytes_token, wait_text, address_text, token_text};

use crate::text::put_text;
use dill_base::{Address, NoMemory, Octets};
use dill_script::{Bytes, Num, Wait};
use itoa::Buffer;

/// Adds a number in decimal.
pub(crate) fn put_decimal(out: &mut Octets, value: u64) -> Result<(), NoMemory>
    ensures { OnOk result (out.new ≡ out.old ++ decimal value) }
{
    let mut buffer = Buffer::new();
    out.push_all(buffer.format(value).as_bytes())
}

/// Adds a number register.
pub(crate) fn put_number_register(out: &mut Octets, place: u8) -> Result<(), NoMemory>
    ensures { OnOk result (out.new ≡ out.old ++ number_register_text place) }
{
    out.push_all(b"n")?;
    put_decimal(out, u64::from(place))
}

/// Adds a byte register.
pub(crate) fn put_bytes_register(out: &mut Octets, place: u8) -> Result<(), NoMemory>
    ensures { OnOk result (out.new ≡ out.old ++ bytes_register_text place) }
{
    out.push_all(b"b")?;
    put_decimal(out, u64::from(place))
}

pub(crate) fn put_num(out: &mut Octets, num: Num) -> Result<(), NoMemory>
    ensures { OnOk result (out.new ≡ out.old ++ num_text num) }
{
    match num {
        Num::Literal(value) => put_decimal(out, value),
        Num::Register(place) => put_number_register(out, place),
    }
}

pub(crate) fn put_bytes(out: &mut Octets, bytes: &Bytes) -> Result<(), NoMemory>
    ensures { OnOk result (out.new ≡ out.old ++ token_text (bytes_token bytes.now)) }
{
    match bytes {
        Bytes::Literal(text) => put_text(out, text.as_slice()),
        Bytes::Register(place) => put_bytes_register(out, *place),
    }
}

pub(crate) fn put_wait(out: &mut Octets, wait: Wait) -> Result<(), NoMemory>
    ensures { OnOk result (out.new ≡ out.old ++ wait_text wait) }
{
    match wait {
        Wait::Never => out.push_all(b"-1"),
        Wait::At(moment) => put_num(out, moment),
        Wait::After(span) => {
            out.push_all(b"+")?;
            put_num(out, span)
        }
    }
}

/// Adds a byte of an address that others follow, with the dot before the next.
fn put_dotted(out: &mut Octets, part: u8) -> Result<(), NoMemory>
    ensures { OnOk result (out.new ≡ out.old ++ (decimal part ++ 46 ∷ [])) }
{
    put_decimal(out, u64::from(part))?;
    out.push_all(b".")
}

fn put_ip(out: &mut Octets, ip: [u8; 4]) -> Result<(), NoMemory>
    ensures { OnOk result (out.new ≡ out.old ++ join_with_byte 46 (map decimal ip)) }
{
    let [first, second, third, last] = ip;
    put_dotted(out, first)?;
    put_dotted(out, second)?;
    put_dotted(out, third)?;
    put_decimal(out, u64::from(last))
}

pub(crate) fn put_address(out: &mut Octets, address: Address) -> Result<(), NoMemory>
    ensures { OnOk result (out.new ≡ out.old ++ address_text address) }
{
    put_ip(out, address.ip)?;
    out.push_all(b":")?;
    put_decimal(out, u64::from(address.port))
}
