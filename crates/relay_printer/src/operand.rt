ghost use Rattle.std.specs.Prelude.{◌≡◌, ◌++◌, flat_map, OnOk};
ghost use Rattle.dill_script.specs.declared.form.Operand.TheVariants.{Give, Send, Recv};
ghost use Rattle.dill_script.specs.Operands.{order_text, mode_text, role_text};
ghost use Rattle.dill_script.specs.Printing.{operand_tokens};
ghost use Rattle.relay_printer.specs.Pieces.{joined, operand_text};

use crate::token::{put_address, put_bytes, put_num, put_number_register, put_wait};
use dill_base::{NoMemory, Octets};
use dill_script::{Bytes, Mode, Num, Operand, Order, Role};

fn order_name(order: Order) -> &'static [u8]
    ensures { result.now ≡ order_text order }
{
    match order {
        Order::Big => b"big",
        Order::Little => b"little",
    }
}

fn mode_name(mode: Mode) -> &'static [u8]
    ensures { result.now ≡ mode_text mode }
{
    match mode {
        Mode::Text => b"text",
        Mode::Binary => b"binary",
    }
}

fn role_name(role: Role) -> &'static [u8]
    ensures { result.now ≡ role_text role }
{
    match role {
        Role::Client => b"client",
        Role::Server => b"server",
    }
}

fn put_give(out: &mut Octets, place: u8) -> Result<(), NoMemory>
    ensures { OnOk result (out.new ≡ out.old ++ joined (operand_tokens (Give place))) }
{
    out.push_all(b"give ")?;
    put_number_register(out, place)
}

fn put_send(out: &mut Octets, end: Num, item: &Bytes) -> Result<(), NoMemory>
    ensures { OnOk result (out.new ≡ out.old ++ joined (operand_tokens (Send end item.now))) }
{
    out.push_all(b"send ")?;
    put_num(out, end)?;
    out.push_all(b" ")?;
    put_bytes(out, item)
}

fn put_recv(out: &mut Octets, end: Num, size: Num) -> Result<(), NoMemory>
    ensures { OnOk result (out.new ≡ out.old ++ joined (operand_tokens (Recv end size))) }
{
    out.push_all(b"recv ")?;
    put_num(out, end)?;
    out.push_all(b" ")?;
    put_num(out, size)
}

fn put_operand(out: &mut Octets, operand: &Operand) -> Result<(), NoMemory>
    ensures { OnOk result (out.new ≡ out.old ++ joined (operand_tokens operand.now)) }
{
    match operand {
        Operand::Num(value) => put_num(out, *value),
        Operand::Bytes(value) => put_bytes(out, value),
        Operand::Wait(value) => put_wait(out, *value),
        Operand::Address(value) => put_address(out, *value),
        Operand::Program(name) => out.push_all(name.as_slice()),
        Operand::Order(value) => out.push_all(order_name(*value)),
        Operand::Mode(value) => out.push_all(mode_name(*value)),
        Operand::Role(value) => out.push_all(role_name(*value)),
        Operand::Give(place) => put_give(out, *place),
        Operand::Send(end, item) => put_send(out, *end, item),
        Operand::Recv(end, size) => put_recv(out, *end, *size),
    }
}

/// Adds the operands of a call, a space before each.
pub(crate) fn put_operands(out: &mut Octets, operands: &[Operand]) -> Result<(), NoMemory>
    ensures { OnOk result (out.new ≡ out.old ++ flat_map operand_text operands.now) }
{
    for operand in operands {
        out.push_all(b" ")?;
        put_operand(out, operand)?;
    }
    Ok(())
}
