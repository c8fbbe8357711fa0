ghost use Rattle.std.specs.Prelude.{◌≡◌, ◌++◌, ◌∷◌, [], OnOk};
ghost use Rattle.dill_script.specs.declared.statement.Cond.TheVariants.{Number, Err};
ghost use Rattle.dill_script.specs.declared.statement.Statement.TheVariants.{Call, Fail, If, Len, Loop};
ghost use Rattle.dill_script.specs.Printing.{try_tokens, dest_tokens, cond_tokens, statement_tokens, number_register_text, bytes_register_text, num_text, bytes_token};
ghost use Rattle.dill_script.specs.Statements.{relation_text};
ghost use Rattle.dill_script.specs.Tokens.{Plain};
ghost use Rattle.relay_printer.specs.Pieces.{led, joined, fault_text, registers_text, statement_text};

use crate::operand::put_operands;
use crate::token::{put_bytes, put_bytes_register, put_num, put_number_register};
use dill_base::{Errno, NoMemory, Octets};
use dill_script::{Bytes, Cond, Dest, Form, Num, Relation, Statement};

fn relation_name(relation: Relation) -> &'static [u8]
    ensures { result.now ≡ relation_text relation }
{
    match relation {
        Relation::Equal => b"=",
        Relation::Unequal => b"!=",
        Relation::Less => b"<",
        Relation::AtMost => b"<=",
        Relation::Greater => b">",
        Relation::AtLeast => b">=",
    }
}

fn fault_name(errno: Option<Errno>) -> &'static [u8]
    ensures { result.now ≡ fault_text errno }
{
    match errno {
        None => b"none",
        Some(errno) => errno.name(),
    }
}

/// Adds `try` and a space, where it is there.
fn put_try(out: &mut Octets, tried: bool) -> Result<(), NoMemory>
    ensures { OnOk result (out.new ≡ out.old ++ led (try_tokens tried)) }
{
    if tried { out.push_all(b"try ") } else { Ok(()) }
}

/// Adds two registers with a space between them.
fn put_numbers(out: &mut Octets, first: u8, second: u8) -> Result<(), NoMemory>
    ensures { OnOk result (out.new ≡ out.old ++ joined (Plain (number_register_text first) ∷ Plain (number_register_text second) ∷ [])) }
{
    put_number_register(out, first)?;
    out.push_all(b" ")?;
    put_number_register(out, second)
}

fn put_texts(out: &mut Octets, first: u8, second: u8) -> Result<(), NoMemory>
    ensures { OnOk result (out.new ≡ out.old ++ joined (Plain (bytes_register_text first) ∷ Plain (bytes_register_text second) ∷ [])) }
{
    put_bytes_register(out, first)?;
    out.push_all(b" ")?;
    put_bytes_register(out, second)
}

fn put_mixed(out: &mut Octets, first: u8, second: u8) -> Result<(), NoMemory>
    ensures { OnOk result (out.new ≡ out.old ++ joined (Plain (number_register_text first) ∷ Plain (bytes_register_text second) ∷ [])) }
{
    put_number_register(out, first)?;
    out.push_all(b" ")?;
    put_bytes_register(out, second)
}

fn put_registers(out: &mut Octets, dest: Dest) -> Result<(), NoMemory>
    ensures { OnOk result (out.new ≡ out.old ++ registers_text dest) }
{
    match dest {
        Dest::Number(first) => put_number_register(out, first),
        Dest::Pair(first, second) => put_numbers(out, first, second),
        Dest::Bytes(first) => put_bytes_register(out, first),
        Dest::Two(first, second) => put_texts(out, first, second),
        Dest::Mixed(first, second) => put_mixed(out, first, second),
    }
}

/// Adds the registers that an answer is put in, `=` and a space, where there are some.
fn put_dest(out: &mut Octets, dest: Option<Dest>) -> Result<(), NoMemory>
    ensures { OnOk result (out.new ≡ out.old ++ led (dest_tokens dest)) }
{
    match dest {
        None => Ok(()),
        Some(dest) => {
            put_registers(out, dest)?;
            out.push_all(b" = ")
        }
    }
}

fn put_comparison(
    out: &mut Octets,
    place: u8,
    relation: Relation,
    value: Num,
) -> Result<(), NoMemory>
    ensures { OnOk result (out.new ≡ out.old ++ joined (cond_tokens (Number place relation value))) }
{
    put_number_register(out, place)?;
    out.push_all(b" ")?;
    out.push_all(relation_name(relation))?;
    out.push_all(b" ")?;
    put_num(out, value)
}

/// Adds a byte register, a word and bytes.
fn put_equation(out: &mut Octets, place: u8, word: &[u8], bytes: &Bytes) -> Result<(), NoMemory>
    ensures { OnOk result (out.new ≡ out.old ++ joined (Plain (bytes_register_text place) ∷ Plain word.now ∷ bytes_token bytes.now ∷ [])) }
{
    put_bytes_register(out, place)?;
    out.push_all(b" ")?;
    out.push_all(word)?;
    out.push_all(b" ")?;
    put_bytes(out, bytes)
}

fn put_fault(out: &mut Octets, errno: Option<Errno>) -> Result<(), NoMemory>
    ensures { OnOk result (out.new ≡ out.old ++ joined (cond_tokens (Err errno))) }
{
    out.push_all(b"err ")?;
    out.push_all(fault_name(errno))
}

fn put_cond(out: &mut Octets, cond: &Cond) -> Result<(), NoMemory>
    ensures { OnOk result (out.new ≡ out.old ++ joined (cond_tokens cond.now)) }
{
    match cond {
        Cond::Number(place, relation, value) => put_comparison(out, *place, *relation, *value),
        Cond::Same(place, value) => put_equation(out, *place, b"=", value),
        Cond::Differs(place, value) => put_equation(out, *place, b"!=", value),
        Cond::Err(errno) => put_fault(out, *errno),
    }
}

/// Adds a word, a number register and a number.
fn put_change(out: &mut Octets, word: &[u8], place: u8, value: Num) -> Result<(), NoMemory>
    ensures { OnOk result (out.new ≡ out.old ++ joined (Plain word.now ∷ Plain (number_register_text place) ∷ Plain (num_text value) ∷ [])) }
{
    out.push_all(word)?;
    out.push_all(b" ")?;
    put_number_register(out, place)?;
    out.push_all(b" ")?;
    put_num(out, value)
}

fn put_len(out: &mut Octets, place: u8, source: u8) -> Result<(), NoMemory>
    ensures { OnOk result (out.new ≡ out.old ++ joined (statement_tokens (Len place source))) }
{
    out.push_all(b"len ")?;
    put_mixed(out, place, source)
}

fn put_if(out: &mut Octets, cond: &Cond) -> Result<(), NoMemory>
    ensures { OnOk result (out.new ≡ out.old ++ joined (statement_tokens (If cond.now))) }
{
    out.push_all(b"if ")?;
    put_cond(out, cond)
}

fn put_loop(out: &mut Octets, rounds: Option<Num>) -> Result<(), NoMemory>
    ensures { OnOk result (out.new ≡ out.old ++ joined (statement_tokens (Loop rounds))) }
{
    match rounds {
        None => out.push_all(b"loop"),
        Some(rounds) => {
            out.push_all(b"loop ")?;
            put_num(out, rounds)
        }
    }
}

fn put_fail(out: &mut Octets, errno: Errno) -> Result<(), NoMemory>
    ensures { OnOk result (out.new ≡ out.old ++ joined (statement_tokens (Fail errno))) }
{
    out.push_all(b"fail ")?;
    out.push_all(errno.name())
}

/// Adds `try`, where it is there, a word, a byte register and bytes.
fn put_kept(
    out: &mut Octets,
    tried: bool,
    word: &[u8],
    place: u8,
    bytes: &Bytes,
) -> Result<(), NoMemory>
    ensures { OnOk result (out.new ≡ out.old ++ joined (try_tokens tried ++ Plain word.now ∷ Plain (bytes_register_text place) ∷ bytes_token bytes.now ∷ [])) }
{
    put_try(out, tried)?;
    out.push_all(word)?;
    out.push_all(b" ")?;
    put_bytes_register(out, place)?;
    out.push_all(b" ")?;
    put_bytes(out, bytes)
}

fn put_call(out: &mut Octets, tried: bool, dest: Option<Dest>, form: &Form) -> Result<(), NoMemory>
    ensures { OnOk result (out.new ≡ out.old ++ joined (statement_tokens (Call tried dest form.now))) }
{
    put_try(out, tried)?;
    put_dest(out, dest)?;
    out.push_all(form.word.name())?;
    put_operands(out, form.operands.as_slice())
}

fn put_statement(out: &mut Octets, statement: &Statement) -> Result<(), NoMemory>
    ensures { OnOk result (out.new ≡ out.old ++ joined (statement_tokens statement.now)) }
{
    match statement {
        Statement::Set(place, value) => put_change(out, b"set", *place, *value),
        Statement::Add(place, value) => put_change(out, b"add", *place, *value),
        Statement::Sub(place, value) => put_change(out, b"sub", *place, *value),
        Statement::Len(place, source) => put_len(out, *place, *source),
        Statement::If(cond) => put_if(out, cond),
        Statement::Else => out.push_all(b"else"),
        Statement::EndIf => out.push_all(b"end"),
        Statement::Loop(rounds) => put_loop(out, *rounds),
        Statement::EndLoop => out.push_all(b"end"),
        Statement::Break => out.push_all(b"break"),
        Statement::Return => out.push_all(b"return"),
        Statement::Fail(errno) => put_fail(out, *errno),
        Statement::Finally => out.push_all(b"finally"),
        Statement::Keep {
            tried,
            register,
            bytes,
        } => put_kept(out, *tried, b"set", *register, bytes),
        Statement::Join {
            tried,
            register,
            bytes,
        } => put_kept(out, *tried, b"join", *register, bytes),
        Statement::Call { tried, dest, form } => put_call(out, *tried, *dest, form),
    }
}

/// Adds the line of a statement.
pub(crate) fn put_line(out: &mut Octets, statement: &Statement) -> Result<(), NoMemory>
    ensures { OnOk result (out.new ≡ out.old ++ statement_text statement.now) }
{
    put_statement(out, statement)?;
    out.push_all(b"\n")
}
