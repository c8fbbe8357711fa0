ghost use Rattle.std.specs.Prelude.{◌≡◌, ◌++◌, ◌∷◌, [], flat_map, decimal, codes, OnOk, IfOk};
ghost use Rattle.dill_script.specs.Printing.{canonical, line_text};
ghost use Rattle.dill_script.specs.Tokens.{Plain};
ghost use Rattle.relay_printer.specs.Pieces.{statement_text, program_text};

use crate::line::put_line;
use crate::token::put_decimal;
use dill_base::{NoMemory, Octets};
use dill_script::{Program, Script, Statement};
use std::alloc::Global;

/// Adds the first line of a program.
fn put_heading(out: &mut Octets, name: &[u8], params: u8) -> Result<(), NoMemory>
    ensures { OnOk result (out.new ≡ out.old ++ line_text (Plain (codes "program") ∷ Plain name.now ∷ Plain (decimal params) ∷ [])) }
{
    out.push_all(b"program ")?;
    out.push_all(name)?;
    out.push_all(b" ")?;
    put_decimal(out, u64::from(params))?;
    out.push_all(b"\n")
}

fn put_statements(out: &mut Octets, statements: &[Statement]) -> Result<(), NoMemory>
    ensures { OnOk result (out.new ≡ out.old ++ flat_map statement_text statements.now) }
{
    for statement in statements {
        put_line(out, statement)?;
    }
    Ok(())
}

fn put_program(out: &mut Octets, program: &Program) -> Result<(), NoMemory>
    ensures { OnOk result (out.new ≡ out.old ++ program_text program.now) }
{
    put_heading(out, program.name.as_slice(), program.params)?;
    put_statements(out, program.statements.as_slice())?;
    out.push_all(b"end\n")
}

fn put_programs(out: &mut Octets, programs: &[Program]) -> Result<(), NoMemory>
    ensures { OnOk result (out.new ≡ out.old ++ flat_map program_text programs.now) }
{
    for program in programs {
        put_program(out, program)?;
    }
    Ok(())
}

/// The canonical text of a script: no comments, no blank lines, one space between tokens, no indentation and an LF behind
/// each line, with the short escapes in texts.
pub fn print_script(alloc: Global, script: &Script) -> Result<Octets, NoMemory>
    ensures { IfOk result (λ text. text ≡ canonical script.now) }
{
    let mut out = Octets::new(alloc);
    out.push_all(b"dill 1\n")?;
    put_programs(&mut out, script.as_slice())?;
    Ok(out)
}
