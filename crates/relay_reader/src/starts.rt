ghost use Rattle.std.specs.Prelude.{◌≡◌, ◌++◌, Some, option_map, IfOk, OnOk};
ghost use Rattle.dill_script.specs.Reading.{started, started_by};
ghost use Rattle.relay_lines.specs.Spelled.{line_in};
ghost use Rattle.relay_reader.specs.Starts.{start_at};

use dill_base::{NoMemory, Octets};
use dill_script::{Operand, Statement};
use relay_lines::Line;
use std::alloc::Global;

/// A program that a line starts: the line's number, counted from 1, the program's name, and how many arguments it is
/// given.
#[derive(Debug, Drop)]
pub(crate) struct Start {
    pub line: u32,
    pub name: Octets,
    pub args: usize,
}

/// The program that a call starts, and how many arguments it gives it.
fn started(operands: &[Operand]) -> Option<(&[u8], usize)>
    ensures { option_map (λ x. (x.0.now, x.1)) result ≡ started operands.now }
{
    for (i, operand) in operands.iter().enumerate() {
        if let Operand::Program(name) = operand {
            return Some((name.as_slice(), operands.len() - i - 1));
        }
    }
    None
}

/// A copy of a program's name, beside how many arguments it is given.
fn copied(alloc: Global, name: &[u8], args: usize) -> Result<Option<(Octets, usize)>, NoMemory>
    ensures { IfOk result (λ r. r ≡ Some (name.now, args)) }
{
    match Octets::from_slice(alloc, name) {
        Ok(name) => Ok(Some((name, args))),
        Err(_) => Err(NoMemory),
    }
}

/// The program that a line starts, and how many arguments it gives it.
pub(crate) fn started_by(alloc: Global, line: &Line) -> Result<Option<(Octets, usize)>, NoMemory>
    ensures { IfOk result (λ r. r ≡ started_by (line_in line.now)) }
{
    match line {
        Line::Says(Statement::Call { form, .. }) => match started(form.operands.as_slice()) {
            Some((name, args)) => copied(alloc, name, args),
            None => Ok(None),
        },
        _ => Ok(None),
    }
}

/// Keeps what the line of this number starts, if it starts a program.
pub(crate) fn keep(
    starts: &mut Vec<Start>,
    line: u32,
    started: Option<(Octets, usize)>,
) -> Result<(), NoMemory>
    ensures { OnOk result (starts.new.items ≡ starts.old.items ++ start_at line started) }
{
    let Some((name, args)) = started else {
        return Ok(());
    };
    match starts.push(Start { line, name, args }) {
        Ok(()) => Ok(()),
        Err(_) => Err(NoMemory),
    }
}
