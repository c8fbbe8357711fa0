ghost use Rattle.std.specs.Prelude.{◌≡◌, ◌≤◌, ◌<◌, ◌+◌};
ghost use Rattle.dill_meaning.specs.Walks.{passed_over};
ghost use Rattle.dill_meaning.specs.Walks as walks;
ghost use Rattle.relay_body.specs.Modes.{meant, depth_of};

use dill_script::Statement;

/// How statements are passed: they are run, or the first that is not passed over is looked for. The number says how many
/// blocks of that sort began on the way.
#[derive(Clone, Copy)]
pub(crate) enum Mode {
    Runs,
    /// Behind the `else` of an `if`, or behind its `end`.
    ToElse(usize),
    /// Behind the `end` of an `if`.
    ToEndIf(usize),
    /// Behind the `end` of a loop.
    ToEndLoop(usize),
    ToFinally,
}

impl Mode {
    /// The mode behind a statement that isn't run.
    pub(crate) fn over(self, statement: &Statement) -> Mode
        requires { depth_of self < usize.MAX }
        ensures mode { meant result ≡ passed_over (meant self) statement.now }
        ensures depth { depth_of result ≤ depth_of self + 1 }
    {
        match self {
            Mode::Runs => Mode::Runs,
            Mode::ToElse(depth) => to_else(depth, statement),
            Mode::ToEndIf(depth) => to_end_if(depth, statement),
            Mode::ToEndLoop(depth) => to_end_loop(depth, statement),
            Mode::ToFinally => to_finally(statement),
        }
    }
}

fn to_else(depth: usize, statement: &Statement) -> Mode
    requires { depth < usize.MAX }
    ensures mode { meant result ≡ passed_over (walks.ToElse depth) statement.now }
    ensures depth { depth_of result ≤ depth + 1 }
{
    match statement {
        Statement::If(_) => Mode::ToElse(depth + 1),
        Statement::Else if depth == 0 => Mode::Runs,
        Statement::EndIf if depth == 0 => Mode::Runs,
        Statement::EndIf => Mode::ToElse(depth - 1),
        _ => Mode::ToElse(depth),
    }
}

fn to_end_if(depth: usize, statement: &Statement) -> Mode
    requires { depth < usize.MAX }
    ensures mode { meant result ≡ passed_over (walks.ToEndIf depth) statement.now }
    ensures depth { depth_of result ≤ depth + 1 }
{
    match statement {
        Statement::If(_) => Mode::ToEndIf(depth + 1),
        Statement::EndIf if depth == 0 => Mode::Runs,
        Statement::EndIf => Mode::ToEndIf(depth - 1),
        _ => Mode::ToEndIf(depth),
    }
}

fn to_end_loop(depth: usize, statement: &Statement) -> Mode
    requires { depth < usize.MAX }
    ensures mode { meant result ≡ passed_over (walks.ToEndLoop depth) statement.now }
    ensures depth { depth_of result ≤ depth + 1 }
{
    match statement {
        Statement::Loop(_) => Mode::ToEndLoop(depth + 1),
        Statement::EndLoop if depth == 0 => Mode::Runs,
        Statement::EndLoop => Mode::ToEndLoop(depth - 1),
        _ => Mode::ToEndLoop(depth),
    }
}

fn to_finally(statement: &Statement) -> Mode
    ensures mode { meant result ≡ passed_over walks.ToFinally statement.now }
    ensures depth { depth_of result ≤ 0 }
{
    match statement {
        Statement::Finally => Mode::Runs,
        _ => Mode::ToFinally,
    }
}
