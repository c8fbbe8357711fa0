ghost use Rattle.std.specs.Prelude.{◌≡◌, ◌≤◌, length, true, IfOk};
ghost use Rattle.dill_calls.specs.Program.{Program, IsLawful, Turns};

use crate::{Answer, Call, Word};
use dill_base::{Errno, NoMemory};

/// What a program does once it has its answer: it makes a call, was refused memory for the call of this word, or ends,
/// well or with an errno. Only a call with bytes, arguments or clauses takes memory to be built.
#[derive(Debug, Drop)]
pub enum Next {
    Call(Call),
    Lack(Word),
    End(Option<Errno>),
}

/// A coroutine's program, a value that is polled: each turn gives it the answer of its last call and runs it on to its next.
///
/// `left` bounds how often it can still be given an answer that lowers it: the answer of `start`, of a call that cannot
/// block, or `Ecanceled`. So a coroutine whose calls are all cancelled ends within `left` turns.
pub trait Body: Sized + Drop {
    /// What it does, by its views.
    ghost means: { Program Self };

    /// Runs on from the answer to the next call or the end. After the end nothing is promised of it.
    fn turn(&mut self, given: Answer) -> Next
        requires { 1 ≤ means.left self.old }
        ensures { Turns means self.old given self.new result };

    /// Whether there is a program of this number with so many arguments.
    fn knows(&self, program: u32, args: usize) -> bool
        ensures { result ≡ means.knows self.now program args };

    /// A new coroutine of that program, with these arguments.
    fn child(&self, program: u32, args: &[u64]) -> Result<Self, NoMemory>
        requires { means.knows self.now program (length args.now) ≡ true }
        ensures { IfOk result (λ made. made ≡ means.child self.now program args.now) };

    /// How many such answers it can still be given. It is at least 1 until the end, and at most `most`.
    fn left(&self) -> u64
        ensures value { result ≡ means.left self.now }
        ensures real { means.real self.now ≡ true };

    /// What `left` is at the start, at most 4,294,967,295.
    fn most(&self) -> u64
        ensures { result ≡ means.most self.now };

    ghost lawful: { IsLawful means };
}
