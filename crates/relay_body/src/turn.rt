ghost use Rattle.std.specs.Prelude.{◌≡◌, ◌≤◌, ◌<◌, ◌+◌, length, is_some, true, OnOk};
ghost use Rattle.dill_calls.specs.Program.{Turns};
ghost use Rattle.dill_meaning.specs.Views.{pending, statements_of};
ghost use Rattle.dill_meaning.specs.Walks.{join_fault};
ghost use Rattle.relay_body.specs.Depths.{IsWalking};
ghost use Rattle.relay_body.specs.Modes.{meant, depth_of};
ghost use Rattle.relay_body.specs.Running.{is_running, running};
ghost use Rattle.relay_body.specs.Seen.{seen};
ghost use Rattle.relay_body.specs.Steps.{HasSlot};
ghost use Rattle.relay_body.specs.Stopping.{Passes, behind_at, made_at, made_in, WalksTo, MakesOne, Keeps, Joins};

use crate::held::Held;
use crate::mode::Mode;
use dill_base::{Errno, NoMemory, Octets};
use dill_calls::{Answer, Call, Next, Word};
use dill_script::Statement;

/// The greatest length of a byte register that `join` gives.
const LONGEST: usize = 1_048_576;

impl Held {
    /// Passes the next statement, if there is one.
    fn pass(&mut self) -> bool
        ensures passes { Passes self.old self.new result }
        ensures fits { self.new.passed ≤ usize.MAX }
    {
        if self.passed < self.statements().len() {
            self.passed += 1;
            return true;
        }
        false
    }

    /// Whether the statement that was passed last makes a call where it is run.
    fn calls(&self) -> bool
        requires { is_running (seen self.now) ≡ true }
        ensures { result ≡ is_some (made_at (seen self.now) true) }
    {
        match self.pending() {
            Some(Statement::EndLoop) => self.rounds.has_round(),
            Some(Statement::Keep { .. }) => true,
            Some(Statement::Join { .. }) => true,
            Some(Statement::Call { .. }) => true,
            _ => false,
        }
    }

    /// Whether the statement that was passed last makes a call in this mode.
    fn stops(&self, mode: Mode) -> bool
        requires { is_running (seen self.now) ≡ true }
        ensures { result ≡ is_some (made_in (meant mode) (seen self.now)) }
    {
        match mode {
            Mode::Runs => self.calls(),
            _ => false,
        }
    }

    /// Runs the statement that was passed last, or passes it over.
    fn behind(&mut self, mode: Mode) -> Mode
        requires slot { HasSlot self.old }
        requires depth { depth_of mode < usize.MAX }
        ensures way { meant result ≡ (behind_at (meant mode) (seen self.old) (pending (seen self.old))).0 }
        ensures view { seen self.new ≡ (behind_at (meant mode) (seen self.old) (pending (seen self.old))).1 }
        ensures depth { depth_of result ≤ depth_of mode + 1 }
    {
        match mode {
            Mode::Runs => self.run(),
            _ => match self.pending() {
                Some(statement) => mode.over(statement),
                None => mode,
            },
        }
    }

    /// Walks on to the next statement that makes a call, or to the end, and answers whether there is such a statement.
    fn walk(&mut self, mode: Mode) -> bool
        requires walking { IsWalking (meant mode) (seen self.old) }
        requires depth { depth_of mode ≤ self.old.passed }
        ensures walk { WalksTo self.old self.new mode result }
        ensures calls { result ≡ is_some (made_at (seen self.new) result) }
        ensures running { is_running (seen self.new) ≡ true }
    {
        let mut mode = mode;
        while self.pass() {
            if self.stops(mode) {
                return true;
            }
            mode = self.behind(mode);
        }
        false
    }

    /// The fault of a `join` whose bytes don't fit.
    fn join_fault(&self, place: u8, more: &[u8]) -> Option<Errno>
        ensures { result ≡ join_fault (seen self.now) place more.now }
    {
        if LONGEST < self.bytes(place).len().saturating_add(more.len()) {
            return Some(Errno::Emsgsize);
        }
        None
    }

    /// `set` of a byte register, with a copy of the bytes.
    fn keep(&mut self, place: u8, value: Result<Octets, NoMemory>) -> Next
        ensures { Keeps self.old self.new place value result }
    {
        match value {
            Ok(value) => {
                self.set_bytes(place, value);
                Next::Call(Call::Pass(Word::Set, None))
            }
            Err(_) => Next::Lack(Word::Set),
        }
    }

    /// `join`, with a copy of the bytes.
    fn join(&mut self, place: u8, more: Result<Octets, NoMemory>) -> Next
        ensures { Joins self.old self.new place more result }
    {
        let joined = match more {
            Ok(more) => self.texts.append(place, more.as_slice()),
            Err(_) => Err(NoMemory),
        };
        match joined {
            Ok(()) => Next::Call(Call::Pass(Word::Join, None)),
            Err(_) => Next::Lack(Word::Join),
        }
    }

    /// Makes the call of the statement that was passed last. Refused memory for it, it is as it was.
    fn make(&mut self) -> Next
        requires runs { is_running (seen self.old) ≡ true }
        requires calls { true ≡ is_some (made_at (seen self.old) true) }
        ensures { MakesOne self.old self.new result }
    {
        match self.pending() {
            Some(
                Statement::Keep {
                    register,
                    bytes,
                    ..
                },
            ) => {
                let place = *register;
                let value = Octets::from_slice(self.alloc, self.bytes_value(bytes));
                self.keep(place, value)
            }
            Some(
                Statement::Join {
                    register,
                    bytes,
                    ..
                },
            ) => {
                let place = *register;
                let more = self.bytes_value(bytes);
                if let Some(errno) = self.join_fault(place, more) {
                    return Next::Call(Call::Pass(Word::Join, Some(errno)));
                }
                let more = Octets::from_slice(self.alloc, more);
                self.join(place, more)
            }
            Some(Statement::Call { form, .. }) => match self.form_call(form) {
                Ok(call) => Next::Call(call),
                Err(_) => Next::Lack(form.word),
            },
            _ => Next::Call(Call::Yield),
        }
    }

    /// Takes an answer and goes on to the next call or the end.
    pub(crate) fn turn(&mut self, given: Answer) -> Next
        requires { is_running (seen self.old) ≡ true }
        ensures turns { Turns running (seen self.old) given (seen self.new) result }
        ensures running { is_running (seen self.new) ≡ true }
    {
        let mode = self.receive(given);
        if self.walk(mode) {
            return self.make();
        }
        Next::End(self.outcome)
    }
}
