ghost use Rattle.std.specs.Prelude.{◌≡◌, ◌<◌, length};
ghost use Rattle.dill_meaning.specs.Effects.{sum_of, entering, exiting, leaving};
ghost use Rattle.dill_meaning.specs.Views.{pending};
ghost use Rattle.dill_meaning.specs.Walks.{begin_loop};
ghost use Rattle.relay_body.specs.Seen.{seen};
ghost use Rattle.relay_body.specs.Steps.{Goes, HasSlot, ran};

use crate::held::Held;
use crate::mode::Mode;
use dill_base::Errno;
use dill_script::Statement;

/// The greatest number that `add` gives.
const GREATEST: u64 = 9_223_372_036_854_775_807;

/// The sum of two numbers, at most the greatest number.
fn sum_of(a: u64, b: u64) -> u64
    ensures { result ≡ sum_of a b }
{
    a.saturating_add(b).min(GREATEST)
}

impl Held {
    /// To `finally`, or behind it to the end: no loop is open any more, and the first errno stays.
    pub(crate) fn leave(&mut self, errno: Option<Errno>)
        ensures { seen self.new ≡ leaving (seen self.old) errno }
    {
        self.rounds.clear();
        if self.outcome.is_none() {
            self.outcome = errno;
        }
    }

    /// Into a loop, whose first statement is the next.
    fn enter(&mut self, left: Option<u64>)
        requires { length self.old.rounds < 4 }
        ensures { seen self.new ≡ entering (seen self.old) left }
    {
        self.rounds.open(self.passed, left);
    }

    /// Out of the innermost loop.
    fn exit(&mut self)
        ensures { seen self.new ≡ exiting (seen self.old) }
    {
        self.rounds.close();
    }

    /// Into a loop of so many rounds, or past it where there are none.
    fn begin_loop(&mut self, rounds: u64) -> Mode
        requires { length self.old.rounds < 4 }
        ensures { Goes self.new result (begin_loop (seen self.old) rounds) }
    {
        if rounds == 0 {
            return Mode::ToEndLoop(0);
        }
        self.enter(Some(rounds - 1));
        Mode::Runs
    }

    /// Runs the statement that was passed last, which makes no call.
    pub(crate) fn run(&mut self) -> Mode
        requires { HasSlot self.old }
        ensures { Goes self.new result (ran (seen self.old) (pending (seen self.old))) }
    {
        let Some(statement) = self.pending() else {
            return Mode::Runs;
        };
        match statement {
            Statement::Set(place, value) => {
                let (place, value) = (*place, self.num_value(*value));
                self.set_number(place, value);
                Mode::Runs
            }
            Statement::Add(place, value) => {
                let (place, more) = (*place, self.num_value(*value));
                self.set_number(place, sum_of(self.number(place), more));
                Mode::Runs
            }
            Statement::Sub(place, value) => {
                let (place, less) = (*place, self.num_value(*value));
                self.set_number(place, self.number(place).saturating_sub(less));
                Mode::Runs
            }
            Statement::Len(place, source) => {
                let (place, source) = (*place, *source);
                self.set_number(place, self.bytes(source).len() as u64);
                Mode::Runs
            }
            Statement::If(cond) if self.holds(cond) => Mode::Runs,
            Statement::If(_) => Mode::ToElse(0),
            Statement::Else => Mode::ToEndIf(0),
            Statement::Loop(Some(rounds)) => {
                let rounds = self.num_value(*rounds);
                self.begin_loop(rounds)
            }
            Statement::Loop(None) => {
                self.enter(None);
                Mode::Runs
            }
            Statement::EndLoop => {
                self.exit();
                Mode::Runs
            }
            Statement::Break => {
                self.exit();
                Mode::ToEndLoop(0)
            }
            Statement::Return => {
                self.leave(None);
                Mode::ToFinally
            }
            Statement::Fail(errno) => {
                let errno = *errno;
                self.leave(Some(errno));
                Mode::ToFinally
            }
            _ => Mode::Runs,
        }
    }
}
