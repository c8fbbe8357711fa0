ghost use Rattle.std.specs.Prelude.{◌≡◌, Some, false};
ghost use Rattle.dill_calls.specs.declared.answer.Answer.TheVariants as answers;
ghost use Rattle.dill_script.specs.declared.operand.Dest.TheVariants as dests;
ghost use Rattle.dill_meaning.specs.Effects.{put, fault_in, again};
ghost use Rattle.dill_meaning.specs.Walks.{settled, looped};
ghost use Rattle.relay_body.specs.Seen.{seen};
ghost use Rattle.relay_body.specs.Steps.{Goes, answered};

use crate::held::Held;
use crate::mode::Mode;
use dill_base::Errno;
use dill_calls::Answer;
use dill_script::{Dest, Statement};

/// The fault in an answer: a clause's own counts.
fn fault_in(answer: &Answer) -> Option<Errno>
    ensures { result ≡ fault_in answer.now }
{
    match answer {
        Answer::Fault(errno) => Some(*errno),
        Answer::Chosen { fault, .. } => *fault,
        _ => None,
    }
}

impl Held {
    /// Puts an answer in its registers, one after the other. What has another form is not put.
    fn put(&mut self, dest: Option<Dest>, answer: Answer)
        ensures { seen self.new ≡ put (seen self.old) dest answer }
    {
        match dest {
            Some(Dest::Number(place)) => self.put_number(place, answer),
            Some(Dest::Pair(first, second)) => self.put_pair(first, second, answer),
            Some(Dest::Bytes(place)) => self.put_bytes(place, answer),
            Some(Dest::Two(first, second)) => self.put_two(first, second, answer),
            Some(Dest::Mixed(first, second)) => self.put_mixed(first, second, answer),
            None => {}
        }
    }

    fn put_number(&mut self, place: u8, answer: Answer)
        ensures { seen self.new ≡ put (seen self.old) (Some (dests.Number place)) answer }
    {
        if let Answer::Number(value) = answer {
            self.set_number(place, value);
        }
    }

    fn put_pair(&mut self, first: u8, second: u8, answer: Answer)
        ensures { seen self.new ≡ put (seen self.old) (Some (dests.Pair first second)) answer }
    {
        if let Answer::Pair(a, b) = answer {
            self.set_number(first, a);
            self.set_number(second, b);
        }
    }

    fn put_bytes(&mut self, place: u8, answer: Answer)
        ensures { seen self.new ≡ put (seen self.old) (Some (dests.Bytes place)) answer }
    {
        if let Answer::Bytes(value) = answer {
            self.set_bytes(place, value);
        }
    }

    fn put_two(&mut self, first: u8, second: u8, answer: Answer)
        ensures { seen self.new ≡ put (seen self.old) (Some (dests.Two first second)) answer }
    {
        if let Answer::Two(a, b) = answer {
            self.set_bytes(first, a);
            self.set_bytes(second, b);
        }
    }

    /// A choice without bytes leaves its byte register as it was.
    fn put_mixed(&mut self, first: u8, second: u8, answer: Answer)
        ensures { seen self.new ≡ put (seen self.old) (Some (dests.Mixed first second)) answer }
    {
        match answer {
            Answer::Coded(code, value) => {
                self.set_number(first, u64::from(code));
                self.set_bytes(second, value);
            }
            Answer::Chosen { index, bytes, .. } => {
                self.set_number(first, u64::from(index));
                if let Some(value) = bytes {
                    self.set_bytes(second, value);
                }
            }
            _ => {}
        }
    }

    /// With `try` the fault, or none, becomes `err`; without it a fault leads to `finally`.
    fn settle(&mut self, tried: bool, fault: Option<Errno>) -> Mode
        ensures { Goes self.new result (settled tried (seen self.old) fault) }
    {
        if tried {
            self.err = fault;
            return Mode::Runs;
        }
        self.go_on(fault)
    }

    /// A fault leads to `finally`.
    fn go_on(&mut self, fault: Option<Errno>) -> Mode
        ensures { Goes self.new result (settled false (seen self.old) fault) }
    {
        match fault {
            Some(errno) => {
                self.leave(Some(errno));
                Mode::ToFinally
            }
            None => Mode::Runs,
        }
    }

    /// To the first statement of the innermost loop, for its next round.
    fn again(&mut self)
        ensures { seen self.new ≡ again (seen self.old) (seen self.old).rounds }
    {
        if let Some(first) = self.rounds.again() {
            self.passed = first;
        }
    }

    /// The `end` of a loop leads to its next round, a fault to `finally`.
    fn end_round(&mut self, fault: Option<Errno>) -> Mode
        ensures { Goes self.new result (looped (seen self.old) fault) }
    {
        match fault {
            Some(errno) => {
                self.leave(Some(errno));
                Mode::ToFinally
            }
            None => {
                self.again();
                Mode::Runs
            }
        }
    }

    /// Takes the answer of the call that was made last.
    pub(crate) fn receive(&mut self, given: Answer) -> Mode
        ensures { Goes self.new result (answered (seen self.old) given) }
    {
        let fault = fault_in(&given);
        let Some(statement) = self.pending() else {
            return Mode::Runs;
        };
        match statement {
            Statement::Call { tried, dest, .. } => {
                let (tried, dest) = (*tried, *dest);
                self.put(dest, given);
                self.settle(tried, fault)
            }
            Statement::Keep { tried, .. } | Statement::Join { tried, .. } => {
                let tried = *tried;
                self.settle(tried, fault)
            }
            Statement::EndLoop => self.end_round(fault),
            _ => Mode::Runs,
        }
    }
}
