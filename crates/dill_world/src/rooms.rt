ghost use Rattle.std.specs.Prelude.{◌≡◌, ◌≤◌, None, IfOk};
ghost use Rattle.dill_rules.specs.LinkAnswers.{answer_said};
ghost use Rattle.dill_stack.specs.Interface.{read, limit_of_want};
ghost use Rattle.dill_world.specs.Looks.{HasTwice, twice};

use dill_base::NoMemory;
use dill_calls::Answer;
use dill_stack::{AnswerRoom, ReadOut, Stack, Want};
use rand_core::Rng;
use std::alloc::Global;
use std::marker::Model;

/// Room for the answer of a receive twice: one for its program, and one for what is told of its turn.
#[derive(Drop)]
pub struct Rooms {
    first: AnswerRoom,
    second: AnswerRoom,
}

impl Model for Rooms {
    ghost use Rattle.dill_world.specs.Looks.{Twice};

    ghost Value = { Twice };

    ghost view = { λ r. record { first = r.first; second = r.second } };
}

impl Rooms {
    /// Room for what this receive may answer.
    pub fn new(alloc: Global, want: Want) -> Result<Rooms, NoMemory>
        ensures { IfOk result (λ r. HasTwice want r) }
    {
        let first = AnswerRoom::new(alloc, want)?;
        let second = AnswerRoom::new(alloc, want)?;
        Ok(Rooms { first, second })
    }

    /// What this receive is answered by its stack, twice, if it is. It takes no memory.
    pub(crate) fn read<R: Rng>(
        &mut self,
        want: Want,
        stack: &mut Stack,
        keys: &mut R,
    ) -> Option<(Answer, Answer)>
        requires room { HasTwice want self.old }
        requires reserved { limit_of_want want ≤ stack.old.most }
        ensures said { result ≡ twice (answer_said (read want (R.stream keys.old) stack.old.held).said) }
        ensures stack { stack.new ≡ record stack.old { held = (read want (R.stream keys.old) stack.old.held).stack } }
        ensures random { R.stream keys.new ≡ (read want (R.stream keys.old) stack.old.held).random }
        ensures kept { result ≡ None → self.new ≡ self.old }
    {
        match stack.read(want, &mut self.first, keys) {
            ReadOut::Need => None,
            ReadOut::Fault(e) => Some((Answer::Fault(e), Answer::Fault(e))),
            ReadOut::Given(answer) => {
                let twin = self.second.copy(&answer);
                Some((answer, twin))
            }
        }
    }
}
