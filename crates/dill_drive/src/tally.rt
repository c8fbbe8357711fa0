ghost use Rattle.std.specs.Prelude.{◌≡◌, ◌<◌, ◌^◌};
ghost use Rattle.dill_kernel.specs.declared.replies.KernelReply.TheVariants.{Failed};
ghost use Rattle.dill_drive.specs.Asks.{said};
ghost use Rattle.dill_drive.specs.Story.{no_tally, more_lacks, one_round, one_turn, one_last, one_reply, lacks_by};

use crate::Reply;
use dill_calls::LackPlace;
use dill_kernel::KernelFault;

/// What a run has counted: turns and rounds up to the stop, turns after it, and how often memory was refused.
#[derive(Clone, Copy, Debug, PartialEq, Eq)]
pub struct Tally {
    pub turns: u64,
    pub rounds: u64,
    pub closing: u64,
    pub lacks: u64,
}

impl Tally {
    pub(crate) fn new() -> Tally
        ensures { result ≡ no_tally }
    {
        Tally {
            turns: 0,
            rounds: 0,
            closing: 0,
            lacks: 0,
        }
    }

    pub(crate) fn round(self) -> Tally
        requires { self.rounds < 2 ^ 63 }
        ensures { result ≡ one_round self }
    {
        Tally {
            rounds: self.rounds + 1,
            ..self
        }
    }

    fn lack(self, lack: Option<LackPlace>) -> u64
        ensures { result ≡ more_lacks lack self.lacks }
    {
        match lack {
            None => self.lacks,
            Some(_) => self.lacks.saturating_add(1),
        }
    }

    /// A turn of a round.
    pub(crate) fn turn(self, lack: Option<LackPlace>) -> Tally
        requires { self.turns < 2 ^ 63 }
        ensures { result ≡ one_turn self lack }
    {
        Tally {
            turns: self.turns + 1,
            lacks: self.lack(lack),
            ..self
        }
    }

    /// A turn after the stop.
    pub(crate) fn last_turn(self, lack: Option<LackPlace>) -> Tally
        requires { self.closing < 2 ^ 63 }
        ensures { result ≡ one_last self lack }
    {
        Tally {
            closing: self.closing + 1,
            lacks: self.lack(lack),
            ..self
        }
    }

    fn want(self, fault: KernelFault) -> u64
        ensures { result ≡ lacks_by (Failed fault) self.lacks }
    {
        match fault {
            KernelFault::NoMemory => self.lacks.saturating_add(1),
            _ => self.lacks,
        }
    }

    /// A reply of the kernel to a try.
    pub(crate) fn reply(self, reply: Reply<'_>) -> Tally
        ensures { result ≡ one_reply self (said reply.entry) }
    {
        match reply {
            Reply::Failed(fault) => Tally {
                lacks: self.want(fault),
                ..self
            },
            _ => self,
        }
    }
}
