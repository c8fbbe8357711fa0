ghost use Rattle.std.specs.Prelude.{◌≡◌, IfOk};
ghost use Rattle.chan_tests.specs.Opening.{one_channel};

use dill_base::NoMemory;
use dill_calls::Answer;
use dill_chan::{Channels, Meeting};
use std::alloc::Global;

/// Seats of the coroutines 1, 2 and 3, and one channel with the ends 1 and 2.
pub fn one_channel(alloc: Global) -> Result<Channels, NoMemory>
    ensures { IfOk result (λ c. c ≡ one_channel) }
{
    let mut channels = Channels::new(alloc);
    channels.seat(1)?;
    channels.seat(2)?;
    channels.seat(3)?;
    let _ = channels.make()?;
    Ok(channels)
}

/// A number for each answer: itself, 100 and more for so many bytes, 200 for a fault.
fn number_of(answer: &Answer) -> u64 {
    match answer {
        Answer::Number(number) => *number,
        Answer::Bytes(bytes) => (bytes.as_slice().len() as u64).saturating_add(100),
        _ => 200,
    }
}

/// Whether the caller met this clause of this coroutine, with these answers of its own and of the other.
pub fn met(meeting: &Meeting, other: u64, clause: u8, answer: u64, others: u64) -> bool {
    match meeting {
        Meeting::Met(met) => {
            met.other == other
                && met.clause == clause
                && number_of(&met.answer) == answer
                && number_of(&met.others) == others
        }
        _ => false,
    }
}

/// Whether the clause waits.
pub fn waits(meeting: &Meeting) -> bool {
    match meeting {
        Meeting::Waits => true,
        _ => false,
    }
}

/// Whether the clause has its end.
pub fn ended(meeting: &Meeting) -> bool {
    match meeting {
        Meeting::Ended => true,
        _ => false,
    }
}

/// Whether the caller's answer is these bytes.
pub fn is_bytes(meeting: &Meeting, bytes: &[u8]) -> bool {
    match meeting {
        Meeting::Met(met) => match &met.answer {
            Answer::Bytes(came) => came.as_slice() == bytes,
            _ => false,
        },
        _ => false,
    }
}
