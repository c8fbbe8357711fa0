ghost use Rattle.laws_queue.specs.Following.{Follows};
ghost use Rattle.laws_queue.specs.Laws.{KeepsWell};
ghost use Rattle.laws_queue.specs.Settled.{SettlesAll};

use dill_calls::Body;

/// Each step keeps well what a core keeps, whatever is called: who has an answer is queued once and may be
/// given it, and there is room for the queue where there is room for all coroutines.
pub fn steps_keep_well<B: Body>()
    ensures { KeepsWell B.means }
{}

/// Where a core stands for a state, each step of what it keeps leads to what stands for the state after its own step,
/// and the same is seen of both. The same random numbers are lent to both, and the same are left.
pub fn follows_states<B: Body>()
    ensures { Follows B.means }
{}

/// Settling, but for the looks behind it, goes on until nothing is due: no ending can finish, and no pending call can be
/// answered.
pub fn settling_ends<B: Body>()
    ensures { SettlesAll B }
{}
