ghost use Rattle.laws_blind.specs.Blind.{SeesNoRandom};

use dill_calls::Body;

/// What looks at no stack does with other random numbers what it does with these, and leaves them: settling without
/// looks, an expiry, an end, a call that is none of a link, a reply of the kernel, and a wait. No refusal sees any.
pub fn sees_no_random<B: Body>()
    ensures { SeesNoRandom B.means }
{}
