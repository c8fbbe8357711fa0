ghost use Rattle.dill_chan.specs.Choosing.{ChoosesLeast};

/// Clauses of one coroutine, entered one after the other, find the least that is done, as if none of them waited.
pub fn a_choice_takes_the_least()
    ensures { ChoosesLeast }
{}
