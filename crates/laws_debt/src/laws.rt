ghost use Rattle.laws_debt.specs.Debts.{DebtFalls};
ghost use Rattle.laws_debt.specs.Laws.{KeepsStable, EndsClosing};

use dill_plain::PlainBody;

/// Each step of programs that make no call of a link keeps what holds between steps: all is well and in order, each waits for
/// the call that its program made last, or has its answer, and nobody is running.
pub fn steps_keep_stable<B: PlainBody>()
    ensures { KeepsStable B.means }
{}

/// From the closing of the root on, each turn lowers what is owed, and as long as `main` has not ended somebody has an
/// answer: so it ends within as many turns as are owed, which are at most 2^48, wherever memory is refused.
pub fn root_debt_falls<B: PlainBody>()
    ensures { EndsClosing B.means }
{}

/// While a bundle is closing, each turn of who is inside it lowers its debt, and no step raises it. Nobody comes in, and
/// nobody leaves but by being gone. As long as somebody is inside, somebody there has an answer: so the bundle is empty
/// within as many turns of its own as its debt.
pub fn debts_fall<B: PlainBody>()
    ensures { DebtFalls B.means }
{}
