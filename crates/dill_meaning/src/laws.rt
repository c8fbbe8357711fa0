ghost use Rattle.dill_calls.specs.Program.{IsLawful};
ghost use Rattle.dill_meaning.specs.Laws.{MainBegins, LeftCounts, MakesEachCall, LacksAlike};
ghost use Rattle.dill_meaning.specs.Making.{EachFormMakes, CallsAreTold};
ghost use Rattle.dill_meaning.specs.Meaning.{scripts};
ghost use Rattle.dill_meaning.specs.Putting.{EachAnswerIsPut, BeginsWide, StaysWide};
ghost use Rattle.dill_meaning.specs.Reaching.{EachStatementMakes, EachTurnMakes, MainIsThere};

use dill_script::script_laws;

/// The programs of scripts keep the law of programs.
pub fn scripts_are_lawful()
    ensures lawful { IsLawful scripts }
    ensures main { MainBegins }
    ensures left { LeftCounts }
    ensures calls { MakesEachCall }
    ensures lacks { LacksAlike }
    ensures forms { EachFormMakes }
    ensures told { CallsAreTold }
{}

/// A script that was read begins at its program `main`, and makes each of its calls with all operands and with programs
/// that are there.
pub fn scripts_make_their_calls()
    ensures statements { EachStatementMakes }
    ensures turns { EachTurnMakes }
    ensures main { MainIsThere }
{
    script_laws();
}

/// The coroutines of a script that was read have 16 registers of each sort, and an answer of the form that its call has
/// goes whole into the registers of its statement.
pub fn scripts_put_their_answers()
    ensures begins { BeginsWide }
    ensures stays { StaysWide }
    ensures puts { EachAnswerIsPut }
{
    script_laws();
}
