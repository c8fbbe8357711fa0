ghost use Rattle.std.specs.Prelude.{◌≡◌};
ghost use Rattle.dill_calls.specs.CallTable.{is_built};
ghost use Rattle.dill_script.specs.Refusals.{is_unbuilt};

use dill_script::Keyword;

/// Whether it is the word of a call that isn't built.
pub(crate) fn is_unbuilt(keyword: Keyword) -> bool
    ensures { result ≡ is_unbuilt is_built keyword }
{
    match keyword {
        Keyword::Call(word) => !word.is_built(),
        _ => false,
    }
}
