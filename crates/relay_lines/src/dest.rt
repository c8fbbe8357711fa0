ghost use Rattle.std.specs.Prelude.{◌≡◌};
ghost use Rattle.dill_calls.specs.CallTable.{form_of};
ghost use Rattle.dill_script.specs.Operands.{dest_of};
ghost use Rattle.dill_script.specs.Statements.{dest_at};
ghost use Rattle.relay_lines.specs.Shapes.{form_in};

use dill_calls::Word;
use dill_script::{Dest, Register};

/// The form of the answer that a call has.
#[derive(Clone, Copy, Debug)]
enum Shape {
    OneNumber,
    TwoNumbers,
    OneBytes,
    TwoBytes,
    CodeAndBytes,
    Choice,
}

fn shape_of(word: Word) -> Shape
    ensures { form_in result ≡ form_of word }
{
    match word {
        Word::Chmake => Shape::TwoNumbers,
        Word::Chrecv | Word::Brecv | Word::Mrecv => Shape::OneBytes,
        Word::Choose => Shape::Choice,
        Word::HttpRecvrequest | Word::HttpRecvfield => Shape::TwoBytes,
        Word::HttpRecvstatus => Shape::CodeAndBytes,
        _ => Shape::OneNumber,
    }
}

/// The registers that an answer of this form can be put in.
fn dest_of(shape: Shape, targets: &[Register]) -> Option<Dest>
    ensures { result ≡ dest_of (form_in shape) targets.now }
{
    match (shape, targets) {
        (Shape::OneNumber, [Register::Number(first)]) => Some(Dest::Number(*first)),
        (Shape::TwoNumbers, [Register::Number(first), Register::Number(second)]) => {
            Some(Dest::Pair(*first, *second))
        }
        (Shape::OneBytes, [Register::Bytes(first)]) => Some(Dest::Bytes(*first)),
        (Shape::TwoBytes, [Register::Bytes(first), Register::Bytes(second)]) => {
            Some(Dest::Two(*first, *second))
        }
        (Shape::CodeAndBytes | Shape::Choice, [Register::Number(first), Register::Bytes(second)]) =>
            Some(Dest::Mixed(*first, *second)),
        _ => None,
    }
}

/// Where the answer of a call goes: nowhere, or into registers that fit its form.
pub(crate) fn dest_at(word: Word, targets: &[Register]) -> Option<Option<Dest>>
    ensures { result ≡ dest_at word targets.now }
{
    if targets.is_empty() {
        return Some(None);
    }
    Some(Some(dest_of(shape_of(word), targets)?))
}
