ghost use Rattle.dill_plain.specs.Plain.{MakesPlain};

use dill_calls::Body;

/// A program whose calls are those of printing, time, coroutines, channels and handles of its own: it makes no call of a
/// link or a layer.
pub trait PlainBody: Body {
    ghost plain: { MakesPlain Self.means };
}
