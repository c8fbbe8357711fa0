ghost use Rattle.dill_rules.specs.Laws.{BytesTellNothing, OpeningIsSound, RefusalChangesNothing};

use dill_calls::Body;

/// A run begins in a sound state.
pub fn opening_is_sound<B: Body>()
    ensures { OpeningIsSound B }
{}

/// A refusal at entry changes nothing but that the caller has its answer.
pub fn refusal_changes_nothing<B: Body>()
    ensures { RefusalChangesNothing B }
{}

/// What a pending call would send at channels says nothing of how it is answered.
pub fn bytes_tell_nothing<B: Body>()
    ensures { BytesTellNothing B }
{}
