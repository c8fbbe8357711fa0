ghost use Rattle.dill_sockets.specs.Free.{FreeCalls};

use dill_calls::Body;

/// What a call that isn't refused finds: its line has a spelling, its close frame may be sent, its layer fits,
/// and a handshake finds no layers.
pub fn free_calls<B: Body>()
    ensures { FreeCalls B }
{}
