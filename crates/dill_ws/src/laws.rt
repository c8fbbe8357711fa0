ghost use Rattle.dill_ws.specs.FrameLaws.{FrameLaws};
ghost use Rattle.dill_ws.specs.HandshakeLaws.{HandshakeLaws};

use dill_http::http_laws;

/// What was framed is read again, whatever follows, and what is read is a frame. No frame begins another.
pub fn frame_laws()
    ensures { FrameLaws }
{}

/// What was read of a handshake stays so, whatever follows, and no head begins another.
pub fn handshake_laws()
    ensures { HandshakeLaws }
{
    http_laws();
}
