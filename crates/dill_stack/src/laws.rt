ghost use Rattle.dill_stack.specs.Again.{LooksAgain};
ghost use Rattle.dill_stack.specs.Breaking.{BreakingLaws};
ghost use Rattle.dill_stack.specs.Cutting.{FinishesAlike, GreetsAlike, ReadsAlike};
ghost use Rattle.dill_stack.specs.DropReading.{DropLaws};
ghost use Rattle.dill_stack.specs.Ending.{EndingLaws};
ghost use Rattle.dill_stack.specs.FrameDropping.{FrameDropLaws};
ghost use Rattle.dill_stack.specs.Joining.{JoiningLaws};
ghost use Rattle.dill_stack.specs.LineReading.{LineReadLaws};
ghost use Rattle.dill_stack.specs.Messages.{MessageLaws};
ghost use Rattle.dill_stack.specs.Needs.{NeedLaws};
ghost use Rattle.dill_stack.specs.Passing.{PassesFrames};
ghost use Rattle.dill_stack.specs.Staying.{FrontStays};
ghost use Rattle.dill_stack.specs.TermFrameDropping.{TermFrameDropLaws};
ghost use Rattle.dill_stack.specs.Spelling.{FramingLaws};

use dill_frames::{prefix_laws, suffix_laws};
use dill_http::http_laws;
use dill_ws::{frame_laws, handshake_laws};

/// A client's handshake is refused as its head is, attaches leave formed layers, and a message that isn't refused is
/// sent in the spelling by each.
pub fn framing_laws()
    ensures { FramingLaws }
{
    prefix_laws();
    suffix_laws();
}

/// What a receive, a handshake or a detach may need is no more than there is room for.
pub fn need_laws()
    ensures { NeedLaws }
{}

/// A WebSocket layer passes whole frames that don't end a message, and all of them.
pub fn passing_laws()
    ensures { PassesFrames }
{
    frame_laws();
}

/// A receive over a framing is answered by what stands at the front of what came: a message exactly where its spelling
/// stands there, and each errno and each wait exactly where its cause does.
pub fn message_laws()
    ensures { MessageLaws }
{
    prefix_laws();
    suffix_laws();
}

/// A look of a receive, of a detach or of a handshake that awaits more has used all that it may use: a second one changes
/// nothing.
pub fn again_laws()
    ensures { LooksAgain }
{
    prefix_laws();
    suffix_laws();
}

/// However the same bytes are cut into pieces, wherever the peer's end comes among them, and wherever a receive, a detach
/// or a handshake looks between them and awaits more, it is answered the same.
pub fn cutting_laws()
    ensures reads { ReadsAlike }
    ensures finishes { FinishesAlike }
    ensures greets { GreetsAlike }
{
    front_laws();
    prefix_laws();
    suffix_laws();
    http_laws();
    handshake_laws();
}

/// A WebSocket layer gives a message exactly where its frames stand at the front, behind those that the layer has
/// passed, and just their bytes are used.
pub fn joining_laws()
    ensures { JoiningLaws }
{
    frame_laws();
}

/// A WebSocket layer is at its end exactly where the peer's close frame was met or stands behind what is passed, or the
/// list ended between two messages.
pub fn ending_laws()
    ensures { EndingLaws }
{
    frame_laws();
}

/// A WebSocket layer refuses exactly what a front of the bytes shows to be refused, or where the list ended inside a
/// message, and it awaits more exactly where nothing whole is there.
pub fn breaking_laws()
    ensures { BreakingLaws }
{
    frame_laws();
    front_laws();
}

/// A receive of the line of a head is answered by what stands at the front: what the line says exactly where it stands
/// there, and each errno and each wait exactly where its cause does.
pub fn line_laws()
    ensures { LineReadLaws }
{
    http_laws();
}

/// A detach of a framing, of an end by a terminal message over framings, or of a head drops exactly the items that stand
/// one behind the other, and is answered by what stands behind them.
pub fn drop_laws()
    ensures { DropLaws }
{
    prefix_laws();
    suffix_laws();
    message_laws();
    http_laws();
}

/// A detach of a WebSocket layer drops the messages that stand one behind the other, and is answered by what stands behind
/// them: exactly where that is the peer's close frame, it meets its end.
pub fn frame_drop_laws()
    ensures { FrameDropLaws }
{
    prefix_laws();
    suffix_laws();
    http_laws();
    frame_laws();
    front_laws();
}

/// The same of an end by a terminal message over a WebSocket layer: exactly where the terminal message stands behind other
/// messages, the detach meets its end.
pub fn term_frame_drop_laws()
    ensures { TermFrameDropLaws }
{
    prefix_laws();
    suffix_laws();
    http_laws();
    frame_laws();
    front_laws();
}

/// What stands at the front for a WebSocket layer stays when more bytes come.
pub fn front_laws()
    ensures { FrontStays }
{
    frame_laws();
}
