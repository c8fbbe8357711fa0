ghost use Rattle.laws_fits.specs.Fitting.{StepsKeepFitting};
ghost use Rattle.laws_fits.specs.Meeting.{
  EntriesFit,
  LooksFit,
  ReadsHaveRoom,
  RepliesAreKept,
  StacksStay,
  WritesAreOffered,
};

use dill_calls::Body;
use dill_stack::{again_laws, need_laws};
use laws_looks::{links_are_kept, needs_are_short};

/// Between any two steps the stack of each link fits the calls that are pending on it, whatever is called and whatever the
/// kernel replies: its layers stand and are formed, no byte of an item is queued but of a pending call that queues one, a
/// handshake or a detach goes on where it is pending, and a receive has its top and its room.
pub fn steps_keep_fitting<B: Body>()
    ensures { StepsKeepFitting B.means }
{
    again_laws();
}

/// A link that is read from is there, isn't closing, and has room for what comes: fewer bytes are unread on it than the
/// call needs that is pending there.
pub fn reads_have_room<B: Body>()
    ensures { ReadsHaveRoom B }
{
    needs_are_short::<B>();
    need_laws();
}

/// A link that is written to is there, isn't closing, and offers what goes.
pub fn writes_are_offered<B: Body>()
    ensures { WritesAreOffered B }
{}

/// Where the reply to what is asked may make a link, one is kept; and where it is asked for a call that is answered by a
/// handle, a number is. So is one for whoever waits in a call that may be answered by a new number.
pub fn replies_are_kept<B: Body>()
    ensures { RepliesAreKept B }
{
    links_are_kept::<B>();
}

/// A call that isn't refused finds layers that stand and are formed; and where it sends, shakes hands, gives its stack up or
/// puts a layer on it, all that was queued has gone.
pub fn entries_fit<B: Body>()
    ensures { EntriesFit B.means }
{}

/// The stack of a call is still the same where its link is hot or its number is taken, before all else that its entry does.
pub fn stacks_stay<B: Body>()
    ensures { StacksStay B }
{}

/// Behind a reply of the kernel, in a turn, and as a call is entered, each pending call may look at its stack: a receive has
/// its room and its top, where a client's head is awaited nothing is queued, and a detach has a layer to leave.
pub fn looks_fit<B: Body>()
    ensures { LooksFit B.means }
{}
