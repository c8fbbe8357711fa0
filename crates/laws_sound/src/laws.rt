ghost use Rattle.laws_sound.specs.LinklessLaws.{KeepsLinkless, FollowsLinkless};
ghost use Rattle.laws_sound.specs.Numbers.{NumbersOnce};
ghost use Rattle.laws_sound.specs.Laws.{KeepsOrder, NotesNumbers, KeepsRest, KeepsSettled, OrderIsSound, CancelsAll, GoesOn, RootGoesOn, BundleGoesOn, SettlesApart};

use dill_calls::Body;
use dill_plain::PlainBody;

/// Each step of programs that make no call of a link leaves a world without links so.
pub fn steps_keep_linkless<B: PlainBody>()
    ensures { KeepsLinkless B.means }
{}

/// Without links the steps of what a core keeps draw no random number, so none has to be lent for them, and
/// nothing is asked of the kernel.
pub fn follows_linkless<B: PlainBody>()
    ensures { FollowsLinkless B.means }
{}

/// Where nobody waits for a stack nothing is due behind a whole settling, with the looks behind it.
pub fn settles_apart<B: Body>()
    ensures { SettlesApart B }
{}

/// A world in order is sound.
pub fn order_is_sound<B: Body>()
    ensures { OrderIsSound B }
{}

/// Where the root is closing, everybody is cancelled.
pub fn all_cancelled<B: Body>()
    ensures { CancelsAll B }
{}

/// Where a bundle is closing in which somebody lives, somebody inside it has an answer, once nothing is due.
pub fn closing_goes_on<B: Body>()
    ensures { GoesOn B }
{}

/// Where the root is closing and `main` has not ended, somebody is queued with an answer, once nothing is due.
pub fn root_goes_on<B: Body>()
    ensures { RootGoesOn B.means }
{}

/// Where a bundle is closing in which somebody lives, somebody inside it is queued with an answer, once nothing is due.
pub fn bundle_goes_on<B: Body>()
    ensures { BundleGoesOn B.means }
{}

/// Each step keeps what a core keeps in order, whatever is called and whatever the kernel replies.
pub fn steps_keep_order<B: Body>()
    ensures { KeepsOrder B.means }
{}

/// Each number that a step gives is live, of a closing or noted as dead once more than before, and every other number as
/// often as before.
pub fn steps_note_numbers<B: Body>()
    ensures { NotesNumbers B.means }
{}

/// Over any steps each number that was given is live, of a closing, or was noted as dead, exactly one of these and once: none
/// is given again, and each is noted as dead at most once.
pub fn numbers_once<B: Body>()
    ensures { NumbersOnce B.means }
{}

/// Each step leads from rest to rest, whatever is called: nobody is making a call, and whoever was answered is queued.
pub fn steps_keep_rest<B: Body>()
    ensures { KeepsRest B.means }
{}

/// Without links nothing is due behind each step. After an expiry something may be due until the world settles.
pub fn steps_keep_settled<B: PlainBody>()
    ensures { KeepsSettled B.means }
{}
