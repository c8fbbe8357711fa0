ghost use Rattle.laws_looks.specs.AtRest.{RestSeesNoRandom};
ghost use Rattle.laws_looks.specs.Calm.{DrawsNothing, KeepsCalm};
ghost use Rattle.laws_looks.specs.Keeping.{CountsLinks, LinksAreKept};
ghost use Rattle.laws_looks.specs.OneLook.{OneLookEnters, OneLookHears, OneLookSettles, OneLookTurns};
ghost use Rattle.laws_looks.specs.Readers.{KeepsApart, LooksSettle};
ghost use Rattle.laws_looks.specs.Short.{NeedsAreShort};

use dill_calls::Body;
use dill_frames::{prefix_laws, suffix_laws};
use dill_http::http_laws;
use dill_stack::again_laws;
use dill_ws::handshake_laws;

/// Where nothing is due and one pending call at most looks at each stack, nothing is due behind these looks either, and a
/// second round of looks changes nothing.
pub fn looks_settle<B: Body>()
    ensures { LooksSettle B }
{
    again_laws();
}

/// Each step keeps it so that one pending call at most looks at each stack, and that one number at most names each link.
pub fn steps_keep_apart<B: Body>()
    ensures { KeepsApart B.means }
{}

/// Behind a whole settling nothing is due and no look finds anything; and where that is so, what settles, what expires
/// and the closing of the root draw no random number.
pub fn draws_nothing<B: Body>()
    ensures { DrawsNothing B }
{
    again_laws();
}

/// Between any two steps nothing is due and no look finds anything, whatever is called and whatever the kernel replies.
pub fn steps_keep_calm<B: Body>()
    ensures { KeepsCalm B.means }
{
    again_laws();
}

/// Between any two steps as many links are kept as pending calls that make a link have none, and a link that connects is
/// of a pending connect, at most one for each.
pub fn steps_count_links<B: Body>()
    ensures { CountsLinks B.means }
{}

/// So a link is kept for whoever is pending in a listen or an accept, or in a connect without a link.
pub fn links_are_kept<B: Body>()
    ensures { LinksAreKept B }
{}

/// Where no look finds anything, fewer bytes are unread on a stack than the call needs that is pending on it.
pub fn needs_are_short<B: Body>()
    ensures { NeedsAreShort B }
{
    prefix_laws();
    suffix_laws();
    http_laws();
    handshake_laws();
}

/// Where no look finds anything, settling needs none: so it is with what expires, and as the root closes. Where one
/// coroutine stirs, one look at its stack, before all else, is enough.
pub fn one_look_settles<B: Body>()
    ensures { OneLookSettles B }
{
    again_laws();
}

/// Where no look finds anything, settling, what expires and the closing of the root see no random number.
pub fn rest_sees_no_random<B: Body>()
    ensures { RestSeesNoRandom B }
{}

/// So it is behind each reply of the kernel: one look of whoever looks at the stack that was asked for is enough.
pub fn one_look_hears<B: Body>()
    ensures { OneLookHears B }
{
    again_laws();
}

/// And so it is as a receive, a handshake, a detach or `tcp_close` is entered: the look of the caller is enough.
pub fn one_look_enters<B: Body>()
    ensures { OneLookEnters B.means }
{
    again_laws();
}

/// So in a turn, whatever is called: one look of its coroutine, before all else, is enough.
pub fn one_look_turns<B: Body>()
    ensures { OneLookTurns B.means }
{
    again_laws();
}
