//! Worked runs, computed from the rules of the machine. It holds no code.
#![tactic(auto)]

ghost use Rattle.dill_rows.specs.Bundles.{EqualDeadlines, SleepForever, RenumberedHandle, BundleClosedWhole};
ghost use Rattle.dill_rows.specs.Closing.{OwnBundle, CrossedGifts, NestedClose, CountedSleeps, FaultEndsMain, RenumberedWithoutClose, OwnBundleBusy, SleeperAndYielder};
ghost use Rattle.dill_rows.specs.Channels.{UnequalSizes, ChoosesEarliest, ChoiceMeetsChoice};
ghost use Rattle.dill_rows.specs.Connecting.{ConnectAndReceive, RefusedConnections, BrokenConnections};
ghost use Rattle.dill_rows.specs.Sockets.{SendGivenUp, TriedOnce, EndInside, DetachKeepsUnread, CancelledDetach, FailedWait};
ghost use Rattle.dill_rows.specs.Looped.{LoadCounts, LoopedDetach, LoopedWait};
ghost use Rattle.dill_rows.specs.Readings.{Occupied, DeadClause, GiveUps, CancelledTakers, DoneAndBroken, GivenBack};
ghost use Rattle.dill_rows.specs.Lacks.{LacksChangeNothing};
ghost use Rattle.dill_rows.specs.Limits.{LimitsAreExact};
ghost use Rattle.dill_rows.specs.Settled.{CloseFrameMet, HeadsWithoutCase, AnothersStack, MovedFirst, TakesAwaited};
ghost use Rattle.dill_rows.specs.Answered.{AnswersOfScopes, AnswersOfLinks, AnswersOfDetaches, AnswersOfHeads};
ghost use Rattle.dill_rows.specs.LongInput.{LongLines, LongMessages, LongHeads, LongItems};
ghost use Rattle.dill_rows.specs.Full.{HandlesRunOut, NumbersRunOut, LastHandle};
ghost use Rattle.dill_rows.specs.InUse.{HandshakeKinds, LeavingOccupies, EndsAreSends, HeadsInUse};
ghost use Rattle.dill_rows.specs.Stops.{RootClosingNotes, QueuedPongs, RefusedHeatsNothing, RepliesUsedUp, AllWaitersTold, ClosedBeforeStuck};
ghost use Rattle.dill_rows.specs.Bounds.{BoundsOfLayers, BoundsOfChannels};
ghost use Rattle.dill_rows.specs.Ends.{LowerEndMet, FailedEnds, LateLines, BrokenAttaches, JoinedTooMuch};
ghost use Rattle.dill_rows.specs.Orders.{ExpiryOrder, EndingsChain, WaiterCameInside, WaiterOutside, ChoiceClauses};
ghost use Rattle.dill_rows.specs.Cancelled.{CancelledLacks, EndsTakeNothing, CancelledReceives};
ghost use Rattle.dill_rows.specs.Outside.{MomentsAndTurns, ReadyLinks, ListenersThatFail, KernelWantsMemory};
ghost use Rattle.dill_rows.specs.Faults.{LinkFails, ShortEndKeeps, TooLongAndTooLate, GiftRefusals, GiftsInOrder, Kinds};
ghost use Rattle.dill_rows.specs.Taking.{CancelledOwner, CancelledOwn, AwaitedListener, TakenByAttach, OwnersAndListens};
ghost use Rattle.dill_rows.specs.Meeting.{EndsOfChannels, LongestWaiting};
ghost use Rattle.dill_rows.specs.Layers.{PeerCloses, EndSentOnce, AttachKeepsUnread, AfterShut, LinesOverLink};
ghost use Rattle.dill_rows.specs.Session.{WebsocketSession};
ghost use Rattle.dill_rows.specs.Random.{FailedDetachNumbers, ReplacedPongs, HandedBackPong, NumbersTaken};
ghost use Rattle.dill_rows.specs.Handshakes.{ClientSession, RefusedHead};
ghost use Rattle.dill_rows.specs.Leaving.{RequestThenBody, ClosedInOrder, GivenUpShut, CancelledLeavers};
ghost use Rattle.dill_rows.specs.Relay.{RelayToWebsocket, LoadOfFour};
ghost use Rattle.dill_rows.specs.Stories.{WorkedStories};
ghost use Rattle.dill_rows.specs.Failing.{OutputFails};
ghost use Rattle.dill_rows.specs.Asked.{AsksCarry};
ghost use Rattle.dill_rows.specs.Scripted.{ScriptsRun, ScriptsPlay, ScriptsOverLinks, KnowsItsOwn};
ghost use Rattle.dill_rows.specs.SameStories.{SameStories, NetworkStories};

/// Three deadlines at one moment pass in the order of the coroutines.
pub fn equal_deadlines_lower_first()
    ensures { EqualDeadlines }
{}

/// A run in which all wait for ever is stuck.
pub fn sleep_forever_is_stuck()
    ensures { SleepForever }
{}

/// A number that was given up is dead, and its thing lives on under the next one.
pub fn renumbered_handle()
    ensures { RenumberedHandle }
{}

/// A bundle that is closed ends all its coroutines before it answers.
pub fn bundle_closed_whole()
    ensures { BundleClosedWhole }
{}

/// A coroutine can't close the bundle that it lives in.
pub fn own_bundle_is_busy()
    ensures { OwnBundle }
{}

/// Of two that would close each other's bundle the first one does, and the other is cancelled.
pub fn crossed_gifts()
    ensures { CrossedGifts }
{}

/// A closing reaches the whole tree at once, and what is done last is cancelled too.
pub fn nested_close_with_finally()
    ensures { NestedClose }
{}

/// A deadline after a while counts from its entry, and a budget stops the run.
pub fn counted_sleeps()
    ensures { CountedSleeps }
{}

/// A call on a number that isn't live ends a program that doesn't try it.
pub fn fault_ends_main()
    ensures { FaultEndsMain }
{}

/// What a coroutine owns is released at its end.
pub fn renumbered_without_close()
    ensures { RenumberedWithoutClose }
{}

/// A coroutine can't own the bundle that it lives in.
pub fn own_bundle_busy_without_close()
    ensures { OwnBundleBusy }
{}

/// A closed bundle ends within the turns that its coroutines declare.
pub fn close_sleeper_and_yielder()
    ensures { SleeperAndYielder }
{}

/// Unequal sizes fail both, and a receive where the sending is done has its end.
pub fn unequal_sizes_then_done()
    ensures { UnequalSizes }
{}

/// A choice takes its least clause that can be done.
pub fn choose_earliest_clause()
    ensures { ChoosesEarliest }
{}

/// The choice that is entered decides by its own least clause.
pub fn choice_meets_choice()
    ensures { ChoiceMeetsChoice }
{}

/// A connection is made, read and closed once, and no wait lasts.
pub fn connect_and_receive()
    ensures { ConnectAndReceive }
{}

/// A connection that isn't made ends the run with the kernel's reason, and is closed if it was begun.
pub fn refused_connections()
    ensures { RefusedConnections }
{}

/// A connection that fails or ends too early is an errno of the receive, and is closed once.
pub fn broken_connections()
    ensures { BrokenConnections }
{}

/// A send that is given up in the middle breaks its direction.
pub fn send_given_up_midway()
    ensures { SendGivenUp }
{}

/// A call on a link with a passed deadline is tried in one round, and no bytes are sent at once.
pub fn deadline_passed_is_tried_once()
    ensures { TriedOnce }
{}

/// The end inside a message breaks the receiving direction.
pub fn end_inside_a_message()
    ensures { EndInside }
{}

/// Detaches hand the lower socket back with exactly the bytes that were not used.
pub fn detach_keeps_unread()
    ensures { DetachKeepsUnread }
{}

/// A detach that is cancelled releases the whole stack, whose link is closed once.
pub fn cancelled_detach()
    ensures { CancelledDetach }
{}

/// A wait that fails stops the run.
pub fn failed_wait()
    ensures { FailedWait }
{}

/// A load of one client over the network in memory; a budget stops it, and its link is closed once.
pub fn load_counts()
    ensures { LoadCounts }
{}

/// The same detach that is cancelled, over the network in memory.
pub fn cancelled_detach_over_the_network()
    ensures { LoopedDetach }
{}

/// A wait for ever fails in the network in memory.
pub fn failed_wait_over_the_network()
    ensures { LoopedWait }
{}

/// While a handshake is pending its layer is on top, and every other call on the number is busy.
pub fn pending_handshake_occupies()
    ensures { Occupied }
{}

/// A choice with a dead number is refused whole, though an earlier clause could be done.
pub fn dead_clause_refuses_the_choice()
    ensures { DeadClause }
{}

/// What several coroutines give up in one step is released in the order of the coroutines.
pub fn give_ups_go_by_coroutine()
    ensures { GiveUps }
{}

/// A cancelled caller that takes another's handle is busy where its call gives a stack up, and else cancelled.
pub fn cancelled_takers()
    ensures { CancelledTakers }
{}

/// A direction whose shut failed is broken and not done; one that is done stays done where the link fails later.
pub fn done_and_broken()
    ensures { DoneAndBroken }
{}

/// An accept that times out, or whose listener is closed, and a connect that is cancelled give back what they kept.
pub fn what_was_kept_is_given_back()
    ensures { GivenBack }
{}

/// A refusal of memory changes nothing but the answer, and only what takes memory meets one.
pub fn lacks_change_nothing()
    ensures { LacksChangeNothing }
{}

/// The last handle, the last number and the last link can be had, and no more.
pub fn limits_are_exact()
    ensures { LimitsAreExact }
{}

/// A state that is nearly full: each call that draws a number, or needs a link or a coroutine, has the last one and is
/// refused the next.
pub fn no_room_is_refused()
    ensures handles { HandlesRunOut }
    ensures numbers { NumbersRunOut }
    ensures run { LastHandle }
{}

/// Answers of calls, each in a run of its own.
pub fn answers_of_calls()
    ensures scopes { AnswersOfScopes }
    ensures links { AnswersOfLinks }
    ensures detaches { AnswersOfDetaches }
    ensures heads { AnswersOfHeads }
{}

/// Places that could be read in two ways.
pub fn settled_places()
    ensures close_frame { CloseFrameMet }
    ensures heads { HeadsWithoutCase }
    ensures stacks { AnothersStack }
    ensures notes { MovedFirst }
    ensures awaited { TakesAwaited }
{}

/// Lines, messages and heads at their limits, and one byte beyond.
pub fn long_input()
    ensures lines { LongLines }
    ensures messages { LongMessages }
    ensures heads { LongHeads }
    ensures items { LongItems }
{}

/// A WebSocket server over one connection, up to a frame that it refuses.
pub fn websocket_server_session()
    ensures { WebsocketSession }
{}

/// A client's pong has used up its random number, also where the detach that queued it fails in the same look.
pub fn failed_detach_uses_its_words()
    ensures { FailedDetachNumbers }
{}

/// A pong that takes an earlier one's place goes at that place, with a random number of its own.
pub fn replaced_pong_keeps_its_place()
    ensures { ReplacedPongs }
{}

/// Three clients over PREFIX to a WebSocket upstream.
pub fn relay_to_websocket()
    ensures { RelayToWebsocket }
{}

/// A load of four clients: twelve turns and three rounds for each, and three turns and two rounds besides.
pub fn load_of_four()
    ensures { LoadOfFour }
{}

/// The story of a run over the rules: its bytes and its asks.
pub fn worked_stories()
    ensures { WorkedStories }
{}

/// Output that fails at a line: exactly the lines before it are there.
pub fn output_that_fails()
    ensures { OutputFails }
{}

/// What the asks of a run carry.
pub fn asks_carry()
    ensures { AsksCarry }
{}

/// Scripts from their text to what they print.
pub fn scripts_run()
    ensures prints { ScriptsRun }
    ensures plays { ScriptsPlay }
    ensures links { ScriptsOverLinks }
    ensures knows { KnowsItsOwn }
{}

/// While a handshake is pending what needs a byte socket isn't supported, and all else is busy.
pub fn pending_handshake_decides_the_kind()
    ensures { HandshakeKinds }
{}

/// While a detach or a `tcp_close` is pending every other call on the number is busy.
pub fn pending_detach_occupies()
    ensures { LeavingOccupies }
{}

/// While an end is pending a send is busy, and the other way round.
pub fn ends_count_as_sends()
    ensures { EndsAreSends }
{}

/// A pending line of a head counts as sent, and an awaited one not as received.
pub fn pending_lines_of_heads()
    ensures { HeadsInUse }
{}

/// What the closing of the root gives up is noted before the first turn behind the stop.
pub fn notes_of_closing_the_root()
    ensures { RootClosingNotes }
{}

/// A queued pong doesn't keep a run from being stuck, and is never written once the run is over.
pub fn queued_pong_keeps_nothing_going()
    ensures { QueuedPongs }
{}

/// A call that is refused makes no direction hot.
pub fn refused_call_heats_nothing()
    ensures { RefusedHeatsNothing }
{}

/// A listed reply that doesn't fit is a failure and is used up.
pub fn unfitting_replies_are_used_up()
    ensures { RepliesUsedUp }
{}

/// A detach that meets the end of a layer below sends what it sends, and releases the stack.
pub fn lower_end_met_by_a_detach()
    ensures { LowerEndMet }
{}

/// An end or a first line whose write failed counts as made; one that is given up before a byte has gone doesn't.
pub fn failed_and_late_ends()
    ensures failed { FailedEnds }
    ensures late { LateLines }
{}

/// Nothing can be attached where one direction is broken.
pub fn broken_directions_refuse_attaches()
    ensures { BrokenAttaches }
{}

/// What an earlier receive joined is too much for a detach only at the next frame.
pub fn joined_too_much_for_a_detach()
    ensures { JoinedTooMuch }
{}

/// What expires at one moment goes by deadline and coroutine.
pub fn expiry_goes_by_deadline_and_coroutine()
    ensures { ExpiryOrder }
{}

/// Endings that can finish do so before a closing is answered.
pub fn endings_before_answers()
    ensures { EndingsChain }
{}

/// A closing cancels who waits for the bundle inside it, and tells the others that it is dead.
pub fn closing_and_those_who_wait()
    ensures inside { WaiterCameInside }
    ensures outside { WaiterOutside }
{}

/// A choice is refused whole for one clause, and a dead end is that clause's own errno only while it waits.
pub fn one_clause_refuses_the_choice()
    ensures { ChoiceClauses }
{}

/// A cancelled caller's lack is counted, and the end of a program lacks nothing.
pub fn lacks_of_the_cancelled_and_the_ending()
    ensures cancelled { CancelledLacks }
    ensures ends { EndsTakeNothing }
{}

/// A cancelled coroutine is given nothing, and nothing is used.
pub fn cancelled_receives_give_nothing()
    ensures { CancelledReceives }
{}

/// A pong that a detach queued is handed back with the stack.
pub fn pong_is_handed_back()
    ensures { HandedBackPong }
{}

/// A WebSocket client over one connection, and one whose answer is refused.
pub fn websocket_client_session()
    ensures { ClientSession }
{}

/// A server that refuses a client's head sends nothing.
pub fn refused_head_sends_nothing()
    ensures { RefusedHead }
{}

/// A request, its answer, and the body behind the head.
pub fn http_request_then_body()
    ensures { RequestThenBody }
{}

/// A link that is closed in order, and a `tcp_done` that is given up before its `shut`.
pub fn links_closed_and_shut()
    ensures closed { ClosedInOrder }
    ensures given_up { GivenUpShut }
{}

/// A cancelled caller is busy where it would leave a layer of another's stack, and releases its own.
pub fn cancelled_leavers()
    ensures { CancelledLeavers }
{}

/// The moment never falls, and a round has 64 turns at most.
pub fn moments_and_turns()
    ensures { MomentsAndTurns }
{}

/// A link is tried where it is told ready, and one that isn't there is passed over.
pub fn ready_links()
    ensures { ReadyLinks }
{}

/// The faults of listeners, whose link numbers aren't used up.
pub fn listeners_that_fail()
    ensures { ListenersThatFail }
{}

/// Each want of memory that the kernel tells is counted.
pub fn kernel_wants_memory()
    ensures { KernelWantsMemory }
{}

/// A link that fails answers the calls of both its directions, and a short end keeps what came.
pub fn links_that_fail_or_end()
    ensures fails { LinkFails }
    ensures ends { ShortEndKeeps }
{}

/// A message over the limit, and a detach that is late.
pub fn too_long_and_too_late()
    ensures { TooLongAndTooLate }
{}

/// Gifts that are refused, and the numbers of those that aren't.
pub fn gifts_to_children()
    ensures refused { GiftRefusals }
    ensures given { GiftsInOrder }
{}

/// Each thing has its kind, and a stack that of its top.
pub fn kinds_of_things()
    ensures { Kinds }
{}

/// What others and it itself may do with the handles of a cancelled coroutine.
pub fn handles_of_the_cancelled()
    ensures others { CancelledOwner }
    ensures own { CancelledOwn }
{}

/// A listener at which somebody waits can't be awaited again, nor be taken.
pub fn awaited_listener()
    ensures { AwaitedListener }
{}

/// Ends of channels that die or are done while others wait.
pub fn ends_of_channels()
    ensures { EndsOfChannels }
{}

/// Who has waited longest at a channel is met first.
pub fn longest_waiting_is_met()
    ensures { LongestWaiting }
{}

/// Behind the peer's close frame messages still go, and a detach is answered once its own has gone.
pub fn peer_closes_first()
    ensures { PeerCloses }
{}

/// An end is sent once, and what came before a layer is read through it.
pub fn layers_keep_what_came()
    ensures end { EndSentOnce }
    ensures unread { AttachKeepsUnread }
{}

/// What a link refuses that had its `shut`, and how it is closed.
pub fn after_a_shut()
    ensures { AfterShut }
{}

/// Arguments outside their ranges, and the last ones inside.
pub fn bounds_of_arguments()
    ensures layers { BoundsOfLayers }
    ensures channels { BoundsOfChannels }
{}

/// Who attaches a layer to another's socket owns it from then on.
pub fn taken_by_an_attach()
    ensures { TakenByAttach }
{}

/// All that wait in a stuck run are told, and a close that is due comes first.
pub fn stuck_runs()
    ensures waiters { AllWaitersTold }
    ensures closes { ClosedBeforeStuck }
{}

/// Messages before CR LF over a link.
pub fn lines_over_a_link()
    ensures { LinesOverLink }
{}

/// The story of a run over the rules writes and asks what the worked run does.
pub fn stories_of_worked_runs()
    ensures { SameStories }
{}

/// Runs over the network in memory do what their stories do over its replies.
pub fn stories_over_the_network()
    ensures { NetworkStories }
{}

/// Which calls take a random number.
pub fn words_that_are_taken()
    ensures { NumbersTaken }
{}

/// A socket whose owner ends, and a listen that is cancelled.
pub fn owners_and_listens()
    ensures { OwnersAndListens }
{}
