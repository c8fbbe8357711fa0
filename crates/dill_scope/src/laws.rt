ghost use Rattle.dill_scope.specs.Keeping.{OpeningIsForest, BundleKeepsForest, EnterKeepsForest, OpenKeepsForest, TakeKeepsForest, BadTaking, CloseKeepsForest, EndedKeepsForest, DropKeepsForest, TreeListsInside, BundleMovesNobody, EnterMovesNoOther, EnterPlaces, EndedMovesNoOther, DropMovesNobody, CloseMovesNobody, CloseCancelsInside, TakeCancelsInside, TakeCancelsNobody, TakeFreesNobody};

/// The opening is a forest whose numbers are in order.
pub fn opening_is_a_forest()
    ensures { OpeningIsForest }
{}

/// A new bundle keeps the forest, where its owner is there.
pub fn bundle_keeps_the_forest()
    ensures { BundleKeepsForest }
{}

/// A new coroutine keeps the forest, where the bundle that it enters is there.
pub fn enter_keeps_the_forest()
    ensures { EnterKeepsForest }
{}

/// A new bundle with a new coroutine in it keeps the forest, where its owner is there.
pub fn open_keeps_the_forest()
    ensures { OpenKeepsForest }
{}

/// Taking keeps the forest, where the new owner is there and isn't inside the bundle.
pub fn take_keeps_the_forest()
    ensures { TakeKeepsForest }
{}

/// The taking of a bundle by who is inside it can spoil the forest.
pub fn an_insider_may_not_take()
    ensures { BadTaking }
{}

/// The beginning of a closing keeps the forest.
pub fn close_keeps_the_forest()
    ensures { CloseKeepsForest }
{}

/// The end of a coroutine keeps the forest, where it owns no bundle.
pub fn ended_keeps_the_forest()
    ensures { EndedKeepsForest }
{}

/// Dropping a bundle other than the root keeps the forest, where nobody lives in it.
pub fn drop_keeps_the_forest()
    ensures { DropKeepsForest }
{}

/// In a forest the tree lists exactly those who are inside, rising.
pub fn tree_lists_who_is_inside()
    ensures { TreeListsInside }
{}

/// A new bundle moves nobody.
pub fn bundle_moves_nobody()
    ensures { BundleMovesNobody }
{}

/// A new coroutine moves nobody else.
pub fn enter_moves_no_other()
    ensures { EnterMovesNoOther }
{}

/// A new coroutine is inside the bundle that it enters, and inside exactly the others that the bundle's owner is inside.
pub fn enter_places_the_new_one()
    ensures { EnterPlaces }
{}

/// The end of a coroutine that owns no bundle moves nobody else.
pub fn ended_moves_no_other()
    ensures { EndedMovesNoOther }
{}

/// Dropping an empty bundle moves nobody.
pub fn drop_moves_nobody()
    ensures { DropMovesNobody }
{}

/// The beginning of a closing changes no owner, and nobody's place.
pub fn close_moves_nobody()
    ensures { CloseMovesNobody }
{}

/// The beginning of a closing cancels exactly those inside the bundle.
pub fn close_cancels_who_is_inside()
    ensures { CloseCancelsInside }
{}

/// By taking at most those inside the bundle become cancelled, and only where the new owner is cancelled.
pub fn take_cancels_only_inside()
    ensures { TakeCancelsInside }
{}

/// Taking cancels nobody, where the new owner was the owner before or isn't cancelled.
pub fn take_cancels_nobody()
    ensures { TakeCancelsNobody }
{}

/// Taking leaves nobody free who was cancelled, where the new owner was the owner before or the old one isn't cancelled.
pub fn take_frees_nobody()
    ensures { TakeFreesNobody }
{}
