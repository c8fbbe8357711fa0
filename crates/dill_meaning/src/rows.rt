ghost use Rattle.dill_meaning.specs.RowsRuns.{LoopRows, IfRows, FaultRows, NumberRows, AnswerRows, KeepRows, StartRows};
ghost use Rattle.dill_meaning.specs.RowsTraces.{HandleRows, ChannelRows, LinkRows, LackRows};

/// Loops.
pub fn loop_rows()
    ensures { LoopRows }
{}

/// Conditions.
pub fn if_rows()
    ensures { IfRows }
{}

/// Faults and `finally`.
pub fn fault_rows()
    ensures { FaultRows }
{}

/// Numbers and moments.
pub fn number_rows()
    ensures { NumberRows }
{}

/// Where answers are put.
pub fn answer_rows()
    ensures { AnswerRows }
{}

/// Bytes that are kept.
pub fn keep_rows()
    ensures { KeepRows }
{}

/// Programs that start others.
pub fn start_rows()
    ensures { StartRows }
{}

/// Handles and coroutines.
pub fn handle_rows()
    ensures { HandleRows }
{}

/// Channels and choices.
pub fn channel_rows()
    ensures { ChannelRows }
{}

/// Links and layers.
pub fn link_rows()
    ensures { LinkRows }
{}

/// Where memory is taken.
pub fn lack_rows()
    ensures { LackRows }
{}
