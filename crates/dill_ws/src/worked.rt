ghost use Rattle.dill_ws.specs.Rows.{FrameRows, AcceptRow};

/// Frames worked by hand, which the definitions compute.
pub fn rows()
    ensures { FrameRows }
{}

/// The accept value of the standard's own key, which the definitions compute.
pub fn accept_row()
    ensures { AcceptRow }
{}
