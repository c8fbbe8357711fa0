ghost use Rattle.dill_stack.specs.PartingRows.{PartingRows};
ghost use Rattle.dill_stack.specs.Rows.{StackRows};
ghost use Rattle.dill_stack.specs.HttpRows.{HttpReads, HttpAnswers, HttpPlaces, HttpEnds, HttpDrops};
ghost use Rattle.dill_stack.specs.WsRows.{WsRows};
ghost use Rattle.dill_stack.specs.CutRows.{CutRows, HandshakeCutRows, AnswerCutRows};
ghost use Rattle.dill_stack.specs.HandshakeRows.{ServerRows, SessionRows, HandshakeRows};

/// Stacks worked by hand, with and without framings, are what the definitions compute.
pub fn rows()
    ensures { StackRows }
{}

/// A head worked by hand is what the definitions compute.
pub fn http_rows()
    ensures reads { HttpReads }
    ensures answers { HttpAnswers }
    ensures places { HttpPlaces }
    ensures ends { HttpEnds }
    ensures drops { HttpDrops }
{}

/// A WebSocket session worked by hand is what the definitions compute.
pub fn ws_rows()
    ensures { WsRows }
{}

/// Handshakes worked by hand, and a session behind one, are what the definitions compute.
pub fn handshake_rows()
    ensures server { ServerRows }
    ensures session { SessionRows }
    ensures handshakes { HandshakeRows }
{}

/// An end behind each first part of an item is EPROTO, and EPIPE at a boundary.
pub fn cut_rows()
    ensures items { CutRows }
    ensures heads { HandshakeCutRows }
    ensures answers { AnswerCutRows }
{}

/// Detaches worked by hand are what the definitions compute.
pub fn parting_rows()
    ensures { PartingRows }
{}
