ghost use Rattle.std.specs.Prelude.{◌≡◌, is_some, option_copied};
ghost use Rattle.dill_rules.specs.Directions.{asked, message_of, line_said, is_end, side_of};

use dill_calls::{Call, Word};
use dill_stack::Want;
use dill_ws::Side;

/// The message that a call sends.
pub fn message_of(call: &Call) -> Option<&[u8]>
    ensures { option_copied result ≡ message_of call.now }
{
    match call {
        Call::Bsend(_, bytes, _) => Some(bytes.as_slice()),
        Call::Msend(_, bytes, _) => Some(bytes.as_slice()),
        _ => None,
    }
}

/// What a call receives.
pub fn asked(call: &Call) -> Option<Want>
    ensures { result ≡ asked call.now }
{
    match call {
        Call::Brecv(_, size, _) => Some(Want::Exact(*size as usize)),
        Call::Mrecv(_, limit, _) => Some(Want::Message(*limit as usize)),
        Call::HttpRecvrequest(_, _) => Some(Want::Request),
        Call::HttpRecvstatus(_, _) => Some(Want::Status),
        Call::HttpRecvfield(_, _) => Some(Want::Field),
        _ => None,
    }
}

/// The side of a WebSocket.
pub(crate) fn side_of(client: bool) -> Side
    ensures { result ≡ side_of client }
{
    if client { Side::Client } else { Side::Server }
}

/// Whether the call ends the sending direction.
pub(crate) fn is_end(word: Word) -> bool
    ensures { result ≡ is_end word }
{
    matches!(word, Word::TcpDone | Word::TermDone | Word::HttpDone)
}

/// Whether the call sends a line.
pub(crate) fn says_line(call: &Call) -> bool
    ensures { result ≡ is_some (line_said call.now) }
{
    matches!(
        call,
        Call::HttpSendrequest(_, _, _, _)
            | Call::HttpSendstatus(_, _, _, _)
            | Call::HttpSendfield(_, _, _, _)
    )
}
