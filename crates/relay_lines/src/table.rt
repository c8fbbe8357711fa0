ghost use Rattle.std.specs.Prelude.{◌≡◌};
ghost use Rattle.dill_script.specs.Table.{kinds_of, rest_kind};

use dill_calls::Word;
use dill_script::{Kind, Rest};

/// The operands that a call always has.
pub(crate) fn kinds_of(word: Word) -> &'static [Kind]
    ensures { result.now ≡ kinds_of word }
{
    match word {
        Word::Print
        | Word::Now
        | Word::Yield
        | Word::Bundle
        | Word::Chmake
        | Word::Start
        | Word::Set
        | Word::Join => &[],
        Word::Msleep | Word::Choose => &[Kind::Wait],
        Word::Hmake | Word::Hquery => &[Kind::Num, Kind::Num],
        Word::Hown
        | Word::Hclose
        | Word::Chdone
        | Word::PrefixDetach
        | Word::SuffixDetach
        | Word::HttpAttach => &[Kind::Num],
        Word::Go => &[Kind::Program],
        Word::BundleGo => &[Kind::Num, Kind::Program],
        Word::BundleWait
        | Word::TcpAccept
        | Word::TcpDone
        | Word::TcpClose
        | Word::TermDone
        | Word::TermDetach
        | Word::HttpRecvrequest
        | Word::HttpRecvstatus
        | Word::HttpRecvfield
        | Word::HttpDone
        | Word::HttpDetach => &[Kind::Num, Kind::Wait],
        Word::Chsend | Word::Bsend | Word::Msend => &[Kind::Num, Kind::Bytes, Kind::Wait],
        Word::Chrecv | Word::Brecv | Word::Mrecv => &[Kind::Num, Kind::Num, Kind::Wait],
        Word::TcpListen => &[Kind::Address, Kind::Num],
        Word::TcpConnect => &[Kind::Address, Kind::Wait],
        Word::PrefixAttach => &[Kind::Num, Kind::Num, Kind::Order],
        Word::SuffixAttach | Word::TermAttach => &[Kind::Num, Kind::Bytes],
        Word::HttpSendrequest | Word::HttpSendfield => &[
            Kind::Num,
            Kind::Bytes,
            Kind::Bytes,
            Kind::Wait,
        ],
        Word::HttpSendstatus | Word::WsDetach => &[Kind::Num, Kind::Num, Kind::Bytes, Kind::Wait],
        Word::WsAttachClient => &[Kind::Num, Kind::Mode, Kind::Bytes, Kind::Bytes, Kind::Wait],
        Word::WsAttachServer => &[Kind::Num, Kind::Mode, Kind::Wait],
        Word::WsAttachNohttp => &[Kind::Num, Kind::Role, Kind::Mode],
    }
}

/// What may stand behind them.
pub(crate) fn rest_kind(word: Word) -> Rest
    ensures { result ≡ rest_kind word }
{
    match word {
        Word::Print => Rest::Items,
        Word::Go | Word::BundleGo => Rest::Args,
        Word::Choose => Rest::Clauses,
        _ => Rest::Nothing,
    }
}
