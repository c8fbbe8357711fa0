ghost use Rattle.std.specs.Prelude.{◌≡◌};
ghost use Rattle.dill_script.specs.Headings.{keyword_text, all_keywords};
ghost use Rattle.dill_script.specs.Numbers.{named};

use dill_calls::Word;
use dill_script::Keyword;

/// All keywords that a line can have.
const KEYWORDS: [Keyword; 60] = [
    Keyword::Program,
    Keyword::Finally,
    Keyword::Else,
    Keyword::End,
    Keyword::Set,
    Keyword::Add,
    Keyword::Sub,
    Keyword::Len,
    Keyword::If,
    Keyword::Loop,
    Keyword::Break,
    Keyword::Return,
    Keyword::Fail,
    Keyword::Join,
    Keyword::Call(Word::Print),
    Keyword::Call(Word::Now),
    Keyword::Call(Word::Yield),
    Keyword::Call(Word::Msleep),
    Keyword::Call(Word::Hmake),
    Keyword::Call(Word::Hquery),
    Keyword::Call(Word::Hown),
    Keyword::Call(Word::Hclose),
    Keyword::Call(Word::Bundle),
    Keyword::Call(Word::Go),
    Keyword::Call(Word::BundleGo),
    Keyword::Call(Word::BundleWait),
    Keyword::Call(Word::Chmake),
    Keyword::Call(Word::Chsend),
    Keyword::Call(Word::Chrecv),
    Keyword::Call(Word::Chdone),
    Keyword::Call(Word::Choose),
    Keyword::Call(Word::TcpListen),
    Keyword::Call(Word::TcpAccept),
    Keyword::Call(Word::TcpConnect),
    Keyword::Call(Word::TcpDone),
    Keyword::Call(Word::TcpClose),
    Keyword::Call(Word::Bsend),
    Keyword::Call(Word::Brecv),
    Keyword::Call(Word::Msend),
    Keyword::Call(Word::Mrecv),
    Keyword::Call(Word::PrefixAttach),
    Keyword::Call(Word::SuffixAttach),
    Keyword::Call(Word::TermAttach),
    Keyword::Call(Word::TermDone),
    Keyword::Call(Word::PrefixDetach),
    Keyword::Call(Word::SuffixDetach),
    Keyword::Call(Word::TermDetach),
    Keyword::Call(Word::HttpAttach),
    Keyword::Call(Word::HttpSendrequest),
    Keyword::Call(Word::HttpSendstatus),
    Keyword::Call(Word::HttpSendfield),
    Keyword::Call(Word::HttpRecvrequest),
    Keyword::Call(Word::HttpRecvstatus),
    Keyword::Call(Word::HttpRecvfield),
    Keyword::Call(Word::HttpDone),
    Keyword::Call(Word::HttpDetach),
    Keyword::Call(Word::WsAttachClient),
    Keyword::Call(Word::WsAttachServer),
    Keyword::Call(Word::WsAttachNohttp),
    Keyword::Call(Word::WsDetach),
];

/// How it is written.
fn keyword_name(keyword: Keyword) -> &'static [u8]
    ensures { result.now ≡ keyword_text keyword }
{
    match keyword {
        Keyword::Program => b"program",
        Keyword::Finally => b"finally",
        Keyword::Else => b"else",
        Keyword::End => b"end",
        Keyword::Set => b"set",
        Keyword::Add => b"add",
        Keyword::Sub => b"sub",
        Keyword::Len => b"len",
        Keyword::If => b"if",
        Keyword::Loop => b"loop",
        Keyword::Break => b"break",
        Keyword::Return => b"return",
        Keyword::Fail => b"fail",
        Keyword::Join => b"join",
        Keyword::Call(word) => word.name(),
    }
}

/// A line's keyword by its name.
pub(crate) fn keyword_named(name: &[u8]) -> Option<Keyword>
    ensures { result ≡ named keyword_text all_keywords name.now }
{
    KEYWORDS
        .iter()
        .copied()
        .find(|keyword| keyword_name(*keyword) == name)
}
