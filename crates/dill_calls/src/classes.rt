ghost use Rattle.std.specs.Prelude.{◌≡◌};
ghost use Rattle.dill_calls.specs.CallTable.{word_of, blocks, makes, takes, gives_up, draws, is_quiet, takes_memory, is_built, named_by, deadline_of};

use crate::{Call, Word};
use dill_base::Deadline;

impl Word {
    /// Whether the call may stay pending.
    pub fn blocks(self) -> bool
        ensures { result ≡ blocks self }
    {
        matches!(
            self,
            Word::Yield
                | Word::Msleep
                | Word::BundleWait
                | Word::Chsend
                | Word::Chrecv
                | Word::Choose
                | Word::TcpListen
                | Word::TcpAccept
                | Word::TcpConnect
                | Word::TcpDone
                | Word::TcpClose
                | Word::Bsend
                | Word::Brecv
                | Word::Msend
                | Word::Mrecv
                | Word::TermDone
                | Word::TermDetach
                | Word::HttpSendrequest
                | Word::HttpSendstatus
                | Word::HttpSendfield
                | Word::HttpRecvrequest
                | Word::HttpRecvstatus
                | Word::HttpRecvfield
                | Word::HttpDone
                | Word::HttpDetach
                | Word::WsAttachClient
                | Word::WsAttachServer
                | Word::WsDetach
        )
    }

    /// Whether it makes a handle, a coroutine or a link.
    pub fn makes(self) -> bool
        ensures { result ≡ makes self }
    {
        matches!(
            self,
            Word::Hmake
                | Word::Bundle
                | Word::Go
                | Word::BundleGo
                | Word::Chmake
                | Word::TcpListen
                | Word::TcpAccept
                | Word::TcpConnect
                | Word::PrefixAttach
                | Word::SuffixAttach
                | Word::TermAttach
                | Word::PrefixDetach
                | Word::SuffixDetach
                | Word::TermDetach
                | Word::HttpAttach
                | Word::HttpDetach
                | Word::WsAttachClient
                | Word::WsAttachServer
                | Word::WsAttachNohttp
                | Word::WsDetach
        )
    }

    /// Whether it makes its caller the owner of its handle.
    pub fn takes(self) -> bool
        ensures { result ≡ takes self }
    {
        matches!(
            self,
            Word::Hown
                | Word::Hclose
                | Word::TcpClose
                | Word::PrefixAttach
                | Word::SuffixAttach
                | Word::TermAttach
                | Word::PrefixDetach
                | Word::SuffixDetach
                | Word::TermDetach
                | Word::HttpAttach
                | Word::HttpDetach
                | Word::WsAttachClient
                | Word::WsAttachServer
                | Word::WsAttachNohttp
                | Word::WsDetach
        )
    }

    /// Whether it gives a stack up.
    pub fn gives_up(self) -> bool
        ensures { result ≡ gives_up self }
    {
        matches!(
            self,
            Word::TcpClose
                | Word::PrefixDetach
                | Word::SuffixDetach
                | Word::TermDetach
                | Word::HttpDetach
                | Word::WsDetach
        )
    }

    /// Whether its answer draws handle numbers.
    pub fn draws(self) -> bool
        ensures { result ≡ draws self }
    {
        match self {
            Word::Hown => true,
            other => other.makes(),
        }
    }

    /// Whether its answer shortens what is left of its program.
    pub fn is_quiet(self) -> bool
        ensures { result ≡ is_quiet self }
    {
        match self {
            Word::Start => false,
            Word::Hclose => true,
            other => !other.blocks() || other.gives_up(),
        }
    }

    /// Whether its entry takes memory.
    pub fn takes_memory(self) -> bool
        ensures { result ≡ takes_memory self }
    {
        matches!(
            self,
            Word::Hmake
                | Word::Hown
                | Word::Bundle
                | Word::Go
                | Word::BundleGo
                | Word::Chmake
                | Word::Chsend
                | Word::Chrecv
                | Word::Choose
                | Word::TcpListen
                | Word::TcpAccept
                | Word::TcpConnect
                | Word::Bsend
                | Word::Brecv
                | Word::Msend
                | Word::Mrecv
                | Word::PrefixAttach
                | Word::SuffixAttach
                | Word::TermAttach
                | Word::PrefixDetach
                | Word::SuffixDetach
                | Word::TermDetach
                | Word::HttpAttach
                | Word::HttpSendrequest
                | Word::HttpSendstatus
                | Word::HttpSendfield
                | Word::HttpRecvrequest
                | Word::HttpRecvstatus
                | Word::HttpRecvfield
                | Word::HttpDetach
                | Word::WsAttachClient
                | Word::WsAttachServer
                | Word::WsAttachNohttp
                | Word::WsDetach
        )
    }

    /// Whether it is built so far.
    pub fn is_built(self) -> bool
        ensures { result ≡ is_built self }
    {
        matches!(
            self,
            Word::Start
                | Word::Set
                | Word::Join
                | Word::Print
                | Word::Now
                | Word::Yield
                | Word::Msleep
                | Word::Hmake
                | Word::Hquery
                | Word::Hown
                | Word::Hclose
                | Word::Bundle
                | Word::Go
                | Word::BundleGo
                | Word::BundleWait
                | Word::Chmake
                | Word::Chsend
                | Word::Chrecv
                | Word::Chdone
                | Word::Choose
        )
    }
}

impl Call {
    /// Its word.
    pub fn word(&self) -> Word
        ensures { result ≡ word_of self.now }
    {
        match self {
            Call::Print(_) => Word::Print,
            Call::Now => Word::Now,
            Call::Yield => Word::Yield,
            Call::Msleep(_) => Word::Msleep,
            Call::Hmake(_, _) => Word::Hmake,
            Call::Hquery(_, _) => Word::Hquery,
            Call::Hown(_) => Word::Hown,
            Call::Hclose(_) => Word::Hclose,
            Call::Bundle => Word::Bundle,
            Call::Go(_, _) => Word::Go,
            Call::BundleGo(_, _, _) => Word::BundleGo,
            Call::BundleWait(_, _) => Word::BundleWait,
            Call::Chmake => Word::Chmake,
            Call::Chsend(_, _, _) => Word::Chsend,
            Call::Chrecv(_, _, _) => Word::Chrecv,
            Call::Chdone(_) => Word::Chdone,
            Call::Choose(_, _) => Word::Choose,
            Call::TcpListen(_, _) => Word::TcpListen,
            Call::TcpAccept(_, _) => Word::TcpAccept,
            Call::TcpConnect(_, _) => Word::TcpConnect,
            Call::TcpDone(_, _) => Word::TcpDone,
            Call::TcpClose(_, _) => Word::TcpClose,
            Call::Bsend(_, _, _) => Word::Bsend,
            Call::Brecv(_, _, _) => Word::Brecv,
            Call::Msend(_, _, _) => Word::Msend,
            Call::Mrecv(_, _, _) => Word::Mrecv,
            Call::PrefixAttach(_, _, _) => Word::PrefixAttach,
            Call::SuffixAttach(_, _) => Word::SuffixAttach,
            Call::TermAttach(_, _) => Word::TermAttach,
            Call::TermDone(_, _) => Word::TermDone,
            Call::PrefixDetach(_) => Word::PrefixDetach,
            Call::SuffixDetach(_) => Word::SuffixDetach,
            Call::TermDetach(_, _) => Word::TermDetach,
            Call::HttpAttach(_) => Word::HttpAttach,
            Call::HttpSendrequest(_, _, _, _) => Word::HttpSendrequest,
            Call::HttpSendstatus(_, _, _, _) => Word::HttpSendstatus,
            Call::HttpSendfield(_, _, _, _) => Word::HttpSendfield,
            Call::HttpRecvrequest(_, _) => Word::HttpRecvrequest,
            Call::HttpRecvstatus(_, _) => Word::HttpRecvstatus,
            Call::HttpRecvfield(_, _) => Word::HttpRecvfield,
            Call::HttpDone(_, _) => Word::HttpDone,
            Call::HttpDetach(_, _) => Word::HttpDetach,
            Call::WsAttachClient(_, _, _, _, _) => Word::WsAttachClient,
            Call::WsAttachServer(_, _, _) => Word::WsAttachServer,
            Call::WsAttachNohttp(_, _, _) => Word::WsAttachNohttp,
            Call::WsDetach(_, _, _, _) => Word::WsDetach,
            Call::Pass(word, _) => *word,
        }
    }

    /// The handle that it names first.
    pub fn handle(&self) -> Option<u64>
        ensures { result ≡ named_by self.now }
    {
        match self {
            Call::Hquery(handle, _) => Some(*handle),
            Call::Hown(handle) => Some(*handle),
            Call::Hclose(handle) => Some(*handle),
            Call::BundleGo(handle, _, _) => Some(*handle),
            Call::BundleWait(handle, _) => Some(*handle),
            Call::Chsend(handle, _, _) => Some(*handle),
            Call::Chrecv(handle, _, _) => Some(*handle),
            Call::Chdone(handle) => Some(*handle),
            Call::TcpAccept(handle, _) => Some(*handle),
            Call::TcpDone(handle, _) => Some(*handle),
            Call::TcpClose(handle, _) => Some(*handle),
            Call::Bsend(handle, _, _) => Some(*handle),
            Call::Brecv(handle, _, _) => Some(*handle),
            Call::Msend(handle, _, _) => Some(*handle),
            Call::Mrecv(handle, _, _) => Some(*handle),
            Call::PrefixAttach(handle, _, _) => Some(*handle),
            Call::SuffixAttach(handle, _) => Some(*handle),
            Call::TermAttach(handle, _) => Some(*handle),
            Call::TermDone(handle, _) => Some(*handle),
            Call::PrefixDetach(handle) => Some(*handle),
            Call::SuffixDetach(handle) => Some(*handle),
            Call::TermDetach(handle, _) => Some(*handle),
            Call::HttpAttach(handle) => Some(*handle),
            Call::HttpSendrequest(handle, _, _, _) => Some(*handle),
            Call::HttpSendstatus(handle, _, _, _) => Some(*handle),
            Call::HttpSendfield(handle, _, _, _) => Some(*handle),
            Call::HttpRecvrequest(handle, _) => Some(*handle),
            Call::HttpRecvstatus(handle, _) => Some(*handle),
            Call::HttpRecvfield(handle, _) => Some(*handle),
            Call::HttpDone(handle, _) => Some(*handle),
            Call::HttpDetach(handle, _) => Some(*handle),
            Call::WsAttachClient(handle, _, _, _, _) => Some(*handle),
            Call::WsAttachServer(handle, _, _) => Some(*handle),
            Call::WsAttachNohttp(handle, _, _) => Some(*handle),
            Call::WsDetach(handle, _, _, _) => Some(*handle),
            _ => None,
        }
    }

    /// How long it may wait.
    pub fn deadline(&self) -> Option<Deadline>
        ensures { result ≡ deadline_of self.now }
    {
        match self {
            Call::Msleep(deadline) => Some(*deadline),
            Call::BundleWait(_, deadline) => Some(*deadline),
            Call::Chsend(_, _, deadline) => Some(*deadline),
            Call::Chrecv(_, _, deadline) => Some(*deadline),
            Call::Choose(deadline, _) => Some(*deadline),
            Call::TcpAccept(_, deadline) => Some(*deadline),
            Call::TcpConnect(_, deadline) => Some(*deadline),
            Call::TcpDone(_, deadline) => Some(*deadline),
            Call::TcpClose(_, deadline) => Some(*deadline),
            Call::Bsend(_, _, deadline) => Some(*deadline),
            Call::Brecv(_, _, deadline) => Some(*deadline),
            Call::Msend(_, _, deadline) => Some(*deadline),
            Call::Mrecv(_, _, deadline) => Some(*deadline),
            Call::TermDone(_, deadline) => Some(*deadline),
            Call::TermDetach(_, deadline) => Some(*deadline),
            Call::HttpSendrequest(_, _, _, deadline) => Some(*deadline),
            Call::HttpSendstatus(_, _, _, deadline) => Some(*deadline),
            Call::HttpSendfield(_, _, _, deadline) => Some(*deadline),
            Call::HttpRecvrequest(_, deadline) => Some(*deadline),
            Call::HttpRecvstatus(_, deadline) => Some(*deadline),
            Call::HttpRecvfield(_, deadline) => Some(*deadline),
            Call::HttpDone(_, deadline) => Some(*deadline),
            Call::HttpDetach(_, deadline) => Some(*deadline),
            Call::WsAttachClient(_, _, _, _, deadline) => Some(*deadline),
            Call::WsAttachServer(_, _, deadline) => Some(*deadline),
            Call::WsDetach(_, _, _, deadline) => Some(*deadline),
            Call::Print(_)
            | Call::Now
            | Call::Yield
            | Call::Hmake(_, _)
            | Call::Hquery(_, _)
            | Call::Hown(_)
            | Call::Hclose(_)
            | Call::Bundle
            | Call::Go(_, _)
            | Call::BundleGo(_, _, _)
            | Call::Chmake
            | Call::Chdone(_)
            | Call::TcpListen(_, _)
            | Call::PrefixAttach(_, _, _)
            | Call::SuffixAttach(_, _)
            | Call::TermAttach(_, _)
            | Call::PrefixDetach(_)
            | Call::SuffixDetach(_)
            | Call::HttpAttach(_)
            | Call::WsAttachNohttp(_, _, _)
            | Call::Pass(_, _) => None,
        }
    }
}
