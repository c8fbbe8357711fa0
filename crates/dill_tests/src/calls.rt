use crate::values::{memory, octets};
use dill_base::Deadline;
use dill_calls::{Answer, Arg, Args, Call, Clause, Clauses, Word};
use std::test::Fail;

/// Each word with its name and the letters of its classes: it blocks, makes, takes, gives a stack up, or does none of these.
const TABLE: [(Word, &[u8], &[u8]); 49] = [
    (Word::Print, b"print", b"N"),
    (Word::Now, b"now", b"N"),
    (Word::Yield, b"yield", b"B"),
    (Word::Msleep, b"msleep", b"B"),
    (Word::Hmake, b"hmake", b"M"),
    (Word::Hquery, b"hquery", b"N"),
    (Word::Hown, b"hown", b"T"),
    (Word::Hclose, b"hclose", b"T"),
    (Word::Bundle, b"bundle", b"M"),
    (Word::Go, b"go", b"M"),
    (Word::BundleGo, b"bundle_go", b"M"),
    (Word::BundleWait, b"bundle_wait", b"B"),
    (Word::Chmake, b"chmake", b"M"),
    (Word::Chsend, b"chsend", b"B"),
    (Word::Chrecv, b"chrecv", b"B"),
    (Word::Chdone, b"chdone", b"N"),
    (Word::Choose, b"choose", b"B"),
    (Word::TcpListen, b"tcp_listen", b"BM"),
    (Word::TcpAccept, b"tcp_accept", b"BM"),
    (Word::TcpConnect, b"tcp_connect", b"BM"),
    (Word::TcpDone, b"tcp_done", b"B"),
    (Word::TcpClose, b"tcp_close", b"BTG"),
    (Word::Bsend, b"bsend", b"B"),
    (Word::Brecv, b"brecv", b"B"),
    (Word::Msend, b"msend", b"B"),
    (Word::Mrecv, b"mrecv", b"B"),
    (Word::PrefixAttach, b"prefix_attach", b"MT"),
    (Word::SuffixAttach, b"suffix_attach", b"MT"),
    (Word::TermAttach, b"term_attach", b"MT"),
    (Word::TermDone, b"term_done", b"B"),
    (Word::PrefixDetach, b"prefix_detach", b"MTG"),
    (Word::SuffixDetach, b"suffix_detach", b"MTG"),
    (Word::TermDetach, b"term_detach", b"BMTG"),
    (Word::HttpAttach, b"http_attach", b"MT"),
    (Word::HttpSendrequest, b"http_sendrequest", b"B"),
    (Word::HttpSendstatus, b"http_sendstatus", b"B"),
    (Word::HttpSendfield, b"http_sendfield", b"B"),
    (Word::HttpRecvrequest, b"http_recvrequest", b"B"),
    (Word::HttpRecvstatus, b"http_recvstatus", b"B"),
    (Word::HttpRecvfield, b"http_recvfield", b"B"),
    (Word::HttpDone, b"http_done", b"B"),
    (Word::HttpDetach, b"http_detach", b"BMTG"),
    (Word::WsAttachClient, b"ws_attach_client", b"BMT"),
    (Word::WsAttachServer, b"ws_attach_server", b"BMT"),
    (Word::WsAttachNohttp, b"ws_attach_nohttp", b"MT"),
    (Word::WsDetach, b"ws_detach", b"BMTG"),
    (Word::Set, b"set", b"N"),
    (Word::Join, b"join", b"N"),
    (Word::Start, b"start", b"N"),
];

/// Whether it blocks, makes, takes and gives up, by their letters, and whether it draws a number.
fn classes_of(word: Word, letters: &[u8]) -> [bool; 5] {
    let makes = letters.contains(&b'M');
    [
        letters.contains(&b'B'),
        makes,
        letters.contains(&b'T'),
        letters.contains(&b'G'),
        makes || word == Word::Hown,
    ]
}

#[test]
fn each_word_has_its_name_and_its_classes(rt: HostRuntime) {
    for (word, name, letters) in TABLE {
        assert_eq!(rt; word.name(), name);
        let told = [
            word.blocks(),
            word.makes(),
            word.takes(),
            word.gives_up(),
            word.draws(),
        ];
        assert_eq!(rt; told, classes_of(word, letters), "{word:?}");
    }
    assert!(rt; !Word::Start.is_quiet() && Word::Hclose.is_quiet() && Word::TcpClose.is_quiet());
    assert!(rt;
        Word::Brecv.takes_memory() && !Word::TermDone.takes_memory() && !Word::Hclose.takes_memory()
    );
}

#[test]
fn a_call_knows_its_word_its_handle_and_its_deadline(rt: HostRuntime) -> Result<(), Fail> {
    let alloc = rt.alloc();
    let send = Call::Msend(4, octets(alloc, b"hi")?, Deadline::After(7));
    assert_eq!(rt; send.word(), Word::Msend);
    assert_eq!(rt; send.handle(), Some(4));
    assert_eq!(rt; send.deadline(), Some(Deadline::After(7)));
    let pass = Call::Pass(Word::Join, None);
    assert_eq!(rt; pass.word(), Word::Join);
    assert_eq!(rt; pass.handle(), None);
    let make = Call::Hmake(256, 1);
    assert_eq!(rt; make.handle(), None);
    assert_eq!(rt; make.deadline(), None);
    let _told = Answer::Number(1);
    Ok(())
}

#[test]
fn arguments_and_clauses_keep_their_order(rt: HostRuntime) -> Result<(), Fail> {
    let alloc = rt.alloc();
    let mut args = Args::new(alloc);
    memory(args.push(Arg::Show(3)))?;
    memory(args.push(Arg::Give(5)))?;
    assert_eq!(rt; args.as_slice(), [Arg::Show(3), Arg::Give(5)].as_slice());
    let mut clauses = Clauses::new(alloc);
    memory(clauses.push(Clause::Recv(1, 2)))?;
    memory(clauses.push(Clause::Send(3, octets(alloc, b"x")?)))?;
    assert_eq!(rt; clauses.as_slice().len(), 2);
    assert!(rt; matches!(&clauses.as_slice()[0], Clause::Recv(1, 2)));
    Ok(())
}

#[test]
fn channels_are_built_and_links_are_not(rt: HostRuntime) {
    assert!(rt; Word::Chmake.is_built());
    assert!(rt; !Word::TcpDone.is_built());
}
