use crate::values::{memory, octets};
use dill_base::{Errno, MemSink, Sink, Status};
use dill_calls::{Answer, Counts, Note, Ran, Word};
use relay_trace::{Summary, write_line, write_note, write_ran, write_summary, write_waiting};
use std::alloc::Global;
use std::process::Abort;
use std::test::Fail;

fn sink(alloc: Global, fails: u64) -> Result<MemSink, Fail> {
    memory(MemSink::new(alloc, 20_000, vec![in alloc; fails]?))
}

fn turn(word: Word, given: Answer) -> Ran {
    Ran {
        who: 12,
        word,
        given,
        lack: None,
        end: None,
        text: None,
    }
}

/// Whether the lines of a turn could be written.
fn writes(ran: &Ran, traced: bool, out: &mut MemSink) -> bool {
    write_ran(ran, traced, out).is_ok()
}

fn shows(rt: &(impl Abort + AllocGlobal), ran: &Ran, lines: &str) -> Result<(), Fail> {
    let mut out = sink(rt.alloc(), 0)?;
    assert!(rt; writes(ran, true, &mut out));
    assert_eq!(rt; out.bytes(), lines.as_bytes());
    Ok(())
}

#[test]
fn each_form_of_answer_has_its_line(rt: HostRuntime) -> Result<(), Fail> {
    let alloc = rt.alloc();
    shows(&rt, &turn(Word::Start, Answer::Number(0)), "12 start =0\n")?;
    shows(
        &rt,
        &turn(Word::Chmake, Answer::Pair(1, 2)),
        "12 chmake =1,2\n",
    )?;
    shows(
        &rt,
        &turn(Word::Brecv, Answer::Bytes(octets(alloc, b"a\xff\n")?)),
        "12 brecv #3:61ff0a\n",
    )?;
    let two = Answer::Two(octets(alloc, b"POST")?, octets(alloc, b"")?);
    shows(
        &rt,
        &turn(Word::HttpRecvrequest, two),
        "12 http_recvrequest #4:504f5354 #0:\n",
    )?;
    let coded = Answer::Coded(200, octets(alloc, b"OK")?);
    shows(
        &rt,
        &turn(Word::HttpRecvstatus, coded),
        "12 http_recvstatus =200 #2:4f4b\n",
    )?;
    let chosen = [
        (Some(Errno::Epipe), None, "12 choose @1 EPIPE\n"),
        (None, None, "12 choose @1 =0\n"),
    ];
    for (fault, bytes, line) in chosen {
        let answer = Answer::Chosen {
            index: 1,
            fault,
            bytes,
        };
        shows(&rt, &turn(Word::Choose, answer), line)?;
    }
    let received = Answer::Chosen {
        index: 0,
        fault: None,
        bytes: Some(octets(alloc, b"x")?),
    };
    shows(&rt, &turn(Word::Choose, received), "12 choose @0 #1:78\n")?;
    shows(
        &rt,
        &turn(Word::Msleep, Answer::Fault(Errno::Ecanceled)),
        "12 msleep ECANCELED\n",
    )?;
    let mut last = turn(Word::Print, Answer::Number(0));
    last.end = Some(Some(Errno::Ebadf));
    last.text = Some(octets(alloc, b"bye")?);
    shows(&rt, &last, "12 print =0\n12 end EBADF\nbye\n")
}

#[test]
fn notes_waiting_programs_and_the_summary_have_their_lines(rt: HostRuntime) -> Result<(), Fail> {
    let mut out = sink(rt.alloc(), 0)?;
    let sum = Summary {
        status: Status::Fault,
        errno: Some(Errno::Ebadf),
        turns: 2,
        rounds: 1,
        closing: 0,
        counts: Counts {
            made: 3,
            gone: 4,
            lacks: 18_446_744_073_709_551_615,
        },
    };
    assert!(rt; write_note(Note::Moved(1, 2), &mut out).is_ok());
    assert!(rt; write_note(Note::Freed(2), &mut out).is_ok());
    assert!(rt; write_waiting(1, Word::BundleWait, &mut out).is_ok());
    assert!(rt; write_summary(&sum, &mut out).is_ok());
    let lines = "moved 1 2\nfreed 2\nwaiting 1 bundle_wait\n\
        summary status=1 errno=EBADF turns=2 rounds=1 closing=0 made=3 gone=4 lacks=18446744073709551615\n";
    assert_eq!(rt; out.bytes(), lines.as_bytes());
    Ok(())
}

#[test]
fn a_long_line_goes_out_in_pieces_of_4096_bytes(rt: HostRuntime) -> Result<(), Fail> {
    let alloc = rt.alloc();
    let long = vec![in alloc; b'a'; 8192]?;
    let mut out = sink(alloc, 0)?;
    assert!(rt; write_line(long.as_slice(), &mut out).is_ok());
    assert_eq!(rt; out.bytes().len(), 8193);
    let mut once = sink(alloc, 2)?;
    assert!(rt;
        write_line(&long.as_slice()[..4095], &mut once).is_ok(),
        "with its LF it is one piece"
    );
    let mut broken = sink(alloc, 3)?;
    assert!(rt;
        write_line(long.as_slice(), &mut broken).is_err(),
        "the third piece is the LF"
    );
    assert_eq!(rt; broken.bytes().len(), 8192);
    let mut second = sink(alloc, 2)?;
    let hex = turn(Word::Mrecv, Answer::Bytes(octets(alloc, long.as_slice())?));
    assert!(rt; !writes(&hex, true, &mut second));
    assert_eq!(rt; second.bytes().len(), 4096);
    Ok(())
}
