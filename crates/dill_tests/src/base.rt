use crate::values::{memory, octets};
use dill_base::{Deadline, FileShelf, MemShelf, MemSink, OutSink, Piece, Shelf, Sink};
use std::alloc::Global;
use std::fs;
use std::process::Abort;
use std::test::Fail;

/// A shelf with the files `a` of six bytes and `b` of none, whose calls of one number fail.
fn shelf(alloc: Global, fails: u64) -> Result<MemShelf, Fail> {
    let mut files = Vec::new(alloc);
    files.push((octets(alloc, b"a")?, octets(alloc, b"hello!")?))?;
    files.push((octets(alloc, b"b")?, octets(alloc, b"")?))?;
    Ok(MemShelf::new(files, vec![in alloc; fails]?))
}

fn reads<F: Shelf>(rt: &impl Abort, shelf: &mut F, pieces: &[Piece]) {
    let mut buffer = [0u8; 4];
    for piece in pieces {
        assert_eq!(rt; shelf.read(&mut buffer), *piece);
    }
}

#[test]
fn a_shelf_gives_its_files_in_pieces_and_fails_by_the_numbers_of_its_calls(
    rt: HostRuntime,
) -> Result<(), Fail> {
    let mut whole = shelf(rt.alloc(), 0)?;
    reads(&rt, &mut whole, &[Piece::End]);
    assert!(rt; whole.start("a").is_ok());
    reads(
        &rt,
        &mut whole,
        &[Piece::Got(4), Piece::Got(2), Piece::End, Piece::End],
    );
    assert!(rt; whole.start("c").is_err(), "a name that isn't there");
    assert!(rt; whole.start("b").is_ok());
    reads(&rt, &mut whole, &[Piece::End]);
    let mut broken = shelf(rt.alloc(), 2)?;
    assert!(rt; broken.start("a").is_ok());
    reads(
        &rt,
        &mut broken,
        &[Piece::Failed, Piece::Got(4), Piece::Got(2)],
    );
    let mut shut = shelf(rt.alloc(), 1)?;
    assert!(rt; shut.start("a").is_err());
    Ok(())
}

#[test]
fn a_sink_holds_what_went_out_and_fails_at_its_room(rt: HostRuntime) -> Result<(), Fail> {
    let alloc = rt.alloc();
    let mut sink = memory(MemSink::new(alloc, 5, vec![in alloc; 2u64]?))?;
    assert!(rt; sink.write(b"abc").is_ok());
    assert!(rt;
        sink.write(b"d").is_err(),
        "the second call fails before any byte"
    );
    assert_eq!(rt; sink.bytes(), b"abc".as_slice());
    assert!(rt; sink.write(b"def").is_err(), "only two more bytes fit");
    assert_eq!(rt; sink.bytes(), b"abcde".as_slice());
    assert!(rt; sink.write(b"").is_ok());
    Ok(())
}

#[test]
fn real_files_are_read_to_their_end_and_a_missing_one_is_not_started(
    rt: HostRuntime,
) -> Result<(), Fail> {
    fs::write(&rt, "dill_base_shelf.txt", b"hello!")?;
    let mut shelf = FileShelf::new(&rt);
    assert!(rt; shelf.start("dill_base_shelf.txt").is_ok());
    reads(&rt, &mut shelf, &[Piece::Got(4), Piece::Got(2), Piece::End]);
    assert!(rt; shelf.start("dill_base_no_such_file.txt").is_err());
    fs::remove_file(&rt, "dill_base_shelf.txt")?;
    Ok(())
}

#[test]
fn a_writer_takes_all_bytes_of_a_sink(rt: HostRuntime) -> Result<(), Fail> {
    let mut sink = OutSink::new(Vec::<u8>::new(rt.alloc()));
    assert!(rt; sink.write(b"hello\n").is_ok());
    assert!(rt; sink.write(b"").is_ok());
    Ok(())
}

#[test]
fn deadlines_pass_at_their_moment(rt: HostRuntime) {
    let last = 9_223_372_036_854_775_807;
    let cases = [
        (Deadline::Never, 5, Deadline::Never, false),
        (Deadline::At(0), 0, Deadline::At(0), true),
        (Deadline::At(6), 5, Deadline::At(6), false),
        (Deadline::After(1), 5, Deadline::At(6), false),
        (Deadline::After(0), 5, Deadline::At(5), true),
        (Deadline::After(last), 5, Deadline::At(last), false),
    ];
    for (deadline, moment, entered, passed) in cases {
        assert_eq!(rt;
            deadline.entered(moment),
            entered,
            "{deadline:?} at {moment}"
        );
        assert_eq!(rt;
            entered.has_passed(moment),
            passed,
            "{deadline:?} at {moment}"
        );
    }
}
