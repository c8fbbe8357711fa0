ghost use Rattle.std.specs.Prelude.{◌≤◌};

use dill_base::{Errno, Front, WriteFault};
use dill_frames::{
    PrefixForm, is_terminal, prefix_fits, prefix_read, prefix_write, suffix_fits, suffix_read,
    suffix_write,
};
use std::alloc::Global;
use std::process::Abort;
use std::test::Fail;

const BIG: PrefixForm = PrefixForm {
    size: 2,
    little: false,
};

const LITTLE: PrefixForm = PrefixForm {
    size: 2,
    little: true,
};

#[test]
fn a_message_behind_its_length_is_read_with_its_last_byte_and_not_before(
    rt: HostRuntime,
) -> Result<(), Fail> {
    spelled(&rt, rt.alloc(), BIG, b"hello", b"\x00\x05hello")?;
    spelled(&rt, rt.alloc(), LITTLE, b"hello", b"\x05\x00hello")?;
    spelled(&rt, rt.alloc(), BIG, b"", b"\x00\x00")
}

#[test]
fn a_length_above_the_limit_is_refused_with_its_last_byte_and_not_before(rt: HostRuntime) {
    let eight = PrefixForm {
        size: 8,
        little: false,
    };
    let one = PrefixForm {
        size: 1,
        little: false,
    };
    turns(&rt, eight, &[255; 8], 10, Front::Fault(Errno::Emsgsize));
    turns(&rt, one, &[5], 4, Front::Fault(Errno::Emsgsize));
}

// The message is sent as these bytes, and read from them.
fn spelled(
    rt: &impl Abort,
    alloc: Global,
    form: PrefixForm,
    message: &[u8],
    bytes: &[u8],
) -> Result<(), Fail>
    requires { form.size ≤ 8 }
{
    let sent = prefix_write(alloc, form, message)?;
    assert_eq!(rt; sent.as_slice(), bytes);
    let used = bytes.len();
    let whole = Front::Whole {
        from: form.size as usize,
        to: used,
        used,
    };
    turns(rt, form, bytes, 5, whole);
    Ok(())
}

// Each shorter front of the bytes is open, and the bytes are this.
fn turns(rt: &impl Abort, form: PrefixForm, bytes: &[u8], limit: usize, front: Front)
    requires { form.size ≤ 8 }
{
    for count in 0..bytes.len() {
        assert_eq!(rt;
            prefix_read(form, &bytes[..count], limit),
            Front::Need,
            "at {count}"
        );
    }
    assert_eq!(rt; prefix_read(form, bytes, limit), front);
}

#[test]
fn two_bytes_of_length_carry_65_535_bytes_and_no_more(rt: HostRuntime) -> Result<(), Fail> {
    let message = vec![in rt.alloc(); 7u8; 65_536]?;
    assert!(rt; prefix_fits(BIG, 65_535));
    assert!(rt; !prefix_fits(BIG, 65_536));
    let long = prefix_write(rt.alloc(), BIG, message.as_slice()).err();
    assert_eq!(rt; long, Some(WriteFault::Refused(Errno::Emsgsize)));
    let sent = prefix_write(rt.alloc(), BIG, &message[..65_535])?;
    assert_eq!(rt; sent.as_slice().len(), 65_537);
    Ok(())
}

#[test]
fn a_message_may_end_in_a_part_of_its_terminator_and_holds_no_whole_one(
    rt: HostRuntime,
) -> Result<(), Fail> {
    let sent = suffix_write(rt.alloc(), b"\r\n", b"ab\r")?;
    let bytes: &[u8] = b"ab\r\r\n";
    assert_eq!(rt; sent.as_slice(), bytes);
    let whole = Front::Whole {
        from: 0,
        to: 3,
        used: 5,
    };
    assert_eq!(rt; suffix_read(b"\r\n", bytes, 3), whole);
    assert!(rt; suffix_fits(b"\r\n", b"ab\r"));
    assert!(rt; !suffix_fits(b"\r\n", b"a\r\nb"));
    let held = suffix_write(rt.alloc(), b"\r\n", b"a\r\nb").err();
    assert_eq!(rt; held, Some(WriteFault::Refused(Errno::Einval)));
    // The terminator `aa` behind the message `a` ends one byte too early.
    let early = suffix_write(rt.alloc(), b"aa", b"a").err();
    assert_eq!(rt; early, Some(WriteFault::Refused(Errno::Einval)));
    Ok(())
}

#[test]
fn a_line_above_the_limit_is_refused_once_limit_and_terminator_are_full(rt: HostRuntime) {
    let rows: [(&[u8], Front); 4] = [
        (b"", Front::Need),
        (b"abcde", Front::Need),
        (b"abcde\r", Front::Fault(Errno::Emsgsize)),
        (b"abcde\r\n", Front::Fault(Errno::Emsgsize)),
    ];
    for (bytes, front) in rows {
        assert_eq!(rt; suffix_read(b"\r\n", bytes, 4), front, "at {}", bytes.len());
    }
}

#[test]
fn the_terminal_message_is_told_by_all_of_its_bytes(rt: HostRuntime) {
    let rows: [(&[u8], bool); 4] = [
        (b"bye", true),
        (b"by", false),
        (b"byes", false),
        (b"", false),
    ];
    for (message, terminal) in rows {
        assert_eq!(rt; is_terminal(b"bye", message), terminal);
    }
}
