use dill_script::{Reason, Refusal};
use relay_reader::{MOST_BYTES, read_script};
use std::alloc::Global;
use std::process::Abort;
use std::test::Fail;

/// A program's name, how many arguments it takes, and how many statements it has.
type Shape = (&'static [u8], u8, usize);

fn reads(rt: &(impl Abort + AllocGlobal), text: &[u8], programs: &[Shape]) {
    match read_script(rt.alloc(), text) {
        Ok(script) => {
            assert_eq!(rt; script.as_slice().len(), programs.len(), "{text:?}");
            for (program, (name, params, statements)) in script.as_slice().iter().zip(programs) {
                assert_eq!(rt; program.name.as_slice(), *name);
                assert_eq!(rt; program.params, *params);
                assert_eq!(rt; program.statements.as_slice().len(), *statements);
            }
        }
        Err(refusal) => assert!(rt; false, "{refusal:?}: {text:?}"),
    }
}

fn refuses(rt: &(impl Abort + AllocGlobal), text: &[u8], line: u32, reason: Reason) {
    let refusal = Refusal::At { line, reason };
    assert_eq!(rt;
        read_script(rt.alloc(), text).err(),
        Some(refusal),
        "{text:?}"
    );
}

#[test]
fn scripts_are_read_program_by_program(rt: HostRuntime) {
    let cases: [(&[u8], &[Shape]); 15] = [
        (b"dill 1\nprogram main 0\nend\n", &[(b"main", 0, 0)]),
        (
            b"dill 1\nprogram main 0\nprint \"hello\"\nprint \"bye\"\nend\n",
            &[(b"main", 0, 2)],
        ),
        (
            b"dill 1\nprogram s 2\nmsleep n0\nmsleep 50\nprint n1\nend\nprogram main 0\nn0 = bundle\nbundle_go n0 s 30 1\nbundle_go n0 s 20 2\nbundle_go n0 s 10 3\nbundle_wait n0 -1\nend\n",
            &[(b"s", 2, 3), (b"main", 0, 5)],
        ),
        (
            b"dill 1\nprogram main 0\nn0 = hmake 256 7\nn1 = hown n0\ntry hquery n0 256\nn2 = hquery n1 256\nhclose n1\nend\n",
            &[(b"main", 0, 5)],
        ),
        (
            b"dill 1\nprogram leaf 0\nmsleep -1\nfinally\ntry msleep -1\nend\nprogram mid 0\nn0 = go leaf\nhclose n0\nend\nprogram main 0\nn0 = go mid\nyield\nyield\nhclose n0\nend\n",
            &[(b"leaf", 0, 3), (b"mid", 0, 2), (b"main", 0, 4)],
        ),
        (
            b"dill 1\nprogram k 1\ntry hclose n0\nend\nprogram main 0\nn0 = bundle\nbundle_go n0 k n0\nbundle_wait n0 -1\nend\n",
            &[(b"k", 1, 1), (b"main", 0, 3)],
        ),
        (
            b"dill 1\nprogram main 0\nset n0 3\nloop n0\nmsleep +10\nend\nn1 = now\nprint n1\nend\n",
            &[(b"main", 0, 6)],
        ),
        (
            b"dill 1\nprogram main 0\nloop 65536\nhmake 256 0\nend\ntry hmake 256 0\nend\n",
            &[(b"main", 0, 4)],
        ),
        (
            b"dill 1\n\n  program main 0 # go\nprint   \"a\\x41\"\nend",
            &[(b"main", 0, 1)],
        ),
        (b"dill 1\r\n\tprogram\tmain 0\r\nend\r", &[(b"main", 0, 0)]),
        (
            b"dill 1\nprogram main 0\nif n0 = 0\nelse\nif err none\nend\nend\nfinally\nif b0 != \"\"\nend\nend\n\r",
            &[(b"main", 0, 8)],
        ),
        (
            b"dill 1\nprogram main 0\ngo s n1\nend\nprogram s 1\nend\n",
            &[(b"main", 0, 1), (b"s", 1, 0)],
        ),
        (
            b"dill 1\nprogram a 0\nmsleep -1\nend\nprogram r 1\nchrecv n0 1 -1\nend\nprogram y 0\nloop\nend\nend\nprogram main 0\nn0 = bundle\nn1 n2 = chmake\nbundle_go n0 a\nbundle_go n0 r n1\nbundle_go n0 y\nhclose n0\nend\n",
            &[(b"a", 0, 1), (b"r", 1, 1), (b"y", 0, 2), (b"main", 0, 6)],
        ),
        (
            b"dill 1\nprogram s 1\ntry chsend n0 \"abc\" -1\ntry chdone n0\nend\nprogram main 0\nn0 n1 = chmake\nn2 = go s n0\ntry chrecv n1 4 -1\ntry chrecv n1 4 -1\nend\n",
            &[(b"s", 1, 2), (b"main", 0, 4)],
        ),
        (
            b"dill 1\nprogram s 1\nchsend n0 \"x\" -1\nend\nprogram main 0\nn0 n1 = chmake\nn2 n3 = chmake\ntry choose 0\ntry choose 0 recv n1 1 recv n3 1\nn4 = go s n0\nn5 = go s n2\nyield\nn6 b0 = choose -1 recv n3 1 recv n1 1\nprint n6 b0\nend\n",
            &[(b"s", 1, 1), (b"main", 0, 9)],
        ),
    ];
    for (text, programs) in cases {
        reads(&rt, text, programs);
    }
}

#[test]
fn the_first_reason_against_the_first_faulty_line_is_told(rt: HostRuntime) {
    let cases: [(&[u8], u32, Reason); 22] = [
        (b"", 1, Reason::NoVersion),
        (b"# a\n# b\n", 1, Reason::NoVersion),
        (b"dill 2 \"a\n", 1, Reason::NoVersion),
        (b"\n# a\ndill 1 1\n", 3, Reason::NoVersion),
        (b"# \x80\ndill 2\n", 1, Reason::BadByte),
        (b"dill 1\nprogram main 0\n\r now\nend\n", 3, Reason::BadByte),
        (
            b"dill 1\nprogram main 0\nprint \"a\nend\n",
            3,
            Reason::BadText,
        ),
        (
            b"dill 1\nprogram main 0\nfoo\nend\n",
            3,
            Reason::UnknownWord,
        ),
        (b"dill 1\ntcp_done\n", 2, Reason::NotBuilt),
        (
            b"dill 1\nprogram server 1\nloop 2\nn1 = tcp_accept n0 -1\nhclose n1\nend\nend\nprogram main 0\nn0 = tcp_listen 127.0.0.1:7000 16\nend\n",
            4,
            Reason::NotBuilt,
        ),
        (b"dill 1\nprogram main 0\nnow 5", 3, Reason::BadBlock),
        (b"dill 1\nprogram main 0\nend 5", 3, Reason::BadOperand),
        (b"dill 1\nprogram main 0\nfoo", 3, Reason::UnknownWord),
        (
            b"dill 1\nprogram main 0\ntry set n0 1\nend\n",
            3,
            Reason::BadOperand,
        ),
        (
            b"dill 1\nprogram main 0\nnow\ngo x\nend\n",
            4,
            Reason::NoProgram,
        ),
        (
            b"dill 1\nprogram main 0\ngo s 1\nbundle_go 1 s\nend\nprogram s 1\nend\n",
            4,
            Reason::NoProgram,
        ),
        (
            b"dill 1\nprogram main 0\nn0 = go main 1\nend\n",
            3,
            Reason::NoProgram,
        ),
        (
            b"dill 1\nprogram main 0\nend 5\nend\n",
            3,
            Reason::BadOperand,
        ),
        (b"dill 1\nprogram main 1\nend\n", 2, Reason::BadOperand),
        (
            b"dill 1\nprogram a 0\nend\nprogram a 1\nend\n",
            4,
            Reason::RepeatedName,
        ),
        (b"dill 1\nprogram a 0\ngo b\nend\n", 3, Reason::NoProgram),
        (b"dill 1\nprogram a 0\nend\n", 1, Reason::NoMain),
    ];
    for (text, line, reason) in cases {
        refuses(&rt, text, line, reason);
    }
}

#[test]
fn lines_stand_only_where_their_blocks_let_them(rt: HostRuntime) {
    let cases: [(&[u8], u32); 14] = [
        (b"dill 1\nprogram main 0\nprogram b 0\nend\n", 3),
        (b"dill 1\nprogram main 0\nelse\nend\n", 3),
        (
            b"dill 1\nprogram main 0\nif n0 = 0\nelse\nelse\nend\nend\n",
            5,
        ),
        (b"dill 1\nprogram main 0\nnow\nend\nend\n", 5),
        (b"dill 1\nprogram main 0\nif n0 = 0\nfinally\nend\nend\n", 4),
        (b"dill 1\nprogram main 0\nfinally\nfinally\nend\n", 4),
        (b"dill 1\nprogram main 0\nbreak\nend\n", 3),
        (b"dill 1\nprogram main 0\nfinally\nreturn\nend\n", 4),
        (
            b"dill 1\nprogram main 0\nfinally\nif n0 = 0\nfail EPIPE\nend\nend\n",
            5,
        ),
        (b"dill 1\nprogram main 0\nfinally\nloop\nend\nend\n", 4),
        (b"dill 1\nnow\n", 2),
        (b"dill 1\nprogram main 0\nnow\n", 3),
        (b"dill 1\nprogram main 0\nnow\n\n# end\n", 5),
        (b"dill 1\nprogram main 0\nif n0 = 0\nend 5\n", 4),
    ];
    for (text, line) in cases {
        refuses(&rt, text, line, Reason::BadBlock);
    }
}

/// The lines of a text, one of them so often.
fn repeated(
    alloc: Global,
    head: &[u8],
    line: &[u8],
    count: usize,
    tail: &[u8],
) -> Result<Vec<u8>, Fail> {
    let mut text = Vec::from_slice(alloc, head)?;
    for _ in 0..count {
        text.extend_from_slice(line)?;
    }
    text.extend_from_slice(tail)?;
    Ok(text)
}

/// So many programs without statements, and no `main`.
fn empty_programs(alloc: Global, count: u32) -> Result<Vec<u8>, Fail> {
    let mut text = Vec::from_slice(alloc, b"dill 1\n")?;
    for number in 0..count {
        let program = format!(in alloc; "program p{number} 0\nend\n")?;
        text.extend_from_slice(program.as_bytes())?;
    }
    Ok(text)
}

#[test]
fn the_line_that_passes_a_limit_is_told(rt: HostRuntime) -> Result<(), Fail> {
    let alloc = rt.alloc();
    let head = b"dill 1\nprogram main 0\n";
    let places = repeated(alloc, head, b"now\n", 4096, b"end\n")?;
    reads(&rt, places.as_slice(), &[(b"main", 0, 4096)]);
    let places = repeated(alloc, head, b"now\n", 4097, b"end\n")?;
    refuses(&rt, places.as_slice(), 4099, Reason::TooLarge);
    let blocks = repeated(alloc, head, b"if n0 = 0\n", 16, b"end\n")?;
    refuses(&rt, blocks.as_slice(), 18, Reason::TooLarge);
    let loops = repeated(alloc, head, b"loop\n", 5, b"end\n")?;
    refuses(&rt, loops.as_slice(), 7, Reason::TooLarge);
    let programs = empty_programs(alloc, 256)?;
    refuses(&rt, programs.as_slice(), 1, Reason::NoMain);
    let programs = empty_programs(alloc, 257)?;
    refuses(&rt, programs.as_slice(), 514, Reason::TooLarge);
    Ok(())
}

#[test]
fn a_text_of_more_bytes_is_refused_at_its_first_line(rt: HostRuntime) -> Result<(), Fail> {
    let alloc = rt.alloc();
    let head = b"dill 1\nprogram main 0\nend\n";
    let most = repeated(alloc, head, b"\n", MOST_BYTES - head.len(), b"")?;
    reads(&rt, most.as_slice(), &[(b"main", 0, 0)]);
    let more = repeated(alloc, head, b"\n", MOST_BYTES - head.len(), b"\n")?;
    refuses(&rt, more.as_slice(), 1, Reason::TooLarge);
    Ok(())
}
