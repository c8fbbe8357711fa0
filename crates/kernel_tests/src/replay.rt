use crate::asks::{Ask, plays};
use dill_base::Octets;
use dill_kernel::{KernelFault, KernelReply, Limit, Ready, ReadyList, ReplayKernel};
use std::test::Fail;

#[test]
fn a_replay_answers_each_call_from_its_list_and_keeps_what_it_was_asked(
    rt: HostRuntime,
) -> Result<(), Fail> {
    let alloc = rt.alloc();
    let came = Octets::from_slice(alloc, b"hello")?;
    let mut links = ReadyList::new();
    links.push(Ready {
        link: 7,
        read: true,
        write: false,
    });
    let replies = vec![in alloc;
        KernelReply::Woke(5, links),
        KernelReply::Done,
        KernelReply::Done,
        KernelReply::NotYet,
        KernelReply::Done,
        KernelReply::Came(came),
        KernelReply::Took(2),
        KernelReply::Done,
    ]?;
    let mut kernel = ReplayKernel::new(alloc, replies);
    let table = vec![in alloc;
        (
            Ask::Wait(Limit::NoWait),
            "Ok(5) 1 Ready { link: 7, read: true, write: false }"
        ),
        (Ask::Listen(1, 16), "Ok(())"),
        (Ask::Connect(7), "Ok(())"),
        (Ask::Finish(7), "NotYet"),
        (Ask::Accept(1, 8), "Made"),
        (
            Ask::Read(7, 8),
            "Moved(5) [104, 101, 108, 108, 111, 0, 0, 0]"
        ),
        (Ask::Write(7, b"hi"), "Moved(2)"),
        (Ask::Close(8), "closed"),
        (Ask::Shut(7), "Ok(())"),
    ]?;
    plays(&rt, alloc, &mut kernel, table)?;
    let asked = [
        "Wait(NoWait)",
        "Listen(1, Address { ip: [127, 0, 0, 1], port: 7000 }, 16)",
        "Connect(7, Address { ip: [127, 0, 0, 1], port: 7000 })",
        "Finish(7)",
        "Accept(1, 8)",
        "Read(7, 8)",
        "Write(7, Octets { bytes: [104, 105] })",
        "Close(8)",
        "Shut(7)",
    ];
    let history = kernel.history().unwrap_or(&[]);
    assert_eq!(rt; history.len(), asked.len());
    for at in 0..history.len() {
        let told = format!(in alloc; "{:?}", history[at].ask)?;
        assert_eq!(rt; Some(&told.as_str()), asked.get(at));
    }
    Ok(())
}

#[test]
fn a_reply_that_is_missing_or_of_another_kind_is_a_failure_and_is_used_up(
    rt: HostRuntime,
) -> Result<(), Fail> {
    let alloc = rt.alloc();
    let replies = vec![in alloc;
        KernelReply::Took(9),
        KernelReply::Done,
        KernelReply::Failed(KernelFault::NoMemory),
        KernelReply::Failed(KernelFault::NoMemory),
        KernelReply::Failed(KernelFault::Reset),
    ]?;
    let mut kernel = ReplayKernel::new(alloc, replies);
    let table = vec![in alloc;
        (Ask::Write(7, b"hi"), "Failed(Other)"),
        (Ask::Read(7, 1), "Failed(Other) [0]"),
        (Ask::Finish(7), "Failed(Other)"),
        (Ask::Accept(1, 8), "Failed(NoMemory)"),
        (Ask::Read(7, 1), "Failed(Reset) [0]"),
        (Ask::Shut(7), "Err(Other)"),
        (Ask::Wait(Limit::Until(9)), "Err(Other)"),
        (Ask::Close(7), "closed"),
    ]?;
    plays(&rt, alloc, &mut kernel, table)?;
    assert_eq!(rt; kernel.history().map(|history| history.len()), Some(8));
    Ok(())
}
