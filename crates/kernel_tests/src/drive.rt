use crate::visitor::Visitor;
use dill_base::{MemSink, Octets};
use dill_drive::{RunEnd, drive};
use dill_kernel::{KernelReply, ReadyList, ReplayKernel};
use rand_pcg::Lcg64Xsh32;
use std::test::Fail;

#[test]
fn the_driver_asks_for_what_is_due_and_for_the_closes_after_the_end(
    rt: HostRuntime,
) -> Result<(), Fail> {
    let alloc = rt.alloc();
    let came = Octets::from_slice(alloc, b"ok")?;
    let replies = vec![in alloc;
        KernelReply::Woke(0, ReadyList::new()),
        KernelReply::Done,
        KernelReply::Done,
        KernelReply::Took(2),
        KernelReply::Came(came),
    ]?;
    let Ok(mut out) = MemSink::new(alloc, 1000, Vec::new(alloc)) else {
        return Err(Fail::from("memory"));
    };
    let mut kernel = ReplayKernel::new(alloc, replies);
    let end = drive(
        Visitor::new(),
        false,
        10,
        &mut kernel,
        &mut out,
        &mut Lcg64Xsh32::new(1, 1),
    );
    assert_eq!(rt; end, RunEnd::Ended);
    let asked = [
        "Wait(NoWait)",
        "Listen(1, Address { ip: [127, 0, 0, 1], port: 7000 }, 16)",
        "Connect(2, Address { ip: [127, 0, 0, 1], port: 7000 })",
        "Write(2, Octets { bytes: [104, 105] })",
        "Read(2, 4096)",
        "Close(1)",
        "Close(2)",
    ];
    let history = kernel.history().unwrap_or(&[]);
    assert_eq!(rt; history.len(), asked.len());
    for at in 0..history.len() {
        let told = format!(in alloc; "{:?}", history[at].ask)?;
        assert_eq!(rt; Some(&told.as_str()), asked.get(at));
    }
    Ok(())
}
