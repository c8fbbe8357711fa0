use dill_base::Address;
use dill_kernel::{
    Finished, Flow, Kernel, KernelFault, KernelReply, Limit, Made, Ready, ReadyList, ReplayKernel,
};
use dill_loop::LoopKernel;
use std::test::Fail;

#[test]
fn a_network_without_links_keeps_the_clock(rt: HostRuntime) -> Result<(), Fail> {
    let mut kernel = LoopKernel::new(rt.alloc(), 4096)?;
    let mut ready = ReadyList::new();
    let waits = [
        (Limit::NoWait, Ok(0)),
        (Limit::Until(30), Ok(30)),
        (Limit::Until(10), Ok(30)),
        (Limit::Forever, Err(KernelFault::Other)),
        (Limit::NoWait, Ok(30)),
    ];
    for (limit, told) in waits {
        assert_eq!(rt; kernel.wait(limit, &mut ready), told, "{limit:?}");
        assert_eq!(rt; ready.len(), 0);
    }
    Ok(())
}

#[test]
fn a_wait_may_fail_and_leaves_no_link_ready(rt: HostRuntime) -> Result<(), Fail> {
    let alloc = rt.alloc();
    let replies = vec![in alloc;
        KernelReply::Failed(KernelFault::Other),
        KernelReply::Woke(30, ReadyList::new()),
    ]?;
    let mut kernel = ReplayKernel::new(alloc, replies);
    let mut ready = ReadyList::new();
    for told in [Err(KernelFault::Other), Ok(30)] {
        assert_eq!(rt; kernel.wait(Limit::NoWait, &mut ready), told);
        assert_eq!(rt; ready.len(), 0);
    }
    Ok(())
}

#[test]
fn a_kernel_without_replies_makes_no_link(rt: HostRuntime) {
    let alloc = rt.alloc();
    let mut kernel = ReplayKernel::new(alloc, Vec::new(alloc));
    let here = Address {
        ip: [127, 0, 0, 1],
        port: 7000,
    };
    let mut buffer = [0u8; 4];
    assert_eq!(rt; kernel.listen(1, here, 16), Err(KernelFault::Other));
    assert_eq!(rt; kernel.connect(1, here), Err(KernelFault::Other));
    assert_eq!(rt;
        kernel.finish_connect(1),
        Finished::Failed(KernelFault::Other)
    );
    assert_eq!(rt; kernel.accept(1, 2), Made::Failed(KernelFault::Other));
    assert_eq!(rt;
        kernel.read(1, &mut buffer),
        Flow::Failed(KernelFault::Other)
    );
    assert_eq!(rt; kernel.write(1, b"hi"), Flow::Failed(KernelFault::Other));
    assert_eq!(rt; kernel.shut(1), Err(KernelFault::Other));
    kernel.close(1);
}

#[test]
fn ready_links_keep_their_order(rt: HostRuntime) {
    let mut ready = ReadyList::new();
    for link in 0..256u64 {
        let one = Ready {
            link,
            read: link % 2 == 0,
            write: true,
        };
        if ready.len() < 256 {
            ready.push(one);
        }
    }
    assert_eq!(rt; ready.len(), 256);
    assert_eq!(rt; ready.get(255).link, 255);
    assert!(rt; ready.get(254).read && !ready.get(255).read);
    ready.clear();
    assert_eq!(rt; ready.len(), 0);
}
