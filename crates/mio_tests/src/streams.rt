use crate::support::{MIB, Still, accepted, came, finished, home, listening, moved, told};
use dill_kernel::{Finished, Flow, Kernel, KernelFault, Limit, Made, ReadyList};
use relay_mio::MioKernel;
use std::test::Fail;

#[test]
fn a_stream_to_itself_carries_a_mebibyte_both_ways_and_ends(rt: HostRuntime) -> Result<(), Fail> {
    let mut kernel = MioKernel::new(rt.alloc(), rt, Still { moment: 0 })?;
    let at = listening(&mut kernel, 1, 21000).unwrap_or(home(1));
    assert_eq!(rt; kernel.accept(1, 2), Made::NotYet);
    assert_eq!(rt; kernel.connect(2, at), Ok(()));
    assert_eq!(rt; told(&mut kernel, 1), Some((true, false)));
    assert_eq!(rt; finished(&mut kernel, 2), Finished::Done);
    assert_eq!(rt; accepted(&mut kernel, 1, 3), Made::Made);
    assert_eq!(rt; moved(&mut kernel, 2, 3), MIB);
    assert_eq!(rt; moved(&mut kernel, 3, 2), MIB);
    let mut buf = [0u8; 5000];
    assert_eq!(rt; kernel.read(3, &mut buf), Flow::NotYet);
    assert_eq!(rt; kernel.shut(2), Ok(()));
    assert_eq!(rt; came(&mut kernel, 3, &mut buf), Flow::End);
    assert_eq!(rt; kernel.write(3, b"still"), Flow::Moved(5));
    assert_eq!(rt; came(&mut kernel, 2, &mut buf), Flow::Moved(5));
    kernel.close(3);
    assert_eq!(rt; came(&mut kernel, 2, &mut buf), Flow::End);
    kernel.close(2);
    kernel.close(1);
    kernel.close(1);
    assert_eq!(rt; kernel.read(2, &mut buf), Flow::Failed(KernelFault::Other));
    Ok(())
}

#[test]
fn a_wait_ends_at_its_limit_with_the_moment_of_the_clock(rt: HostRuntime) -> Result<(), Fail> {
    let mut kernel = MioKernel::new(rt.alloc(), rt, Still { moment: 70 })?;
    let mut ready = ReadyList::new();
    assert_eq!(rt; kernel.wait(Limit::NoWait, &mut ready), Ok(70));
    assert_eq!(rt; kernel.wait(Limit::Until(60), &mut ready), Ok(70));
    assert_eq!(rt; kernel.wait(Limit::Until(90), &mut ready), Ok(70));
    assert_eq!(rt; ready.len(), 0);
    Ok(())
}

#[test]
fn what_nobody_listens_at_is_refused_and_a_port_is_one_listeners(
    rt: HostRuntime,
) -> Result<(), Fail> {
    let mut kernel = MioKernel::new(rt.alloc(), rt, Still { moment: 0 })?;
    let begun = kernel.connect(1, home(1));
    let refused = match begun {
        Ok(()) => finished(&mut kernel, 1) == Finished::Failed(KernelFault::Refused),
        Err(fault) => fault == KernelFault::Refused,
    };
    assert!(rt; refused);
    kernel.close(1);
    assert_eq!(rt; kernel.listen(2, home(22600), 0), Err(KernelFault::Other));
    assert_eq!(rt;
        kernel.listen(2, home(22600), 4097),
        Err(KernelFault::Other)
    );
    let at = listening(&mut kernel, 2, 22000).unwrap_or(home(1));
    assert_eq!(rt; kernel.listen(3, at, 16), Err(KernelFault::InUse));
    assert_eq!(rt; kernel.listen(2, home(22601), 16), Err(KernelFault::Other));
    assert_eq!(rt; kernel.shut(2), Err(KernelFault::Other));
    kernel.close(2);
    assert_eq!(rt; kernel.listen(3, at, 16), Ok(()));
    kernel.close(3);
    Ok(())
}

#[test]
fn a_write_to_a_peer_that_has_gone_is_reset(rt: HostRuntime) -> Result<(), Fail> {
    let mut kernel = MioKernel::new(rt.alloc(), rt, Still { moment: 0 })?;
    let at = listening(&mut kernel, 1, 23000).unwrap_or(home(1));
    assert_eq!(rt; kernel.connect(2, at), Ok(()));
    assert_eq!(rt; finished(&mut kernel, 2), Finished::Done);
    assert_eq!(rt; accepted(&mut kernel, 1, 3), Made::Made);
    kernel.close(3);
    assert_eq!(rt; kernel.write(2, b"first"), Flow::Moved(5));
    let mut ready = ReadyList::new();
    let mut flow = Flow::NotYet;
    for _ in 0..100u64 {
        flow = kernel.write(2, b"next");
        if let Flow::Failed(_) = flow {
            break;
        }
        let _woken = kernel.wait(Limit::Until(20), &mut ready);
    }
    assert_eq!(rt; flow, Flow::Failed(KernelFault::Reset));
    Ok(())
}

#[test]
fn three_hundred_links_that_are_ready_at_once_are_all_told(rt: HostRuntime) -> Result<(), Fail> {
    let mut kernel = MioKernel::new(rt.alloc(), rt, Still { moment: 0 })?;
    let at = listening(&mut kernel, 1, 24000).unwrap_or(home(1));
    let mut link = 2u64;
    for _ in 0..300u64 {
        assert_eq!(rt; kernel.connect(link, at), Ok(()));
        assert_eq!(rt; finished(&mut kernel, link), Finished::Done);
        assert_eq!(rt;
            accepted(&mut kernel, 1, link.saturating_add(1)),
            Made::Made
        );
        link = link.saturating_add(2);
    }
    let mut ready = ReadyList::new();
    for _ in 0..10u64 {
        let _woken = kernel.wait(Limit::NoWait, &mut ready);
    }
    assert_eq!(rt; ready.len(), 0);
    link = 2;
    for _ in 0..300u64 {
        assert_eq!(rt; kernel.write(link, b"x"), Flow::Moved(1));
        link = link.saturating_add(2);
    }
    let mut counts = [0usize; 3];
    let mut buf = [0u8; 5000];
    let mut read = 0u64;
    for round in 0..3usize {
        let _woken = kernel.wait(Limit::NoWait, &mut ready);
        counts[round] = ready.len();
        for place in 0..ready.len() {
            let one = ready.get(place);
            if one.read && kernel.read(one.link, &mut buf) == Flow::Moved(1) {
                read = read.saturating_add(1);
            }
        }
    }
    assert_eq!(rt; counts, [256, 44, 0]);
    assert_eq!(rt; read, 300);
    Ok(())
}
