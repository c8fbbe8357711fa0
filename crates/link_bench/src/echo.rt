use dill_base::Address;
use dill_kernel::{Finished, Flow, Kernel, KernelFault, Limit, Made, ReadyList};

/// How often a call is tried that answers "not yet", with a wait of at most a second after each.
const TRIES: u64 = 100;

/// The end of one such wait over the clock that stands at 0.
const SECOND: Limit = Limit::Until(1000);

const ROOM: usize = 65_536;

/// Listens by link 1 at the first port that is free of 500, and gives its address.
pub fn open<K: Kernel>(kernel: &mut K) -> Option<Address> {
    for more in 0..500u16 {
        let at = Address {
            ip: [127, 0, 0, 1],
            port: 25_000u16.saturating_add(more),
        };
        match kernel.listen(1, at, 4096) {
            Ok(()) => return Some(at),
            Err(KernelFault::InUse) => {}
            Err(_) => return None,
        }
    }
    None
}

fn accepted<K: Kernel>(kernel: &mut K, ready: &mut ReadyList, link: u64) -> bool {
    for _ in 0..TRIES {
        match kernel.accept(1, link) {
            Made::Made => return true,
            Made::NotYet => {
                let _woken = kernel.wait(SECOND, ready);
            }
            Made::Failed(_) => return false,
        }
    }
    false
}

fn connected<K: Kernel>(kernel: &mut K, ready: &mut ReadyList, link: u64) -> bool {
    for _ in 0..TRIES {
        match kernel.finish_connect(link) {
            Finished::Done => return true,
            Finished::NotYet => {
                let _woken = kernel.wait(SECOND, ready);
            }
            Finished::Failed(_) => return false,
        }
    }
    false
}

/// Moves so many bytes from one link to another. Whether all came.
fn moves<K: Kernel>(
    kernel: &mut K,
    ready: &mut ReadyList,
    buf: &mut [u8; 65_536],
    from: u64,
    to: u64,
    size: usize,
) -> bool {
    let mut sent = 0usize;
    let mut came = 0usize;
    for _ in 0..1_000_000u64 {
        if came >= size {
            return true;
        }
        if sent < size && size - sent <= ROOM {
            if let Flow::Moved(count) = kernel.write(from, &buf[..size - sent]) {
                sent = sent.saturating_add(count);
            }
        }
        match kernel.read(to, buf) {
            Flow::Moved(count) => came = came.saturating_add(count),
            Flow::NotYet => {
                let _woken = kernel.wait(SECOND, ready);
            }
            _ => return false,
        }
    }
    false
}

/// Connects by two new links, sends so many bytes there and back, and closes both. Whether all went well.
fn echo<K: Kernel>(
    kernel: &mut K,
    ready: &mut ReadyList,
    buf: &mut [u8; 65_536],
    at: Address,
    link: u64,
    size: usize,
) -> bool {
    let other = link.saturating_add(1);
    if kernel.connect(link, at).is_err() {
        return false;
    }
    let came = accepted(kernel, ready, other);
    let mut went = connected(kernel, ready, link) && came;
    if went {
        went = moves(kernel, ready, buf, link, other, size)
            && moves(kernel, ready, buf, other, link, size);
    }
    kernel.close(link);
    if came {
        kernel.close(other);
    }
    went
}

/// How many of so many rounds went well.
pub fn echoes<K: Kernel>(kernel: &mut K, at: Address, size: u64, rounds: u64) -> u64 {
    let mut ready = ReadyList::new();
    let mut buf = [0u8; 65_536];
    let mut link = 2u64;
    let mut went = 0u64;
    let size = size.min(65_536) as usize;
    for _ in 0..rounds {
        if echo(kernel, &mut ready, &mut buf, at, link, size) {
            went = went.saturating_add(1);
        }
        link = link.saturating_add(2);
    }
    went
}
