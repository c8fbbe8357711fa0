use dill_base::Address;
use dill_kernel::{Finished, Flow, Kernel, KernelFault, Limit, Made, ReadyList, Ticker};

/// A clock that stands still, so that a wait until a moment lasts at most so many milliseconds as that is above it.
#[derive(Drop)]
pub struct Still {
    pub moment: u64,
}

impl Ticker for Still {
    fn now(&mut self) -> u64 {
        self.moment
    }
}

/// How often a call is tried that answers "not yet", with a wait of at most a second after each.
const TRIES: u64 = 20;

/// The end of one such wait over the clock that stands at 0.
const SECOND: Limit = Limit::Until(1000);

/// A port of this machine.
pub fn home(port: u16) -> Address {
    Address {
        ip: [127, 0, 0, 1],
        port,
    }
}

/// Listens at the first port that is free from this one on, of 500, and gives its address.
pub fn listening<K: Kernel>(kernel: &mut K, link: u64, first: u16) -> Option<Address> {
    for more in 0..500u16 {
        let at = home(first.saturating_add(more));
        match kernel.listen(link, at, 4096) {
            Ok(()) => return Some(at),
            Err(KernelFault::InUse) => {}
            Err(_) => return None,
        }
    }
    None
}

/// Waits until a link is told, and says for what.
pub fn told<K: Kernel>(kernel: &mut K, link: u64) -> Option<(bool, bool)> {
    let mut ready = ReadyList::new();
    for _ in 0..TRIES {
        if kernel.wait(SECOND, &mut ready).is_ok() {
            for at in 0..ready.len() {
                let one = ready.get(at);
                if one.link == link {
                    return Some((one.read, one.write));
                }
            }
        }
    }
    None
}

/// Accepts the next connection.
pub fn accepted<K: Kernel>(kernel: &mut K, listener: u64, link: u64) -> Made {
    let mut ready = ReadyList::new();
    for _ in 0..TRIES {
        let made = kernel.accept(listener, link);
        if made != Made::NotYet {
            return made;
        }
        let _woken = kernel.wait(SECOND, &mut ready);
    }
    Made::NotYet
}

/// Finishes a connection.
pub fn finished<K: Kernel>(kernel: &mut K, link: u64) -> Finished {
    let mut ready = ReadyList::new();
    for _ in 0..TRIES {
        let how = kernel.finish_connect(link);
        if how != Finished::NotYet {
            return how;
        }
        let _woken = kernel.wait(SECOND, &mut ready);
    }
    Finished::NotYet
}

/// The next bytes, the end or a fault.
pub fn came<K: Kernel>(kernel: &mut K, link: u64, buf: &mut [u8; 5000]) -> Flow {
    let mut ready = ReadyList::new();
    for _ in 0..TRIES {
        let flow = kernel.read(link, buf);
        if flow != Flow::NotYet {
            return flow;
        }
        let _woken = kernel.wait(SECOND, &mut ready);
    }
    Flow::NotYet
}

/// One mebibyte.
pub const MIB: u64 = 1_048_576;

/// The byte at a place of what is sent.
fn byte_at(place: u64) -> u8 {
    (place % 251) as u8
}

/// Moves 1 MiB from one link to another, in pieces, and gives how many bytes came as they were sent.
pub fn moved<K: Kernel>(kernel: &mut K, from: u64, to: u64) -> u64 {
    let mut ready = ReadyList::new();
    let mut piece = [0u8; 7000];
    let mut buf = [0u8; 5000];
    let mut sent = 0u64;
    let mut right = 0u64;
    for _ in 0..10_000u64 {
        if right >= MIB {
            break;
        }
        let size = 7000.min(MIB.saturating_sub(sent)) as usize;
        if 0 < size && size <= 7000 {
            for at in 0..size {
                piece[at] = byte_at(sent.saturating_add(at as u64));
            }
            if let Flow::Moved(count) = kernel.write(from, &piece[..size]) {
                sent = sent.saturating_add(count as u64);
            }
        }
        match kernel.read(to, &mut buf) {
            Flow::Moved(count) if count <= 5000 => {
                for at in 0..count {
                    if buf[at] == byte_at(right) {
                        right = right.saturating_add(1);
                    }
                }
            }
            _ => {
                let _woken = kernel.wait(SECOND, &mut ready);
            }
        }
    }
    right
}
