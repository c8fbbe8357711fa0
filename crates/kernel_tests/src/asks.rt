ghost use Rattle.std.specs.Prelude.{◌<◌, length};

use dill_base::Address;
use dill_kernel::{Flow, Kernel, Limit, ReadyList};
use std::alloc::Global;
use std::process::Abort;
use std::test::Fail;

/// Where listeners listen.
const HOME: Address = Address {
    ip: [127, 0, 0, 1],
    port: 7000,
};

/// A call of a kernel: numbers of links, a backlog, bytes, or how many bytes are read at most, but not more than 4,096.
#[derive(Clone, Copy)]
pub enum Ask {
    Wait(Limit),
    Listen(u64, u32),
    Connect(u64),
    Finish(u64),
    Accept(u64, u64),
    Write(u64, &'static [u8]),
    Read(u64, usize),
    /// What is read at most is what comes, of these bytes.
    Gets(u64, &'static [u8]),
    Shut(u64),
    Close(u64),
}

/// The moment, how many links are ready, and the first of them.
fn waited(alloc: Global, kernel: &mut impl Kernel, limit: Limit) -> Result<String, Fail> {
    let mut ready = ReadyList::new();
    let woke = kernel.wait(limit, &mut ready);
    if ready.len() == 0 {
        return Ok(format!(in alloc; "{woke:?}")?);
    }
    Ok(format!(in alloc; "{woke:?} {} {:?}", ready.len(), ready.get(0))?)
}

/// The count, and the bytes in the buffer.
fn read(alloc: Global, kernel: &mut impl Kernel, link: u64, most: usize) -> Result<String, Fail> {
    let mut buf = [0; 4096];
    if most == 0 || 4096 < most {
        return Err(Fail::from("most"));
    }
    let came = kernel.read(link, &mut buf[..most]);
    if most < 10 {
        return Ok(format!(in alloc; "{came:?} {:?}", &buf[..most])?);
    }
    Ok(format!(in alloc; "{came:?}")?)
}

/// Whether just these bytes come, or what comes in their place.
fn gets(alloc: Global, kernel: &mut impl Kernel, link: u64, want: &[u8]) -> Result<String, Fail> {
    let mut buf = [0; 4096];
    let came = kernel.read(link, &mut buf);
    if let Flow::Moved(count) = came {
        if count <= 4096 && &buf[..count] == want {
            return Ok(format!(in alloc; "these")?);
        }
    }
    Ok(format!(in alloc; "{came:?}")?)
}

fn written(
    alloc: Global,
    kernel: &mut impl Kernel,
    link: u64,
    bytes: &[u8],
) -> Result<String, Fail> {
    if bytes.is_empty() {
        return Err(Fail::from("none"));
    }
    Ok(format!(in alloc; "{:?}", kernel.write(link, bytes))?)
}

/// Makes the call, and shows its answer.
pub fn shown(alloc: Global, kernel: &mut impl Kernel, ask: Ask) -> Result<String, Fail> {
    match ask {
        Ask::Wait(limit) => waited(alloc, kernel, limit),
        Ask::Write(link, bytes) => written(alloc, kernel, link, bytes),
        Ask::Read(link, most) => read(alloc, kernel, link, most),
        Ask::Gets(link, want) => gets(alloc, kernel, link, want),
        _ => made(alloc, kernel, ask),
    }
}

fn made(alloc: Global, kernel: &mut impl Kernel, ask: Ask) -> Result<String, Fail> {
    let told = match ask {
        Ask::Listen(link, backlog) => format!(in alloc; "{:?}", kernel.listen(link, HOME, backlog)),
        Ask::Connect(link) => format!(in alloc; "{:?}", kernel.connect(link, HOME)),
        Ask::Finish(link) => format!(in alloc; "{:?}", kernel.finish_connect(link)),
        Ask::Accept(listener, link) => format!(in alloc; "{:?}", kernel.accept(listener, link)),
        Ask::Shut(link) => format!(in alloc; "{:?}", kernel.shut(link)),
        Ask::Close(link) => {
            kernel.close(link);
            format!(in alloc; "closed")
        }
        _ => format!(in alloc; "other"),
    };
    Ok(told?)
}

/// Makes the calls in their order. Each has the answer beside it.
pub fn plays(
    rt: &impl Abort,
    alloc: Global,
    kernel: &mut impl Kernel,
    table: Vec<(Ask, &'static str)>,
) -> Result<(), Fail> {
    for (ask, want) in table {
        let told = shown(alloc, kernel, ask)?;
        assert_eq!(rt; told.as_str(), want);
    }
    Ok(())
}
