use dill_base::{MemShelf, MemSink, Octets, Status};
use dill_kernel::Kernel;
use dill_loop::LoopKernel;
use rand::rngs::StdRng;
use rand_core::SeedableRng;
use relay_main::{dillrelay, run_over};
use std::alloc::Global;
use std::process::Abort;
use std::test::Fail;

/// The turns and rounds that the program has where no word says how many.
pub const BUDGET: u64 = 1_000_000_000;

/// A script under the name `x`, and the calls of the outside that fail: of the shelf, of out, and of err by their numbers
/// (0: none).
#[derive(Clone, Copy)]
pub struct Case<'a> {
    pub script: &'a [u8],
    pub traced: bool,
    pub turns: u64,
    pub shelf_fails: u64,
    pub out_fails: u64,
    pub err_fails: u64,
}

/// What a run came to.
#[derive(Clone, Copy)]
pub struct End<'a> {
    pub status: Status,
    pub shown: &'a str,
    pub said: &'a str,
}

pub fn plain(script: &[u8]) -> Case<'_> {
    Case {
        script,
        traced: false,
        turns: BUDGET,
        shelf_fails: 0,
        out_fails: 0,
        err_fails: 0,
    }
}

fn shelf(alloc: Global, script: &[u8], fails: u64) -> Result<MemShelf, Fail> {
    let mut files = Vec::new(alloc);
    let name = Octets::from_slice(alloc, b"x")?;
    files.push((name, Octets::from_slice(alloc, script)?))?;
    Ok(MemShelf::new(files, vec![in alloc; fails]?))
}

/// How many bytes a sink has room for.
const ROOM: usize = 1_100_000;

fn sink(alloc: Global, fails: u64) -> Result<MemSink, Fail> {
    Ok(MemSink::new(alloc, ROOM, vec![in alloc; fails]?)?)
}

/// The most bytes of one read of the network in memory.
const CUT: usize = 4096;

/// Runs the file of a name over the network in memory, and compares what it came to.
pub fn ends(
    rt: &(impl Abort + AllocGlobal),
    name: &str,
    case: Case<'_>,
    end: End<'_>,
) -> Result<(), Fail> {
    let mut kernel = LoopKernel::new(rt.alloc(), CUT)?;
    ends_over(rt, name, case, &mut kernel, end)
}

/// The same over a kernel.
pub fn ends_over<K: Kernel>(
    rt: &(impl Abort + AllocGlobal),
    name: &str,
    case: Case<'_>,
    kernel: &mut K,
    end: End<'_>,
) -> Result<(), Fail> {
    let alloc = rt.alloc();
    let mut shelf = shelf(alloc, case.script, case.shelf_fails)?;
    let mut out = sink(alloc, case.out_fails)?;
    let mut err = sink(alloc, case.err_fails)?;
    let mut keys = StdRng::seed_from_u64(1);
    let turns = case.turns.min(BUDGET);
    let status = run_over(
        alloc,
        name,
        case.traced,
        turns,
        &mut shelf,
        &mut out,
        &mut err,
        kernel,
        &mut keys,
    );
    assert_eq!(rt; out.bytes(), end.shown.as_bytes());
    assert_eq!(rt; err.bytes(), end.said.as_bytes());
    assert_eq!(rt; status, end.status);
    Ok(())
}

/// Gives the words to the program, over a shelf that holds a script under `x` and whose call of this number fails (0:
/// none), and compares what it came to.
pub fn does(
    rt: &(impl Abort + AllocGlobal),
    args: &[&str],
    script: &[u8],
    shelf_fails: u64,
    end: End<'_>,
) -> Result<(), Fail> {
    let alloc = rt.alloc();
    let mut all = Vec::new(alloc);
    for arg in args {
        all.push(String::from_str(alloc, arg)?)?;
    }
    let mut shelf = shelf(alloc, script, shelf_fails)?;
    let mut out = sink(alloc, 0)?;
    let mut err = sink(alloc, 0)?;
    let mut kernel = LoopKernel::new(alloc, CUT)?;
    let mut keys = StdRng::seed_from_u64(1);
    let status = dillrelay(
        alloc,
        all.as_slice(),
        &mut shelf,
        &mut out,
        &mut err,
        &mut kernel,
        &mut keys,
    );
    assert_eq!(rt; status, end.status, "{args:?}");
    assert_eq!(rt; out.bytes(), end.shown.as_bytes(), "{args:?}");
    assert_eq!(rt; err.bytes(), end.said.as_bytes(), "{args:?}");
    Ok(())
}
