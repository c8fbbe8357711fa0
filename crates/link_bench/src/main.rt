//! Times the parts of links, and messages through two stacks, each called by hand: `link_bench KIND SIZE ROUNDS`.
//! Without arguments it does nothing. `bench/links.sh` times it.
#![tactic(auto)]

mod counting;
mod due;
mod echo;
mod stacks;
mod still;

use dill_loop::LoopKernel;
use due::times_due;
use echo::{echoes, open};
use relay_mio::MioKernel;
use stacks::{Kind, messages};
use std::alloc::Global;
use std::env;
use std::process::ExitCode;
use still::Still;

/// An argument that is a number, or 0.
fn number(word: Option<&String>) -> u64 {
    let Some(word) = word else {
        return 0;
    };
    match word.parse::<u64>() {
        Ok(number) => number,
        Err(_) => 0,
    }
}

/// The status where so many of so many rounds went well.
fn status(went: u64, rounds: u64) -> ExitCode {
    ExitCode::from(if went == rounds { 0 } else { 1 })
}

/// Asks which of `size` links is due.
fn asked(alloc: Global, size: u64, rounds: u64) -> ExitCode {
    match times_due(alloc, size, rounds) {
        Ok(went) => status(went, rounds),
        Err(_) => ExitCode::from(3),
    }
}

/// Connects, echoes `size` bytes and closes over the network in memory.
fn in_memory(alloc: Global, size: u64, rounds: u64) -> ExitCode {
    let Ok(mut kernel) = LoopKernel::new(alloc, 65_536) else {
        return ExitCode::from(3);
    };
    let Some(at) = open(&mut kernel) else {
        return ExitCode::from(1);
    };
    status(echoes(&mut kernel, at, size, rounds), rounds)
}

/// Passes messages of `size` bytes through two stacks.
fn through(alloc: Global, kind: Kind, size: u64, rounds: u64) -> ExitCode {
    match messages(alloc, kind, size, rounds) {
        Ok(went) => status(went, rounds),
        Err(_) => ExitCode::from(3),
    }
}

fn main(rt: HostRuntime) -> ExitCode {
    let alloc = rt.alloc();
    let Ok(args) = env::args(&rt) else {
        return ExitCode::from(2);
    };
    let words: Vec<String> = match args.skip(1).collect(alloc) {
        Ok(words) => words,
        Err(_) => return ExitCode::from(3),
    };
    let Some(kind) = words.first() else {
        return ExitCode::from(0);
    };
    let size = number(words.get(1));
    let rounds = number(words.get(2));
    match kind.as_str() {
        "due" => asked(alloc, size, rounds),
        "loop" => in_memory(alloc, size, rounds),
        "mio" => {
            let Ok(mut kernel) = MioKernel::new(alloc, rt, Still) else {
                return ExitCode::from(3);
            };
            let Some(at) = open(&mut kernel) else {
                return ExitCode::from(1);
            };
            status(echoes(&mut kernel, at, size, rounds), rounds)
        }
        "prefix" => through(alloc, Kind::Prefix, size, rounds),
        "suffix" => through(alloc, Kind::Suffix, size, rounds),
        "ws" => through(alloc, Kind::Ws, size, rounds),
        _ => ExitCode::from(2),
    }
}
