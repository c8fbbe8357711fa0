//! Reads one message from a buffer that grows byte by byte, as often as it is told: `codec_bench KIND SIZE ROUNDS`.
//! Without arguments it does nothing. `bench/codecs.sh` times it.
#![tactic(auto)]

mod growing;

use growing::{Kind, spelled, times_whole};
use std::env;
use std::process::ExitCode;

/// An argument that is a number, or 0.
fn number(word: Option<&String>) -> usize {
    word.and_then(|word| word.parse::<usize>().ok())
        .unwrap_or(0)
}

fn kind_of(word: &str) -> Option<Kind> {
    match word {
        "prefix" => Some(Kind::Prefix),
        "suffix" => Some(Kind::Suffix),
        "line" => Some(Kind::Line),
        "frame" => Some(Kind::Frame),
        _ => None,
    }
}

fn main(rt: HostRuntime) -> ExitCode {
    let alloc = rt.alloc();
    let Ok(args) = env::args(&rt) else {
        return ExitCode::from(2);
    };
    let words: Vec<String> = match args.skip(1).collect(alloc) {
        Ok(words) => words,
        Err(_) => return ExitCode::from(3),
    };
    let Some(first) = words.first() else {
        return ExitCode::from(0);
    };
    let Some(kind) = kind_of(first.as_str()) else {
        return ExitCode::from(2);
    };
    let size = number(words.get(1));
    let Some(bytes) = spelled(alloc, kind, size) else {
        return ExitCode::from(3);
    };
    let mut whole = 0usize;
    for _round in 0..number(words.get(2)) {
        whole = whole.saturating_add(times_whole(kind, bytes.as_slice(), size));
    }
    ExitCode::from(if whole == number(words.get(2)) { 0 } else { 1 })
}
