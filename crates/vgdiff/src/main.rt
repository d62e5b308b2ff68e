//! `vgdiff`: how the packets that another router put out differ from those of a run.
#![tactic(auto)]

use std::io::ErrorKind;
use std::process::ExitCode;
use std::rt::Env;
use std::{env, io};
use vg_diff::{diff_run, explain_diff};
use vg_outside::{RealFolder, RealSink};

/// The words after the program's name.
fn program_words<R: Env + AllocGlobal>(rt: &R) -> io::Result<Vec<String>> {
    let mut words = Vec::new(rt.alloc());
    for word in env::args(rt)?.skip(1) {
        words.push(word)?;
    }
    Ok(words)
}

/// Words that aren't UTF-8 are as faulty as words that ask for nothing.
fn main(rt: HostRuntime) -> ExitCode {
    let alloc = rt.alloc();
    let words = match program_words(&rt) {
        Ok(words) => words,
        Err(e) if e.kind() == ErrorKind::OutOfMemory => return ExitCode::from(1),
        Err(_) => Vec::new(alloc),
    };
    let Ok(words) = words
        .iter()
        .map(|word| word.as_str())
        .collect::<Vec<&str>>(alloc)
    else {
        return ExitCode::from(1);
    };
    let mut folder = RealFolder::new(rt);
    let mut out = RealSink::new(rt);
    let status = diff_run(&rt, alloc, words.as_slice(), &mut folder, &mut out);
    if status != 0 {
        // An explanation that can't be written changes nothing.
        let _ = explain_diff(&rt, words.as_slice(), status);
    }
    ExitCode::from(status)
}
