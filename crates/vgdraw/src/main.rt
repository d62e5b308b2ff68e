//! `vgdraw`: the graph of a script as a picture in the DOT language of Graphviz.
#![tactic(auto)]

use std::io::ErrorKind;
use std::process::ExitCode;
use std::rt::Env;
use std::{env, io};
use vg_drawing::{draw_run, explain_drawing};
use vg_explain::{Keeping, explain_not_utf8};
use vg_outside::{RealFolder, RealSink};

/// The words after the program's name.
fn program_words<R: Env + AllocGlobal>(rt: &R) -> io::Result<Vec<String>> {
    let mut words = Vec::new(rt.alloc());
    for word in env::args(rt)?.skip(1) {
        words.push(word)?;
    }
    Ok(words)
}

/// Words that aren't UTF-8 are as faulty as words that ask for nothing.
fn main(rt: HostRuntime) -> ExitCode {
    let alloc = rt.alloc();
    let (words, are_utf8) = match program_words(&rt) {
        Ok(words) => (words, true),
        Err(e) if e.kind() == ErrorKind::OutOfMemory => return ExitCode::from(1),
        Err(_) => (Vec::new(alloc), false),
    };
    let Ok(words) = words
        .iter()
        .map(|word| word.as_str())
        .collect::<Vec<&str>>(alloc)
    else {
        return ExitCode::from(1);
    };
    let mut folder = RealFolder::new(rt);
    let mut out = Keeping::new(alloc, RealSink::new(rt));
    let status = draw_run(alloc, words.as_slice(), &mut folder, &mut out);
    if status != 0 {
        // An explanation that can't be written changes nothing.
        let _ = if are_utf8 {
            explain_drawing(&rt, words.as_slice(), status, out.kept())
        } else {
            explain_not_utf8(&rt, "vgdraw")
        };
    }
    ExitCode::from(status)
}
