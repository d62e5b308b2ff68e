//! `vg_rows`: runs the rows of files in memory, and says which hold.
#![tactic(auto)]

mod running;
mod sentences;

use crate::running::{Ran, run_lines};
use std::process::ExitCode;
use std::rt::{Env, Files};
use std::sync::Wait;
use std::thread::Threads;
use std::{env, fs, io};
use vg_row::{Judged, Miss, held};

/// The words after the program's name.
fn program_words<R: Env + AllocGlobal>(rt: &R) -> io::Result<Vec<String>> {
    let mut words = Vec::new(rt.alloc());
    for word in env::args(rt)?.skip(1) {
        words.push(word)?;
    }
    Ok(words)
}

/// Prints a call of a row that isn't as the row says.
fn print_miss<R: Print>(rt: &R, name: &str, call: &str, miss: Option<Miss>) -> io::Result<()> {
    let Some(miss) = miss else {
        return Ok(());
    };
    let number = miss.call;
    let difference = miss.difference;
    println!(rt; "  {name}, {call} {number}: {difference}")
}

/// Prints how many rows of a file hold, and those that don't.
fn print_judged<R: Print>(rt: &R, file: &str, judged: &[Judged]) -> io::Result<()> {
    let held = held(judged);
    let all = judged.len();
    println!(rt; "{file}: {held} of {all} rows hold")?;
    for row in judged {
        print_miss(rt, row.name.as_str(), "call", row.miss)?;
        print_miss(rt, row.name.as_str(), "check", row.check_miss)?;
    }
    Ok(())
}

/// Runs the rows of a file, prints what came of them, and answers the exit status: 0 where every row holds, 1 where one doesn't, and 2
/// where a line is refused.
fn run_file<R: Wait + Threads + Sync + Files + Print + AllocGlobal>(
    rt: &R,
    file: &str,
) -> io::Result<u8> {
    let alloc = rt.alloc();
    let text = fs::read_to_string(rt, file)?;
    let lines = text.as_str().lines().collect::<Vec<&str>>(alloc)?;
    match run_lines(rt, alloc, lines.as_slice()) {
        Err(fault) => {
            println!(rt; "{file}: {fault}")?;
            Ok(2)
        }
        Ok(Ran { judged, status }) => {
            print_judged(rt, file, judged.as_slice())?;
            Ok(status)
        }
    }
}

/// Runs the rows of all files.
fn run_files<R: Wait + Threads + Sync + Files + Env + Print + AllocGlobal>(
    rt: &R,
) -> io::Result<u8> {
    let words = program_words(rt)?;
    let mut status = 0;
    for file in words.as_slice() {
        status = run_file(rt, file.as_str())?.max(status);
    }
    Ok(status)
}

/// 3: a file could not be read, or nothing could be printed.
fn main(rt: HostRuntime) -> ExitCode {
    match run_files(&rt) {
        Ok(status) => ExitCode::from(status),
        Err(error) => {
            let _ = eprintln!(rt; "vg_rows: {error}");
            ExitCode::from(3)
        }
    }
}
