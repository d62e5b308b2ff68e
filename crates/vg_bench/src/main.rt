//! `vg_bench`: how long the packets of a savefile take through the graphs of a script, in memory.
//!
//! `bench/run` calls it for its tables.
//!
//! In which order to read: `trials`, `times`, `watch`.
#![tactic(auto)]

mod times;
mod trials;
mod watch;

use std::alloc::Global;
use std::process::ExitCode;
use std::rt::{Env, Files};
use std::sync::Wait;
use std::thread::Threads;
use std::time::Clock;
use std::{env, fs, io};
use times::{Times, best_times};
use trials::{Trial, read_trial};
use vg_capture::read_capture;
use vg_engine::Input;
use vg_model::Bytes;
use vg_plan::Plan;
use vg_script::parse_script;

/// What is printed where the words ask for no trial.
const USAGE: &str = "usage: vg_bench CAPTURE SCRIPT WORKERS turns|threads BURST RUNS";

/// Makes a trial with the packets of a savefile and the graphs of a script; `None` where one of them can't be read, or a run came to
/// nothing.
fn try_files<R: Wait + Threads + Sync + Clock + Files + AllocGlobal>(
    rt: &R,
    alloc: Global,
    capture: &str,
    script: &str,
    trial: &Trial,
) -> Option<Times> {
    let capture = fs::read(rt, capture).ok()?;
    let capture = read_capture(alloc, Bytes::from_vec(capture)).ok()?;
    let script = fs::read(rt, script).ok()?;
    let script = parse_script(alloc, script.as_slice()).ok()?;
    let plan = Plan::new(alloc, script).ok()?;
    let input = Input {
        plan: &plan,
        capture: &capture,
        options: &trial.options,
    };
    best_times(rt, alloc, &input, trial)
}

/// The words after the program's name.
fn program_words<R: Env + AllocGlobal>(rt: &R) -> io::Result<Vec<String>> {
    let mut words = Vec::new(rt.alloc());
    for word in env::args(rt)?.skip(1) {
        words.push(word)?;
    }
    Ok(words)
}

/// Does what the words ask for, and answers the exit status.
fn run<R: Wait + Threads + Sync + Clock + Files + Env + Print + Eprint + AllocGlobal>(
    rt: &R,
) -> io::Result<u8> {
    let words = program_words(rt)?;
    let words = words.as_slice();
    let (Some(capture), Some(script), Some(trial)) = (
        words.first(),
        words.get(1),
        read_trial(words),
    ) else {
        println!(rt; "{USAGE}")?;
        return Ok(2);
    };
    match try_files(rt, rt.alloc(), capture.as_str(), script.as_str(), &trial) {
        Some(times) => {
            println!(rt; "{times}")?;
            Ok(0)
        }
        None => {
            eprintln!(rt; "vg_bench: a file could not be read, or a run came to nothing")?;
            Ok(1)
        }
    }
}

fn main(rt: HostRuntime) -> ExitCode {
    match run(&rt) {
        Ok(status) => ExitCode::from(status),
        Err(_) => ExitCode::from(1),
    }
}
