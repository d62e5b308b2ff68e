//! `vgd`: sends the packets of a savefile through a graph of nodes.
#![tactic(auto)]

use std::io::ErrorKind;
use std::process::ExitCode;
use std::rt::{Env, Files};
use std::{env, io};
use vg_differs::{Finding, print_finding};
use vg_explain::{Keeping, explain_not_utf8, explain_vgd};
use vg_outside::{OpenGate, RealFolder, RealSink};
use vg_remarks::{Remarks, tell};
use vg_top::vgd_run;

/// The words after the program's name.
fn program_words<R: Env + AllocGlobal>(rt: &R) -> io::Result<Vec<String>> {
    let mut words = Vec::new(rt.alloc());
    for word in env::args(rt)?.skip(1) {
        words.push(word)?;
    }
    Ok(words)
}

/// Writes to the standard error what is remarked of a run, where there is something.
fn tell_remarks<R: Eprint>(rt: &R, remarks: Option<&Remarks>) -> io::Result<()> {
    match remarks {
        Some(remarks) => tell(rt, remarks),
        None => Ok(()),
    }
}

/// Writes to the standard error why a call ended with a status other than 0, and what a check found.
fn tell_refusal<'a, R: Files + Eprint + AllocGlobal>(
    rt: &R,
    words: &[&'a str],
    status: u8,
    printed: &[u8],
    save_error: Option<&'a io::Error>,
    finding: Option<&Finding>,
) -> io::Result<()> {
    explain_vgd(rt, words, status, printed, save_error)?;
    match finding {
        Some(finding) => print_finding(rt, finding),
        None => Ok(()),
    }
}

/// Words that aren't UTF-8 are as faulty as words that ask for nothing.
fn main(rt: HostRuntime) -> ExitCode {
    let alloc = rt.alloc();
    let (words, are_utf8) = match program_words(&rt) {
        Ok(words) => (words, true),
        Err(e) if e.kind() == ErrorKind::OutOfMemory => return ExitCode::from(1),
        Err(_) => (Vec::new(alloc), false),
    };
    let Ok(words) = words
        .iter()
        .map(|word| word.as_str())
        .collect::<Vec<&str>>(alloc)
    else {
        return ExitCode::from(1);
    };
    let mut folder = RealFolder::new(rt);
    let mut out = Keeping::new(alloc, RealSink::new(rt));
    let done = vgd_run(
        &rt,
        alloc,
        words.as_slice(),
        &mut folder,
        &mut out,
        &OpenGate,
    );
    // What can't be said to people changes nothing.
    let _ = if done.status == 0 {
        let remarks = done.ran.as_ref().and_then(|ran| ran.remarks.as_ref());
        tell_remarks(&rt, remarks)
    } else if are_utf8 {
        tell_refusal(
            &rt,
            words.as_slice(),
            done.status,
            out.kept(),
            folder.save_error.as_ref(),
            done.found.as_ref(),
        )
    } else {
        explain_not_utf8(&rt, "vgd")
    };
    ExitCode::from(done.status)
}
