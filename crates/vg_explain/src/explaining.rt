//! The explanation of a refusal, written to the standard error.

use crate::captures::{LOOKED_AT, capture_fault};
use crate::commands::{USAGE, asks_for_help, file_named, words_fault};
use crate::scripts::script_fault;
use crate::text::{report_fault, turns_fault, verdict};
use std::io::Read;
use std::rt::Files;
use std::{fs, io, str};

/// A call of a program, as far as an explanation speaks of it.
#[derive(Clone, Copy)]
pub struct Called<'a> {
    /// The program's name.
    pub program: &'a str,
    /// How it is called.
    pub usage: &'a str,
    /// What is wrong with its words where they ask for nothing; nothing where they ask for help.
    pub fault: Option<&'a str>,
    /// The names of its capture and its script, where the words name them.
    pub capture: Option<&'a str>,
    pub script: Option<&'a str>,
    /// The error of the save that failed, where one did.
    pub save_error: Option<&'a io::Error>,
}

/// The most bytes of a script that are read.
const MOST_OF_SCRIPT: u64 = 262_145;

/// The first bytes of a file.
fn first_bytes<R: Files + AllocGlobal>(rt: &R, name: &str, most: u64) -> io::Result<Vec<u8>> {
    let file = fs::open(rt, name)?;
    let mut bytes = Vec::new(rt.alloc());
    file.take(most).read_to_end(&mut bytes)?;
    Ok(bytes)
}

/// The first bytes of a file that may be named; none where it can't be read.
fn bytes_of<R: Files + AllocGlobal>(rt: &R, name: Option<&str>, most: u64) -> Vec<u8> {
    match name {
        Some(name) => match first_bytes(rt, name, most) {
            Ok(bytes) => bytes,
            Err(_) => Vec::new(rt.alloc()),
        },
        None => Vec::new(rt.alloc()),
    }
}

/// Says why a file could not be loaded: what the system says of another try.
fn explain_load<R: Files + Eprint + AllocGlobal>(
    rt: &R,
    program: &str,
    name: &str,
) -> io::Result<()> {
    match first_bytes(rt, name, 1) {
        Ok(_) => eprintln!(rt; "{program}: `{name}` could not be read, and can be read now"),
        Err(error) => eprintln!(rt; "{program}: `{name}` could not be read: {error}"),
    }
}

/// Says why a file could not be saved: the error of the save, where it was kept.
fn explain_save<R: Eprint>(rt: &R, called: &Called<'_>, name: &str) -> io::Result<()> {
    let program = called.program;
    match called.save_error {
        Some(error) => eprintln!(rt;
            "{program}: `{name}` could not be written: {error}; a file that was there is as it was"
        ),
        None => eprintln!(rt;
            "{program}: `{name}` could not be written; a file that was there is as it was"
        ),
    }
}

/// Two words parted by a space; the second is empty where there is one.
fn parted(text: &str) -> (&str, &str) {
    match text.split_once(' ') {
        Some(parts) => parts,
        None => (text, ""),
    }
}

/// Says what is wrong with the words, or how the program is called.
fn explain_words<R: Eprint>(rt: &R, called: &Called<'_>) -> io::Result<()> {
    let program = called.program;
    match called.fault {
        None => eprint!(rt; "{}", called.usage),
        Some(fault) => eprintln!(rt;
            "{program}: {}\n`{program} --help` prints all words",
            fault.trim_end()
        ),
    }
}

/// Says why the capture is refused, by the cause and the place that were printed.
fn explain_capture<R: Files + Eprint + AllocGlobal>(
    rt: &R,
    called: &Called<'_>,
    said: &str,
) -> io::Result<()> {
    let program = called.program;
    let (cause, place) = parted(said);
    let name = called.capture.unwrap_or("");
    let head = bytes_of(rt, called.capture, LOOKED_AT);
    let sentence = capture_fault(rt.alloc(), cause, place, head.as_slice())?;
    eprint!(rt; "{program}: the capture `{name}` is refused: {sentence}")
}

/// Says why the script is refused, by the line and the cause that were printed.
fn explain_script<R: Files + Eprint + AllocGlobal>(
    rt: &R,
    called: &Called<'_>,
    said: &str,
) -> io::Result<()> {
    let program = called.program;
    let (line, cause) = parted(said);
    let name = called.script.unwrap_or("");
    let script = bytes_of(rt, called.script, MOST_OF_SCRIPT);
    let number = line.parse::<u32>().unwrap_or(0);
    let sentence = script_fault(rt.alloc(), number, cause, script.as_slice())?;
    if number == 0 {
        return eprint!(rt; "{program}: the script `{name}` is refused: {sentence}");
    }
    eprint!(rt; "{program}: line {line} of the script `{name}` is refused: {sentence}")
}

/// Says why the turns file is refused, by the place that was printed.
fn explain_turns<R: Eprint>(rt: &R, program: &str, place: &str) -> io::Result<()> {
    eprintln!(rt;
        "{program}: byte {place} of the turns file, counted from 0, is refused: {}",
        turns_fault()
    )
}

/// Says why the report is refused, by the line and the cause that were printed.
fn explain_report<R: Eprint>(rt: &R, program: &str, said: &str) -> io::Result<()> {
    let (line, cause) = parted(said);
    eprintln!(rt;
        "{program}: line {line} of the report is refused: {}",
        report_fault(cause)
    )
}

/// Writes to the standard error what was found and what to do, by the line that was printed where a call was refused.
pub fn explain<R: Files + Eprint + AllocGlobal>(
    rt: &R,
    called: &Called<'_>,
    printed: &[u8],
) -> io::Result<()> {
    let program = called.program;
    let Ok(text) = str::from_utf8(printed) else {
        return Ok(());
    };
    let (first, rest) = parted(text.trim_end());
    match first {
        "usage" => explain_words(rt, called),
        "load" => explain_load(rt, program, rest),
        "save" => explain_save(rt, called, rest),
        "capture" => explain_capture(rt, called, rest),
        "script" => explain_script(rt, called, rest),
        "turns" => explain_turns(rt, program, rest),
        "report" => explain_report(rt, program, rest),
        "no" => eprintln!(rt; "{program}: {}", verdict(rest)),
        _ => Ok(()),
    }
}

/// Writes to the standard error that a word of a call isn't UTF-8.
pub fn explain_not_utf8<R: Eprint>(rt: &R, program: &str) -> io::Result<()> {
    eprintln!(rt;
        "{program}: a word is not UTF-8: rename the file of this name, or call it by a link whose name is ASCII\n`{program} --help` prints all words"
    )
}

/// Writes to the standard error why a call of `vgd` ended with a status other than 0: by the line that it printed, and the error of the
/// save that failed, where one did.
pub fn explain_vgd<'a, R: Files + Eprint + AllocGlobal>(
    rt: &R,
    words: &[&'a str],
    status: u8,
    printed: &[u8],
    save_error: Option<&'a io::Error>,
) -> io::Result<()> {
    if status == 1 {
        return eprintln!(rt; "vgd: memory ran out; nothing was saved");
    }
    if status == 7 {
        return eprintln!(rt; "vgd: the standard output could not be written to its end");
    }
    let fault = words_fault(rt.alloc(), words)?;
    let fault = if asks_for_help(words) {
        None
    } else {
        Some(fault.as_str())
    };
    explain(
        rt,
        &Called {
            program: "vgd",
            usage: USAGE,
            fault,
            capture: file_named(words, 0),
            script: file_named(words, 1),
            save_error,
        },
        printed,
    )
}
