//! What is written to the standard error where nothing was drawn.

use crate::words::asked;
use std::io;
use std::rt::Files;
use vg_explain::{Called, asks_for_help, explain};

/// How the program is called.
const USAGE: &str = "usage:
  vgdraw [--all | --generation N] SCRIPT [REPORT]
      Prints the graph of SCRIPT in the DOT language: generation 0, the one of the number N, or all, and with the REPORT of a run what it
      counted. `vgdraw SCRIPT | dot -Tsvg >FILE` makes a picture of it.
Reports are of format 1. docs/FORMATS.md has the formats, the limits and the exit statuses; `man vgdraw` has them once it is installed.
";

/// What is wrong with words that ask for no drawing that there is.
fn words_fault(words: &[&str]) -> &'static str {
    match asked(words) {
        Some(_) => "the script makes no generation of this number",
        None => {
            "`--all`, `--generation` with a number from 0 to 999, or neither, and then a script, and a report or none, are wanted"
        }
    }
}

/// Writes to the standard error why a call ended with a status other than 0.
///
/// # Errors
///
/// An [`io::Error`] where the standard error can't be written.
pub fn explain_drawing<R: Files + Eprint + AllocGlobal>(
    rt: &R,
    words: &[&str],
    status: u8,
    printed: &[u8],
) -> io::Result<()> {
    if status == 1 {
        return eprintln!(rt; "vgdraw: memory ran out");
    }
    if status == 7 {
        return eprintln!(rt; "vgdraw: the standard output could not be written to its end");
    }
    let fault = if asks_for_help(words) {
        None
    } else {
        Some(words_fault(words))
    };
    explain(
        rt,
        &Called {
            program: "vgdraw",
            usage: USAGE,
            fault,
            capture: None,
            script: asked(words).map(|ask| ask.script),
            save_error: None,
        },
        printed,
    )
}
