//! What is written to the standard error where nothing was printed but a refusal.

use crate::asks::asks_for;
use crate::faults::call_fault;
use std::io;
use std::rt::Files;
use vg_explain::{Called, asks_for_help, explain};

/// How the program is called.
const USAGE: &str = "usage:
  vgwhy CAPTURE SCRIPT REPORT NUMBER..
      Prints the ways of the packets of these numbers, the first of which is 0, under the choices that REPORT names: each visit of a node,
      what it decided by, and what it changed of the frame.
  vgwhy --all [--drop ERROR] [--via NEIGHBOR] [--route PREFIX] [--node NAME] [--from NUMBER] [--to NUMBER] CAPTURE SCRIPT REPORT
      Prints the ways of all packets, or of those that meet each condition.
  vgwhy --counts CAPTURE SCRIPT REPORT
      Prints for each generation of the graph, and in all, how often each route matched, how many packets left to each neighbor and on each
      interface, and how many each node dropped with each error.
docs/FORMATS.md has the formats, the limits and the exit statuses.
";

/// Writes to the standard error why a call ended with a status other than 0.
///
/// # Errors
///
/// An [`io::Error`] where the standard error can't be written.
pub fn explain_why<R: Files + Eprint + AllocGlobal>(
    rt: &R,
    words: &[&str],
    status: u8,
    printed: &[u8],
) -> io::Result<()> {
    if status == 1 {
        return eprintln!(rt; "vgwhy: memory ran out");
    }
    if status == 7 {
        return eprintln!(rt; "vgwhy: the standard output could not be written to its end");
    }
    let ask = asks_for(rt.alloc(), words)?;
    let fault = call_fault(rt.alloc(), words, &ask)?;
    let fault = if asks_for_help(words) {
        None
    } else {
        Some(fault.as_str())
    };
    explain_named(
        rt,
        fault,
        ask.as_ref().map(|ask| ask.capture),
        ask.as_ref().map(|ask| ask.script),
        printed,
    )
}

// The same of a refused call, with what is wrong with its words, and the names of its capture and its script, where the words name them.
fn explain_named<'a, R: Files + Eprint + AllocGlobal>(
    rt: &R,
    fault: Option<&'a str>,
    capture: Option<&'a str>,
    script: Option<&'a str>,
    printed: &[u8],
) -> io::Result<()> {
    explain(
        rt,
        &Called {
            program: "vgwhy",
            usage: USAGE,
            fault,
            capture,
            script,
            save_error: None,
        },
        printed,
    )
}
