//! The top call.
ghost use Rattle.std.specs.Prelude.{◌≡◌, ◌≢◌, ◌⊎◌, ◌≤◌, ℕ, List, IsTrue, ◌↔◌, length, IfOk, IfErr};
ghost use Rattle.vg_outside.specs.Files.{Rose};
ghost use Rattle.vg_drawing.specs.declared.refusals.Refusal.{Refusal as Refused};
ghost use Rattle.vg_drawing.specs.Drawn.{IsWithin};
ghost use Rattle.vg_drawing.specs.Dues.{IsDueFor};
ghost use Rattle.vg_drawing.specs.Expected.{IsExpected};
ghost use Rattle.vg_drawing.specs.Run.{called, status_of, line_of, IsDrawn, IsRefused, IsDue, OnRefusal, Appends, AppendsFront};

use crate::drawings::draw_generations;
use crate::printing::print;
use crate::reading::{load_plan, load_report};
use crate::refusals::{Refusal, Stop};
use crate::words::{Which, asked};
use std::alloc::Global;
use vg_model::Bytes;
use vg_outside::{Folder, Sink};

// Whether the generation that is asked for is among so many.
fn is_within(which: Which, generations: u32) -> bool
    ensures { IsTrue result ↔ IsWithin generations which }
{
    match which {
        Which::One(number) => number < generations,
        Which::All => true,
    }
}

/// The text that the words ask for, over the files of a folder.
pub fn drawn<'a, F: Folder>(
    alloc: Global,
    words: &[&'a str],
    folder: &mut F,
) -> Result<Bytes, Stop<'a>>
    ensures text { IfOk result (IsDrawn (called words.now (F.contents folder.old) (F.faults folder.old) (F.faults folder.new))) }
    ensures stop { IfErr result (OnRefusal (IsRefused (called words.now (F.contents folder.old) (F.faults folder.old) (F.faults folder.new)))) }
    ensures same { F.contents folder.new ≡ F.contents folder.old }
{
    let Some(ask) = asked(words) else {
        return Err(Stop::Refused(Refusal::Usage));
    };
    let plan = match load_plan(alloc, folder, ask.script) {
        Ok(plan) => plan,
        Err(stop) => return Err(stop),
    };
    let report = match load_report(alloc, folder, ask.report) {
        Ok(report) => report,
        Err(stop) => return Err(stop),
    };
    let generations = plan.generations();
    if !is_within(ask.which, generations) {
        return Err(Stop::Refused(Refusal::Generation(generations)));
    }
    match draw_generations(alloc, &plan, &report, ask.which) {
        Ok(text) => Ok(text),
        Err(_) => Err(Stop::Memory),
    }
}

/// What is due at the end: the exit status, and the text to print.
#[derive(Drop)]
struct Due {
    status: u8,
    text: Bytes,
}

// What is due for a drawing or a stop.
fn due_for(alloc: Global, drawn: Result<Bytes, Stop<'_>>) -> Option<Due>
    ensures { IsDueFor drawn.entry result }
{
    match drawn {
        Ok(text) => Some(Due { status: 0, text }),
        Err(Stop::Memory) => None,
        Err(Stop::Refused(refusal)) => match refusal.line(alloc) {
            Ok(line) => Some(Due {
                status: refusal.status(),
                text: Bytes::from_vec(line.into_bytes()),
            }),
            Err(_) => None,
        },
    }
}

/// Prints the drawings that the words after the program's name ask for, over a folder and a sink, and answers the exit status, and why
/// nothing was drawn where nothing was.
///
/// 0: the drawings were printed. 1: memory ran out, and nothing was printed. 2, 3, 5 and 9: nothing is drawn, and one line is printed
/// that says why. 7: the sink failed in the middle of what was to be printed.
pub fn draw_run<F: Folder, O: Sink>(
    alloc: Global,
    words: &[&str],
    folder: &mut F,
    out: &mut O,
) -> u8
    // 0: the drawings that the words ask for were printed.
    ensures drawn { result ≡ 0 → (text : List ℕ)
        × IsDrawn (called words.now (F.contents folder.old) (F.faults folder.old) (F.faults folder.new)) text
        × Appends (O.written out.old) (O.written out.new) text }

    // 1: memory ran out.
    ensures memory { result ≡ 1 → O.written out.new ≡ O.written out.old }

    // All others but 7: nothing is drawn, and the line of the refusal was printed.
    ensures refused { 2 ≤ result → result ≢ 7 → (refusal : Refused) × (result ≡ status_of refusal)
        × IsRefused (called words.now (F.contents folder.old) (F.faults folder.old) (F.faults folder.new)) refusal
        × Appends (O.written out.old) (O.written out.new) (line_of refusal) }

    // 7: the sink failed, after a proper front of what was due.
    ensures printing { result ≡ 7 → Rose (O.faults out.old) (O.faults out.new) × (status : ℕ) × (text : List ℕ)
        × IsDue (called words.now (F.contents folder.old) (F.faults folder.old) (F.faults folder.new)) status text
        × AppendsFront (O.written out.old) (O.written out.new) text }

    // At any other status no call of the sink failed.
    ensures quiet { result ≢ 7 → O.faults out.new ≡ O.faults out.old }

    // But for 1 and 7, the status is the one that the words and the files bring.
    ensures exactly { (expected : ℕ)
        → IsExpected (called words.now (F.contents folder.old) (F.faults folder.old) (F.faults folder.new)) expected
        → (result ≡ expected) ⊎ ((result ≡ 1) ⊎ (result ≡ 7)) }

    // No file changes.
    ensures same { F.contents folder.new ≡ F.contents folder.old }
{
    let Some(due) = due_for(alloc, drawn(alloc, words, folder)) else {
        return 1;
    };
    match print(out, due.text.as_slice()) {
        Ok(()) => due.status,
        Err(_) => 7,
    }
}
