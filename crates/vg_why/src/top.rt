//! The top call.
ghost use Rattle.std.specs.Prelude.{◌≡◌, ◌≢◌, ◌⊎◌, ◌≤◌, ℕ, List, IfOk, IfErr};
ghost use Rattle.vg_files.specs.declared.refusals.Refusal.{Refusal as Refused};
ghost use Rattle.vg_files.specs.Printing.{Appends, AppendsFront};
ghost use Rattle.vg_files.specs.Refusals.{status_of, line_of};
ghost use Rattle.vg_files.specs.Stops.{OnRefusal};
ghost use Rattle.vg_outside.specs.Files.{Rose};
ghost use Rattle.vg_why.specs.Expected.{IsExpected};
ghost use Rattle.vg_why.specs.Run.{called, IsWhy, IsRefused, IsDue, IsDueFor};

use crate::asks::asks_for;
use crate::finding::found;
use crate::loading::load_why;
use std::alloc::Global;
use vg_files::{Refusal, Stop, print};
use vg_model::Bytes;
use vg_outside::{Folder, Sink};

// The text that the words ask for, over the files of a folder.
fn why<'a, F: Folder>(alloc: Global, words: &[&'a str], folder: &mut F) -> Result<Bytes, Stop<'a>>
    ensures text { IfOk result (IsWhy (called words.now (F.contents folder.old) (F.faults folder.old) (F.faults folder.new))) }
    ensures stop { IfErr result (OnRefusal (IsRefused (called words.now (F.contents folder.old) (F.faults folder.old) (F.faults folder.new)))) }
    ensures same { F.contents folder.new ≡ F.contents folder.old }
{
    let Ok(ask) = asks_for(alloc, words) else {
        return Err(Stop::Memory);
    };
    let Some(ask) = ask else {
        return Err(Stop::Refused(Refusal::Usage));
    };
    let files = match load_why(folder, &ask) {
        Ok(files) => files,
        Err(stop) => return Err(stop),
    };
    found(alloc, &ask.asked, files)
}

// What is due at the end: the exit status, and the text to print.
#[derive(Drop)]
struct Due {
    status: u8,
    text: Bytes,
}

// What is due for a text or a stop.
fn due_for(alloc: Global, told: Result<Bytes, Stop<'_>>) -> Option<Due>
    ensures { IsDueFor told.entry result }
{
    match told {
        Ok(text) => Some(Due { status: 0, text }),
        Err(Stop::Memory) => None,
        Err(Stop::Refused(refusal)) => match refusal.line(alloc) {
            Ok(line) => Some(Due {
                status: refusal.status(),
                text: Bytes::from_vec(line.into_bytes()),
            }),
            Err(_) => None,
        },
    }
}

/// Prints what the words after the program's name ask for, or why there is none, over a folder and a sink. Answers the exit status.
///
/// 0: it was printed. 1: memory ran out, and nothing was printed. 2, 3, 4, 5 and 9: a line that says why nothing is shown was printed. 7:
/// the sink failed in the middle of what was to be printed.
pub fn why_run<F: Folder, O: Sink>(alloc: Global, words: &[&str], folder: &mut F, out: &mut O) -> u8
    // 0: what the words ask for was printed: of each packet its journey under the choices that the report names, or the counts of all.
    ensures told { result ≡ 0 → (text : List ℕ)
        × IsWhy (called words.now (F.contents folder.old) (F.faults folder.old) (F.faults folder.new)) text
        × Appends (O.written out.old) (O.written out.new) text }

    // 1: memory ran out.
    ensures memory { result ≡ 1 → O.written out.new ≡ O.written out.old }

    // All others but 7: nothing is shown, and the line of the refusal was printed.
    ensures refused { 2 ≤ result → result ≢ 7 → (refusal : Refused) × (result ≡ status_of refusal)
        × IsRefused (called words.now (F.contents folder.old) (F.faults folder.old) (F.faults folder.new)) refusal
        × Appends (O.written out.old) (O.written out.new) (line_of refusal) }

    // 7: the sink failed, after a proper front of what was due.
    ensures printing { result ≡ 7 → Rose (O.faults out.old) (O.faults out.new) × (status : ℕ) × (text : List ℕ)
        × IsDue (called words.now (F.contents folder.old) (F.faults folder.old) (F.faults folder.new)) status text
        × AppendsFront (O.written out.old) (O.written out.new) text }

    // At any other status no call of the sink failed.
    ensures quiet { result ≢ 7 → O.faults out.new ≡ O.faults out.old }

    // But for 1 and 7, the status is the one that the words and the files bring.
    ensures exactly { (expected : ℕ)
        → IsExpected (called words.now (F.contents folder.old) (F.faults folder.old) (F.faults folder.new)) expected
        → (result ≡ expected) ⊎ ((result ≡ 1) ⊎ (result ≡ 7)) }

    // No file changes.
    ensures same { F.contents folder.new ≡ F.contents folder.old }
{
    let Some(due) = due_for(alloc, why(alloc, words, folder)) else {
        return 1;
    };
    match print(out, due.text.as_slice()) {
        Ok(()) => due.status,
        Err(_) => 7,
    }
}
