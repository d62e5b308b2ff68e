//! The top call.
ghost use Rattle.std.specs.Prelude.{◌≡◌, ◌≢◌, ◌⊎◌, ◌≤◌, ℕ, List, IsSome, IfSome};
ghost use Rattle.vg_outside.specs.Files.{Rose};
ghost use Rattle.vg_files.specs.declared.refusals.Refusal.{Refusal};
ghost use Rattle.vg_top.specs.Dues.{AreDone};
ghost use Rattle.vg_top.specs.Expected.{IsExpected};
ghost use Rattle.vg_top.specs.Found.{IsFoundOf};
ghost use Rattle.vg_top.specs.Run.{called, IsDue, IsRefused};
ghost use Rattle.vg_files.specs.Refusals.{status_of, line_of};
ghost use Rattle.vg_files.specs.Printing.{Appends, AppendsFront};

use crate::done::Done;
use crate::run::run;
use std::alloc::Global;
use std::sync::Wait;
use std::thread::Threads;
use vg_files::print;
use vg_outside::{Folder, Gate, Sink};

/// Runs what the words after the program's name ask for, over a folder and a sink, and answers the exit status, where it is 0 the
/// end of the run, and where it is 9 what is found of the check. Workers run in threads, but where a turns file says their turns, and pass the gate at the beginning of each turn.
///
/// 0: the run is done, its savefile is saved and its report is printed; or the load is done, and its text is printed; or
/// a check answers yes, and that is printed. 1: memory ran out, and nothing was saved or printed. 2 to 6 and 8: the call is refused, and
/// one line is printed that says why. 7: the sink failed in the middle of what was to be printed; all else is as for the status that was
/// due. 9: a check answers no, and one line is printed that says what the first fault is.
pub fn vgd_run<F: Folder, O: Sink, G: Gate, R: Wait + Threads + Sync>(
    rt: &R,
    alloc: Global,
    words: &[&str],
    folder: &mut F,
    out: &mut O,
    gate: &G,
) -> Done
    ensures known { result.status ≤ 9 }

    // 0: a run is done: the folder holds its savefile, its report was printed, and what is answered is the end of the run that they tell of.
    // What is remarked there is what there is to remark of the run's capture, its script and that report. Or a load is done, and the text that
    // tells of it was printed; or a check answers yes, and that was printed: the folder is as it was.
    ensures done { result.status ≡ 0 → (line : List ℕ) × Appends (O.written out.old) (O.written out.new) line
        × AreDone (called words.now (F.contents folder.old) (F.contents folder.new) (F.faults folder.old) (F.faults folder.new)) line result.ran }

    // There is an end of a run at 0 alone.
    ensures ran { IsSome result.ran → result.status ≡ 0 }

    // 1: memory ran out.
    ensures memory { result.status ≡ 1 → (F.contents folder.new ≡ F.contents folder.old) × (O.written out.new ≡ O.written out.old) }

    // 2 to 6, 8 and 9: the call was refused, by 9 a check whose answer is no, and the line of the refusal was printed.
    ensures refused { 2 ≤ result.status → result.status ≢ 7 → (refusal : Refusal) × (result.status ≡ status_of refusal)
        × IsRefused (called words.now (F.contents folder.old) (F.contents folder.new) (F.faults folder.old) (F.faults folder.new)) refusal
        × Appends (O.written out.old) (O.written out.new) (line_of refusal) }

    // 7: the sink failed, after a proper front of what was due.
    ensures printing { result.status ≡ 7 → Rose (O.faults out.old) (O.faults out.new) × (due : ℕ) × (line : List ℕ)
        × IsDue (called words.now (F.contents folder.old) (F.contents folder.new) (F.faults folder.old) (F.faults folder.new)) due line
        × AppendsFront (O.written out.old) (O.written out.new) line }

    // Where something is found, a check answers no, and it is so of what was checked.
    ensures found { IfSome result.found
        (IsFoundOf (called words.now (F.contents folder.old) (F.contents folder.new) (F.faults folder.old) (F.faults folder.new)) result.status) }

    // At any other status no call of the sink failed.
    ensures quiet { result.status ≢ 7 → O.faults out.new ≡ O.faults out.old }

    // But for 1 and 7, the status is the one that the words and the files bring.
    ensures exactly { (expected : ℕ)
        → IsExpected (called words.now (F.contents folder.old) (F.contents folder.new) (F.faults folder.old) (F.faults folder.new)) expected
        → (result.status ≡ expected) ⊎ ((result.status ≡ 1) ⊎ (result.status ≡ 7)) }
{
    let Ok(due) = run(rt, alloc, words, folder, gate) else {
        return Done {
            status: 1,
            ran: None,
            found: None,
        };
    };
    match print(out, due.text.as_slice()) {
        Ok(()) => Done {
            status: due.status,
            ran: due.ran,
            found: due.found,
        },
        Err(_) => Done {
            status: 7,
            ran: None,
            found: None,
        },
    }
}
