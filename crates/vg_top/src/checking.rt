//! A check: whether a savefile and a report are what a run may have put out.
ghost use Rattle.std.specs.Prelude.{◌≡◌, ◌≢◌, [], ◌∷◌, ◌++◌, ℕ, List, Some, None, Ok, codes, IfOk, IfSome};
ghost use Rattle.vg_check.specs.declared.verdicts.Verdict.TheVariants as verdicts;
ghost use Rattle.vg_words.specs.Shown.{check_shown};
ghost use Rattle.vg_files.specs.declared.refusals.Refusal.TheVariants as refusals;
ghost use Rattle.vg_files.specs.Refusals.{line_of};
ghost use Rattle.vg_top.specs.Command.{check_asked};
ghost use Rattle.vg_top.specs.Dues.{IsDueOf};
ghost use Rattle.vg_top.specs.Found.{IsFoundOf};

use crate::dues::{Due, refuse, stopped};
use std::alloc::Global;
use vg_check::Verdict;
use vg_differs::{Finding, Judged, judge};
use vg_files::{Refusal, load_checked};
use vg_model::{Bytes, Memory};
use vg_outside::Folder;
use vg_words::Check;

/// What is found, where memory sufficed for it.
fn found_of(found: Result<Option<Finding>, Memory>) -> Option<Finding>
    ensures { IfSome result (λ finding. found ≡ Ok (Some finding)) }
{
    match found {
        Ok(Some(finding)) => Some(finding),
        _ => None,
    }
}

/// What is due of a verdict: its line, 0 where it is yes, and else what is found by it.
fn due_by(alloc: Global, judged: Judged) -> Result<Due, Memory>
    ensures yes { judged.verdict ≡ verdicts.Yes → IfOk result (λ due. (due.status ≡ 0) × (due.text ≡ codes "yes" ++ 10 ∷ []) × (due.ran ≡ None)) }
    ensures no { judged.verdict ≢ verdicts.Yes → IfOk result (λ due. (due.status ≡ 9) × (due.text ≡ line_of (refusals.Verdict judged.verdict)) × (due.ran ≡ None)) }
    ensures found { IfOk result (λ due. IfSome due.found (λ finding. (due.status ≡ 9) × (judged.found ≡ Ok (Some finding)))) }
{
    let Judged { verdict, found } = judged;
    if verdict != Verdict::Yes {
        let due = refuse(alloc, Refusal::Verdict(verdict))?;
        return Ok(Due {
            found: found_of(found),
            ..due
        });
    }
    let Ok(text) = String::from_str(alloc, "yes\n") else {
        return Err(Memory);
    };
    Ok(Due {
        status: 0,
        text: Bytes::from_vec(text.into_bytes()),
        ran: None,
        found: None,
    })
}

/// Does a check, up to the printing: what is due of a call whose words ask for it.
pub fn check_due<F: Folder>(alloc: Global, check: &Check<'_>, folder: &mut F) -> Result<Due, Memory>
    ensures due { (words : List (List ℕ)) → check_asked words ≡ Some (check_shown check.now) → IfOk result (IsDueOf (record {
      words = words;
      files = F.contents folder.old;
      files_after = F.contents folder.new;
      faults = F.faults folder.old;
      faults_after = F.faults folder.new;
    })) }
    ensures same { F.contents folder.new ≡ F.contents folder.old }
    ensures found { (words : List (List ℕ)) → check_asked words ≡ Some (check_shown check.now) → IfOk result (λ due. IfSome due.found (IsFoundOf (record {
      words = words;
      files = F.contents folder.old;
      files_after = F.contents folder.new;
      faults = F.faults folder.old;
      faults_after = F.faults folder.new;
    }) due.status)) }
{
    let files = match load_checked(folder, check) {
        Ok(files) => files,
        Err(stop) => return stopped(alloc, stop),
    };
    let judged = match judge(alloc, files, check.queue) {
        Ok(judged) => judged,
        Err(stop) => return stopped(alloc, stop),
    };
    due_by(alloc, judged)
}
