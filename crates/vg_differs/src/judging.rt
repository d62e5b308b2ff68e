//! The verdict on a check's files, and what is found by it.
ghost use Rattle.std.specs.Prelude.{◌≡◌, ◌↔◌, IfErr, IfOk};
ghost use Rattle.vg_check.specs.Verdicts.{IsAccepted, IsVerdict};
ghost use Rattle.vg_files.specs.Checks.{IsJudged, bytes_checked, inputs_in};
ghost use Rattle.vg_files.specs.Stops.{OnRefusal, IsRefusedFor};
ghost use Rattle.vg_differs.specs.Findings.{case_checked, IsFound};
ghost use Rattle.vg_differs.specs.Judged.{IsFoundIn};

use crate::checked::Checked;
use crate::finding::{Finding, find_difference};
use std::alloc::Global;
use vg_check::{Verdict, check};
use vg_files::{CheckFiles, Files, Input, KINDS, Stop, read_files};
use vg_model::Memory;
use vg_nodes::KindSet;

/// What comes of a check.
#[derive(Drop)]
pub struct Judged {
    /// The first point that fails, or yes.
    pub verdict: Verdict,
    /// Where what was given differs from what is wanted; None by a verdict that has no such place. Where memory runs out for that alone, the verdict
    /// is as good.
    pub found: Result<Option<Finding>, Memory>,
}

// The verdict, and what is found by it.
fn judge_checked<K: KindSet>(
    alloc: Global,
    checked: &Checked<'_>,
    kinds: &K,
) -> Result<Judged, Memory>
    ensures verdict { IfOk result (λ judged. IsVerdict (case_checked K.meaning checked.now) judged.verdict) }
    ensures yes { IfOk result (λ judged. (judged.verdict ≡ Verdict.Yes) ↔ IsAccepted (case_checked K.meaning checked.now)) }
    ensures found { IfOk result (λ judged. IfOk judged.found (IsFound (case_checked K.meaning checked.now) judged.verdict)) }
{
    let verdict = check(
        alloc,
        checked.plan,
        checked.capture,
        checked.queue,
        kinds,
        checked.tx,
        checked.report,
    )?;
    Ok(Judged {
        verdict,
        found: find_difference(alloc, checked, kinds, verdict),
    })
}

/// The verdict on a check's savefile and report, with so many slots in a queue, and what is found by it; or why its capture or its script is refused.
///
/// # Errors
///
/// [`Stop::Refused`] where the capture is no savefile that is read, or the script makes no graph. [`Stop::Memory`] where memory runs out before there
/// is a verdict.
pub fn judge<'a>(alloc: Global, files: CheckFiles, queue: u64) -> Result<Judged, Stop<'a>>
    ensures verdict { IfOk result (λ judged. IsJudged queue (bytes_checked files) judged.verdict) }
    ensures found { IfOk result (IsFoundIn queue (bytes_checked files)) }
    ensures stop { IfErr result (OnRefusal (IsRefusedFor 1 (inputs_in (bytes_checked files)))) }
{
    let CheckFiles {
        capture,
        script,
        tx,
        report,
    } = files;
    let inputs = Files {
        capture,
        script,
        turns: None,
    };
    let Input { capture, plan, .. } = match read_files(alloc, inputs, 1) {
        Ok(input) => input,
        Err(stop) => return Err(stop),
    };
    let checked = Checked {
        plan: &plan,
        capture: &capture,
        queue,
        tx: tx.as_slice(),
        report: report.as_slice(),
    };
    match judge_checked(alloc, &checked, &KINDS) {
        Ok(judged) => Ok(judged),
        Err(Memory) => Err(Stop::Memory),
    }
}
