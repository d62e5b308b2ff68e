//! What is found of the files of a call.
ghost use Rattle.std.specs.Prelude.{◌≡◌, ◌↔◌, ℕ, List, length, IsTrue, IfOk, IfErr};
ghost use Rattle.vg_files.specs.Kinds.{vgd_visit};
ghost use Rattle.vg_files.specs.Stops.{OnRefusal};
ghost use Rattle.vg_replay.specs.Replays.{task_of, IsInput, AreReplayed};
ghost use Rattle.vg_report.specs.Lawful.{IsLawful};
ghost use Rattle.vg_check.specs.Points.{IsHead};
ghost use Rattle.vg_why.specs.Asked.{asked_shown};
ghost use Rattle.vg_why.specs.Files.{bytes_of, IsFound, IsRefusedBy};
ghost use Rattle.vg_why.specs.Texts.{case_with, IsTextOf, IsChoiceRefusal, IsToldOf, IsUntold, IsToldBy, IsUntoldBy};

use crate::asks::Asked;
use crate::counting::counts;
use crate::loading::{WhyFiles, report_of};
use crate::ways::ways;
use std::alloc::Global;
use vg_capture::Capture;
use vg_check::Verdict;
use vg_files::{Files, Input as Read, KINDS, Refusal, Stop, read_files};
use vg_graph::Graph;
use vg_model::limits::{FRAME_SIZE, MOST_BUFFERS};
use vg_model::{Bytes, Memory};
use vg_plan::Plan;
use vg_replay::{Input, ReplayError, Replayed, replay};
use vg_report::Report;
use vg_ways::laws::journeys_are_shown;

// Whether a report's head fits a plan and a capture.
fn is_head(plan: &Plan, capture: &Capture, report: &Report) -> bool
    requires { IsLawful report.now }
    ensures { IsTrue result ↔ IsHead plan.now capture.now report.now }
{
    FRAME_SIZE as u32 * u32::from(report.workers) + FRAME_SIZE as u32 <= report.buffers
        && report.buffers <= MOST_BUFFERS
        && report.generations == plan.generations()
        && report.packets.len() == capture.count() as usize
}

// How the packets went; the nodes that they visited are kept of all.
fn replayed<'a>(alloc: Global, input: &Input<'_>) -> Result<Replayed, Stop<'a>>
    requires { IsInput input.now }
    ensures replayed { IfOk result (AreReplayed (task_of vgd_visit input.now) input.now.traced) }
    ensures stop { IfErr result (OnRefusal (IsChoiceRefusal (task_of vgd_visit input.now))) }
{
    match replay(alloc, input, &KINDS) {
        Ok(replayed) => Ok(replayed),
        Err(ReplayError::Choices(number)) => {
            Err(Stop::Refused(Refusal::Verdict(Verdict::Choices(number))))
        }
        Err(ReplayError::Memory) => Err(Stop::Memory),
    }
}

// The text that is asked for of packets that went so.
fn text_of<'a>(
    alloc: Global,
    asked: &Asked<'_>,
    input: &Input<'a>,
    replayed: &'a Replayed,
) -> Result<Vec<u8>, Memory>
    requires input { IsInput input.now }
    requires traced { input.now.traced ≡ length input.now.lines.now }
    requires replayed { AreReplayed (task_of vgd_visit input.now) input.now.traced replayed.now }
    ensures { IfOk result (λ text. IsTextOf input.now (asked_shown asked.now) text.items) }
{
    let _generations = input.plan.generations();
    journeys_are_shown();
    let names: &Graph = replayed.last.graph();
    let trips = &replayed.trips;
    match asked {
        Asked::Counts => counts(alloc, &KINDS, input, trips, names),
        Asked::Packets(_) => ways(alloc, &KINDS, input, trips, names, asked),
        Asked::All(_) => ways(alloc, &KINDS, input, trips, names, asked),
    }
}

// The text that is asked for, or why there is none, of a report whose head fits.
fn journeys_told<'a>(
    alloc: Global,
    asked: &Asked<'_>,
    plan: &Plan,
    capture: &Capture,
    report: &Report,
) -> Result<Bytes, Stop<'a>>
    requires lawful { IsLawful report.now }
    requires head { IsHead plan.now capture.now report.now }
    ensures text { (bytes : List ℕ) → IfOk result (IsToldOf (asked_shown asked.now) (case_with plan.now capture.now bytes) report.now) }
    ensures stop { (bytes : List ℕ) → IfErr result (OnRefusal (IsUntold (asked_shown asked.now) (case_with plan.now capture.now bytes) report.now)) }
{
    if !asked.are_below(capture.count()) {
        return Err(Stop::Refused(Refusal::Usage));
    }
    let input = Input {
        plan,
        capture,
        workers: report.workers,
        lines: &report.packets,
        traced: report.packets.len(),
    };
    let replayed = match replayed(alloc, &input) {
        Ok(replayed) => replayed,
        Err(stop) => return Err(stop),
    };
    match text_of(alloc, asked, &input, &replayed) {
        Ok(text) => Ok(Bytes::from_vec(text)),
        Err(Memory) => Err(Stop::Memory),
    }
}

// The text that is asked for, or why there is none, of a report.
fn report_told<'a>(
    alloc: Global,
    asked: &Asked<'_>,
    plan: &Plan,
    capture: &Capture,
    text: &[u8],
) -> Result<Bytes, Stop<'a>>
    ensures text { IfOk result (IsToldBy (asked_shown asked.now) (case_with plan.now capture.now text.now)) }
    ensures stop { IfErr result (OnRefusal (IsUntoldBy (asked_shown asked.now) (case_with plan.now capture.now text.now))) }
{
    let report = match report_of(alloc, text) {
        Ok(report) => report,
        Err(stop) => return Err(stop),
    };
    if !is_head(plan, capture, &report) {
        return Err(Stop::Refused(Refusal::Verdict(Verdict::Head)));
    }
    journeys_told(alloc, asked, plan, capture, &report)
}

/// The text that is asked for, over the files of a call; or why there is none.
pub(crate) fn found<'a>(
    alloc: Global,
    asked: &Asked<'_>,
    files: WhyFiles,
) -> Result<Bytes, Stop<'a>>
    ensures text { IfOk result (IsFound (asked_shown asked.now) (bytes_of files)) }
    ensures stop { IfErr result (OnRefusal (IsRefusedBy (asked_shown asked.now) (bytes_of files))) }
{
    let WhyFiles {
        capture,
        script,
        report,
    } = files;
    let inputs = Files {
        capture,
        script,
        turns: None,
    };
    let Read { capture, plan, .. } = match read_files(alloc, inputs, 1) {
        Ok(read) => read,
        Err(stop) => return Err(stop),
    };
    report_told(alloc, asked, &plan, &capture, report.as_slice())
}
