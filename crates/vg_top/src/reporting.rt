//! The report of a run, its end, what is remarked of it, and the bytes that are saved and printed.
ghost use Rattle.std.specs.Prelude.{◌≡◌, ◌<◌, ◌≤◌, ◌^◌, ℕ, List, length, All, IfOk, IfSome};
ghost use Rattle.std.specs.List.{AllByRecursion};
ghost use Rattle.vg_model.specs.Name.{IsName};
ghost use Rattle.vg_capture.specs.Savefile.{savefile};
ghost use Rattle.vg_journeys.specs.Ends.{IsEndIn};
ghost use Rattle.vg_remarks.specs.Remarks.{AreRemarks};
ghost use Rattle.vg_report.specs.Lawful.{IsLawful};
ghost use Rattle.vg_report.specs.Text.{text};
ghost use Rattle.vg_top.specs.Reported.{reported};

use crate::done::RunEnd;
use std::alloc::{AllocError, Global};
use std::thread::{Threads, join};
use vg_capture::Capture;
use vg_dispatch::SentList;
use vg_engine::{Options, Outcome};
use vg_model::{Bytes, Memory};
use vg_plan::Plan;
use vg_remarks::{Remarks, remarks_on};
use vg_report::{Report, write_report};
use vg_reporting::{errors, interfaces, lines, nodes, traces};
use vg_savefile::savefile_of;

/// The report of what came of a run over so many generations, and the end of the run, with nothing remarked of it.
pub fn report(
    alloc: Global,
    options: &Options,
    generations: u32,
    outcome: Outcome,
) -> Result<(Report, RunEnd), AllocError>
    requires nodes { length outcome.last.nodes ≤ length outcome.counts.visits }
    requires interfaces { length outcome.last.interfaces ≤ length outcome.counts.sends }
    requires ends { AllByRecursion (λ fate. IsEndIn outcome.last fate.end) outcome.fates }
    requires traces { AllByRecursion (AllByRecursion (λ node. node < length outcome.last.nodes)) outcome.trace }
    ensures report { IfOk result (λ r. r.0 ≡ reported options.now generations outcome) }
    ensures interfaces { IfOk result (λ r. AllByRecursion (λ entry. IsName entry.0) r.0.interfaces) }
    ensures nodes { IfOk result (λ r. AllByRecursion (λ entry. IsName entry.0) r.0.nodes) }
    ensures rests { IfOk result (λ r. r.1.rests ≡ outcome.rests) }
    ensures seat { IfOk result (λ r. r.1.seat ≡ outcome.seat) }
    ensures settled { IfOk result (λ r. r.1.settled ≡ outcome.settled) }
{
    let Outcome {
        fates,
        sent: _,
        counts,
        trace,
        buffers: _,
        settled,
        last,
        rests,
        seat,
    } = outcome;
    let report = Report {
        workers: options.workers,
        buffers: settled.len(),
        generations,
        interfaces: interfaces(alloc, &last, &counts)?,
        nodes: nodes(alloc, &last, &counts)?,
        errors: errors(alloc, &last, &counts)?,
        packets: lines(alloc, &last, fates)?,
        traces: traces(alloc, &last, &trace)?,
    };
    Ok((
        report,
        RunEnd {
            rests,
            seat,
            settled,
            remarks: None,
        },
    ))
}

/// What is saved and printed of a run, and what is remarked of it.
#[derive(Drop)]
pub struct Output {
    /// The savefile of the packets that were transmitted.
    pub tx: Bytes,
    /// The text of the report.
    pub text: Bytes,
    /// What is remarked of the run; nothing where memory ran out for it.
    pub remarks: Option<Remarks>,
}

// The text of the report, and what is remarked of a run of this plan by the report: one thread makes the first while another makes the second.
fn text_and_remarks<R: Threads>(
    rt: &R,
    alloc: Global,
    plan: &Plan,
    capture: &Capture,
    report: &Report,
) -> Result<(Bytes, Option<Remarks>), Memory>
    requires report { IsLawful report.now }
    requires packets { length report.now.packets ≡ length capture.now.packets }
    ensures text { IfOk result (λ made. made.0 ≡ text report.now) }
    ensures remarks { IfOk result (λ made. IfSome made.1 (AreRemarks capture.now plan.now.script report.now)) }
{
    let (text, remarks) = join(
        rt,
        move || -> Result<Bytes, Memory>
            requires { IsLawful report.now }
            ensures { IfOk result (λ bytes. bytes ≡ text report.entry.now) }
        { write_report(alloc, report) },
        move || -> Result<Remarks, AllocError>
            requires { length report.now.packets ≡ length capture.now.packets }
            ensures { IfOk result (AreRemarks capture.entry.now plan.entry.now.script report.entry.now) }
        { remarks_on(alloc, capture, plan.script(), report) },
    );
    let text = text?;
    Ok((text, remarks.ok()))
}

/// The savefile of the packets that were transmitted of a capture, the text of the report, and what is remarked of a run of this plan by the
/// report: a thread each makes them, where threads can be made.
///
/// # Errors
///
/// [`Memory`] where memory ran out for the savefile or the text.
pub fn write_output<R: Threads>(
    rt: &R,
    alloc: Global,
    plan: &Plan,
    capture: &Capture,
    sent: SentList,
    report: &Report,
) -> Result<Output, Memory>
    requires sent { All (λ (packet : ℕ × List ℕ). (packet.0 < length capture.now.packets) × (length packet.1 < 2 ^ 32)) sent }
    requires report { IsLawful report.now }
    requires packets { length report.now.packets ≡ length capture.now.packets }
    ensures tx { IfOk result (λ output. output.tx ≡ savefile capture.now sent) }
    ensures text { IfOk result (λ output. output.text ≡ text report.now) }
    ensures remarks { IfOk result (λ output. IfSome output.remarks (AreRemarks capture.now plan.now.script report.now)) }
{
    let (tx, said) = join(
        rt,
        move || -> Result<Bytes, AllocError>
            requires { All (λ (packet : ℕ × List ℕ). (packet.0 < length capture.now.packets) × (length packet.1 < 2 ^ 32)) sent }
            ensures { IfOk result (λ bytes. bytes ≡ savefile capture.entry.now sent) }
        { savefile_of(alloc, capture, sent) },
        move || -> Result<(Bytes, Option<Remarks>), Memory>
            requires report { IsLawful report.now }
            requires packets { length report.now.packets ≡ length capture.now.packets }
            ensures text { IfOk result (λ made. made.0 ≡ text report.entry.now) }
            ensures remarks { IfOk result (λ made. IfSome made.1 (AreRemarks capture.entry.now plan.entry.now.script report.entry.now)) }
        { text_and_remarks(rt, alloc, plan, capture, report) },
    );
    let Ok(tx) = tx else {
        return Err(Memory);
    };
    let (text, remarks) = said?;
    Ok(Output { tx, text, remarks })
}
