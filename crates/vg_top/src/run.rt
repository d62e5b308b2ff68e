//! A run: from the words to the status and the text that are due.
ghost use Rattle.std.specs.Prelude.{◌≡◌, ◌<◌, ◌≤◌, ◌^◌, ℕ, List, [], false, length, All, None, option_map, unwrap_or, IfOk, IfSome, OnErr};
ghost use Rattle.vg_files.specs.Kinds.{vgd_visit};
ghost use Rattle.vg_plan.specs.Plan.{first_generation};
ghost use Rattle.vg_dispatch.specs.Progress.{AreInRange};
ghost use Rattle.vg_engine.specs.Linked.{AreLinked};
ghost use Rattle.vg_engine.specs.Orders.{AreTurns};
ghost use Rattle.vg_engine.specs.Outcomes.{IsOutcome};
ghost use Rattle.vg_words.specs.Shown.{run_shown};
ghost use Rattle.vg_top.specs.Command.{options_of as options_in};
ghost use Rattle.vg_top.specs.Run.{called};
ghost use Rattle.vg_top.specs.Dues.{IsDueOf, AreResultsOf};
ghost use Rattle.vg_top.specs.Found.{IsFoundOf};

use crate::checking::check_due;
use crate::done::RunEnd;
use crate::dues::{Due, refuse, stopped};
use crate::load::load_due;
use crate::lossless::lossless_links;
use crate::reporting::{Output, report, write_output};
use std::alloc::{AllocError, Global};
use std::mem;
use std::sync::Wait;
use std::thread::Threads;
use vg_capture::know_few;
use vg_dispatch::{Links, SentList};
use vg_engine::{Options, Outcome, links_of, run_threads, run_turns};
use vg_files::{Input, KINDS, Refusal, load_files, read_files};
use vg_hands::{HandFrame, Handoff};
use vg_load::Load;
use vg_model::{Bytes, Memory};
use vg_outside::{Folder, Gate};
use vg_words::{Command, Run, read_words};

// How many bytes a packet a list may have whose memory is kept: more than a log, a short packet or a line of the report.
const KEPT: usize = 64;

/// What a run gives: the savefile, the text of its report, and its end, with what is remarked of it.
#[derive(Drop)]
struct Results {
    tx: Bytes,
    report: Bytes,
    end: RunEnd,
}

/// Runs the packets on workers that are linked by these queues: by these turns where there is a file of them, and else with each worker
/// in a thread.
fn run_linked<H: Handoff<HandFrame> + Send, R: Wait + Threads + Sync, G: Gate>(
    rt: &R,
    alloc: Global,
    input: &vg_engine::Input<'_>,
    links: Links<H>,
    turns: Option<&[u8]>,
    gate: &G,
) -> Result<Outcome, Memory>
    requires options { AreInRange input.now.options.now }
    requires links { AreLinked H.accepted H.ring H.slots input.now.options.now.workers input.now.options.now.queue links.workers.items }
    requires turns { AreTurns input.now.options.now.workers (unwrap_or (option_map (λ bytes. bytes.now) turns) []) }
    ensures { IfOk result (IsOutcome vgd_visit H.LOSSLESS input.now.plan.now.graphs
        (first_generation input.now.plan.now.script input.now.capture.now) input.now.capture.now input.now.options.now) }
{
    match turns {
        Some(turns) => run_turns(rt, alloc, input, &KINDS, links, gate, turns),
        None => run_threads(rt, alloc, input, &KINDS, links, gate),
    }
}

/// Runs the packets on the workers, whose queues hold back or drop the frames for which they have no slot: by these turns where there is
/// a file of them, and else with each worker in a thread.
pub fn run_workers<R: Wait + Threads + Sync, G: Gate>(
    rt: &R,
    alloc: Global,
    input: &vg_engine::Input<'_>,
    hold: bool,
    turns: Option<&[u8]>,
    gate: &G,
) -> Result<Outcome, Memory>
    requires options { AreInRange input.now.options.now }
    requires turns { AreTurns input.now.options.now.workers (unwrap_or (option_map (λ bytes. bytes.now) turns) []) }
    ensures { IfOk result (IsOutcome vgd_visit hold input.now.plan.now.graphs
        (first_generation input.now.plan.now.script input.now.capture.now) input.now.capture.now input.now.options.now) }
{
    if hold {
        let links = lossless_links(alloc, input.options)?;
        run_linked(rt, alloc, input, links, turns, gate)
    } else {
        let links = links_of(alloc, input.options.workers, input.options.queue)?;
        run_linked(rt, alloc, input, links, turns, gate)
    }
}

/// What the packets become.
fn forward<R: Wait + Threads + Sync, G: Gate>(
    rt: &R,
    alloc: Global,
    input: &Input,
    options: &Options,
    hold: bool,
    gate: &G,
) -> Result<Results, Memory>
    requires options { AreInRange options.now }
    requires turns { AreTurns options.now.workers (unwrap_or input.now.turns []) }
    ensures { IfOk result (AreResultsOf input.now.plan options.now hold input.now.capture) }
{
    let Input {
        capture,
        plan,
        turns,
    } = input;
    keep_memory(alloc, capture.count());
    know_few(capture);
    let generations = plan.generations();
    let turns = turns.as_ref().map(|turns| turns.as_slice());
    let mut outcome = run_workers(
        rt,
        alloc,
        &vg_engine::Input {
            plan,
            capture,
            options,
        },
        hold,
        turns,
        gate,
    )?;
    let none = SentList::new(Vec::new(alloc), Vec::new(alloc));
    let sent = mem::replace(&mut outcome.sent, none);
    let Ok((report, end)) = report(alloc, options, generations, outcome) else {
        return Err(Memory);
    };
    let Output { tx, text, remarks } = write_output(rt, alloc, plan, capture, sent, &report)?;
    Ok(Results {
        tx,
        report: text,
        end: RunEnd { remarks, ..end },
    })
}

/// The options of a run.
fn options_of(run: &Run<'_>) -> Options
    ensures { result ≡ options_in (run_shown run.now) }
{
    Options {
        workers: run.workers,
        buffers: run.buffers,
        queue: run.queue,
        burst: run.burst,
        trace: run.trace,
    }
}

/// Asks for memory for so many packets, and gives it back at once. From then on the C library keeps what lists up to that size give
/// back, with its pages, for the lists that come after them.
fn keep_memory(alloc: Global, packets: u32) {
    let _given_back: Result<Vec<u8>, AllocError> = Vec::with_capacity(
        alloc,
        (packets as usize).saturating_mul(KEPT),
    );
}

/// Runs what the words ask for, up to the printing.
pub fn run<F: Folder, G: Gate, R: Wait + Threads + Sync>(
    rt: &R,
    alloc: Global,
    words: &[&str],
    folder: &mut F,
    gate: &G,
) -> Result<Due, Memory>
    ensures due { IfOk result (IsDueOf (called words.now (F.contents folder.old) (F.contents folder.new) (F.faults folder.old) (F.faults folder.new))) }
    ensures memory { OnErr result (F.contents folder.new ≡ F.contents folder.old) }
    ensures found { IfOk result (λ due. IfSome due.found
        (IsFoundOf (called words.now (F.contents folder.old) (F.contents folder.new) (F.faults folder.old) (F.faults folder.new)) due.status)) }
{
    let run = match read_words(alloc, words)? {
        Some(Command::Run(run)) => run,
        Some(
            Command::Load {
                seed,
                packets,
                workers,
            },
        ) => {
            let load = Load {
                seed,
                packets,
                workers,
            };
            return load_due(rt, alloc, &load, gate);
        }
        Some(Command::Check(check)) => return check_due(alloc, &check, folder),
        None => return refuse(alloc, Refusal::Usage),
    };
    let files = match load_files(folder, &run) {
        Ok(files) => files,
        Err(stop) => return stopped(alloc, stop),
    };
    let input = match read_files(alloc, files, run.workers) {
        Ok(input) => input,
        Err(stop) => return stopped(alloc, stop),
    };
    let Results { tx, report, end } = forward(
        rt,
        alloc,
        &input,
        &options_of(&run),
        run.hold,
        gate,
    )?;
    let not_saved = refuse(alloc, Refusal::Save(run.tx))?;
    match folder.save(run.tx, tx.as_slice()) {
        Ok(()) => Ok(Due {
            status: 0,
            text: report,
            ran: Some(end),
            found: None,
        }),
        Err(_) => Ok(not_saved),
    }
}
