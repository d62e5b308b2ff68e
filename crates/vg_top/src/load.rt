//! A load: random packets through two graphs.
ghost use Rattle.std.specs.Prelude.{◌≡◌, ◌≤◌, None, IfOk, IsOk, length};
ghost use Rattle.vg_load.specs.Summary.{summary as summary_text};
ghost use Rattle.vg_files.specs.Plan.{graphs_of};
ghost use Rattle.vg_top.specs.Loads.{IsLoadRun, AreLoadRuns};

use crate::dues::Due;
use crate::run::run_workers;
use std::alloc::Global;
use std::sync::Wait;
use std::thread::Threads;
use vg_capture::Capture;
use vg_engine::{Input, Options};
use vg_files::read_script;
use vg_load::laws::scripts_are_accepted;
use vg_load::{HANDOFF, Load, PLAIN, load_capture, summary};
use vg_model::{Bytes, Memory};
use vg_outside::Gate;
use vg_script::{ScriptCause, ScriptError};

/// What a run of a load came to.
#[derive(Clone, Copy, Debug)]
pub struct Counts {
    /// How many packets came to an end.
    pub ended: usize,
    /// How many of them were transmitted.
    pub sent: usize,
    /// How many buffers were back in the pool at the end.
    pub buffers: u32,
}

/// Sends a capture through the graph of a script that is accepted, by so many workers in threads. The only error is want of memory.
fn run_load<R: Wait + Threads + Sync, G: Gate>(
    rt: &R,
    alloc: Global,
    capture: &Capture,
    script: &str,
    workers: u8,
    gate: &G,
) -> Result<Counts, Memory>
    requires script { IsOk (graphs_of script.now) }
    requires workers { (1 ≤ workers) × (workers ≤ 8) }
    ensures ended { IfOk result (λ counts. counts.ended ≡ length capture.now.packets) }
    ensures buffers { IfOk result (λ counts. counts.buffers ≡ 4096) }
    ensures run { IfOk result (IsLoadRun script.now capture.now workers) }
{
    let plan = match read_script(alloc, script.as_bytes()) {
        Ok(plan) => plan,
        Err(
            ScriptError {
                cause: ScriptCause::Memory,
                ..
            },
        ) => return Err(Memory),
        Err(_) => unreachable!(),
    };
    let options = Options {
        workers,
        buffers: 4096,
        queue: 64,
        burst: 256,
        trace: 0,
    };
    let _generations = plan.generations();
    let input = Input {
        plan: &plan,
        capture,
        options: &options,
    };
    let outcome = run_workers(rt, alloc, &input, false, None, gate)?;
    Ok(Counts {
        ended: outcome.fates.len(),
        sent: outcome.sent.len(),
        buffers: outcome.settled.len(),
    })
}

/// Sends the packets of a load through the graph without handoffs, and then through the one with: what each run came to.
pub fn run_both<R: Wait + Threads + Sync, G: Gate>(
    rt: &R,
    alloc: Global,
    load: &Load,
    gate: &G,
) -> Result<(Counts, Counts), Memory>
    requires packets { load.now.packets ≤ 65536 }
    requires workers { (1 ≤ load.now.workers) × (load.now.workers ≤ 8) }
    ensures plain { IfOk result (λ counts. (counts.0.ended ≡ load.now.packets) × (counts.0.buffers ≡ 4096)) }
    ensures ended { IfOk result (λ counts. counts.1.ended ≡ load.now.packets) }
    ensures buffers { IfOk result (λ counts. counts.1.buffers ≡ 4096) }
    ensures runs { IfOk result (λ counts. AreLoadRuns load.now.seed load.now.packets load.now.workers counts.0 counts.1) }
{
    scripts_are_accepted();
    let capture = load_capture(alloc, load.seed, load.packets)?;
    let plain = run_load(rt, alloc, &capture, PLAIN, load.workers, gate)?;
    let handoff = run_load(rt, alloc, &capture, HANDOFF, load.workers, gate)?;
    Ok((plain, handoff))
}

/// Does a load, up to the printing.
pub fn load_due<R: Wait + Threads + Sync, G: Gate>(
    rt: &R,
    alloc: Global,
    load: &Load,
    gate: &G,
) -> Result<Due, Memory>
    requires packets { load.now.packets ≤ 65536 }
    requires workers { (1 ≤ load.now.workers) × (load.now.workers ≤ 8) }
    ensures status { IfOk result (λ due. due.status ≡ 0) }
    ensures text { IfOk result (λ due. due.text ≡ summary_text load.now.seed load.now.packets load.now.workers) }
    ensures ran { IfOk result (λ due. due.ran ≡ None) }
    ensures found { IfOk result (λ due. due.found ≡ None) }
{
    let (_, handoff) = run_both(rt, alloc, load, gate)?;
    let Ok(text) = summary(alloc, load, handoff.ended as u32, handoff.buffers) else {
        return Err(Memory);
    };
    Ok(Due {
        status: 0,
        text: Bytes::from_vec(text.into_bytes()),
        ran: None,
        found: None,
    })
}
