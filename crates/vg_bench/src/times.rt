//! How long the runs of a trial take.
ghost use Rattle.std.specs.Prelude.{◌≡◌};
ghost use Rattle.vg_dispatch.specs.Progress.{AreInRange};

use crate::trials::Trial;
use crate::watch::Watch;
use std::alloc::Global;
use std::fmt;
use std::sync::Wait;
use std::thread::Threads;
use std::time::{Clock, Instant};
use vg_engine::{Input, Outcome, links_of, run_threads, run_turns};
use vg_model::Memory;
use vg_nodes::Ip4Kinds;

/// What the runs of a trial took, in nanoseconds, each by the fastest of them.
#[derive(Clone, Copy)]
pub struct Times {
    /// A run, with all that is made before its first turn and put together after its last one.
    pub whole: u64,
    /// From the first turn of a worker to the last one of any.
    pub turns: u64,
}

impl fmt::Display for Times {
    fn fmt<W: fmt::Write>(&self, f: &mut fmt::Formatter<W>) -> fmt::Result {
        let whole = self.whole;
        let turns = self.turns;
        write!(f, "{whole} {turns}")
    }
}

// A run, over this gate.
fn run_once<R: Wait + Threads + Sync + Clock>(
    rt: &R,
    alloc: Global,
    input: &Input<'_>,
    threads: bool,
    watch: &Watch<'_, R>,
) -> Result<Outcome, Memory>
    requires { AreInRange input.now.options.now }
{
    let links = links_of(alloc, input.options.workers, input.options.queue)?;
    if threads {
        run_threads(rt, alloc, input, &Ip4Kinds, links, watch)
    } else {
        run_turns(rt, alloc, input, &Ip4Kinds, links, watch, b"")
    }
}

// What a run takes; `None` where the clock can't be read, memory runs out or a buffer is missing.
fn time_once<R: Wait + Threads + Sync + Clock>(
    rt: &R,
    alloc: Global,
    input: &Input<'_>,
    threads: bool,
) -> Option<Times>
    requires { AreInRange input.now.options.now }
{
    let watch = Watch::new(alloc, rt, input.options.workers).ok()?;
    let start = Instant::now(rt).ok()?;
    let outcome = run_once(rt, alloc, input, threads, &watch).ok()?;
    let whole = start.elapsed(rt).ok()?;
    if outcome.buffers != input.options.buffers {
        return None;
    }
    Some(Times {
        whole: whole.as_nanos().min(u128::from(u64::MAX)) as u64,
        turns: watch.between(),
    })
}

/// The times of a trial with this input; `None` where one of its runs came to nothing.
pub fn best_times<R: Wait + Threads + Sync + Clock>(
    rt: &R,
    alloc: Global,
    input: &Input<'_>,
    trial: &Trial,
) -> Option<Times>
    requires { input.now.options.now ≡ trial.now.options }
{
    let mut best = time_once(rt, alloc, input, trial.threads)?;
    for _ in 1..trial.runs {
        let times = time_once(rt, alloc, input, trial.threads)?;
        best = Times {
            whole: best.whole.min(times.whole),
            turns: best.turns.min(times.turns),
        };
    }
    Some(best)
}
