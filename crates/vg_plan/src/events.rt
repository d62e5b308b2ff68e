//! The events of a script, in their order.
ghost use Rattle.std.specs.Prelude.{◌≡◌, ◌++◌, IfOk, OnOk, map};
ghost use Rattle.vg_script.specs.Events.{events, events_of};
ghost use Rattle.vg_script.specs.Lawful.{IsLawful, IsLawfulBlock};
ghost use Rattle.vg_plan.specs.Run.{seen};

use std::alloc::{AllocError, Global};
use vg_model::Edits;
use vg_script::{Block, Script};

/// One run of a group of edits.
#[derive(Clone, Copy)]
pub struct Run<'a> {
    /// When, in microseconds from the first packet.
    pub time: u64,
    /// The line on which the block begins.
    pub line: u32,
    /// The how many'th run of the block it is, from 1.
    pub occurrence: u32,
    pub edits: &'a Edits,
}

/// The events of a script, by time, then by the line of their block, then by their occurrence.
pub fn in_order<'a>(alloc: Global, script: &'a Script) -> Result<Vec<Run<'a>>, AllocError>
    requires { IsLawful script.now }
    ensures { IfOk result (λ runs. map seen runs.items ≡ events script.now) }
{
    let mut runs = Vec::new(alloc);
    for block in script.blocks.as_slice() {
        push_runs(&mut runs, block)?;
    }
    runs.sort_unstable_by_key(|run| (run.time, run.line, run.occurrence));
    Ok(runs)
}

// Puts the runs of a block behind those of earlier blocks.
fn push_runs<'a>(runs: &mut Vec<Run<'a>>, block: &'a Block) -> Result<(), AllocError>
    requires { IsLawfulBlock block.now }
    ensures { OnOk result (map seen runs.new.items ≡ map seen runs.old.items ++ events_of block.now) }
{
    match block {
        Block::At { line, time, edits } => {
            runs.push(Run {
                time: *time,
                line: *line,
                occurrence: 1,
                edits,
            })?;
        }
        Block::Process {
            line,
            every,
            count,
            groups,
            ..
        } => {
            let groups = groups.as_slice();
            for past in 0..*count {
                runs.push(Run {
                    time: (u64::from(past) + 1) * *every,
                    line: *line,
                    occurrence: past + 1,
                    edits: &groups[past as usize % groups.len()],
                })?;
            }
        }
    }
    Ok(())
}

/// The times of runs.
pub fn times_of(alloc: Global, runs: &[Run<'_>]) -> Result<Vec<u64>, AllocError>
    ensures { IfOk result (λ times. times.items ≡ map (λ run. run.time) runs.now) }
{
    runs.iter().map(|run| run.time).collect(alloc)
}
