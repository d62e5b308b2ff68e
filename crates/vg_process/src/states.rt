//! A block of a script as a state that is polled.
ghost use Rattle.std.specs.Prelude.{◌≡◌, ◌<◌, IfOk, length, drop};
ghost use Rattle.vg_script.specs.Events.{events_of};
ghost use Rattle.vg_script.specs.Lawful.{IsLawfulBlock};
ghost use Rattle.vg_process.specs.Left.{first_time, GivesFirst};

use crate::copies::{copy_edits, copy_groups};
use crate::schedule::Due;
use std::alloc::{AllocError, Global};
use std::marker::Model;
use vg_model::Edits;
use vg_script::Block;

/// A block and how often it has run; it is seen as the list of its runs that are not over. Edits at one time are a process that
/// runs once, at the end of its first period.
#[derive(Drop)]
pub struct State {
    line: u32,
    every: u64,
    count: u32,
    groups: Vec<Edits>,
    // How many runs are over.
    done: u32,
}

impl Model for State {
    ghost use Rattle.std.specs.Prelude.{List};
    ghost use Rattle.vg_script.specs.Events.{Event};

    ghost Value = { List Event };

    ghost use Rattle.vg_process.specs.Rest.{rest, IsState};

    ghost view = { rest };

    ghost invariant = { IsState };
}

impl State {
    /// The state of a block that has not run yet.
    pub fn of(alloc: Global, block: &Block) -> Result<State, AllocError>
        requires { IsLawfulBlock block.now }
        ensures { IfOk result (λ state. state ≡ events_of block.now) }
    {
        match block {
            Block::At { line, time, edits } => {
                let mut groups = Vec::with_capacity(alloc, 1)?;
                groups.push(copy_edits(alloc, edits)?)?;
                Ok(State {
                    line: *line,
                    every: *time,
                    count: 1,
                    groups,
                    done: 0,
                })
            }
            Block::Process {
                line,
                every,
                count,
                groups,
                ..
            } => Ok(State {
                line: *line,
                every: *every,
                count: *count,
                groups: copy_groups(alloc, groups)?,
                done: 0,
            }),
        }
    }

    // The time of the next run.
    fn time(&self) -> u64
        requires { 0 < length self.now }
        ensures { first_time self.now ≡ Some result }
    {
        (u64::from(self.done) + 1) * self.every
    }

    /// The time of the next run; `None` exactly where all are over.
    pub fn next_time(&self) -> Option<u64>
        ensures { result ≡ first_time self.now }
    {
        if self.done == self.count {
            return None;
        }
        Some(self.time())
    }

    /// The next run.
    pub fn next(&self, alloc: Global) -> Result<Due, AllocError>
        requires { 0 < length self.now }
        ensures { IfOk result (λ due. GivesFirst self.now due.time due (drop 1 self.now)) }
    {
        let group = self.done as usize % self.groups.len();
        Ok(Due {
            time: self.time(),
            line: self.line,
            edits: copy_edits(alloc, &self.groups[group])?,
        })
    }

    /// The next run is over.
    pub fn advance(&mut self)
        requires { 0 < length self.old }
        ensures { self.new ≡ drop 1 self.old }
    {
        self.done += 1;
    }
}
