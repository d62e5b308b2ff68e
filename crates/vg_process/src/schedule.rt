//! The edits of a script, in the order in which they are made.
ghost use Rattle.std.specs.Prelude.{◌≡◌, IfOk, OnErr, MatchOption};
ghost use Rattle.vg_script.specs.Events.{events};
ghost use Rattle.vg_script.specs.Lawful.{IsLawful};

use crate::states::State;
use crate::timers::Timers;
use std::alloc::Global;
use std::marker::Model;
use vg_model::{Edits, Memory};
use vg_script::Script;

/// A group of edits whose time has come.
#[derive(Drop)]
pub struct Due {
    /// When, in microseconds from the first packet.
    pub time: u64,
    /// The line on which their block begins, counted from 1.
    pub line: u32,
    pub edits: Edits,
}

/// The blocks of a script that have edits left to make; they are seen as the list of the events that are left, in their order.
///
/// Each block is a state that waits under the time of its next run.
#[derive(Drop)]
pub struct Processes {
    alloc: Global,
    // In the order of their lines.
    states: Vec<State>,
    // By the place of the state.
    timers: Timers,
}

impl Model for Processes {
    ghost use Rattle.std.specs.Prelude.{List};
    ghost use Rattle.vg_script.specs.Events.{Event};

    ghost Value = { List Event };

    ghost use Rattle.vg_process.specs.Kept.{events_left, IsKept};

    ghost view = { events_left };

    ghost invariant = { IsKept };
}

impl Processes {
    ghost use Rattle.vg_process.specs.Left.{first_time, IsNothingDue, GivesFirst};

    /// All the events of a script are left.
    ///
    /// # Errors
    ///
    /// [`Memory`] where memory runs out.
    pub fn new(alloc: Global, script: &Script) -> Result<Processes, Memory>
        requires { IsLawful script.now }
        ensures { IfOk result (λ processes. processes ≡ events script.now) }
    {
        let blocks = script.blocks.as_slice();
        let mut states = Vec::with_capacity(alloc, blocks.len())?;
        let mut times = Vec::with_capacity(alloc, blocks.len())?;
        for block in blocks {
            let state = State::of(alloc, block)?;
            times.push(state.next_time())?;
            states.push(state)?;
        }
        Ok(Processes {
            alloc,
            states,
            timers: Timers::new(alloc, times)?,
        })
    }

    /// The time of the next event, in microseconds from the first packet; `None` exactly where no event is left. It takes no memory.
    pub fn next_time(&self) -> Option<u64>
        ensures { result ≡ first_time self.now }
    {
        let first = self.timers.first()?;
        Some(first.time)
    }

    /// Takes the next event of those left, in the order of the events; `None` exactly where none of them has a time of at most `now`.
    ///
    /// # Errors
    ///
    /// [`Memory`] where memory runs out; the events left are as before.
    pub fn poll(&mut self, now: u64) -> Result<Option<Due>, Memory>
        ensures given { IfOk result
            (λ given. MatchOption given
            (IsNothingDue now self.old × (self.new ≡ self.old))
            (λ due. GivesFirst self.old now due self.new)) }
        ensures err { OnErr result (self.new ≡ self.old) }
    {
        let Some(first) = self.timers.first() else {
            return Ok(None);
        };
        if first.time > now {
            return Ok(None);
        }
        let state = &mut self.states[first.place];
        let due = state.next(self.alloc)?;
        state.advance();
        self.timers.reset_first(now, state.next_time());
        Ok(Some(due))
    }
}
