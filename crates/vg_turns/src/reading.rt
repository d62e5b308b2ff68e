//! Reading a turns file.
ghost use Rattle.std.specs.Prelude.{◌≡◌, Ok, Err, IfOk, IfErr, MatchOption, [], ◌∷◌};
ghost use Rattle.std.specs.List.{AllByRecursion};
ghost use Rattle.vg_turns.specs.Turns.{turns, fault_from, IsStepOf};

use crate::steps::{Step, may_stand, step_of};
use std::marker::Model;

/// The most bytes of a turns file.
pub const MOST_BYTES: u32 = 1_048_576;

/// The steps of a turns file that are still to be made. Contracts see their list.
#[derive(Drop)]
pub struct Turns<'a> {
    rest: &'a [u8],
    workers: u8,
}

impl<'a> Model for Turns<'a> {
    ghost use Rattle.std.specs.Prelude.{List};
    ghost use Rattle.vg_turns.specs.declared.steps.Step.{Step};
    ghost use Rattle.vg_turns.specs.Turns.{steps_said};

    ghost Value = { List Step };

    ghost view = { λ t. steps_said t.workers t.rest.now };
}

/// The place of the first faulty byte, from 0.
fn fault(file: &[u8], workers: u8) -> Option<u32>
    ensures { result ≡ fault_from workers 0 file.now }
{
    let mut rest = file;
    let mut place = 0;
    while let [byte, others @ ..] = rest {
        if place == MOST_BYTES || !may_stand(*byte, workers) {
            return Some(place);
        }
        place += 1;
        rest = others;
    }
    None
}

impl<'a> Turns<'a> {
    /// The steps that a turns file for so many workers says.
    ///
    /// # Errors
    ///
    /// Where the first faulty byte stands, counted from 0; what lies past the first 1,048,576 bytes is faulty too.
    pub fn read(file: &'a [u8], workers: u8) -> Result<Turns<'a>, u32>
        ensures ok { IfOk result (λ steps. turns workers file.entry.now ≡ Ok steps) }
        ensures err { IfErr result (λ place. turns workers file.entry.now ≡ Err place) }
        ensures steps { IfOk result (AllByRecursion (IsStepOf workers)) }
    {
        match fault(file, workers) {
            Some(place) => Err(place),
            None => Ok(Turns {
                rest: file,
                workers,
            }),
        }
    }

    /// The next step; `None` exactly where all are made.
    pub fn next(&mut self) -> Option<Step>
        ensures { MatchOption result ((self.old ≡ []) × (self.new ≡ [])) (λ step. self.old ≡ step ∷ self.new) }
    {
        while let [byte, others @ ..] = self.rest {
            let step = step_of(*byte, self.workers);
            self.rest = others;
            if step.is_some() {
                return step;
            }
        }
        None
    }
}
