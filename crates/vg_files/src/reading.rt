//! What a run's files say.
ghost use Rattle.std.specs.Prelude.{◌≡◌, List, [], Ok, Err, unwrap_or, IfOk, IfErr};
ghost use Rattle.vg_turns.specs.declared.steps.Step.{Step};
ghost use Rattle.vg_turns.specs.Turns.{turns as turns_in};
ghost use Rattle.vg_files.specs.Files.{bytes_of};
ghost use Rattle.vg_files.specs.Plan.{MakesPlan, IsRefusalFor};
ghost use Rattle.vg_files.specs.Stops.{OnRefusal, IsRefusedFor, AreRead};

use crate::loading::Files;
use crate::refusals::{Refusal, Stop};
use std::alloc::Global;
use vg_capture::{Capture, CaptureError, read_capture};
use vg_model::Bytes;
use vg_plan::Plan;
use vg_script::{ScriptCause, ScriptError, parse_script};
use vg_turns::Turns;

/// What a run's files say: the packets, the plan of the graph that they go through, and the turns of main and the workers, as they
/// stand in their file.
#[derive(Drop)]
pub struct Input {
    pub capture: Capture,
    pub plan: Plan,
    pub turns: Option<Bytes>,
}

/// The plan that a script makes.
pub fn read_script(alloc: Global, text: &[u8]) -> Result<Plan, ScriptError>
    ensures plan { IfOk result (MakesPlan text.now) }
    ensures refused { IfErr result (IsRefusalFor text.now) }
{
    let script = parse_script(alloc, text)?;
    Plan::new(alloc, script)
}

/// Reads the turns of so many workers; Err with the place of the first faulty byte.
fn read_turns(turns: &Option<Bytes>, workers: u8) -> Result<(), u32>
    ensures read { IfOk result (λ u. (steps : List Step) × (turns_in workers (unwrap_or turns.now []) ≡ Ok steps)) }
    ensures fault { IfErr result (λ place. turns_in workers (unwrap_or turns.now []) ≡ Err place) }
{
    match turns {
        Some(turns) => match Turns::read(turns.as_slice(), workers) {
            Ok(_) => Ok(()),
            Err(place) => Err(place),
        },
        None => Ok(()),
    }
}

/// Reads the files of a run by so many workers: the capture first, which keeps its bytes, then the script, and then the turns.
pub fn read_files<'a>(alloc: Global, files: Files, workers: u8) -> Result<Input, Stop<'a>>
    ensures read { IfOk result (AreRead workers (bytes_of files)) }
    ensures turns { IfOk result (λ input. input.turns ≡ files.turns) }
    ensures stop { IfErr result (OnRefusal (IsRefusedFor workers (bytes_of files))) }
{
    let Files {
        capture,
        script,
        turns,
    } = files;
    let capture = match read_capture(alloc, capture) {
        Ok(capture) => capture,
        Err(CaptureError::Memory) => return Err(Stop::Memory),
        Err(fault) => return Err(Stop::Refused(Refusal::Capture(fault))),
    };
    let plan = match read_script(alloc, script.as_slice()) {
        Ok(plan) => plan,
        Err(
            ScriptError {
                cause: ScriptCause::Memory,
                ..
            },
        ) => return Err(Stop::Memory),
        Err(fault) => return Err(Stop::Refused(Refusal::Script(fault))),
    };
    if let Err(place) = read_turns(&turns, workers) {
        return Err(Stop::Refused(Refusal::Turns(place)));
    }
    Ok(Input {
        capture,
        plan,
        turns,
    })
}
