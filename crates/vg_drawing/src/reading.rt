//! The script and the report, read from their files.
ghost use Rattle.std.specs.Prelude.{◌≡◌, ◌+◌, ◌≤◌, ℕ, List, Ok, Err, IfOk, IfErr, option_map};
ghost use Rattle.vg_outside.specs.Files.{FirstBytes, FailedLoad};
ghost use Rattle.vg_drawing.specs.Run.{MakesPlan, MakesPlanAt, IsReportOf, OnRefusal};
ghost use Rattle.vg_drawing.specs.Reading.{IsLoadOf, IsScriptRefusalFor, IsScriptStop, IsReportStop};

use crate::refusals::{Refusal, Stop, report_stop, script_stop};
use std::alloc::Global;
use vg_model::Bytes;
use vg_outside::{Folder, LoadError};
use vg_plan::Plan;
use vg_report::{Report, read_report};
use vg_script::{LARGEST_SCRIPT, parse_script};

/// The most bytes that are read of a report; a lawful one has fewer.
pub const LARGEST_REPORT: usize = 16_777_216;

// Loads a file of at most so many bytes, or one byte more of it where it is longer.
fn load_file<'a, F: Folder>(folder: &mut F, name: &'a str, limit: usize) -> Result<Bytes, Stop<'a>>
    ensures bytes { IfOk result (FirstBytes (F.contents folder.old) name.now (limit + 1)) }
    ensures same { F.contents folder.new ≡ F.contents folder.old }
    ensures later { (other : List ℕ) → F.faults folder.old other ≤ F.faults folder.new other }
    ensures stop { IfErr result (OnRefusal (IsLoadOf (λ failed. (failed ≡ name.now)
        × FailedLoad (F.contents folder.old) name.now (F.faults folder.old name.now) (F.faults folder.new name.now)))) }
{
    match folder.load(name, limit) {
        Ok(bytes) => Ok(bytes),
        Err(LoadError::Failed) => Err(Stop::Refused(Refusal::Load(name))),
        Err(LoadError::Memory) => Err(Stop::Memory),
    }
}

// The plan that a script makes.
fn plan_of<'a>(alloc: Global, text: &[u8]) -> Result<Plan, Stop<'a>>
    ensures plan { IfOk result (λ plan. MakesPlan text.now plan) }
    ensures stop { IfErr result (OnRefusal (IsScriptRefusalFor text.now)) }
{
    let script = match parse_script(alloc, text) {
        Ok(script) => script,
        Err(fault) => return Err(script_stop(fault)),
    };
    match Plan::new(alloc, script) {
        Ok(plan) => Ok(plan),
        Err(fault) => Err(script_stop(fault)),
    }
}

/// Loads a script, and makes its plan.
pub fn load_plan<'a, F: Folder>(
    alloc: Global,
    folder: &mut F,
    name: &'a str,
) -> Result<Plan, Stop<'a>>
    ensures plan { IfOk result (λ plan. MakesPlanAt (F.contents folder.old) name.now plan) }
    ensures same { F.contents folder.new ≡ F.contents folder.old }
    ensures later { (other : List ℕ) → F.faults folder.old other ≤ F.faults folder.new other }
    ensures stop { IfErr result (OnRefusal (IsScriptStop (F.contents folder.old) name.now (F.faults folder.old) (F.faults folder.new))) }
{
    let text = match load_file(folder, name, LARGEST_SCRIPT) {
        Ok(text) => text,
        Err(stop) => return Err(stop),
    };
    match plan_of(alloc, text.as_slice()) {
        Ok(plan) => Ok(plan),
        Err(stop) => Err(stop),
    }
}

/// Loads a report, where one is named.
pub fn load_report<'a, F: Folder>(
    alloc: Global,
    folder: &mut F,
    name: Option<&'a str>,
) -> Result<Option<Report>, Stop<'a>>
    ensures report { IfOk result (IsReportOf (F.contents folder.old) (option_map (λ name. name.now) name.entry)) }
    ensures same { F.contents folder.new ≡ F.contents folder.old }
    ensures later { (other : List ℕ) → F.faults folder.old other ≤ F.faults folder.new other }
    ensures stop { IfErr result (OnRefusal (IsReportStop (F.contents folder.old) (option_map (λ name. name.now) name.entry) (F.faults folder.old) (F.faults folder.new))) }
{
    let Some(name) = name else {
        return Ok(None);
    };
    let text = match load_file(folder, name, LARGEST_REPORT) {
        Ok(text) => text,
        Err(stop) => return Err(stop),
    };
    match read_report(alloc, text.as_slice()) {
        Ok(report) => Ok(Some(report)),
        Err(fault) => Err(report_stop(fault)),
    }
}
