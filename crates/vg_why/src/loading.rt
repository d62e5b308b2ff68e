//! The files of a call: loaded, and read.
ghost use Rattle.std.specs.Prelude.{◌≡◌, ℕ, List, ◌+◌, ◌≤◌, Ok, IfOk, IfErr};
ghost use Rattle.vg_outside.specs.Files.{FirstBytes, FailedLoad};
ghost use Rattle.vg_files.specs.Stops.{OnRefusal, IsLoadOf};
ghost use Rattle.vg_report.specs.Lawful.{IsLawful};
ghost use Rattle.vg_report.specs.Reading as reading;
ghost use Rattle.vg_why.specs.Asked.{ask_shown};
ghost use Rattle.vg_why.specs.Files.{AreLoaded, IsLoadedNext, bytes_of};
ghost use Rattle.vg_why.specs.Reading.{IsReportRefusal};

use crate::asks::Ask;
use std::alloc::Global;
use vg_capture::LARGEST_FILE;
use vg_check::Verdict;
use vg_files::{Refusal, Stop};
use vg_model::Bytes;
use vg_outside::{Folder, LoadError};
use vg_report::{Report, ReportCause, read_report};
use vg_script::LARGEST_SCRIPT;

/// The most bytes of a report that are read, as a check has it.
const LARGEST_REPORT: usize = 33_554_432;

/// The files of a call: of each at most one byte more than its greatest length.
#[derive(Drop)]
pub(crate) struct WhyFiles {
    pub capture: Bytes,
    pub script: Bytes,
    pub report: Bytes,
}

// Loads a file of at most so many bytes, or one byte more of it where it is longer.
fn load_file<'a, F: Folder>(folder: &mut F, name: &'a str, limit: usize) -> Result<Bytes, Stop<'a>>
    ensures bytes { IfOk result (FirstBytes (F.contents folder.old) name.now (limit + 1)) }
    ensures same { F.contents folder.new ≡ F.contents folder.old }
    ensures later { (other : List ℕ) → F.faults folder.old other ≤ F.faults folder.new other }
    ensures stop { IfErr result (OnRefusal (IsLoadOf (λ failed. (failed ≡ name.now)
        × FailedLoad (F.contents folder.old) name.now (F.faults folder.old name.now) (F.faults folder.new name.now)))) }
{
    match folder.load(name, limit) {
        Ok(bytes) => Ok(bytes),
        Err(LoadError::Failed) => Err(Stop::Refused(Refusal::Load(name))),
        Err(LoadError::Memory) => Err(Stop::Memory),
    }
}

/// Loads the capture, then the script, and then the report.
pub(crate) fn load_why<'a, F: Folder>(folder: &mut F, ask: &Ask<'a>) -> Result<WhyFiles, Stop<'a>>
    ensures files { IfOk result (λ files. AreLoaded (F.contents folder.old) (ask_shown ask.now) (bytes_of files)) }
    ensures same { F.contents folder.new ≡ F.contents folder.old }
    ensures stop { IfErr result (OnRefusal (IsLoadOf (λ failed. IsLoadedNext (F.contents folder.old) (ask_shown ask.now) failed
        × FailedLoad (F.contents folder.old) failed (F.faults folder.old failed) (F.faults folder.new failed)))) }
{
    let capture = load_file(folder, ask.capture, LARGEST_FILE)?;
    let script = load_file(folder, ask.script, LARGEST_SCRIPT)?;
    let report = load_file(folder, ask.report, LARGEST_REPORT)?;
    Ok(WhyFiles {
        capture,
        script,
        report,
    })
}

/// The report of a text.
pub(crate) fn report_of<'a>(alloc: Global, text: &[u8]) -> Result<Report, Stop<'a>>
    ensures report { IfOk result (λ report. reading.report_of text.now ≡ Ok report) }
    ensures lawful { IfOk result IsLawful }
    ensures stop { IfErr result (OnRefusal (IsReportRefusal text.now)) }
{
    match read_report(alloc, text) {
        Ok(report) => Ok(report),
        Err(error) => match error.cause {
            ReportCause::Memory => Err(Stop::Memory),
            cause => Err(Stop::Refused(Refusal::Verdict(Verdict::Report {
                line: error.line,
                cause,
            }))),
        },
    }
}
