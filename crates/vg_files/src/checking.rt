//! What a check loads.
ghost use Rattle.std.specs.Prelude.{◌≡◌, IfOk, IfErr};
ghost use Rattle.vg_outside.specs.Files.{FailedLoad};
ghost use Rattle.vg_words.specs.Shown.{check_shown};
ghost use Rattle.vg_files.specs.Checks.{AreFirstChecked, IsCheckedNext, bytes_checked};
ghost use Rattle.vg_files.specs.Stops.{OnRefusal, IsLoadOf};

use crate::loading::load_file;
use crate::refusals::Stop;
use vg_capture::LARGEST_FILE;
use vg_model::Bytes;
use vg_outside::Folder;
use vg_script::LARGEST_SCRIPT;
use vg_words::Check;

/// The most bytes of a savefile and of a report that are checked.
const LARGEST_OUTPUT: usize = 33_554_432;

/// What a check reads: of each file at most one byte more than its greatest length.
#[derive(Drop)]
pub struct CheckFiles {
    pub capture: Bytes,
    pub script: Bytes,
    pub tx: Bytes,
    pub report: Bytes,
}

/// Loads a check's capture, then its script, then its savefile, and then its report.
pub fn load_checked<'a, F: Folder>(
    folder: &mut F,
    check: &Check<'a>,
) -> Result<CheckFiles, Stop<'a>>
    ensures files { IfOk result (λ files. AreFirstChecked (F.contents folder.old) (check_shown check.now) (bytes_checked files)) }
    ensures same { F.contents folder.new ≡ F.contents folder.old }
    ensures stop { IfErr result (OnRefusal (IsLoadOf (λ failed. IsCheckedNext (F.contents folder.old) (check_shown check.now) failed
        × FailedLoad (F.contents folder.old) failed (F.faults folder.old failed) (F.faults folder.new failed)))) }
{
    let capture = load_file(folder, check.capture, LARGEST_FILE)?;
    let script = load_file(folder, check.script, LARGEST_SCRIPT)?;
    let tx = load_file(folder, check.tx, LARGEST_OUTPUT)?;
    let report = load_file(folder, check.report, LARGEST_OUTPUT)?;
    Ok(CheckFiles {
        capture,
        script,
        tx,
        report,
    })
}
