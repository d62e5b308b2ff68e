//! The files that a run reads.
ghost use Rattle.std.specs.Prelude.{◌≡◌, ℕ, List, ◌+◌, ◌≤◌, IfOk, IfErr};
ghost use Rattle.vg_outside.specs.Files.{FirstBytes, FailedLoad};
ghost use Rattle.vg_words.specs.Shown.{run_shown};
ghost use Rattle.vg_files.specs.Files.{AreFirstBytes, IsLoadedNext, bytes_of};
ghost use Rattle.vg_files.specs.Stops.{OnRefusal, IsLoadOf};

use crate::refusals::{Refusal, Stop};
use vg_capture::LARGEST_FILE;
use vg_model::Bytes;
use vg_outside::{Folder, LoadError};
use vg_script::LARGEST_SCRIPT;
use vg_turns::MOST_BYTES;
use vg_words::Run;

/// What a run reads: of each file at most one byte more than its greatest length.
#[derive(Drop)]
pub struct Files {
    pub capture: Bytes,
    pub script: Bytes,
    /// The turns file, where the run has one.
    pub turns: Option<Bytes>,
}

/// Loads a file of at most so many bytes, or one byte more of it where it is longer.
pub(crate) fn load_file<'a, F: Folder>(
    folder: &mut F,
    name: &'a str,
    limit: usize,
) -> Result<Bytes, Stop<'a>>
    ensures bytes { IfOk result (FirstBytes (F.contents folder.old) name.now (limit + 1)) }
    ensures same { F.contents folder.new ≡ F.contents folder.old }
    ensures later { (other : List ℕ) → F.faults folder.old other ≤ F.faults folder.new other }
    ensures stop { IfErr result (OnRefusal (IsLoadOf (λ failed. (failed ≡ name.now)
        × FailedLoad (F.contents folder.old) name.now (F.faults folder.old name.now) (F.faults folder.new name.now)))) }
{
    match folder.load(name, limit) {
        Ok(bytes) => Ok(bytes),
        Err(LoadError::Failed) => Err(Stop::Refused(Refusal::Load(name))),
        Err(LoadError::Memory) => Err(Stop::Memory),
    }
}

/// Loads a run's capture, then its script, and then its turns file, where it has one.
pub fn load_files<'a, F: Folder>(folder: &mut F, run: &Run<'a>) -> Result<Files, Stop<'a>>
    ensures files { IfOk result (λ files. AreFirstBytes (F.contents folder.old) (run_shown run.now) (bytes_of files)) }
    ensures same { F.contents folder.new ≡ F.contents folder.old }
    ensures later { (other : List ℕ) → F.faults folder.old other ≤ F.faults folder.new other }
    ensures stop { IfErr result (OnRefusal (IsLoadOf (λ failed. IsLoadedNext (F.contents folder.old) (run_shown run.now) failed
        × FailedLoad (F.contents folder.old) failed (F.faults folder.old failed) (F.faults folder.new failed)))) }
{
    let capture = load_file(folder, run.capture, LARGEST_FILE)?;
    let script = load_file(folder, run.script, LARGEST_SCRIPT)?;
    let turns = match run.turns {
        Some(name) => Some(load_file(folder, name, MOST_BYTES as usize)?),
        None => None,
    };
    Ok(Files {
        capture,
        script,
        turns,
    })
}
