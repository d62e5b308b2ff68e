//! Files by name.
ghost use Rattle.std.specs.Prelude.{◌≡◌, ℕ, ◌+◌, ◌≤◌, List, Option, IfOk, OnOk, OnErr, IsErrOf};
ghost use Rattle.vg_outside.specs.declared.folder.LoadError.TheVariants.{Memory as OutOfMemory};
ghost use Rattle.vg_outside.specs.Files.{Files, FirstBytes, FailedLoad, HoldsBytes, SameElsewhere, Rose};

use crate::sink::Failed;
use std::alloc::AllocError;
use std::error::Error;
use std::fmt;
use vg_model::Bytes;

/// Why a file was not loaded.
#[derive(Clone, Copy, Debug, PartialEq, Eq)]
pub enum LoadError {
    /// The load failed, which was counted, or there is no file of this name.
    Failed,
    /// There was no memory for the file's bytes.
    Memory,
}

impl fmt::Display for LoadError {
    fn fmt<W: fmt::Write>(&self, f: &mut fmt::Formatter<W>) -> fmt::Result {
        f.write_str(match self {
            LoadError::Failed => "the file could not be loaded",
            LoadError::Memory => "memory ran out",
        })
    }
}

impl Error for LoadError {}

impl From<AllocError> for LoadError {
    ghost from_gives = { λ _ error. error ≡ OutOfMemory };

    fn from(_error: AllocError) -> LoadError {
        LoadError::Memory
    }
}

/// Files by name: a run reads its input from them and saves its output among them.
///
/// Contracts see two meanings: the files' bytes by their names, where the folder tells them, and for
/// each name a count of faults, which never falls. One counter may serve for all names, so a call on one
/// name says nothing of faults of another. A counter at the end of `u64` is taken for a risen one.
pub trait Folder {
    /// The files' bytes by their names, where the folder tells them.
    ghost contents: { Self → Option Files };

    /// How many faults of a name were counted.
    ghost faults: { Self → List ℕ → ℕ };

    /// The first `limit + 1` bytes of a file, or all where it has fewer: a caller that takes at most
    /// `limit` bytes sees from the length whether the file has more. No file changes.
    ///
    /// `Failed` comes only where the name's faults rose in this call, or where the folder tells its
    /// files and this one isn't there; `Memory` at want of memory.
    fn load(&mut self, name: &str, limit: usize) -> Result<Bytes, LoadError>
        ensures bytes { IfOk result (FirstBytes (contents self.old) name.now (limit + 1)) }
        ensures same { contents self.new ≡ contents self.old }
        ensures later { (other : List ℕ) → faults self.old other ≤ faults self.new other }
        ensures failed { IsErrOf result LoadError.Failed → FailedLoad (contents self.old) name.now (faults self.old name.now) (faults self.new name.now) };

    /// Makes these the bytes of a file, in place of those that it had. All other files stay, also
    /// where the call fails; after a failure this one may hold anything.
    ///
    /// `Failed` comes only where the name's faults rose in this call.
    fn save(&mut self, name: &str, bytes: &[u8]) -> Result<(), Failed>
        ensures ok { OnOk result (HoldsBytes (contents self.new) name.now bytes.now) }
        ensures others { SameElsewhere (contents self.old) (contents self.new) name.now }
        ensures later { (other : List ℕ) → faults self.old other ≤ faults self.new other }
        ensures failed { OnErr result (Rose (faults self.old name.now) (faults self.new name.now)) };
}
