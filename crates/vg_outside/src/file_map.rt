//! Files by name in memory.
ghost use Rattle.std.specs.Prelude.{◌≡◌, ◌≢◌, ◌+◌, take, option_map, IsSomeAnd, IfOk, OnOk, OnErr, ◌↔◌};
ghost use Rattle.std.specs.FinMap.{empty, insert};
ghost use Rattle.vg_outside.specs.Files.{file};

use crate::folder::LoadError;
use std::alloc::{AllocError, Global};
use std::collections::BTreeMap;
use std::marker::Model;
use vg_model::Bytes;

/// Files by name in memory, each with its bytes.
#[derive(Drop)]
pub struct FileMap {
    files: BTreeMap<String, Vec<u8>>,
    alloc: Global,
}

impl Model for FileMap {
    ghost use Rattle.std.specs.Coded.{coded_ℕ, coded_list};
    ghost use Rattle.std.specs.FinMap.{code};
    ghost use Rattle.vg_outside.specs.Files.{Files};
    ghost use Rattle.vg_outside.specs.Memory.{files_of};

    ghost Value = { Files };

    ghost coded = { code (coded_list coded_ℕ) (coded_list coded_ℕ) };

    ghost view = { λ m. files_of m.files };
}

/// The first `limit + 1` bytes, or all where there are fewer.
fn first_bytes(bytes: &[u8], limit: usize) -> &[u8]
    ensures { result.now ≡ take (limit + 1) bytes.now }
{
    if limit < bytes.len() {
        &bytes[..limit + 1]
    } else {
        bytes
    }
}

impl FileMap {
    /// No files.
    pub fn new(alloc: Global) -> FileMap
        ensures { result ≡ empty }
    {
        FileMap {
            files: BTreeMap::new(alloc),
            alloc,
        }
    }

    /// A file's bytes, or `None` where there is no file of this name.
    pub fn get(&self, name: &str) -> Option<&[u8]>
        ensures { option_map (λ bytes. bytes.now) result ≡ file self.now name.now }
    {
        match self.files.get(name) {
            Some(bytes) => Some(bytes.as_slice()),
            None => None,
        }
    }

    /// A copy of a file's first `limit + 1` bytes, or of all where it has fewer. `Failed` comes
    /// exactly where there is no file of this name.
    pub fn load(&self, name: &str, limit: usize) -> Result<Bytes, LoadError>
        ensures bytes { IfOk result (λ bytes. IsSomeAnd (file self.now name.now) (λ all. bytes ≡ take (limit + 1) all)) }
        ensures absent { (result ≡ Err LoadError.Failed) ↔ (file self.now name.now ≡ None) }
    {
        let Some(bytes) = self.get(name) else {
            return Err(LoadError::Failed);
        };
        let copy = Vec::from_slice(self.alloc, first_bytes(bytes, limit))?;
        Ok(Bytes::from_vec(copy))
    }

    /// Gives a file these bytes, in place of those that it had. An error leaves all files as they
    /// were.
    pub fn set(&mut self, name: &str, bytes: &[u8]) -> Result<(), AllocError>
        ensures ok { OnOk result (self.new ≡ insert self.old name.now bytes.now) }
        ensures err { OnErr result (self.new ≡ self.old) }
    {
        let key = String::from_str(self.alloc, name)?;
        let copy = Vec::from_slice(self.alloc, bytes)?;
        self.files.insert(key, copy)?;
        Ok(())
    }
}
