//! A folder and a sink in memory, whose calls fail where they are told to.
ghost use Rattle.std.specs.Prelude.{◌≡◌, ◌⊎◌, ◌↔◌, ◌+◌, ◌≤◌, ◌<◌, ◌++◌, Some, None, [], length, take, option_map, IfOk, OnOk, OnErr, IsErr, is_ok, if◌then◌else◌};
ghost use Rattle.std.specs.FinMap.{empty, insert};
ghost use Rattle.vg_outside.specs.Calls.{IsDue, CountsOne};
ghost use Rattle.vg_outside.specs.Files.{file, FirstBytes, HoldsBytes, SameElsewhere, risen};
ghost use Rattle.vg_outside.specs.Memory.{taken_length};

use crate::calls::Calls;
use crate::file_map::FileMap;
use crate::folder::{Folder, LoadError};
use crate::sink::{Failed, Sink};
use std::alloc::{AllocError, Global};
use std::num::NonZeroUsize;
use vg_model::Bytes;

/// A folder in memory. Its loads and saves are counted together from 0, and those of the listed
/// numbers fail; so does a save that finds no memory. It has one count of faults for all names.
#[derive(Drop)]
pub struct MemoryFolder {
    pub files: FileMap,
    pub calls: Calls,
    pub faults: u64,
}

impl MemoryFolder {
    /// An empty folder, whose calls of these numbers are to fail.
    pub fn new(alloc: Global, failing: Vec<u64>) -> MemoryFolder
        ensures files { result.files ≡ empty }
        ensures next { result.calls.next ≡ 0 }
        ensures failing { result.calls.failing ≡ failing }
        ensures faults { result.faults ≡ 0 }
    {
        MemoryFolder {
            files: FileMap::new(alloc),
            calls: Calls::new(failing),
            faults: 0,
        }
    }

    /// Adds a file, or gives one other bytes. This is no call that is counted.
    pub fn add(&mut self, name: &str, bytes: &[u8]) -> Result<(), AllocError>
        ensures ok { OnOk result (self.new.files ≡ insert self.old.files name.now bytes.now) }
        ensures err { OnErr result (self.new.files ≡ self.old.files) }
        ensures calls { self.new.calls ≡ self.old.calls }
        ensures faults { self.new.faults ≡ self.old.faults }
    {
        self.files.set(name, bytes)
    }

    /// A file's bytes, or `None` where there is no file of this name. This is no call that is
    /// counted.
    pub fn file(&self, name: &str) -> Option<&[u8]>
        ensures { option_map (λ bytes. bytes.now) result ≡ file self.now.files name.now }
    {
        self.files.get(name)
    }
}

impl Folder for MemoryFolder {
    ghost contents = { λ folder. Some folder.files };

    ghost faults = { λ folder name. folder.faults };

    fn load(&mut self, name: &str, limit: usize) -> Result<Bytes, LoadError>
        ensures bytes { IfOk result (FirstBytes (Some self.old.files) name.now (limit + 1)) }
        ensures failed { (result ≡ Err LoadError.Failed) ↔ (IsDue self.old.calls ⊎ (file self.old.files name.now ≡ None)) }
        ensures files { self.new.files ≡ self.old.files }
        ensures later { self.old.faults ≤ self.new.faults }
        ensures due { IsDue self.old.calls → self.new.faults ≡ risen self.old.faults }
        ensures others { ¬ IsDue self.old.calls → self.new.faults ≡ self.old.faults }
        ensures counted { CountsOne self.old.calls self.new.calls }
    {
        if self.calls.next_fails() {
            self.faults = self.faults.saturating_add(1);
            return Err(LoadError::Failed);
        }
        self.files.load(name, limit)
    }

    fn save(&mut self, name: &str, bytes: &[u8]) -> Result<(), Failed>
        ensures ok { OnOk result (HoldsBytes (Some self.new.files) name.now bytes.now) }
        ensures others { SameElsewhere (Some self.old.files) (Some self.new.files) name.now }
        ensures err { OnErr result (self.new.files ≡ self.old.files) }
        ensures due { IsDue self.old.calls → IsErr result }
        ensures later { self.old.faults ≤ self.new.faults }
        ensures faults { self.new.faults ≡ (if is_ok result then self.old.faults else risen self.old.faults) }
        ensures counted { CountsOne self.old.calls self.new.calls }
    {
        if self.calls.next_fails() || self.files.set(name, bytes).is_err() {
            self.faults = self.faults.saturating_add(1);
            return Err(Failed);
        }
        Ok(())
    }
}

/// A sink in memory. Its calls are counted from 0, and those of the listed numbers fail; so does
/// one that finds no memory.
#[derive(Drop)]
pub struct MemorySink {
    pub written: Vec<u8>,
    pub calls: Calls,
    /// The most bytes that a call takes, where there is a limit.
    pub most: Option<NonZeroUsize>,
    pub faults: u64,
}

impl MemorySink {
    /// A sink with nothing written, that takes at most `most` bytes a call, and whose calls of these
    /// numbers are to fail.
    pub fn new(alloc: Global, failing: Vec<u64>, most: Option<NonZeroUsize>) -> MemorySink
        ensures written { result.written.items ≡ [] }
        ensures next { result.calls.next ≡ 0 }
        ensures failing { result.calls.failing ≡ failing }
        ensures most { result.most ≡ most }
        ensures faults { result.faults ≡ 0 }
    {
        MemorySink {
            written: Vec::new(alloc),
            calls: Calls::new(failing),
            most,
            faults: 0,
        }
    }

    /// The bytes written.
    pub fn written(&self) -> &[u8]
        ensures { result.now ≡ self.now.written.items }
    {
        self.written.as_slice()
    }
}

/// The part of a piece that one call takes: all of it, or its first `most` bytes.
fn taken(bytes: &[u8], most: Option<NonZeroUsize>) -> &[u8]
    ensures part { result.now ≡ take (taken_length most (length bytes.now)) bytes.now }
    ensures length { length result.now ≡ taken_length most (length bytes.now) }
    ensures within { length result.now ≤ length bytes.now }
    ensures some { 0 < length bytes.now → 0 < length result.now }
{
    match most {
        Some(most) if most.get() < bytes.len() => &bytes[..most.get()],
        _ => bytes,
    }
}

impl Sink for MemorySink {
    ghost written = { λ sink. Some sink.written.items };

    ghost faults = { λ sink. sink.faults };

    fn put(&mut self, bytes: &[u8]) -> Result<usize, Failed>
        ensures taken { IfOk result (λ n. n ≡ taken_length self.old.most (length bytes.now)) }
        ensures written { IfOk result (λ n. self.new.written.items ≡ self.old.written.items ++ take n bytes.now) }
        ensures err { OnErr result (self.new.written.items ≡ self.old.written.items) }
        ensures due { IsDue self.old.calls → IsErr result }
        ensures later { self.old.faults ≤ self.new.faults }
        ensures faults { self.new.faults ≡ (if is_ok result then self.old.faults else risen self.old.faults) }
        ensures counted { CountsOne self.old.calls self.new.calls }
        ensures most { self.new.most ≡ self.old.most }
    {
        let part = taken(bytes, self.most);
        if self.calls.next_fails() || self.written.extend_from_slice(part).is_err() {
            self.faults = self.faults.saturating_add(1);
            return Err(Failed);
        }
        Ok(part.len())
    }
}
