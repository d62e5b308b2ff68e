//! A folder and a sink in memory, which fail at want of memory alone.
ghost use Rattle.std.specs.Prelude.{◌≡◌, ◌↔◌, ◌+◌, ◌≤◌, ◌++◌, Some, None, [], length, option_map, IfOk, OnOk, OnErr, is_ok, if◌then◌else◌};
ghost use Rattle.std.specs.FinMap.{empty, insert};
ghost use Rattle.vg_outside.specs.Files.{file, FirstBytes, HoldsBytes, SameElsewhere, risen};

use crate::file_map::FileMap;
use crate::folder::{Folder, LoadError};
use crate::sink::{Failed, Sink};
use std::alloc::{AllocError, Global};
use vg_model::Bytes;

/// A folder in memory. A load of a name that it doesn't hold fails, and so does what there is no memory for; nothing else does. All
/// names share one count of faults.
#[derive(Drop)]
pub struct SureFolder {
    pub files: FileMap,
    pub faults: u64,
}

impl SureFolder {
    /// An empty folder.
    pub fn new(alloc: Global) -> SureFolder
        ensures files { result.files ≡ empty }
        ensures faults { result.faults ≡ 0 }
    {
        SureFolder {
            files: FileMap::new(alloc),
            faults: 0,
        }
    }

    /// Adds a file, or gives one other bytes.
    pub fn add(&mut self, name: &str, bytes: &[u8]) -> Result<(), AllocError>
        ensures ok { OnOk result (self.new.files ≡ insert self.old.files name.now bytes.now) }
        ensures err { OnErr result (self.new.files ≡ self.old.files) }
        ensures faults { self.new.faults ≡ self.old.faults }
    {
        self.files.set(name, bytes)
    }

    /// A file's bytes, or `None` where there is no file of this name.
    pub fn file(&self, name: &str) -> Option<&[u8]>
        ensures { option_map (λ bytes. bytes.now) result ≡ file self.now.files name.now }
    {
        self.files.get(name)
    }
}

impl Folder for SureFolder {
    ghost contents = { λ folder. Some folder.files };

    ghost faults = { λ folder name. folder.faults };

    fn load(&mut self, name: &str, limit: usize) -> Result<Bytes, LoadError>
        ensures bytes { IfOk result (FirstBytes (Some self.old.files) name.now (limit + 1)) }
        ensures absent { (result ≡ Err LoadError.Failed) ↔ (file self.old.files name.now ≡ None) }
        ensures files { self.new.files ≡ self.old.files }
        ensures faults { self.new.faults ≡ self.old.faults }
    {
        self.files.load(name, limit)
    }

    fn save(&mut self, name: &str, bytes: &[u8]) -> Result<(), Failed>
        ensures ok { OnOk result (HoldsBytes (Some self.new.files) name.now bytes.now) }
        ensures others { SameElsewhere (Some self.old.files) (Some self.new.files) name.now }
        ensures err { OnErr result (self.new.files ≡ self.old.files) }
        ensures later { self.old.faults ≤ self.new.faults }
        ensures faults { self.new.faults ≡ (if is_ok result then self.old.faults else risen self.old.faults) }
    {
        if self.files.set(name, bytes).is_err() {
            self.faults = self.faults.saturating_add(1);
            return Err(Failed);
        }
        Ok(())
    }
}

/// A sink in memory. It takes each piece whole, and fails at want of memory alone.
#[derive(Drop)]
pub struct SureSink {
    pub written: Vec<u8>,
    pub faults: u64,
}

impl SureSink {
    /// A sink with nothing written.
    pub fn new(alloc: Global) -> SureSink
        ensures written { result.written.items ≡ [] }
        ensures faults { result.faults ≡ 0 }
    {
        SureSink {
            written: Vec::new(alloc),
            faults: 0,
        }
    }

    /// The bytes written.
    pub fn written(&self) -> &[u8]
        ensures { result.now ≡ self.now.written.items }
    {
        self.written.as_slice()
    }
}

impl Sink for SureSink {
    ghost written = { λ sink. Some sink.written.items };

    ghost faults = { λ sink. sink.faults };

    fn put(&mut self, bytes: &[u8]) -> Result<usize, Failed>
        ensures whole { IfOk result (λ n. n ≡ length bytes.now) }
        ensures written { OnOk result (self.new.written.items ≡ self.old.written.items ++ bytes.now) }
        ensures err { OnErr result (self.new.written.items ≡ self.old.written.items) }
        ensures later { self.old.faults ≤ self.new.faults }
        ensures faults { self.new.faults ≡ (if is_ok result then self.old.faults else risen self.old.faults) }
    {
        if self.written.extend_from_slice(bytes).is_err() {
            self.faults = self.faults.saturating_add(1);
            return Err(Failed);
        }
        Ok(bytes.len())
    }
}
