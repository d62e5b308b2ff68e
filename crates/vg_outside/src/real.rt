//! The files of the system, and its standard output.
ghost use Rattle.std.specs.Prelude.{◌≡◌, ◌≤◌, ◌<◌, None, length, IfOk, is_ok, if◌then◌else◌};
ghost use Rattle.vg_outside.specs.Files.{risen};

use crate::folder::{Folder, LoadError};
use crate::saving::save_file;
use crate::sink::{Failed, Sink};
use std::fs::OpenFile;
use std::io::{ErrorKind, Read, Write};
use std::os::fd::AsFd;
use std::rt::Files;
use std::{fs, io};
use vg_model::Bytes;

/// The files of the system, by their paths. Contracts know nothing of what they hold. Each `Err`
/// raises the count of faults, which is one for all names and stays at the greatest `u64`.
///
/// A load reads no more than the bytes that it gives.
///
/// A save of a regular file, or of one that isn't there yet, leaves it as it was or with all of the new bytes, at every moment: they
/// are written to a new file in the same folder, `.NAME.vgd-0` or with a higher number, which then takes the name. Where the save
/// fails the new file is removed; where the process is killed before, it may stay. What is no regular file, as a pipe, is written in
/// place, and a front of the bytes may be there after a failure. A save of the regular file to which the standard output goes fails.
#[derive(Drop)]
pub struct RealFolder<R> {
    rt: R,
    pub faults: u64,
    /// The system's error of the last save that failed.
    pub save_error: Option<io::Error>,
}

impl<R> RealFolder<R> {
    /// The files of a runtime.
    pub fn new(rt: R) -> RealFolder<R>
        ensures { result.faults ≡ 0 }
    {
        RealFolder {
            rt,
            faults: 0,
            save_error: None,
        }
    }
}

/// For how many bytes room is made before at most so many of a file are read: for those that the file says it has, and for one
/// more, so that the end is found without further room. What says nothing of its size, as a pipe, is given room as it is read.
fn room_for<F: OpenFile>(file: &F, most: u64) -> usize {
    let size = file.metadata().map_or(0, |metadata| metadata.len());
    usize::try_from(size.min(most).saturating_add(1)).unwrap_or(usize::MAX)
}

/// The first bytes of a file, at most `limit + 1` of them. No more are read.
fn read_first<R: Files + AllocGlobal>(rt: &R, name: &str, limit: usize) -> io::Result<Vec<u8>> {
    let most = u64::try_from(limit).unwrap_or(u64::MAX).saturating_add(1);
    let file = fs::open(rt, name)?;
    let mut bytes = Vec::with_capacity(rt.alloc(), room_for(&file, most))?;
    file.take(most).read_to_end(&mut bytes)?;
    Ok(bytes)
}

impl<R: Files + AllocGlobal> Folder for RealFolder<R>
where
    R::File: AsFd,
{
    ghost contents = { λ _. None };

    ghost faults = { λ folder name. folder.faults };

    fn load(&mut self, name: &str, limit: usize) -> Result<Bytes, LoadError>
        ensures later { self.old.faults ≤ self.new.faults }
        ensures faults { self.new.faults ≡ (if is_ok result then self.old.faults else risen self.old.faults) }
    {
        match read_first(&self.rt, name, limit) {
            Ok(bytes) => Ok(Bytes::from_vec(bytes)),
            Err(e) => {
                self.faults = self.faults.saturating_add(1);
                if e.kind() == ErrorKind::OutOfMemory {
                    Err(LoadError::Memory)
                } else {
                    Err(LoadError::Failed)
                }
            }
        }
    }

    fn save(&mut self, name: &str, bytes: &[u8]) -> Result<(), Failed>
        ensures later { self.old.faults ≤ self.new.faults }
        ensures faults { self.new.faults ≡ (if is_ok result then self.old.faults else risen self.old.faults) }
    {
        match save_file(&self.rt, name, bytes) {
            Ok(()) => Ok(()),
            Err(error) => {
                self.faults = self.faults.saturating_add(1);
                self.save_error = Some(error);
                Err(Failed)
            }
        }
    }
}

/// The standard output. Contracts know nothing of what was written. Each `Err` raises the count of
/// faults, which stays at the greatest `u64`.
///
/// A call of `put` is one write, made again where a signal interrupts it; one that takes no byte of a piece that has some is
/// `Failed`.
#[derive(Drop)]
pub struct RealSink<R> {
    rt: R,
    pub faults: u64,
}

impl<R> RealSink<R> {
    /// The standard output of a runtime.
    pub fn new(rt: R) -> RealSink<R>
        ensures { result.faults ≡ 0 }
    {
        RealSink { rt, faults: 0 }
    }
}

/// One write to the standard output, made again where a signal interrupts it.
fn write_once<R: Print>(rt: &R, bytes: &[u8]) -> io::Result<usize>
    ensures { IfOk result (λ n. n ≤ length bytes.now) }
{
    for _ in 0..u64::MAX {
        match io::writer(rt).write(bytes) {
            Err(e) if e.kind() == ErrorKind::Interrupted => {}
            written => return written,
        }
    }
    Err(io::Error::from(ErrorKind::Interrupted))
}

impl<R: Print> Sink for RealSink<R> {
    ghost written = { λ _. None };

    ghost faults = { λ sink. sink.faults };

    fn put(&mut self, bytes: &[u8]) -> Result<usize, Failed>
        ensures most { IfOk result (λ n. n ≤ length bytes.now) }
        ensures some { IfOk result (λ n. 0 < length bytes.now → 0 < n) }
        ensures later { self.old.faults ≤ self.new.faults }
        ensures faults { self.new.faults ≡ (if is_ok result then self.old.faults else risen self.old.faults) }
    {
        match write_once(&self.rt, bytes) {
            Ok(n) if 0 < n || bytes.is_empty() => Ok(n),
            _ => {
                self.faults = self.faults.saturating_add(1);
                Err(Failed)
            }
        }
    }
}
