//! The files of the system, whose calls fail where they are told to.

use std::alloc::Allocator;
use std::cell::Cell;
use std::fs::{File, Metadata, OpenFile, OpenOptions, Permissions};
use std::io;
use std::io::{ErrorKind, Read, Seek, SeekFrom, Write};
use std::os::fd::{AsFd, BorrowedFd};
use std::path::PathBuf;
use std::rt::Files;

/// The call that is to fail, and how. The calls are counted from 0.
#[derive(Clone, Copy)]
pub struct Fault<'a> {
    pub calls: &'a Cell<u64>,
    pub failing: u64,
    pub kind: ErrorKind,
}

impl<'a> Fault<'a> {
    /// Counts a call, and fails where it is the one.
    fn meet(&self) -> io::Result<()> {
        let call = self.calls.get();
        self.calls.set(call.saturating_add(1));
        if call == self.failing {
            return Err(io::Error::from(self.kind));
        }
        Ok(())
    }

    /// The same of a call that isn't interrupted: to open a file is made again by the library.
    fn meet_uninterrupted(&self) -> io::Result<()> {
        if self.kind == ErrorKind::Interrupted {
            return Ok(());
        }
        self.meet()
    }
}

/// The files of a runtime, of whose calls one fails. A write takes at most 3 bytes.
#[derive(Clone, Copy)]
pub struct FaultyFiles<'a, R> {
    pub rt: R,
    pub fault: Fault<'a>,
    /// The file to which the standard output is said to go.
    pub printed: &'static str,
}

/// An open file of such a runtime.
#[derive(Drop)]
pub struct FaultyFile<'a> {
    file: File,
    fault: Fault<'a>,
}

impl<'a, R: Alloc> Alloc for FaultyFiles<'a, R> {
    type A = R::A;

    fn alloc(&self) -> R::A {
        self.rt.alloc()
    }
}

impl<'a, R: Files<File = File>> Files for FaultyFiles<'a, R> {
    type File = FaultyFile<'a>;

    type Dir = R::Dir;

    fn open_file(&self, how: &OpenOptions, path: &str) -> io::Result<FaultyFile<'a>> {
        self.fault.meet_uninterrupted()?;
        Ok(FaultyFile {
            file: self.rt.open_file(how, path)?,
            fault: self.fault,
        })
    }

    fn open_dir(&self, path: &str) -> io::Result<R::Dir> {
        self.fault.meet()?;
        self.rt.open_dir(path)
    }

    fn metadata(&self, path: &str) -> io::Result<Metadata> {
        self.fault.meet()?;
        if path == "/dev/stdout" {
            return self.rt.metadata(self.printed);
        }
        self.rt.metadata(path)
    }

    fn symlink_metadata(&self, path: &str) -> io::Result<Metadata> {
        self.fault.meet()?;
        self.rt.symlink_metadata(path)
    }

    fn copy(&self, from: &str, to: &str) -> io::Result<u64> {
        self.fault.meet()?;
        self.rt.copy(from, to)
    }

    fn rename(&self, from: &str, to: &str) -> io::Result<()> {
        self.fault.meet()?;
        self.rt.rename(from, to)
    }

    fn remove_file(&self, path: &str) -> io::Result<()> {
        self.fault.meet()?;
        self.rt.remove_file(path)
    }

    fn create_dir(&self, path: &str) -> io::Result<()> {
        self.fault.meet()?;
        self.rt.create_dir(path)
    }

    fn remove_dir(&self, path: &str) -> io::Result<()> {
        self.fault.meet()?;
        self.rt.remove_dir(path)
    }

    fn remove_dir_all<B: Allocator>(&self, alloc: B, path: &str) -> io::Result<()> {
        self.fault.meet()?;
        self.rt.remove_dir_all(alloc, path)
    }

    fn read_link<B: Allocator>(&self, alloc: B, path: &str) -> io::Result<PathBuf<B>> {
        self.fault.meet()?;
        self.rt.read_link(alloc, path)
    }
}

impl<'a> Read for FaultyFile<'a> {
    fn read(&mut self, buf: &mut [u8]) -> io::Result<usize> {
        self.fault.meet()?;
        self.file.read(buf)
    }
}

impl<'a> Write for FaultyFile<'a> {
    fn write(&mut self, buf: &[u8]) -> io::Result<usize> {
        self.fault.meet()?;
        self.file.write(&buf[..buf.len().min(3)])
    }

    fn flush(&mut self) -> io::Result<()> {
        self.fault.meet()?;
        self.file.flush()
    }
}

impl<'a> Seek for FaultyFile<'a> {
    fn seek(&mut self, to: SeekFrom) -> io::Result<u64> {
        self.fault.meet()?;
        self.file.seek(to)
    }
}

impl<'a> OpenFile for FaultyFile<'a> {
    fn metadata(&self) -> io::Result<Metadata> {
        self.fault.meet()?;
        self.file.metadata()
    }

    fn set_len(&self, size: u64) -> io::Result<()> {
        self.fault.meet()?;
        self.file.set_len(size)
    }

    fn sync_all(&self) -> io::Result<()> {
        self.fault.meet()?;
        self.file.sync_all()
    }

    fn sync_data(&self) -> io::Result<()> {
        self.fault.meet()?;
        self.file.sync_data()
    }

    fn set_permissions(&self, permissions: Permissions) -> io::Result<()> {
        self.fault.meet()?;
        self.file.set_permissions(permissions)
    }
}

impl<'a> AsFd for FaultyFile<'a> {
    fn as_fd(&self) -> BorrowedFd<'_> {
        self.file.as_fd()
    }
}
