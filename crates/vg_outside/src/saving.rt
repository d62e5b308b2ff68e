//! How a file of the system is saved: its new bytes are written beside it, and take its place once all of them are there.

use std::alloc::AllocError;
use std::fs::{Metadata, OpenFile, OpenOptions, Permissions};
use std::io::{ErrorKind, Write};
use std::os::fd::AsFd;
use std::os::unix::fs::{MetadataExt, OpenOptionsExt, PermissionsExt, fchown};
use std::path::{Path, PathBuf};
use std::rt::Files;
use std::{fs, io};

/// The permissions of a file, for its owner, its group and all others.
const PERMISSIONS: u32 = 0o777;

/// What a file that wasn't there may be used for, but for what the user's mask takes away.
const READ_AND_WRITE: u32 = 0o666;

/// How many links are followed from a name to its file. Linux follows as many.
const MOST_LINKS: u8 = 40;

/// How many names are tried for a new file.
const MOST_NAMES: u16 = 1000;

/// The longest name of a file, in bytes, that stands in the name of the new file beside it. Linux has names of up to 255.
const LONGEST_TOLD: usize = 200;

/// Makes a call again for as long as a signal interrupts it.
pub(crate) fn uninterrupted<T, F: FnMut() -> io::Result<T>>(mut call: F) -> io::Result<T>
    requires { F.IsAlwaysCallable call }
{
    for _ in 0..u64::MAX {
        match call() {
            Err(e) if e.kind() == ErrorKind::Interrupted => {}
            answer => return answer,
        }
    }
    Err(io::Error::from(ErrorKind::Interrupted))
}

/// A regular file of the system, by its device and its number there.
#[derive(Clone, Copy, Debug, PartialEq, Eq)]
pub(crate) struct Printed {
    device: u64,
    number: u64,
}

impl Printed {
    /// Whether it is the file of these metadata.
    fn is_of(&self, file: &Metadata) -> bool {
        file.is_file() && file.dev() == self.device && file.ino() == self.number
    }
}

/// The regular file to which the standard output goes; `None` where it goes to a pipe, a terminal or a device, is closed, or where the
/// system doesn't say. An error is what the system says, except that there is no such file or that it may not be looked at.
fn printed_file<R: Files>(rt: &R) -> io::Result<Option<Printed>> {
    match uninterrupted(|| fs::metadata(rt, "/dev/stdout")) {
        Ok(file) if file.is_file() => Ok(Some(Printed {
            device: file.dev(),
            number: file.ino(),
        })),
        Ok(_) => Ok(None),
        Err(e) if e.kind() == ErrorKind::NotFound || e.kind() == ErrorKind::PermissionDenied => {
            Ok(None)
        }
        Err(e) => Err(e),
    }
}

/// Makes these the bytes of the file of this name.
///
/// A regular file, and one that isn't there yet, gets them in one step, once all of them are written to a new file beside it: after
/// an error, and where the process ends, it is as it was. Links are followed to it, and a file that is replaced hands on its
/// permissions. What is no regular file, as a pipe or a device, is written in place; so is, at its end, a regular file that is named
/// as an open one, as by `/dev/fd/3`. The regular file to which the standard output goes is refused: what is printed would stand over
/// the bytes, or would be lost with the file that they replace.
pub(crate) fn save_file<R: Files + AllocGlobal>(rt: &R, name: &str, bytes: &[u8]) -> io::Result<()>
where
    R::File: AsFd,
{
    // Asked before any file is opened, since a closed standard output leaves its number to the next file.
    let printed = printed_file(rt)?;
    match OpenOptions::new().write(true).open(rt, name) {
        Ok(file) => save_over(rt, name, file, printed, bytes),
        Err(e) if e.kind() == ErrorKind::NotFound => match behind_links(rt, name)? {
            Some(path) => replace(rt, path.as_path(), None, bytes),
            None => Err(e),
        },
        Err(e) => Err(e),
    }
}

/// Saves a file that is there, and open.
fn save_over<R: Files + AllocGlobal>(
    rt: &R,
    name: &str,
    file: R::File,
    printed: Option<Printed>,
    bytes: &[u8],
) -> io::Result<()>
where
    R::File: AsFd,
{
    let old = uninterrupted(|| file.metadata())?;
    if !old.is_file() {
        return write_and_close(file, bytes);
    }
    if printed.is_some_and(|printed| printed.is_of(&old)) {
        return Err(io::Error::other("the standard output goes to the same file"));
    }
    match behind_links(rt, name)? {
        Some(path) => replace(rt, path.as_path(), Some(&old), bytes),
        None => write_and_close(OpenOptions::new().append(true).open(rt, name)?, bytes),
    }
}

/// Writes all of these bytes, and closes the file. The library gives no error of a close.
fn write_and_close<F: Write + Drop>(mut file: F, bytes: &[u8]) -> io::Result<()> {
    file.write_all(bytes)
}

/// Where the file of a name stands, or is to stand, at the end of all links. `None` where one of them stands for an open file.
fn behind_links<R: Files + AllocGlobal>(rt: &R, name: &str) -> io::Result<Option<PathBuf>> {
    let mut path = PathBuf::from_str(rt.alloc(), name)?;
    for _ in 0..MOST_LINKS {
        let Some(target) = link_target(rt, path.as_path())? else {
            return Ok(Some(path));
        };
        if is_in_proc(rt, path.as_path())? {
            return Ok(None);
        }
        path.pop();
        path.push(target)?;
    }
    Err(io::Error::other("the name leads over too many links"))
}

/// What a link says, or `None` where there is no link of this name.
fn link_target<R: Files + AllocGlobal>(rt: &R, path: Path<'_>) -> io::Result<Option<PathBuf>> {
    match uninterrupted(|| fs::read_link(rt, path)) {
        Ok(target) => Ok(Some(target)),
        Err(e) if e.kind() == ErrorKind::InvalidInput || e.kind() == ErrorKind::NotFound => {
            Ok(None)
        }
        Err(e) => Err(e),
    }
}

/// Whether a link is one of the system's own in `/proc`, where those that stand for open files are.
fn is_in_proc<R: Files>(rt: &R, link: Path<'_>) -> io::Result<bool> {
    match uninterrupted(|| fs::symlink_metadata(rt, "/proc/self")) {
        Ok(proc) => Ok(proc.dev() == uninterrupted(|| fs::symlink_metadata(rt, link))?.dev()),
        Err(e) if e.kind() == ErrorKind::NotFound => Ok(false),
        Err(e) => Err(e),
    }
}

/// Writes a new file beside a path and gives it the path's name. At an error the path is as it was, and the new file is taken away.
fn replace<R: Files + AllocGlobal>(
    rt: &R,
    path: Path<'_>,
    old: Option<&Metadata>,
    bytes: &[u8],
) -> io::Result<()>
where
    R::File: AsFd,
{
    let permissions = old.map_or(READ_AND_WRITE, |old| old.mode() & PERMISSIONS);
    let (new_name, file) = create_beside(rt, path, permissions)?;
    let saved = match fill(file, old, bytes) {
        Ok(()) => uninterrupted(|| fs::rename(rt, new_name.as_path(), path)),
        Err(e) => Err(e),
    };
    if saved.is_err() {
        // What stood in the way of the save is the error that is answered.
        let _ = uninterrupted(|| fs::remove_file(rt, new_name.as_path()));
    }
    saved
}

/// Makes an empty file beside a path, under a name that nothing has: a dot, the name of the path, or `tx` for a long one, `.vgd-` and
/// a number.
fn create_beside<R: Files + AllocGlobal>(
    rt: &R,
    path: Path<'_>,
    permissions: u32,
) -> io::Result<(PathBuf, R::File)> {
    let alloc = rt.alloc();
    let Some(name) = path.file_name() else {
        return Err(io::Error::from(ErrorKind::NotFound));
    };
    let told = if name.len() <= LONGEST_TOLD {
        name
    } else {
        "tx"
    };
    for number in 0..MOST_NAMES {
        let new_name = format!(in alloc; ".{told}.vgd-{number}")?;
        let mut new_path = PathBuf::from_str(alloc, path.as_str())?;
        new_path.set_file_name(new_name.as_str())?;
        match OpenOptions::new()
            .write(true)
            .create_new(true)
            .mode(permissions)
            .open(rt, new_path.as_path())
        {
            Ok(file) => return Ok((new_path, file)),
            Err(e) if e.kind() == ErrorKind::AlreadyExists => {}
            Err(e) => return Err(e),
        }
    }
    Err(io::Error::from(ErrorKind::AlreadyExists))
}

/// Gives a new file the rights of the one that it is to replace, and these bytes, and closes it.
fn fill<F: Write + OpenFile + AsFd + Drop>(
    file: F,
    old: Option<&Metadata>,
    bytes: &[u8],
) -> io::Result<()> {
    if let Some(old) = old {
        keep_rights(&file, old)?;
    }
    write_and_close(file, bytes)
}

/// Gives a new file the permissions of an old one, and its owner and its group where the system lets the user give them away.
fn keep_rights<F: OpenFile + AsFd>(file: &F, old: &Metadata) -> io::Result<()> {
    let new = uninterrupted(|| file.metadata())?;
    let permissions = old.mode() & PERMISSIONS;
    if new.mode() & PERMISSIONS != permissions {
        file.set_permissions(Permissions::from_mode(permissions))?;
    }
    if new.gid() != old.gid() {
        let _ = uninterrupted(|| fchown(file, None, Some(old.gid())));
    }
    if new.uid() != old.uid() {
        let _ = uninterrupted(|| fchown(file, Some(old.uid()), None));
    }
    Ok(())
}
