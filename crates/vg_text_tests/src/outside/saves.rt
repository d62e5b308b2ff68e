//! What a save of a real folder leaves, also where a call fails.
use super::faulty::{Fault, FaultyFiles};
use super::{load, save};
use std::cell::Cell;
use std::fs::{File, Permissions};
use std::io::{ErrorKind, Read, Write};
use std::os::fd::AsRawFd;
use std::os::unix::fs::{MetadataExt, PermissionsExt, symlink};
use std::rt::Files;
use std::test::Fail;
use std::{fs, io};
use vg_outside::{Failed, LoadError, RealFolder};

const OLD: &str = "the old bytes";

const NEW: &str = "new bytes";

// Where the calls of a save fail.
const FOLDER: &str = "vg_outside_faults.tmp";

const FILE: &str = "vg_outside_faults.tmp/tx";

const LINK: &str = "vg_outside_faults.tmp/link";

// More faults than a save has calls.
const MOST_CALLS: u64 = 20;

// What stands at a name before it is saved.
#[derive(Clone, Copy, Debug, PartialEq, Eq)]
enum Before {
    There,
    Absent,
    LinkToFile,
    LinkToNothing,
}

impl Before {
    fn is_link(self) -> bool {
        self == Before::LinkToFile || self == Before::LinkToNothing
    }

    fn has_file(self) -> bool {
        self == Before::There || self == Before::LinkToFile
    }

    fn name(self) -> &'static str {
        if self.is_link() { LINK } else { FILE }
    }

    fn make<R: Files>(self, rt: &R) -> io::Result<()> {
        fs::create_dir(rt, FOLDER)?;
        if self.has_file() {
            fs::write(rt, FILE, OLD)?;
        }
        if self.is_link() {
            symlink(rt, "tx", LINK)?;
        }
        Ok(())
    }

    // Whether the folder is as a save leaves it, and has nothing else.
    fn is_well_left<R: Files + AllocGlobal + Clone + Drop>(
        self,
        rt: &R,
        saved: Result<(), Failed>,
    ) -> io::Result<bool> {
        let want = match saved {
            Ok(()) => Some(NEW),
            Err(Failed) if self.has_file() => Some(OLD),
            Err(Failed) => None,
        };
        let names = usize::from(want.is_some()) + usize::from(self.is_link());
        if names_in(rt, FOLDER)? != names {
            return Ok(false);
        }
        if self.is_link() && fs::read_link(rt, LINK)?.as_str() != "tx" {
            return Ok(false);
        }
        match want {
            Some(want) => Ok(fs::read_to_string(rt, FILE)?.as_str() == want),
            None => Ok(!fs::exists(rt, FILE)?),
        }
    }
}

fn names_in<R: Files + Alloc + Clone + Drop>(rt: &R, folder: &str) -> io::Result<usize> {
    let mut count = 0usize;
    for name in fs::read_dir(rt, folder)? {
        name?;
        count = count.saturating_add(1);
    }
    Ok(count)
}

// A save during which one call fails: whether it did, what came of it, and the faults counted.
fn save_with_fault<R: Files<File = File> + AllocGlobal + Drop>(
    rt: R,
    before: Before,
    failing: u64,
    kind: ErrorKind,
) -> (bool, Result<(), Failed>, u64) {
    let calls = Cell::new(0);
    let fault = Fault {
        calls: &calls,
        failing,
        kind,
    };
    let mut folder = RealFolder::new(FaultyFiles {
        rt,
        fault,
        printed: "/dev/null",
    });
    let saved = save(&mut folder, before.name(), NEW.as_bytes());
    (calls.get() > failing, saved, folder.faults)
}

#[test]
fn a_save_that_fails_leaves_what_was_there(rt: HostRuntime) -> Result<(), Fail> {
    for before in [
        Before::There,
        Before::Absent,
        Before::LinkToFile,
        Before::LinkToNothing,
    ] {
        for kind in [
            ErrorKind::Other,
            ErrorKind::StorageFull,
            ErrorKind::Interrupted,
        ] {
            for failing in 0..MOST_CALLS {
                before.make(&rt)?;
                let (failed, saved, faults) = save_with_fault(rt, before, failing, kind);
                assert!(rt;
                    before.is_well_left(&rt, saved)?,
                    "{before:?}, {kind:?} at {failing}"
                );
                let is_refused = failed && kind != ErrorKind::Interrupted;
                assert_eq!(rt;
                    saved.is_err(),
                    is_refused,
                    "{before:?}, {kind:?} at {failing}"
                );
                assert_eq!(rt; faults, u64::from(is_refused));
                fs::remove_dir_all(&rt, FOLDER)?;
            }
        }
    }
    Ok(())
}

// Gives the old file these permissions and saves it: those that it has then, and what it holds.
fn save_with_mode<R: Files<File = File> + AllocGlobal + Copy + Drop>(
    rt: R,
    name: &str,
    mode: u32,
) -> io::Result<(u32, String)> {
    fs::write(&rt, name, OLD)?;
    fs::set_permissions(&rt, name, Permissions::from_mode(mode))?;
    let _ = save(&mut RealFolder::new(rt), name, NEW.as_bytes());
    let mode = fs::metadata(&rt, name)?.mode() & 0o777;
    Ok((mode, fs::read_to_string(&rt, name)?))
}

#[test]
fn a_saved_file_keeps_its_permissions(rt: HostRuntime) -> Result<(), Fail> {
    let name = "vg_outside_permissions.tmp";
    for want in [0o600, 0o666, 0o640] {
        let (mode, bytes) = save_with_mode(rt, name, want)?;
        assert_eq!(rt; mode, want);
        assert_eq!(rt; bytes.as_str(), NEW);
    }
    fs::remove_file(&rt, name)?;
    Ok(())
}

#[test]
fn what_a_killed_save_left_is_not_touched(rt: HostRuntime) -> Result<(), Fail> {
    let name = "vg_outside_left";
    let left = ".vg_outside_left.vgd-0";
    fs::write(&rt, left, OLD)?;
    assert_eq!(rt;
        save(&mut RealFolder::new(&rt), name, NEW.as_bytes()),
        Ok(())
    );
    assert_eq!(rt; fs::read_to_string(&rt, name)?.as_str(), NEW);
    assert_eq!(rt; fs::read_to_string(&rt, left)?.as_str(), OLD);
    fs::remove_file(&rt, name)?;
    fs::remove_file(&rt, left)?;
    Ok(())
}

#[test]
fn a_folder_is_neither_loaded_nor_saved(rt: HostRuntime) {
    let mut folder = RealFolder::new(&rt);
    assert_eq!(rt; load(&mut folder, ".", 9).err(), Some(LoadError::Failed));
    assert_eq!(rt; save(&mut folder, ".", b""), Err(Failed));
    assert_eq!(rt; folder.faults, 2);
}

// Saves the file that is open under a number of this process.
fn save_open<R: Files<File = File> + AllocGlobal + Drop>(rt: R, number: i32) -> io::Result<bool> {
    let name = format!(in rt.alloc(); "/proc/self/fd/{number}")?;
    let saved = save(&mut RealFolder::new(rt), name.as_str(), NEW.as_bytes());
    Ok(saved.is_ok())
}

#[test]
fn a_pipe_is_written_in_place(rt: HostRuntime) -> Result<(), Fail> {
    let (mut reader, writer) = io::pipe(&rt)?;
    assert!(rt; save_open(rt, writer.as_raw_fd())?);
    drop(writer);
    let mut got = String::new(rt.alloc());
    reader.read_to_string(&mut got)?;
    assert_eq!(rt; got.as_str(), NEW);
    Ok(())
}

#[test]
fn an_open_file_is_written_at_its_end(rt: HostRuntime) -> Result<(), Fail> {
    let name = "vg_outside_open_file.tmp";
    let mut file = File::create(&rt, name)?;
    file.write_all(OLD.as_bytes())?;
    assert!(rt; save_open(rt, file.as_raw_fd())?);
    assert_eq!(rt;
        fs::read_to_string(&rt, name)?.as_str(),
        "the old bytesnew bytes"
    );
    fs::remove_file(&rt, name)?;
    Ok(())
}

// Saves a file while the standard output is said to go to another, or to the same: the error that was kept, and what the file holds.
fn save_printed<R: Files<File = File> + AllocGlobal + Copy + Drop>(
    rt: R,
    name: &str,
    printed: &'static str,
) -> io::Result<(Option<ErrorKind>, String)> {
    fs::write(&rt, FILE, OLD)?;
    let calls = Cell::new(0);
    let fault = Fault {
        calls: &calls,
        failing: MOST_CALLS,
        kind: ErrorKind::Other,
    };
    let mut folder = RealFolder::new(FaultyFiles { rt, fault, printed });
    let saved = save(&mut folder, name, NEW.as_bytes());
    let kept = folder.save_error.as_ref().map(|error| error.kind());
    if saved.is_ok() != kept.is_none() {
        return Err(io::Error::from(ErrorKind::InvalidData));
    }
    Ok((kept, fs::read_to_string(&rt, FILE)?))
}

#[test]
fn the_file_of_the_standard_output_is_not_saved(rt: HostRuntime) -> Result<(), Fail> {
    fs::create_dir(&rt, FOLDER)?;
    symlink(&rt, "tx", LINK)?;
    for name in [FILE, LINK] {
        let (kept, bytes) = save_printed(rt, name, FILE)?;
        assert_eq!(rt; kept, Some(ErrorKind::Other));
        assert_eq!(rt; bytes.as_str(), OLD);
    }
    for printed in ["vg_outside_faults.tmp/none", "/dev/null", FOLDER] {
        let (kept, bytes) = save_printed(rt, FILE, printed)?;
        assert_eq!(rt; kept, None, "{printed}");
        assert_eq!(rt; bytes.as_str(), NEW);
    }
    fs::remove_dir_all(&rt, FOLDER)?;
    Ok(())
}

#[test]
fn a_failed_save_keeps_its_error(rt: HostRuntime) {
    let mut folder = RealFolder::new(&rt);
    assert_eq!(rt;
        save(&mut folder, "vg_outside_no_folder/t", b""),
        Err(Failed)
    );
    let kept = folder.save_error.as_ref().map(|error| error.kind());
    assert_eq!(rt; kept, Some(ErrorKind::NotFound));
}
