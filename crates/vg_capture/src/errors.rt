//! Why a savefile is refused.
ghost use Rattle.std.specs.Prelude.{◌≡◌};
ghost use Rattle.vg_capture.specs.declared.errors.CaptureError.TheVariants.{Memory as OutOfMemory};

use crate::layout::{LARGEST_FILE, LONGEST_RECORD};
use std::alloc::{AllocError, AllocFailed};
use std::error::Error;
use std::fmt;
use vg_model::limits::MOST_PACKETS;

/// The first check of a savefile that fails. An offset is a place in the file, in bytes.
#[derive(Clone, Copy, Debug, PartialEq, Eq)]
pub enum CaptureError {
    /// The file has more than 16,777,216 bytes.
    TooLarge,
    /// The first four bytes are no magic number in either byte order.
    NotPcap,
    /// The version isn't 2.4.
    Version { major: u16, minor: u16 },
    /// The word of the link type isn't 1, which is Ethernet.
    LinkType(u32),
    /// The file ends within its header, within the header of the record at this offset, or within
    /// the bytes of a record, which begin at this offset.
    Truncated { offset: u32 },
    /// The record at this offset has a captured length above 262,144 bytes.
    RecordTooLong { offset: u32 },
    /// There are 65,536 records before this offset, and more behind it.
    TooManyPackets { offset: u32 },
    /// Memory ran out.
    Memory,
}

impl fmt::Display for CaptureError {
    fn fmt<W: fmt::Write>(&self, f: &mut fmt::Formatter<W>) -> fmt::Result {
        match self {
            CaptureError::TooLarge => write!(f, "the file has more than {LARGEST_FILE} bytes"),
            CaptureError::NotPcap => write!(f, "the file doesn't begin with a magic number"),
            CaptureError::Version { major, minor } => write!(
                f,
                "the version is {major}.{minor}, and not 2.4"
            ),
            CaptureError::LinkType(word) => write!(f, "the link type is {word}, and not 1"),
            CaptureError::Truncated { offset } => write!(
                f,
                "what begins at byte {offset} is cut off"
            ),
            CaptureError::RecordTooLong { offset } => write!(
                f,
                "the record at byte {offset} has more than {LONGEST_RECORD} bytes"
            ),
            CaptureError::TooManyPackets { offset } => write!(
                f,
                "behind {MOST_PACKETS} packets there is one more, at byte {offset}"
            ),
            CaptureError::Memory => write!(f, "memory ran out"),
        }
    }
}

impl Error for CaptureError {}

impl From<AllocError> for CaptureError {
    ghost from_gives = { λ _ error. error ≡ OutOfMemory };

    fn from(_error: AllocError) -> CaptureError {
        CaptureError::Memory
    }
}

impl<T: Drop> From<AllocFailed<T>> for CaptureError {
    ghost from_gives = { λ _ error. error ≡ OutOfMemory };

    fn from(_failed: AllocFailed<T>) -> CaptureError {
        CaptureError::Memory
    }
}
