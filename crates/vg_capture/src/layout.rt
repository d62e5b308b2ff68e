//! The layout of a savefile, and the limits of what is read.
//!
//! | place in the file's header | field |
//! |---|---|
//! | 0..4 | magic number |
//! | 4..6, 6..8 | major and minor version |
//! | 8..12, 12..16 | time zone and accuracy of time stamps, not read, written as 0 |
//! | 16..20 | snaplen |
//! | 20..24 | link type |
//!
//! | place in a record | field |
//! |---|---|
//! | 0..4, 4..8 | time stamp: seconds and fraction |
//! | 8..12 | captured length |
//! | 12..16 | original length |
//! | from 16 on | as many bytes as the captured length says |

/// The magic number of a savefile whose fractions of a second are microseconds.
pub const MICROSECONDS_MAGIC: u32 = 0xa1b2_c3d4;

/// The magic number of a savefile whose fractions of a second are nanoseconds.
pub const NANOSECONDS_MAGIC: u32 = 0xa1b2_3c4d;

/// The first number of the only version, 2.4.
pub const MAJOR_VERSION: u16 = 2;

/// The second number of the only version, 2.4.
pub const MINOR_VERSION: u16 = 4;

/// The link type of Ethernet.
pub const LINKTYPE_ETHERNET: u32 = 1;

/// The length of a magic number in bytes.
pub const MAGIC_LEN: usize = 4;

/// The length of a savefile's header in bytes.
pub const FILE_HEADER_LEN: usize = 24;

/// The length of a record's header in bytes.
pub const RECORD_HEADER_LEN: usize = 16;

/// The greatest length of a savefile that is read, in bytes.
pub const LARGEST_FILE: usize = 16_777_216;

/// The greatest captured length of a record that is read, in bytes.
pub const LONGEST_RECORD: usize = 262_144;
