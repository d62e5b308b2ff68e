//! The headers of records.
ghost use Rattle.std.specs.Prelude.{◌≡◌, ◌+◌, ◌≤◌, length};
ghost use Rattle.vg_capture.specs.Places.{head_of, number_at as number_there};

use crate::captures::Marks;
use crate::layout::RECORD_HEADER_LEN;
use byteorder::{BigEndian, ByteOrder, LittleEndian};

/// The 32-bit number at a place, whose highest byte comes first, or else its lowest.
pub fn number_at(big: bool, bytes: &[u8], place: usize) -> u32
    requires { place + 4 ≤ length bytes.now }
    ensures { result ≡ number_there big bytes.now place }
{
    let bytes = &bytes[place..];
    if big {
        BigEndian::read_u32(bytes)
    } else {
        LittleEndian::read_u32(bytes)
    }
}

/// The header of a record with so many bytes, little-endian.
pub fn head(marks: Marks, len: u32) -> [u8; RECORD_HEADER_LEN]
    ensures { result ≡ head_of marks len }
{
    let seconds = marks.seconds.to_le_bytes();
    let fraction = marks.fraction.to_le_bytes();
    let captured = len.to_le_bytes();
    let original = marks.original.to_le_bytes();
    [
        seconds[0],
        seconds[1],
        seconds[2],
        seconds[3],
        fraction[0],
        fraction[1],
        fraction[2],
        fraction[3],
        captured[0],
        captured[1],
        captured[2],
        captured[3],
        original[0],
        original[1],
        original[2],
        original[3],
    ]
}
