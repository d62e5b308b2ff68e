//! Records that are made out of bytes of the same list.
ghost use Rattle.std.specs.Prelude.{◌≡◌, ◌+◌, ◌-◌, ◌<◌, ◌≤◌, ◌^◌, ◌++◌, take, drop, length, slice_range};
ghost use Rattle.byteorder.specs.Endian.{little_bytes};
ghost use Rattle.vg_capture.specs.Places.{head_of};
ghost use Rattle.vg_capture.specs.Savefile.{sent_in};

use vg_capture::{Capture, Marks};

/// The length of a record's header in bytes: the seconds and the fraction of the time stamp, the captured length, and the original one.
pub const HEADER_LEN: usize = 16;

/// Writes a number, its lowest byte first.
#[inline]
fn put_number(list: &mut [u8], at: usize, number: u32)
    requires { at + 4 ≤ length list.old }
    ensures { list.new ≡ take at list.old ++ (little_bytes 4 number ++ drop (at + 4) list.old) }
{
    list[at..at + 4].copy_from_slice(&number.to_le_bytes());
}

/// Writes the header of a record with so many bytes, number by number: a header made apart is read back from memory before its parts
/// have arrived there.
#[inline]
fn put_header(list: &mut [u8], at: usize, marks: Marks, len: u32)
    requires { at + HEADER_LEN ≤ length list.old }
    ensures { list.new ≡ take at list.old ++ (head_of marks len ++ drop (at + HEADER_LEN) list.old) }
{
    put_number(list, at, marks.seconds);
    put_number(list, at + 4, marks.fraction);
    put_number(list, at + 8, len);
    put_number(list, at + 12, marks.original);
}

/// Copies 32 bytes. All are read before one is written, so it is not asked whether the lists overlap.
#[inline]
fn copy_32(to: &mut [u8], from: &[u8], at: usize)
    requires within { (at + 32 ≤ length to.old) × (at + 32 ≤ length from.now) }
    ensures { to.new ≡ take at to.old ++ (slice_range from.now at (at + 32) ++ drop (at + 32) to.old) }
{
    let mut bytes = [0; 32];
    bytes.copy_from_slice(&from[at..at + 32]);
    to[at..at + 32].copy_from_slice(&bytes);
}

/// Copies bytes. 32 to 64 of them, as a small packet has, are copied as the first 32 and the last 32, in line.
#[inline]
fn copy(to: &mut [u8], from: &[u8])
    requires { length to.old ≡ length from.now }
    ensures { to.new ≡ from.now }
{
    let len = from.len();
    if 32 <= len && len <= 64 {
        copy_32(to, from, 0);
        copy_32(to, from, len - 32);
    } else {
        to.copy_from_slice(from);
    }
}

/// Copies so many bytes of a list to a place further back. Where no byte is read that was written, it is one copy.
#[inline]
fn move_back(list: &mut [u8], start: usize, len: usize, to: usize)
    requires back { start ≤ to }
    requires within { to + len ≤ length list.old }
    ensures { list.new ≡ take to list.old ++ (slice_range list.old start (start + len) ++ drop (to + len) list.old) }
{
    if len <= to - start {
        let (front, back) = list.split_at_mut(to);
        copy(&mut back[..len], &front[start..start + len]);
    } else {
        list.copy_within(start..start + len, to);
    }
}

/// Makes the record of a packet that was sent, where its bytes stand further in front in the same list: it ends at this place, and what
/// stood there is gone.
#[inline]
pub fn put_record(
    list: &mut [u8],
    capture: &Capture,
    number: u32,
    start: usize,
    len: usize,
    end: usize,
)
    requires number { number < length capture.now.packets }
    requires len { len < 2 ^ 32 }
    requires back { start + len + HEADER_LEN ≤ end }
    requires within { end ≤ length list.old }
    ensures { list.new ≡ take (end - (len + HEADER_LEN)) list.old
        ++ (sent_in capture.now.packets (number, slice_range list.old start (start + len)) ++ drop end list.old) }
{
    let to = end - len;
    move_back(list, start, len, to);
    let marks = capture.packets.marks(number as usize);
    put_header(list, to - HEADER_LEN, marks, len as u32);
}
