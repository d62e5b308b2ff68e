//! Reading a savefile.
ghost use Rattle.std.specs.Prelude.{◌≡◌, ◌+◌, ◌≤◌, Err, Ok, IfOk, MatchResult, drop, length};
ghost use Rattle.vg_capture.specs.Places.{ArePlaces, captured_in};
ghost use Rattle.vg_capture.specs.Savefile.{AnswersRead, IsOrder, IsUnlessMemory, unit_of, number16, number32, capture_in, records_of};

use crate::captures::{Capture, Packets, Place};
use crate::errors::CaptureError;
use crate::layout::{
    FILE_HEADER_LEN, LARGEST_FILE, LINKTYPE_ETHERNET, LONGEST_RECORD, MAGIC_LEN, MAJOR_VERSION,
    MICROSECONDS_MAGIC, MINOR_VERSION, NANOSECONDS_MAGIC, RECORD_HEADER_LEN,
};
use byteorder::{BigEndian, ByteOrder, LittleEndian};
use std::alloc::Global;
use vg_model::Bytes;
use vg_model::limits::MOST_PACKETS;

/// Reads a savefile (pcap-savefile(5)) of Ethernet packets.
///
/// The byte order is the one in which the first four bytes are a magic number. An error is the
/// first check that fails, in this order: the file's size, its magic number, its whole header, the
/// version, the link type, and for each record the number of records, its whole header, its
/// captured length, its whole bytes. `Memory` may come in place of any answer.
///
/// The capture keeps the file's bytes.
pub fn read_capture(alloc: Global, file: Bytes) -> Result<Capture, CaptureError>
    ensures { AnswersRead file result }
{
    let bytes = file.as_slice();
    if bytes.len() > LARGEST_FILE {
        return Err(CaptureError::TooLarge);
    }
    if bytes.len() < MAGIC_LEN {
        return Err(CaptureError::Truncated { offset: 0 });
    }
    let little = nanos_of(LittleEndian::read_u32(bytes));
    let big = nanos_of(BigEndian::read_u32(bytes));
    if let Some(nanos) = little {
        return read_in_order::<LittleEndian>(alloc, false, nanos, file);
    }
    if let Some(nanos) = big {
        return read_in_order::<BigEndian>(alloc, true, nanos, file);
    }
    Err(CaptureError::NotPcap)
}

/// Whether fractions are nanoseconds, where this is a magic number.
fn nanos_of(magic: u32) -> Option<bool>
    ensures { result ≡ unit_of magic }
{
    match magic {
        MICROSECONDS_MAGIC => Some(false),
        NANOSECONDS_MAGIC => Some(true),
        _ => None,
    }
}

/// The 16-bit number at a place.
fn u16_at<T: ByteOrder>(bytes: &[u8], place: usize) -> u16
    requires { place + 2 ≤ length bytes.now }
    ensures { result ≡ number16 T.number_of bytes.now place }
{
    T::read_u16(&bytes[place..])
}

/// The 32-bit number at a place.
fn u32_at<T: ByteOrder>(bytes: &[u8], place: usize) -> u32
    requires { place + 4 ≤ length bytes.now }
    ensures { result ≡ number32 T.number_of bytes.now place }
{
    T::read_u32(&bytes[place..])
}

/// The capture of a file in this byte order.
fn read_in_order<T: ByteOrder>(
    alloc: Global,
    big: bool,
    nanos: bool,
    file: Bytes,
) -> Result<Capture, CaptureError>
    requires order { IsOrder big T.number_of }
    requires small { length file ≤ LARGEST_FILE }
    ensures { IsUnlessMemory (capture_in T.number_of nanos file) result }
{
    let bytes = file.as_slice();
    if bytes.len() < FILE_HEADER_LEN {
        return Err(CaptureError::Truncated { offset: 0 });
    }
    let major = u16_at::<T>(bytes, 4);
    let minor = u16_at::<T>(bytes, 6);
    if major != MAJOR_VERSION || minor != MINOR_VERSION {
        return Err(CaptureError::Version { major, minor });
    }
    let link_type = u32_at::<T>(bytes, 20);
    if link_type != LINKTYPE_ETHERNET {
        return Err(CaptureError::LinkType(link_type));
    }
    Ok(Capture {
        nanos,
        snaplen: u32_at::<T>(bytes, 16),
        packets: read_records::<T>(alloc, big, file)?,
    })
}

/// The packets of the records that stand behind the file's header.
fn read_records<T: ByteOrder>(
    alloc: Global,
    big: bool,
    file: Bytes,
) -> Result<Packets, CaptureError>
    requires order { IsOrder big T.number_of }
    requires header { FILE_HEADER_LEN ≤ length file }
    requires small { length file ≤ LARGEST_FILE }
    ensures { IsUnlessMemory (records_of T.number_of (drop FILE_HEADER_LEN file)) result }
{
    let places = read_places::<T>(alloc, big, file.as_slice())?;
    Ok(Packets::from_places(file, big, places))
}

/// Where in a file its records stand.
fn read_places<T: ByteOrder>(
    alloc: Global,
    big: bool,
    file: &[u8],
) -> Result<Vec<Place>, CaptureError>
    requires order { IsOrder big T.number_of }
    requires header { FILE_HEADER_LEN ≤ length file.now }
    requires small { length file.now ≤ LARGEST_FILE }
    ensures read { MatchResult result
        (λ places. records_of T.number_of (drop FILE_HEADER_LEN file.now) ≡ Ok (captured_in big file.now places.items))
        (λ error. IsUnlessMemory (records_of T.number_of (drop FILE_HEADER_LEN file.now)) (Err error)) }
    ensures places { IfOk result (λ places. ArePlaces file.now places.items) }
{
    let (_, records) = file.split_at(FILE_HEADER_LEN);
    let most = (records.len() / RECORD_HEADER_LEN).min(MOST_PACKETS);
    let mut places = Vec::with_capacity(alloc, most)?;
    let mut place = FILE_HEADER_LEN;
    let mut rest = records;
    while !rest.is_empty() {
        let offset = place as u32;
        if places.len() == MOST_PACKETS {
            return Err(CaptureError::TooManyPackets { offset });
        }
        if rest.len() < RECORD_HEADER_LEN {
            return Err(CaptureError::Truncated { offset });
        }
        let len = u32_at::<T>(rest, 8) as usize;
        if len > LONGEST_RECORD {
            return Err(CaptureError::RecordTooLong { offset });
        }
        let (_, body) = rest.split_at(RECORD_HEADER_LEN);
        if body.len() < len {
            return Err(CaptureError::Truncated {
                offset: (place + RECORD_HEADER_LEN) as u32,
            });
        }
        let (_, others) = body.split_at(len);
        places.push(Place {
            at: offset,
            len: len as u32,
        })?;
        place += RECORD_HEADER_LEN + len;
        rest = others;
    }
    Ok(places)
}
