//! Writing a savefile.
ghost use Rattle.std.specs.Prelude.{◌≡◌, ◌++◌, ◌<◌, ◌^◌, OnOk, IfOk, length};
ghost use Rattle.vg_capture.specs.Places.{head_of};
ghost use Rattle.vg_capture.specs.Savefile.{AreWithin, file_header, pairs, savefile, sent_in};

use crate::captures::{Capture, Marks, Sent};
use crate::layout::{
    FILE_HEADER_LEN, LINKTYPE_ETHERNET, MAJOR_VERSION, MICROSECONDS_MAGIC, MINOR_VERSION,
    NANOSECONDS_MAGIC, RECORD_HEADER_LEN,
};
use byteorder::{LittleEndian, WriteBytesExt};
use std::alloc::{AllocError, Global};
use std::io;
use std::marker::Model;
use vg_model::{Bytes, Memory};

/// A savefile (pcap-savefile(5)) that is being written, little-endian. It is seen as its bytes so far.
#[derive(Drop)]
pub struct Savefile {
    bytes: Vec<u8>,
}

impl Model for Savefile {
    ghost use Rattle.std.specs.Prelude.{List, ℕ};

    ghost Value = { List ℕ };

    ghost view = { λ file. file.bytes.items };
}

impl Savefile {
    /// The length in bytes of a savefile with records for so many packets that have so many bytes in all.
    pub const fn room(packets: usize, bytes: usize) -> usize {
        packets
            .saturating_mul(RECORD_HEADER_LEN)
            .saturating_add(bytes)
            .saturating_add(FILE_HEADER_LEN)
    }

    /// The header of a capture's file, with room for so many bytes in all.
    ///
    /// # Errors
    ///
    /// [`AllocError`] where memory runs out.
    pub fn begin(alloc: Global, capture: &Capture, room: usize) -> Result<Savefile, AllocError>
        ensures { IfOk result (λ file. file ≡ file_header capture.now) }
    {
        let mut bytes = Vec::with_capacity(alloc, room)?;
        match put_header(&mut bytes, capture) {
            Ok(()) => Ok(Savefile { bytes }),
            // A vector refuses bytes for want of memory alone.
            Err(_) => Err(AllocError),
        }
    }

    /// Appends the record of a packet that was sent: the time stamp and the original length of the captured packet with the
    /// number, and the bytes that were sent.
    ///
    /// # Errors
    ///
    /// [`AllocError`] where memory runs out. Then half a record may stand there, so the savefile is of no use any more.
    pub fn put(&mut self, capture: &Capture, number: u32, bytes: &[u8]) -> Result<(), AllocError>
        requires number { number < length capture.now.packets }
        requires len { length bytes.now < 2 ^ 32 }
        ensures { OnOk result (self.new ≡ self.old ++ sent_in capture.now.packets (number, bytes.now)) }
    {
        let marks = capture.packets.marks(number as usize);
        put_head(&mut self.bytes, marks, bytes.len() as u32)?;
        put(&mut self.bytes, bytes)
    }

    /// The whole file.
    pub fn end(self) -> Bytes
        ensures { result ≡ self }
    {
        Bytes::from_vec(self.bytes)
    }
}

/// Writes the savefile (pcap-savefile(5)) of the packets sent of a capture, little-endian.
///
/// Time unit and snaplen are the capture's. Each record has the time stamp and the original length
/// of the captured packet with the number, and the bytes that were sent. So each number must be
/// below the number of captured packets, and each packet sent shorter than 2^32 bytes. The only
/// error is want of memory.
pub fn write_capture(alloc: Global, capture: &Capture, sent: &[Sent]) -> Result<Bytes, Memory>
    requires { AreWithin (length capture.now.packets) sent.now }
    ensures { IfOk result (λ bytes. bytes ≡ savefile capture.now (pairs sent.now)) }
{
    let mut file = Savefile::begin(alloc, capture, savefile_len(sent))?;
    for one in sent {
        file.put(capture, one.number, one.bytes.as_slice())?;
    }
    Ok(file.end())
}

/// The length of the savefile in bytes, for which room is made.
fn savefile_len(sent: &[Sent]) -> usize {
    let mut bytes: usize = 0;
    for one in sent {
        bytes = bytes.saturating_add(one.bytes.as_slice().len());
    }
    Savefile::room(sent.len(), bytes)
}

/// Appends the file's header.
fn put_header(out: &mut Vec<u8>, capture: &Capture) -> io::Result<()>
    ensures { OnOk result (out.new.items ≡ out.old.items ++ file_header capture.now) }
{
    let magic = if capture.nanos {
        NANOSECONDS_MAGIC
    } else {
        MICROSECONDS_MAGIC
    };
    out.write_u32::<LittleEndian>(magic)?;
    out.write_u16::<LittleEndian>(MAJOR_VERSION)?;
    out.write_u16::<LittleEndian>(MINOR_VERSION)?;
    // The time zone and the accuracy of time stamps.
    out.write_u32::<LittleEndian>(0)?;
    out.write_u32::<LittleEndian>(0)?;
    out.write_u32::<LittleEndian>(capture.snaplen)?;
    out.write_u32::<LittleEndian>(LINKTYPE_ETHERNET)
}

/// Appends the header of a record with so many bytes, number by number: a header made apart is read back from memory before its
/// parts have arrived there.
fn put_head(out: &mut Vec<u8>, marks: Marks, len: u32) -> Result<(), AllocError>
    ensures { OnOk result (out.new.items ≡ out.old.items ++ head_of marks len) }
{
    put(out, &marks.seconds.to_le_bytes())?;
    put(out, &marks.fraction.to_le_bytes())?;
    put(out, &len.to_le_bytes())?;
    put(out, &marks.original.to_le_bytes())
}

/// Appends bytes.
fn put(out: &mut Vec<u8>, bytes: &[u8]) -> Result<(), AllocError>
    ensures { OnOk result (out.new.items ≡ out.old.items ++ bytes.now) }
{
    out.extend_from_slice(bytes)
}
