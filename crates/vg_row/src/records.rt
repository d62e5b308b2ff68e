//! Savefiles, as pcap-savefile(5) has them.
ghost use Rattle.std.specs.Prelude.{◌≡◌, ◌++◌, OnOk, replicate};
ghost use Rattle.byteorder.specs.Endian.{little_bytes};
ghost use Rattle.vg_row.specs.Records.{header, filled, with_record};

use std::alloc::{AllocError, Global};

/// The header of a savefile: little-endian, microseconds, version 2.4, of at most 262,144 bytes a packet, Ethernet.
const HEADER: [u8; 24] = [
    0xd4, 0xc3, 0xb2, 0xa1, 2, 0, 4, 0, 0, 0, 0, 0, 0, 0, 0, 0, 0, 0, 4, 0, 1, 0, 0, 0,
];

/// What a record says of its frame.
#[derive(Clone, Copy)]
pub(crate) struct Marks {
    /// Its time, in microseconds.
    pub(crate) time: u32,
    /// How many bytes the record has.
    pub(crate) len: u32,
    /// How many bytes the frame had when it came in.
    pub(crate) original: u32,
}

/// Appends the header of a savefile.
pub(crate) fn put_header(out: &mut Vec<u8>) -> Result<(), AllocError>
    ensures { OnOk result (out.new.items ≡ out.old.items ++ header) }
{
    out.extend_from_slice(&HEADER)
}

/// Appends so many zero bytes.
pub(crate) fn put_zeros(alloc: Global, out: &mut Vec<u8>, count: usize) -> Result<(), AllocError>
    ensures { OnOk result (out.new.items ≡ out.old.items ++ replicate count 0) }
{
    let zeros = vec![in alloc; 0; count]?;
    out.extend_from_slice(zeros.as_slice())
}

/// Appends so many of these bytes, and zeros behind them where there are fewer.
fn put_filled(alloc: Global, out: &mut Vec<u8>, bytes: &[u8], len: usize) -> Result<(), AllocError>
    ensures { OnOk result (out.new.items ≡ out.old.items ++ filled bytes.now len) }
{
    if len <= bytes.len() {
        return out.extend_from_slice(&bytes[..len]);
    }
    out.extend_from_slice(bytes)?;
    put_zeros(alloc, out, len - bytes.len())
}

/// Appends a number, its lowest byte first.
fn put_number(out: &mut Vec<u8>, number: u32) -> Result<(), AllocError>
    ensures { OnOk result (out.new.items ≡ out.old.items ++ little_bytes 4 number) }
{
    out.extend_from_slice(&number.to_le_bytes())
}

/// Appends the record of a frame with these bytes.
pub(crate) fn put_record(
    alloc: Global,
    out: &mut Vec<u8>,
    marks: Marks,
    bytes: &[u8],
) -> Result<(), AllocError>
    ensures { OnOk result (out.new.items ≡ with_record marks bytes.now out.old.items) }
{
    put_number(out, marks.time / 1_000_000)?;
    put_number(out, marks.time % 1_000_000)?;
    put_number(out, marks.len)?;
    put_number(out, marks.original)?;
    put_filled(alloc, out, bytes, marks.len as usize)
}
