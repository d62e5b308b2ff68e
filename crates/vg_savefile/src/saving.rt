//! The savefile of what was sent.
ghost use Rattle.std.specs.Prelude.{ℕ, List, ◌≡◌, ◌+◌, ◌-◌, ◌*◌, ◌<◌, ◌≤◌, ◌^◌, ◌++◌, take, length, vec_len, flat_map, All, IfOk};
ghost use Rattle.std.specs.Bool.{OnTrue};
ghost use Rattle.vg_capture.specs.Savefile.{savefile, sent_in};
ghost use Rattle.vg_underway.specs.SentEntries.{AreWithin, sent_by};
ghost use Rattle.vg_savefile.specs.Packed.{ArePacked, FillsList, IsNumbered, records_len};

use crate::placing::{HEADER_LEN, put_record};
use std::alloc::{AllocError, Global};
use vg_capture::{Capture, Savefile};
use vg_model::Bytes;
use vg_model::limits::MOST_PACKETS;
use vg_underway::{SentEntry, SentList};

/// Whether these are the packets whose bytes fill the first list, one behind the other.
fn fill_list(entries: &[SentEntry], len: usize) -> bool
    ensures { OnTrue result (FillsList len entries.now) }
{
    if entries.len() > MOST_PACKETS {
        return false;
    }
    let mut end: usize = 0;
    for entry in entries {
        if entry.part != 0 || entry.start != end {
            return false;
        }
        end += entry.len as usize;
    }
    end == len
}

/// Makes the records of packets out of their bytes, which stand one behind the other at the start of the list. The records end where it
/// ends. The last packet is the first to move, so each goes to where no byte stands that is still to be moved.
fn spread(mut entries: Vec<SentEntry>, list: &mut [u8], capture: &Capture)
    requires packed { ArePacked 0 entries.items }
    requires numbers { IsNumbered (length capture.now.packets) entries.items }
    requires room { records_len entries.items ≤ length list.old }
    ensures { list.new ≡ take (length list.old - records_len entries.items) list.old
        ++ flat_map (sent_in capture.now.packets) (sent_by entries.items list.old) }
{
    let mut end = list.len();
    'packets: while let Some(entry) = entries.pop() {
        let len = entry.len as usize;
        put_record(list, capture, entry.number, entry.start, len, end);
        end -= len + HEADER_LEN;
    }
}

/// Makes the savefile of packets out of their bytes, which stand one behind the other at the start of the list: its header is put in
/// front of the records.
fn make_file(entries: Vec<SentEntry>, list: &mut [u8], header: &[u8], capture: &Capture)
    requires packed { ArePacked 0 entries.items }
    requires numbers { IsNumbered (length capture.now.packets) entries.items }
    requires room { length header.now + records_len entries.items ≡ length list.old }
    ensures { list.new ≡ header.now ++ flat_map (sent_in capture.now.packets) (sent_by entries.items list.old) }
{
    spread(entries, list, capture);
    list[..header.len()].copy_from_slice(header);
}

/// The savefile of packets whose bytes fill this list, made in the list.
fn in_place(
    alloc: Global,
    capture: &Capture,
    entries: Vec<SentEntry>,
    mut bytes: Vec<u8>,
) -> Result<Bytes, AllocError>
    requires fill { FillsList (vec_len bytes) entries.items }
    requires within { AreWithin entries.items bytes.items }
    requires numbers { IsNumbered (length capture.now.packets) entries.items }
    ensures { IfOk result (λ file. file ≡ savefile capture.now (sent_by entries.items bytes.items)) }
{
    let header = Savefile::begin(alloc, capture, Savefile::room(0, 0))?.end();
    let header = header.as_slice();
    let room = header.len() + entries.len() * HEADER_LEN + bytes.len();
    bytes.resize(room, 0)?;
    make_file(entries, bytes.as_mut_slice(), header, capture);
    Ok(Bytes::from_vec(bytes))
}

/// The length in bytes of the savefile of packets that were transmitted, for which room is made.
fn savefile_len(sent: &SentList) -> usize {
    let mut bytes: usize = 0;
    for n in 0..sent.len() {
        bytes = bytes.saturating_add(sent.get(n).1.len());
    }
    Savefile::room(sent.len(), bytes)
}

/// The savefile of the packets that were transmitted, in memory of its own.
fn written(alloc: Global, capture: &Capture, sent: &SentList) -> Result<Bytes, AllocError>
    requires { All (λ (packet : ℕ × List ℕ). (packet.0 < length capture.now.packets) × (length packet.1 < 2 ^ 32)) sent.now }
    ensures { IfOk result (λ bytes. bytes ≡ savefile capture.now sent.now) }
{
    let mut file = Savefile::begin(alloc, capture, savefile_len(sent))?;
    for k in 0..sent.len() {
        let (number, bytes) = sent.get(k);
        file.put(capture, number, bytes)?;
    }
    Ok(file.end())
}

/// The savefile (pcap-savefile(5)) of the packets that were transmitted of a capture: as [`Savefile`] writes it, in their order. Where
/// their bytes stand one behind the other in one list, it is made in that list.
///
/// # Errors
///
/// [`AllocError`] where memory runs out.
pub fn savefile_of(alloc: Global, capture: &Capture, sent: SentList) -> Result<Bytes, AllocError>
    requires { All (λ (packet : ℕ × List ℕ). (packet.0 < length capture.now.packets) × (length packet.1 < 2 ^ 32)) sent }
    ensures { IfOk result (λ bytes. bytes ≡ savefile capture.now sent) }
{
    let (entries, bytes) = match sent.into_one() {
        Ok(one) => one,
        Err(sent) => return written(alloc, capture, &sent),
    };
    if fill_list(entries.as_slice(), bytes.len()) {
        in_place(alloc, capture, entries, bytes)
    } else {
        written(alloc, capture, &SentList::new(entries, bytes))
    }
}
