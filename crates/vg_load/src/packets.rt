//! The packets of a load.
ghost use Rattle.std.specs.Prelude.{◌≡◌, ◌≤◌, IfOk};
ghost use Rattle.vg_load.specs.Packets.{IsLoad, load_packet, ttl_of};

use crate::frames::{FRAME_LEN, frame};
use rand_core::SeedableRng;
use rand_core::utils::NextWord;
use rand_xoshiro::SplitMix64;
use std::alloc::{AllocError, Global};
use vg_capture::{Capture, Captured, Packets};
use vg_model::Memory;

/// The time to live of the packet of this number.
fn time_to_live(number: u32) -> u8
    ensures { result ≡ ttl_of number }
{
    if number % 16 == 15 { 1 } else { 64 }
}

/// The packet of this number that is made of a word.
fn packet(alloc: Global, number: u32, word: u64) -> Result<Captured, AllocError>
    ensures { IfOk result (λ packet. packet ≡ load_packet number word) }
{
    Ok(Captured {
        seconds: 0,
        fraction: number,
        original: FRAME_LEN,
        bytes: frame(alloc, time_to_live(number), word)?,
    })
}

/// The packets of a load, at most 65,536, by the words of SplitMix64 from this seed on: packet i comes at i microseconds, and each has
/// its sender and its receiver of its word.
///
/// # Errors
///
/// [`Memory`] where memory runs out.
pub fn load_capture(alloc: Global, seed: u64, packets: u32) -> Result<Capture, Memory>
    requires { packets ≤ 65536 }
    ensures { IfOk result (IsLoad seed packets) }
{
    let mut words = SplitMix64::seed_from_u64(seed);
    let mut made = Vec::new(alloc);
    for number in 0..packets {
        let packet = packet(alloc, number, words.next_word())?;
        made.push(packet)?;
    }
    let packets = Packets::of(alloc, made.as_slice())?;
    Ok(Capture {
        nanos: false,
        snaplen: 262_144,
        packets,
    })
}
