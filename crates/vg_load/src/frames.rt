//! The frames of a load.
ghost use Rattle.std.specs.Prelude.{◌≡◌, ◌+◌, ◌*◌, ◌%◌, IfOk, length};
ghost use Rattle.vg_model.specs.Header.{header_sum, ones_sum as ones_sum_of};
ghost use Rattle.vg_load.specs.Packets.{frame as frame_of, ip4_header as ip4_header_of};

use std::alloc::{AllocError, Global};
use vg_model::Bytes;

/// The Ethernet header: to the address of the first interface, of IPv4.
const ETHERNET_HEADER: [u8; 14] = [0x02, 0xfe, 0, 0, 0, 0, 0x02, 0, 0, 0, 0, 0x01, 0x08, 0x00];

/// The data of each datagram.
const NO_DATA: [u8; 26] = [
    0, 0, 0, 0, 0, 0, 0, 0, 0, 0, 0, 0, 0, 0, 0, 0, 0, 0, 0, 0, 0, 0, 0, 0, 0, 0,
];

/// The length of a frame.
pub const FRAME_LEN: u32 = 60;

/// Ones' complement addition: the carry comes back in at the low end (RFC 1071, section 1).
#[tactic(auto, unfolding(vg_model::specs::Header::ones_sum))]
fn ones_sum(one: u16, other: u16) -> u16
    ensures { result ≡ ones_sum_of one other }
{
    let sum = u32::from(one) + u32::from(other);
    (sum % 0x1_0000 + sum / 0x1_0000) as u16
}

/// The ones' complement sum of a header's 16-bit words (RFC 1071, section 1).
fn ones_complement_sum(header: &[u8]) -> u16
    requires { length header.now % 2 ≡ 0 }
    ensures { result ≡ header_sum header.now }
{
    let mut sum = 0;
    let mut at = header.len();
    while at > 0 {
        at -= 2;
        let word = 256 * u16::from(header[at]) + u16::from(header[at + 1]);
        sum = ones_sum(word, sum);
    }
    sum
}

/// The IPv4 header of a datagram of 46 bytes that carries UDP, with addresses that are made of a word.
fn ip4_header(ttl: u8, word: u64) -> [u8; 20]
    ensures { result ≡ ip4_header_of ttl word }
{
    let [s0, s1, d0, d1, d2, _, _, _] = word.to_le_bytes();
    let header = [
        0x45, 0, 0, 46, 0, 0, 0, 0, ttl, 17, 0, 0, 198, 18, s1, s0, 10, d2, d1, d0,
    ];
    let [high, low] = (0xffff - ones_complement_sum(&header)).to_be_bytes();
    [
        0x45, 0, 0, 46, 0, 0, 0, 0, ttl, 17, high, low, 198, 18, s1, s0, 10, d2, d1, d0,
    ]
}

/// The frame with this time to live that is made of a word.
pub fn frame(alloc: Global, ttl: u8, word: u64) -> Result<Bytes, AllocError>
    ensures { IfOk result (λ bytes. bytes ≡ frame_of ttl word) }
{
    let mut bytes = Vec::with_capacity(alloc, FRAME_LEN as usize)?;
    bytes.extend_from_slice(&ETHERNET_HEADER)?;
    bytes.extend_from_slice(&ip4_header(ttl, word))?;
    bytes.extend_from_slice(&NO_DATA)?;
    Ok(Bytes::from_vec(bytes))
}
