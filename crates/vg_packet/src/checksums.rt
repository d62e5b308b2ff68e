//! The checksum of an IPv4 header (RFC 791, section 3.1; RFC 1071), and its update (RFC 1624).
ghost use Rattle.std.specs.Prelude.{◌≡◌, ◌≢◌, ◌↔◌, ℕ, ◌+◌, ◌-◌, ◌<◌, ◌≤◌, ◌%◌, ◌^◌, length, slice_index, slice_set, IsTrue};
ghost use Rattle.vg_model.specs.Bytes.{overwritten};
ghost use Rattle.vg_model.specs.Header.{verifies, checksum as checksum_of, lowered, word_sum as sum_of_words};
ghost use Rattle.vg_packet.specs.Sums.{pair_sum as sum_of_pairs};
ghost use Rattle.vg_packet.specs.Update.{updated};

use crate::fields::u16_at;
use crate::headers::LEAST_HEADER;
use byteorder::{BigEndian, ByteOrder};

/// Where the time to live stands in a header. The protocol is the other byte of its word.
pub const TIME_TO_LIVE: usize = 8;

/// Where the protocol stands in a header.
const PROTOCOL: usize = 9;

/// Where the checksum stands in a header.
const CHECKSUM: usize = 10;

/// Whether a header's checksum is right: whether the ones' complement sum of its 16-bit words, the
/// checksum among them, has all bits set (RFC 1071, section 1). `header` is the whole IPv4 header, with
/// its options: an even number of bytes, 20 to 60.
#[inline]
pub fn verify_header(header: &[u8]) -> bool
    requires even { length header.now % 2 ≡ 0 }
    requires least { 20 ≤ length header.now }
    requires most { length header.now ≤ 60 }
    ensures { result ≡ verifies header.now }
{
    let (fixed, options) = header.split_at(LEAST_HEADER);
    has_all_bits(pair_sum(fixed) + u64::from(word_sum(options)))
}

/// Lowers a header's time to live by one, and writes the checksum that the changed header has (RFC
/// 1812, section 5.3.1). `header` is as [`verify_header`] takes it, and verifies; its first byte isn't
/// 0, and its time to live is at least 1. The checksum comes from the old one (RFC 1624, equation 3), so that no other word is read.
pub fn lower_ttl(header: &mut [u8])
    requires even { length header.old % 2 ≡ 0 }
    requires least { 20 ≤ length header.old }
    requires most { length header.old ≤ 60 }
    requires verified { IsTrue (verifies header.old) }
    requires versioned { slice_index header.old 0 ≢ 0 }
    requires alive { 1 ≤ slice_index header.old 8 }
    ensures { header.new ≡ lowered header.old }
{
    let checksum = lowered_checksum(header);
    header[TIME_TO_LIVE] -= 1;
    BigEndian::write_u16(&mut header[CHECKSUM..], checksum);
}

/// The bytes of a header that change as its time to live is lowered by one, with the protocol between them: four bytes from byte 8
/// on, as [`lower_ttl`] leaves them. `header` is as there.
pub fn lowered_ttl(header: &[u8]) -> [u8; 4]
    requires least { 20 ≤ length header.now }
    requires verified { IsTrue (verifies header.now) }
    requires versioned { slice_index header.now 0 ≢ 0 }
    requires alive { 1 ≤ slice_index header.now 8 }
    ensures { overwritten header.now 8 result ≡ lowered header.now }
{
    let [high, low] = lowered_checksum(header).to_be_bytes();
    [header[TIME_TO_LIVE] - 1, header[PROTOCOL], high, low]
}

/// The checksum that a header has once its time to live is lowered by one.
fn lowered_checksum(header: &[u8]) -> u16
    requires least { 20 ≤ length header.now }
    requires verified { IsTrue (verifies header.now) }
    requires versioned { slice_index header.now 0 ≢ 0 }
    requires alive { 1 ≤ slice_index header.now 8 }
    ensures { result ≡ checksum_of (slice_set header.now 8 (slice_index header.now 8 - 1)) }
{
    raised_checksum(u16_at(header, CHECKSUM))
}

/// The checksum after the word of the time to live is less by 0x0100, from the checksum before (RFC 1624, equation 3). It is the same
/// for every such word: more by 0x0100, with the carry brought back in, and 0 in place of 0xffff.
fn raised_checksum(checksum: u16) -> u16
    ensures { (word : ℕ) → 256 ≤ word → word ≤ 65535 → result ≡ updated checksum word (word - 256) }
{
    let sum = u32::from(checksum) + 0x0100;
    if sum < 0xffff {
        return sum as u16;
    }
    (sum - 0xffff) as u16
}

/// Whether all 16 bits of the sum are set once its carries are brought back in. Bringing a carry back in takes 0xffff away and leaves 0
/// of 0 alone, so these are the multiples of 0xffff but 0.
#[inline]
fn has_all_bits(sum: u64) -> bool
    ensures { IsTrue result ↔ ((sum ≢ 0) × (sum % 65535 ≡ 0)) }
{
    sum != 0 && sum % 0xffff == 0
}

/// The plain sum of the 32-bit words. Each is two 16-bit words, and a multiple of 0xffff more than their sum, so that it serves as well
/// where carries are brought back in (RFC 1071, section 2).
#[inline]
fn pair_sum(bytes: &[u8]) -> u64
    requires whole { length bytes.now % 4 ≡ 0 }
    requires most { length bytes.now ≤ 60 }
    ensures sum { result ≡ sum_of_pairs bytes.now }
    ensures small { result < 2 ^ 36 }
{
    let mut sum = 0u64;
    for pair in bytes.chunks_exact(4) {
        sum += u64::from(BigEndian::read_u32(pair));
    }
    sum
}

/// The plain sum of the 16-bit words.
#[inline]
fn word_sum(bytes: &[u8]) -> u32
    requires even { length bytes.now % 2 ≡ 0 }
    requires most { length bytes.now ≤ 60 }
    ensures { result ≡ sum_of_words bytes.now }
{
    let mut sum = 0u32;
    for word in bytes.chunks_exact(2) {
        sum += u32::from(BigEndian::read_u16(word));
    }
    sum
}

#[cfg(test)]
mod tests;
