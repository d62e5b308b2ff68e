//! Numbers in network byte order, 0 where the bytes end before.
ghost use Rattle.std.specs.Prelude.{◌≡◌, ◌<◌, slice_index};
ghost use Rattle.vg_story.specs.Fronts as fronts;
ghost use Rattle.vg_story.specs.Fields.{number64 as number64_of};

use vg_packet::{u16_at, u32_at};

/// The byte at a place.
pub(crate) fn byte(bytes: &[u8], at: u8) -> u8
    ensures { result ≡ slice_index bytes.now at }
{
    let at = usize::from(at);
    if at < bytes.len() { bytes[at] } else { 0 }
}

/// The 16-bit number at a place.
pub(crate) fn number16(bytes: &[u8], at: u8) -> u16
    ensures { result ≡ fronts.number16 bytes.now at }
{
    let at = usize::from(at);
    if at + 2 <= bytes.len() {
        u16_at(bytes, at)
    } else {
        0
    }
}

/// The 32-bit number at a place.
pub(crate) fn number32(bytes: &[u8], at: u8) -> u32
    ensures { result ≡ fronts.number32 bytes.now at }
{
    let at = usize::from(at);
    if at + 4 <= bytes.len() {
        u32_at(bytes, at)
    } else {
        0
    }
}

/// The 48-bit number at a place.
pub(crate) fn number48(bytes: &[u8], at: u8) -> u64
    requires { at < 100 }
    ensures { result ≡ fronts.number48 bytes.now at }
{
    let high = u64::from(number16(bytes, at));
    let low = u64::from(number32(bytes, at + 2));
    high * 4_294_967_296 + low
}

/// The 64-bit number at a place.
pub(crate) fn number64(bytes: &[u8], at: u8) -> u64
    requires { at < 100 }
    ensures { result ≡ number64_of bytes.now at }
{
    let high = u64::from(number32(bytes, at));
    let low = u64::from(number32(bytes, at + 4));
    high * 4_294_967_296 + low
}
