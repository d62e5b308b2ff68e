//! Number fields in network byte order (RFC 791, appendix B).
ghost use Rattle.std.specs.Prelude.{◌≡◌, ◌+◌, ◌≤◌, length};
ghost use Rattle.vg_model.specs.Bytes.{number16_at, number32_at};

use byteorder::{BigEndian, ByteOrder};

/// The 16-bit number at a place.
pub fn u16_at(bytes: &[u8], place: usize) -> u16
    requires { place + 2 ≤ length bytes.now }
    ensures { result ≡ number16_at bytes.now place }
{
    BigEndian::read_u16(&bytes[place..])
}

/// The 32-bit number at a place.
pub fn u32_at(bytes: &[u8], place: usize) -> u32
    requires { place + 4 ≤ length bytes.now }
    ensures { result ≡ number32_at bytes.now place }
{
    BigEndian::read_u32(&bytes[place..])
}
