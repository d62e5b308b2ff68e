//! Laws of header checksums: each is a function whose contract is the law.
ghost use Rattle.vg_packet.specs.Update.{LoweredVerifies, UpdatesAsAnew};

/// A header whose time to live was lowered verifies again.
pub fn lowered_header_verifies()
    ensures { LoweredVerifies }
{}

/// Where a header verifies, the update of its checksum as the time to live falls (RFC 1624, equation 3)
/// is the checksum computed anew over the changed header, also where a checksum is 0x0000 or 0xffff.
pub fn update_is_the_checksum_anew()
    ensures { UpdatesAsAnew }
{}
