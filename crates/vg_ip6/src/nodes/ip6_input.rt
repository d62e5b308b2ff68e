//! The visit of `ip6-input` (RFC 8200, section 3).
ghost use Rattle.std.specs.Prelude.{◌≡◌};
ghost use Rattle.vg_ip6.specs.Visit as visits;

use crate::fields::HEADER_LEN;
use crate::heads::{datagram_len, hop_limit_of, lacks_header, payload_len_of};
use vg_model::{DropError, Step};
use vg_nodes::parts::{NEXT, dropped};
use vg_pool::Buffer;

// Checks the IPv6 header.
#[inline(always)]
pub(crate) fn ip6_input(buffer: &Buffer) -> Step
    ensures { (result, buffer.now.packet) ≡ visits.ip6_input buffer.now.packet }
{
    if datagram_len(buffer) < HEADER_LEN as u32 {
        return dropped(DropError::Short);
    }
    if lacks_header(buffer) {
        return dropped(DropError::BadVersion);
    }
    if datagram_len(buffer) < HEADER_LEN as u32 + u32::from(payload_len_of(buffer)) {
        return dropped(DropError::BadLength);
    }
    if hop_limit_of(buffer) == 0 {
        return dropped(DropError::TtlZero);
    }
    NEXT
}
