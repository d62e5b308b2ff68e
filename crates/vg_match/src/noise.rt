//! Packets by which hosts find their neighbors, which no comparison means.
ghost use Rattle.std.specs.Prelude.{◌≡◌};
ghost use Rattle.vg_match.specs.Noise.{is_discovery as is_discovery_frame, is_noise as is_noise_frame};

use crate::frames::{ARP, Carried, carries, kind_of, type_at};

/// The protocol of ICMPv6.
const ICMP6: u8 = 58;

// Whether a frame is of the neighbor discovery of IPv6.
fn is_discovery(frame: &[u8]) -> bool
    ensures { result ≡ is_discovery_frame frame.now }
{
    let at = type_at(frame) + 2;
    if kind_of(frame) != Carried::Ip6 || frame.len() < at + 41 {
        return false;
    }
    let kind = frame[at + 40];
    frame[at + 6] == ICMP6 && 133 <= kind && kind <= 137
}

/// Whether a frame is of ARP or of the neighbor discovery of IPv6.
pub fn is_noise(frame: &[u8]) -> bool
    ensures { result ≡ is_noise_frame frame.now }
{
    carries(frame, ARP, 0) || is_discovery(frame)
}
