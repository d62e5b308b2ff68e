//! The packets up to a time.
ghost use Rattle.std.specs.Prelude.{◌≡◌, ℕ, ◌+◌, ◌<◌, ◌≤◌, length};
ghost use Rattle.vg_plan.specs.Front.{stamp_in, IsFront};
ghost use Rattle.vg_plan.specs.Times.{latest_event};

use vg_capture::Packets;
use vg_model::limits::MOST_PACKETS;

/// The time stamp that an event is due at: so long after the first packet's, in whole microseconds.
pub fn due(packets: &Packets, nanos: bool, event: u64) -> u64
    requires { event ≤ latest_event }
    ensures { result ≡ stamp_in nanos packets.now 0 + event }
{
    if packets.len() == 0 {
        return event;
    }
    packets.stamp(0, nanos) + event
}

/// How many packets stand before the first whose time stamp is `due` or later; it is sought from `from` on.
pub fn front(packets: &Packets, from: usize, nanos: bool, due: u64) -> usize
    requires within { from ≤ length packets.now }
    requires early { (i : ℕ) → i < from → stamp_in nanos packets.now i < due }
    ensures front { IsFront nanos packets.now due result }
    ensures few { result ≤ MOST_PACKETS }
{
    for i in from..packets.len() {
        if packets.stamp(i, nanos) >= due {
            return i;
        }
    }
    packets.len()
}
