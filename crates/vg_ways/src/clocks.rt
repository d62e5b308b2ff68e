//! The times of packets, one after the other.
ghost use Rattle.std.specs.Prelude.{◌≡◌, ◌+◌};
ghost use Rattle.vg_capture.specs.Time.{time as time_of, stamp_at};
ghost use Rattle.vg_ways.specs.Clocks.{latest_before};

use vg_capture::Capture;

/// The greatest time stamp of the packets so far.
#[derive(Clone, Copy)]
pub struct Clock {
    /// That of the first packet, in microseconds.
    pub first: u64,
    /// The greatest so far.
    pub latest: u64,
}

// The time stamp of a packet; 0 where there is none.
fn stamp(capture: &Capture, number: usize) -> u64
    ensures { result ≡ stamp_at capture.now number }
{
    if number < capture.packets.len() {
        capture.packets.stamp(number, capture.nanos)
    } else {
        0
    }
}

impl Clock {
    /// Before the first packet.
    pub fn new(capture: &Capture) -> Clock
        ensures first { result.first ≡ stamp_at capture.now 0 }
        ensures latest { result.latest ≡ latest_before capture.now 0 }
    {
        let first = stamp(capture, 0);
        Clock {
            first,
            latest: first,
        }
    }

    /// The time of the next packet, which has this number, in microseconds from the first packet.
    pub fn time(&mut self, capture: &Capture, number: usize) -> u64
        requires first { self.old.first ≡ stamp_at capture.now 0 }
        requires latest { self.old.latest ≡ latest_before capture.now number }
        ensures time { result ≡ time_of capture.now number }
        ensures first { self.new.first ≡ self.old.first }
        ensures latest { self.new.latest ≡ latest_before capture.now (number + 1) }
    {
        self.latest = self.latest.max(stamp(capture, number));
        self.latest.saturating_sub(self.first)
    }
}
