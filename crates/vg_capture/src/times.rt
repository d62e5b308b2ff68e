//! The time of captured packets.
ghost use Rattle.std.specs.Prelude.{◌≡◌, ◌+◌, ◌*◌, ◌/◌, ◌<◌, ◌^◌, Some, length, option_map, slice_get, if◌then◌else◌};
ghost use Rattle.vg_capture.specs.Time.{stamp as stamp_of, time};

use crate::captures::{Capture, Captured, Packets};

// A time stamp in whole microseconds.
fn micros(seconds: u32, fraction: u32, nanos: bool) -> u64
    ensures { result ≡ seconds * 1000000 + (if nanos then fraction / 1000 else fraction) }
{
    let fraction = if nanos { fraction / 1000 } else { fraction };
    u64::from(seconds) * 1_000_000 + u64::from(fraction)
}

impl Captured {
    /// The time stamp in whole microseconds: the seconds, and the fraction, which the capture gives
    /// in nanoseconds (rounded down here) or else in microseconds.
    pub fn stamp(&self, nanos: bool) -> u64
        ensures { result ≡ stamp_of nanos self.now }
    {
        micros(self.seconds, self.fraction, nanos)
    }
}

impl Packets {
    /// The time stamp of a packet in whole microseconds, as [`Captured::stamp`].
    pub fn stamp(&self, number: usize, nanos: bool) -> u64
        requires { number < length self.now }
        ensures stamp { option_map (stamp_of nanos) (slice_get self.now number) ≡ Some result }
        ensures small { result < 2 ^ 53 }
    {
        let marks = self.marks(number);
        micros(marks.seconds, marks.fraction, nanos)
    }
}

impl Capture {
    /// The number of packets.
    pub fn count(&self) -> u32
        ensures { result ≡ length self.now.packets }
    {
        self.packets.len() as u32
    }

    /// The time of a packet in microseconds: the greatest time stamp of the packets up to it, from
    /// the time stamp of packet 0 on. So times never fall, and packet 0 has the time 0.
    pub fn time(&self, number: u32) -> u64
        requires { number < length self.now.packets }
        ensures { result ≡ time self.now number }
    {
        let first = self.packets.stamp(0, self.nanos);
        let mut latest = first;
        for other in 1..number as usize + 1 {
            latest = latest.max(self.packets.stamp(other, self.nanos));
        }
        latest - first
    }
}
