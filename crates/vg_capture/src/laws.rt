//! Laws of savefiles: each is a function whose contract is the law.
ghost use Rattle.vg_capture.specs.RoundTrip.{ReadsBack, ReadsCaptures};

/// A savefile that was written is read as the packets sent, under the capture's unit of time and
/// snaplen, where it has at most 16,777,216 bytes and no record above 262,144.
pub fn written_is_read_back()
    ensures { ReadsBack }
{}

/// What is read of a file of bytes is a capture: its numbers have 32 bits, and there are at most
/// 65,536 packets.
pub fn read_is_a_capture()
    ensures { ReadsCaptures }
{}
