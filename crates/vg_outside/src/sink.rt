//! A sink of bytes.
ghost use Rattle.std.specs.Prelude.{◌≡◌, ℕ, ◌≤◌, ◌<◌, ◌++◌, List, take, length, Option, option_map, IfOk, OnErr};
ghost use Rattle.vg_outside.specs.Files.{Rose};

use std::error::Error;
use std::fmt;

/// A call that failed, which was counted.
#[derive(Clone, Copy, Debug, PartialEq, Eq)]
pub struct Failed;

impl fmt::Display for Failed {
    fn fmt<W: fmt::Write>(&self, f: &mut fmt::Formatter<W>) -> fmt::Result {
        f.write_str("the call failed")
    }
}

impl Error for Failed {}

/// A sink of bytes: a run prints its report to one.
///
/// Contracts see the bytes written so far, where the sink tells them, and a count of faults, which
/// never falls. A counter at the end of `u64` is taken for a risen one.
pub trait Sink {
    /// The bytes written so far, where the sink tells them.
    ghost written: { Self → Option (List ℕ) };

    /// How many faults were counted.
    ghost faults: { Self → ℕ };

    /// Appends a first part of these bytes, and answers how many: at least one where there is one.
    ///
    /// After `Failed` nothing was appended, and the faults rose in this call; after `Ok` they are as
    /// before. To take no byte of a piece that has some is a failure too.
    fn put(&mut self, bytes: &[u8]) -> Result<usize, Failed>
        ensures most { IfOk result (λ n. n ≤ length bytes.now) }
        ensures some { IfOk result (λ n. 0 < length bytes.now → 0 < n) }
        ensures written { IfOk result (λ n. written self.new ≡ option_map (λ before. before ++ take n bytes.now) (written self.old)) }
        ensures err { OnErr result (written self.new ≡ written self.old) }
        ensures later { faults self.old ≤ faults self.new }
        ensures quiet { IfOk result (λ n. faults self.new ≡ faults self.old) }
        ensures failed { OnErr result (Rose (faults self.old) (faults self.new)) };
}
