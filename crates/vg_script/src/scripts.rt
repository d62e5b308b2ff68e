//! Scripts as values.

use crate::lists::{Blocks, Groups};
use vg_model::{Edits, Name};

/// Edits that are made while packets go through the graph. Times are capture times in microseconds, counted from the first
/// packet.
#[derive(Drop)]
pub enum Block {
    /// Edits at one time.
    At {
        /// The line on which the block begins, counted from 1.
        line: u32,
        /// At most 1,000,000,000,000.
        time: u64,
        edits: Edits,
    },
    /// Groups of edits, made in turn at the end of each period.
    Process {
        /// The line on which the block begins, counted from 1.
        line: u32,
        /// A label for whoever reads the script; two processes may have the same.
        name: Name,
        /// The period, 1 to 1,000,000,000,000.
        every: u64,
        /// How many periods there are, 1 to 999.
        count: u32,
        /// At least one.
        groups: Groups,
    },
}

/// A script.
#[derive(Drop)]
pub struct Script {
    /// The edits outside blocks, in the order of their lines; they are made before the first packet.
    pub start: Edits,
    /// The blocks, in the order of their lines.
    pub blocks: Blocks,
}
