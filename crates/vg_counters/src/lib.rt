//! Counters of what packets did, and traces of where they went.
//!
//! Each worker has its own [`Counters`] and its own [`Trace`], so that nothing is shared while packets go. Afterwards [`total`] sums
//! the counters by place, and [`merge`] puts the traces together, packet by packet and leg by leg. VLIB keeps such counters by
//! thread too; its packet tracer notes the nodes of the first packets.
//!
//! Counting is one addition at one place. Memory is taken only where a value is made.
#![tactic(auto)]

pub mod counting;
pub mod tracing;

pub use counting::{Counters, total};
pub use tracing::{MOST_NOTED, Trace, TraceLists, merge};
