//! What one worker has under way, and what it keeps, without a plan, a script or a barrier.
//!
//! [`Work`] has the packets under way, node by node, the log of fates, the bytes sent, and counts and traces. Packets come into it out of
//! a capture ([`Work::draw_own`]) or out of frames that other workers handed over ([`Work::take_frames`]). [`Work::dispatch_all`]
//! dispatches frames until none is pending: packets go on to other nodes, end, or are handed over, in one frame for each handoff node and
//! each other worker. What became of a packet is logged, counted by node, error and interface, and, where it was transmitted, its bytes
//! are kept in a [`SentList`].
//!
//! What calls cost: [`Rooms::new`] takes all memory. A packet's bytes are copied into a chain of buffers as it is drawn, and out of it where
//! it is transmitted; between nodes only its index moves, and to hand a packet over moves the one pointer to its chain. A node's visits are
//! counted once a frame, and noted packet by packet only where packets are traced.
//!
//! In which order to read: `making` with `stations` and `peers`, `underway`, `taking` with `incoming`, `counting`, `sent`.
#![tactic(auto)]

pub mod counting;
pub mod incoming;
pub mod making;
pub mod peers;
pub mod sent;
pub mod stations;
pub mod taking;
pub mod underway;

pub use counting::Counting;
pub use incoming::Incoming;
pub use making::{Own, Rooms, counting_of, own_of, queues_of, total_bytes};
pub use peers::place_of;
pub use sent::{SentEntry, SentList};
pub use stations::Station;
pub use taking::{Bounds, Came};
pub use underway::{Drew, Work};
