//! What one worker does: rounds that take and draw packets, and dispatch frames until none is pending.
//!
//! A [`Worker`] draws its own packets of a capture into chains of buffers, a burst at a time, takes frames of packets that other workers hand
//! over, and dispatches them over a fork, frame by frame, as a thread of VLIB does. What a handoff node hands to another
//! worker as it dispatches a frame is one frame on the queue to it. What became of a packet is logged, counted by node, error and interface,
//! and, where it was transmitted, its bytes are kept in a [`SentList`]. The nodes that the first packets visit are noted, as many as
//! the options' trace says. Between two rounds no packet is on its way in a worker.
//! What it has under way stands in `vg_underway`; here is when it takes, draws and stops.
//!
//! What calls cost: [`Worker::new`] takes all memory. A round copies a packet's bytes into a chain of buffers as it is drawn, and out of it
//! where it is transmitted; between nodes only its index moves, and to hand a packet over moves the one pointer to its chain. A node's
//! visits are counted once a frame, and noted packet by packet only where packets are traced.
//!
//! In which order to read: `inputs`, `options`, `parcels`, `links`, `workers` with `seats` and `gating`; then `turns` and `laws`.
#![tactic(auto)]

mod gating;
pub mod inputs;
pub mod laws;
pub mod links;
pub mod options;
pub mod parcels;
mod seats;
pub mod turns;
pub mod workers;

pub use inputs::Input;
pub use links::{Links, Refused, WorkerLinks};
pub use options::Options;
pub use parcels::{Stop, WorkerParcel};
pub use turns::Turn;
pub use vg_fates::FateList;
pub use vg_underway::{SentList, Station, sent, stations};
pub use workers::{Worker, WorkerEnd};
