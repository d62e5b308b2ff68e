//! The plain form of the handoff queue between two workers: bounded, first in, first out, between one producer and one consumer.
//! The ring of `vg_ring` is compared with it.
//!
//! ```text
//! let (mut tx, mut rx) = ring(alloc, 2)?;
//! tx.push(rt, frame)                // Ok, or Full with the frame
//! rx.pop(rt)                        // the oldest frame, or None
//! let mut rest = close(rt, tx, rx); // both ends come together
//! rest.next(rt)                     // what nobody took, in order
//! ```
//!
//! It lies over the bounded queue of `crossbeam_queue`, under the rule of `specs/Rule.antt`. A call may wait behind a thread that
//! has stalled in a call of its own, so each takes a handle with `Wait`. Only `ring` takes memory.
//!
//! `Full` and `None` are true of one moment within the call, by the answer of the queue below. The end keeps no note of that moment, so a
//! caller learns less of it than from the ring.
//!
//! In which order to read: `logs`, `making`, `ends`, `closing` with `rest`.
#![tactic(auto)]

mod closing;
mod ends;
mod logs;
mod making;
mod rest;

pub use closing::close;
pub use ends::{Full, QueueRx, QueueTx};
pub use making::ring;
pub use rest::Rest;
