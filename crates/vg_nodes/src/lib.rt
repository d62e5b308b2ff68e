//! What nodes do with packets, and the dispatch of a frame.
//!
//! A [`KindSet`] visits a packet in its buffer at a node. [`dispatch_frame`] visits the packets of a whole frame at one node, and
//! sorts their indexes by what becomes of them, as a node function of VLIB sorts its frame into next frames. The node's kind is matched
//! once a frame, and its loop ([`visit_each`]) has the kind's visit in line. No visit and no dispatch takes memory or a lock.
//!
//! In which order to read: `kinds`, `ip4` with `heads` and `nodes`, `sorted` with `entries` and `next_list`, `visiting`, `dispatch`; `parts` is for crates
//! that bring kinds of their own, and `laws` has a law of sorted frames.
#![tactic(auto)]

pub mod dispatch;
pub mod entries;
mod heads;
pub mod ip4;
pub mod kinds;
pub mod laws;
pub mod next_list;
mod nodes;
pub mod parts;
pub mod sorted;
pub mod visiting;

pub use dispatch::dispatch_frame;
pub use entries::Entries;
pub use ip4::Ip4Kinds;
pub use kinds::KindSet;
pub use next_list::{NextList, NextRun, NextRuns};
pub use sorted::{DropList, HandList, Sorted, TxList};
pub use visiting::visit_each;
