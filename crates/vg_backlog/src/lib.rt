//! A handoff that refuses nothing: a frame that its ring doesn't take waits behind it.
//!
//! A [`Backlog`] has the producer's end of a ring, and the frames that it holds. A frame goes into the ring where none is held and the
//! ring takes it, else behind those held; each tick goes on from the front, until the ring refuses a frame or none is held. So frames
//! stay in their order, and a push is never refused.
//!
//! # Where it lies
//!
//! The oldest frame held is kept as it is, ready for the next tick. Those behind it lie in two queues, one of buffers and one of what
//! else a frame has, for which all memory is reserved when a backlog is made: 16 bytes for each packet of its room. A room of 18,432
//! packets, the most that eight workers with 16,384 buffers need, takes 288 KB; the 56 backlogs of these workers take some 17 MB.
#![tactic(auto)]

pub mod backlogs;
mod waiting;

pub use backlogs::{Backlog, backlogs_of};
