//! Frames of buffer indexes, and the packets that one worker has under way.
//!
//! A worker's packets stand in its [`BufferMemory`], each in its chain of buffers and under an index. Between two nodes an index waits in the [`FrameStore`],
//! behind those that wait for the same node. They are dispatched a [`Frame`] at a time: at most 256 indexes for one node, oldest
//! first, as the frames of VLIB.
//!
//! What calls cost: all memory is taken by [`BufferMemory::new`] and [`FrameStore::new`]. [`BufferMemory::place`],
//! [`BufferMemory::lift`] and [`BufferMemory::get_mut`] move or lend one pointer. [`FrameStore::put`] writes one index, and with the
//! 256th of a frame moves two pointers; [`FrameStore::put_each`] writes those of a list, at once as many as a frame has room for.
//! [`FrameStore::next_frame`] finds the lowest node that has a frame by one look at a word with a bit for each node, moves up to nine
//! pointers and copies the frame out. None of them looks through nodes, frames or indexes.
//!
//! In which order to read: `frames`, `store` with `queues`, `spares` and `node_set`; then `memory`.
#![tactic(auto)]

pub mod frames;
pub mod memory;
mod node_set;
mod queues;
mod spares;
pub mod store;

pub use frames::Frame;
pub use memory::BufferMemory;
pub use store::{FRAMES, FrameStore};
