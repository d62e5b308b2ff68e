//! The numbers that every graph has from the start graph. That they are those of the definitions is one of the
//! [`laws`](crate::laws).

/// The node where each packet begins.
pub const PG_INPUT: u16 = 0;

/// The node where each later leg of a packet begins.
pub const HANDOFF_DEQUEUE: u16 = 1;

/// The node that drops. Each slot of a new node leads to it.
pub const ERROR_DROP: u16 = 8;

/// The slot over which a packet goes on from the packet source, and from a handoff node where it is on its target.
pub const FIRST_SLOT: u8 = 0;
