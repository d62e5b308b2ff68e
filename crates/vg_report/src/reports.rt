//! What a run did.
ghost use Rattle.std.specs.Prelude.{◌≡◌, ◌≤◌, length};
ghost use Rattle.vg_report.specs.Seen.{legs_seen};

use crate::lists::{ErrorCounts, NameCounts, PacketLines, TraceLines};
use std::slice;
use vg_model::{DropError, Leg, Legs, Name};

/// How a packet ended: transmitted on an interface, or dropped by a node.
#[derive(Drop)]
pub enum PacketEnd {
    Tx { interface: Name },
    Dropped { node: Name, error: DropError },
}

/// What became of one packet.
#[derive(Drop)]
pub struct PacketLine {
    /// Its way over the workers, one to four legs.
    pub legs: Legs,
    /// Where it was dropped by congestion, how many frames the full handoff queue had accepted before.
    pub congested: Option<u64>,
    /// How it ended.
    pub end: PacketEnd,
}

/// How a packet ended, by names that are kept elsewhere.
#[derive(Clone, Copy)]
pub enum EndRef<'a> {
    Tx { interface: &'a Name },
    Dropped { node: &'a Name, error: DropError },
}

/// The legs of a packet: one in itself, or those that are kept elsewhere.
#[derive(Clone, Copy)]
pub enum LegsRef<'a> {
    One(Leg),
    Kept(&'a Legs),
}

/// What became of one packet, as [`PacketLine`], by what is kept elsewhere.
#[derive(Clone, Copy)]
pub struct LineRef<'a> {
    /// Its way over the workers.
    pub legs: LegsRef<'a>,
    /// Where it was dropped by congestion, how many frames the full handoff queue had accepted before.
    pub congested: Option<u64>,
    /// How it ended.
    pub end: EndRef<'a>,
}

impl LegsRef<'_> {
    /// The legs as a slice.
    pub fn as_slice(&self) -> &[Leg]
        ensures legs { result.now ≡ legs_seen self.now }
        ensures few { length result.now ≤ 4 }
    {
        match self {
            LegsRef::One(leg) => slice::from_ref(leg),
            LegsRef::Kept(legs) => legs.as_slice(),
        }
    }
}

/// What a run did.
#[derive(Drop)]
pub struct Report {
    /// The number of workers, 1 to 8.
    pub workers: u8,
    /// How many buffers the pool held at the end.
    pub buffers: u32,
    /// The number of generations of the graph, 1 to 1,000.
    pub generations: u32,
    /// The interfaces of the last generation by number, each with the packets transmitted on it.
    pub interfaces: NameCounts,
    /// The nodes of the last generation by number, each with the visits of it.
    pub nodes: NameCounts,
    /// How often a node dropped a packet with an error: by node number, then in the order of the errors.
    pub errors: ErrorCounts,
    /// The packets by number.
    pub packets: PacketLines,
    /// The traces of the first packets by number.
    pub traces: TraceLines,
}
