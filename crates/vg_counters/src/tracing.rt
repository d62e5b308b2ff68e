//! Traces: which nodes packets visited.
ghost use Rattle.std.specs.Prelude.{◌≡◌, ◌-◌, ◌<◌, ◌≤◌, ◌++◌, All, OnOk, flat_map, length, map, IfOk};
ghost use Rattle.vg_counters.specs.Notes.{nothing_noted, noted, nodes_of, merged, AreOneLength, IsMerged};

use arrayvec::ArrayVec;
use std::alloc::{AllocError, Global};
use std::marker::Model;
use vg_model::Memory;
use vg_model::limits::MOST_LEGS;

/// The most nodes that are noted for a packet and one of its legs.
pub const MOST_NOTED: usize = 68;

/// The nodes of one leg of a packet.
type LegNodes = ArrayVec<u16, MOST_NOTED>;

/// The nodes that the first packets of a capture visited on one worker.
#[derive(Drop)]
pub struct Trace {
    // By packet number and then by leg.
    packets: Vec<[LegNodes; MOST_LEGS]>,
}

impl Model for Trace {
    ghost use Rattle.vg_counters.specs.Notes.{Notes};

    ghost Value = { Notes };

    ghost use Rattle.vg_counters.specs.NotesView.{notes_of};

    ghost view = { notes_of };
}

/// Lists of nodes, by packet number.
#[derive(Drop)]
pub struct TraceLists(Vec<Vec<u16>>);

impl Model for TraceLists {
    ghost use Rattle.std.specs.Prelude.{List, ℕ, map};

    ghost Value = { List (List ℕ) };

    ghost view = { λ lists. map (λ nodes. nodes.items) lists.0.items };
}

impl Trace {
    /// A trace for so many packets, with room for all that can be noted, in which nothing is noted yet.
    ///
    /// # Errors
    ///
    /// [`Memory`] where memory runs out.
    pub fn new(alloc: Global, packets: u32) -> Result<Trace, Memory>
        ensures { IfOk result (λ trace. trace ≡ nothing_noted packets) }
    {
        let mut rooms = Vec::with_capacity(alloc, packets as usize)?;
        for _ in 0..packets {
            let legs: [LegNodes; MOST_LEGS] = [
                ArrayVec::new(),
                ArrayVec::new(),
                ArrayVec::new(),
                ArrayVec::new(),
            ];
            rooms.push(legs)?;
        }
        Ok(Trace { packets: rooms })
    }

    /// For how many packets it is.
    pub fn packets(&self) -> usize
        ensures { result ≡ length self.now }
    {
        self.packets.len()
    }

    /// Notes that a packet visited a node in one of its legs, which are counted from 1.
    ///
    /// A packet that is not among those of the trace is not noted, nor is a node behind [`MOST_NOTED`] others of its leg.
    pub fn note(&mut self, number: u32, leg: u8, node: u16)
        requires first { 1 ≤ leg }
        requires last { leg ≤ MOST_LEGS }
        ensures { self.new ≡ noted number (leg - 1) node self.old }
    {
        if (number as usize) < self.packets.len() {
            let nodes = &mut self.packets[number as usize][leg as usize - 1];
            if !nodes.is_full() {
                nodes.push(node);
            }
        }
    }

    // The nodes of a packet in one of its legs, which are counted from 0.
    fn nodes(&self, number: usize, leg: usize) -> &[u16]
        requires packet { number < length self.now }
        requires leg { leg < MOST_LEGS }
        ensures { result.now ≡ nodes_of number leg self.now }
    {
        self.packets[number][leg].as_slice()
    }
}

impl TraceLists {
    /// The lists of these nodes.
    pub fn from_vec(lists: Vec<Vec<u16>>) -> TraceLists
        ensures { result ≡ map (λ nodes. nodes.items) lists.items }
    {
        TraceLists(lists)
    }

    /// The lists as a slice.
    pub fn as_slice(&self) -> &[Vec<u16>]
        ensures { map (λ nodes. nodes.items) result.now ≡ self.now }
    {
        self.0.as_slice()
    }

    /// The lists as a vector.
    pub fn into_vec(self) -> Vec<Vec<u16>>
        ensures { map (λ nodes. nodes.items) result.items ≡ self }
    {
        self.0
    }
}

// Appends the nodes of a packet in one of its legs, part by part.
fn append_leg(
    nodes: &mut Vec<u16>,
    parts: &[Trace],
    number: usize,
    leg: usize,
) -> Result<(), AllocError>
    requires packet { All (λ part. number < length part) parts.now }
    requires leg { leg < MOST_LEGS }
    ensures { OnOk result (nodes.new.items ≡ nodes.old.items ++ flat_map (nodes_of number leg) parts.now) }
{
    for part in parts {
        nodes.extend_from_slice(part.nodes(number, leg))?;
    }
    Ok(())
}

// The nodes of a packet, leg by leg.
fn merged_nodes(alloc: Global, parts: &[Trace], number: usize) -> Result<Vec<u16>, AllocError>
    requires { All (λ part. number < length part) parts.now }
    ensures { IfOk result (λ nodes. nodes.items ≡ merged number parts.now) }
{
    let mut nodes = Vec::new(alloc);
    for leg in 0..MOST_LEGS {
        append_leg(&mut nodes, parts, number, leg)?;
    }
    Ok(nodes)
}

/// The nodes that the packets visited on all workers, by packet: leg by leg, in each leg by the order of the parts, and then in
/// the order in which they were noted.
///
/// # Errors
///
/// [`Memory`] where memory runs out.
pub fn merge(alloc: Global, parts: &[Trace]) -> Result<TraceLists, Memory>
    requires some { 0 < length parts.now }
    requires size { AreOneLength parts.now }
    ensures { IfOk result (IsMerged parts.now) }
{
    let first = &parts[0];
    let mut lists = Vec::new(alloc);
    for number in 0..first.packets.len() {
        lists.push(merged_nodes(alloc, parts, number)?)?;
    }
    Ok(TraceLists(lists))
}
