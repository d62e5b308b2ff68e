//! One leg of a packet.
ghost use Rattle.std.specs.Prelude.{◌≡◌, ◌<◌, length, IfOk};
ghost use Rattle.vg_model.specs.Graph.{kind_at, arc as arc_of};
ghost use Rattle.vg_model.specs.Journey as model;
ghost use Rattle.vg_model.specs.Leg as ways;
ghost use Rattle.vg_model.specs.Packet.{fresh};
ghost use Rattle.vg_model.specs.Valid.{IsPacket, IsStepOf, IsTarget, IsValid};
ghost use Rattle.vg_replay.specs.Legs.{move_as, IsLeg, MayBeLeg};

use crate::chains::{Chain, know_contents};
use std::alloc::AllocError;
use vg_fork::Fork;
use vg_model::limits::{LONGEST_PACKET, MOST_LEGS};
use vg_model::start::{FIRST_SLOT, PG_INPUT};
use vg_model::{DropError, Step};
use vg_nodes::KindSet;

/// How a leg ends.
#[derive(Clone, Copy, Debug, PartialEq, Eq)]
pub enum Outcome {
    /// Transmitted on an interface.
    Sent { interface: u16 },
    /// Dropped by a node.
    Dropped { node: u16, error: DropError },
    /// Handed by a node to another worker.
    Handed { node: u16, worker: u8 },
}

/// Where a leg runs: how many workers there are, which of them it is on, and its number among the legs of its packet, from 1.
#[derive(Clone, Copy)]
pub(crate) struct LegAt {
    pub workers: u8,
    pub worker: u8,
    pub number: u8,
}

/// Where a leg goes on, or how it ends.
pub(crate) enum Move {
    Onward { node: u16 },
    Over { outcome: Outcome },
}

// Where a packet goes on that is handed over by a hash.
fn handed(fork: &Fork, at: LegAt, node: u16, hash: u32) -> Move
    requires node { node < length fork.now.graph.nodes }
    requires step { IsStepOf fork.now.graph (kind_at fork.now.graph node) (Step.Hand hash) }
    requires workers { 0 < at.workers }
    ensures { ways.move_of fork.now.graph at.workers at.worker at.number node (Step.Hand hash) ≡ move_as result }
{
    let worker = (hash % at.workers as u32) as u8;
    if worker == at.worker {
        return Move::Onward {
            node: fork.arc(node, FIRST_SLOT),
        };
    }
    let outcome = if at.number as usize == MOST_LEGS {
        Outcome::Dropped {
            node,
            error: DropError::HandoffLimit,
        }
    } else {
        Outcome::Handed { node, worker }
    };
    Move::Over { outcome }
}

// What a step makes of a leg.
fn move_of(fork: &Fork, at: LegAt, node: u16, step: Step) -> Move
    requires node { node < length fork.now.graph.nodes }
    requires step { IsStepOf fork.now.graph (kind_at fork.now.graph node) step }
    requires workers { 0 < at.workers }
    ensures { ways.move_of fork.now.graph at.workers at.worker at.number node step ≡ move_as result }
{
    match step {
        Step::Next { slot } => Move::Onward {
            node: fork.arc(node, slot),
        },
        Step::Hand { hash } => handed(fork, at, node, hash),
        Step::Tx { interface } => Move::Over {
            outcome: Outcome::Sent { interface },
        },
        Step::Dropped { error } => Move::Over {
            outcome: Outcome::Dropped { node, error },
        },
    }
}

// Takes a packet from node to node up to the end of its leg, and notes each visit behind those before.
fn walk_leg<K: KindSet>(
    kinds: &K,
    fork: &Fork,
    at: LegAt,
    first: u16,
    buffer: &mut Chain,
    visits: &mut Vec<u16>,
) -> Result<Outcome, AllocError>
    requires valid { IsValid fork.now.graph }
    requires target { IsTarget (kind_at fork.now.graph first) }
    requires possible { IsPacket buffer.old.packet }
    requires workers { 0 < at.workers }
    ensures { IfOk result (IsLeg K.meaning fork.now.graph at first buffer.old.packet buffer.new.packet visits.old.items visits.new.items) }
{
    let mut node = first;
    'nodes: loop {
        visits.push(node)?;
        let step = buffer.visit(kinds, fork, node);
        match move_of(fork, at, node, step) {
            Move::Onward { node: next } => node = next,
            Move::Over { outcome } => return Ok(outcome),
        }
    }
}

// The node that the first slot of a node leads to, where the graph has the node and the slot.
fn arc_if_any(fork: &Fork, node: u16) -> Option<u16>
    ensures { arc_of fork.now.graph node 0 ≡ result }
{
    if node < fork.nodes() && fork.kind(node).slots() > 0 {
        Some(fork.arc(node, FIRST_SLOT))
    } else {
        None
    }
}

/// Takes a packet through the leg that begins with a visit of a node and goes on at the next node of another; `None` where there is no
/// such node.
pub(crate) fn leg_from<K: KindSet>(
    kinds: &K,
    fork: &Fork,
    at: LegAt,
    first: u16,
    via: u16,
    buffer: &mut Chain,
    visits: &mut Vec<u16>,
) -> Result<Option<Outcome>, AllocError>
    requires valid { IsValid fork.now.graph }
    requires possible { IsPacket buffer.old.packet }
    requires workers { 0 < at.workers }
    ensures { IfOk result (MayBeLeg (model.leg_from K.meaning fork.now.graph at.workers at.worker at.number first via buffer.old.packet)
        buffer.new.packet visits.old.items visits.new.items) }
{
    let Some(node) = arc_if_any(fork, via) else {
        return Ok(None);
    };
    visits.push(first)?;
    let outcome = walk_leg(kinds, fork, at, node, buffer, visits)?;
    Ok(Some(outcome))
}

/// Takes a packet of the capture through its first leg; `None` where the packet source leads nowhere.
pub(crate) fn first_leg<K: KindSet>(
    kinds: &K,
    fork: &Fork,
    at: LegAt,
    number: u32,
    bytes: &[u8],
    buffer: &mut Chain,
    visits: &mut Vec<u16>,
) -> Result<Option<Outcome>, AllocError>
    requires valid { IsValid fork.now.graph }
    requires workers { 0 < at.workers }
    requires first { at.number ≡ 1 }
    ensures { IfOk result (MayBeLeg (model.first_leg K.meaning fork.now.graph at.workers at.worker (fresh number bytes.now))
        buffer.new.packet visits.old.items visits.new.items) }
{
    if bytes.len() > LONGEST_PACKET {
        visits.push(PG_INPUT)?;
        return Ok(Some(Outcome::Dropped {
            node: PG_INPUT,
            error: DropError::TooLong,
        }));
    }
    buffer.fill(number, bytes);
    know_possible(buffer);
    leg_from(kinds, fork, at, PG_INPUT, PG_INPUT, buffer, visits)
}

/// The packet of a chain may be.
pub(crate) fn know_possible(buffer: &Chain)
    ensures { IsPacket buffer.now.packet }
{
    know_contents(buffer.as_buffer());
}
