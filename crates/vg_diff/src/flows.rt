//! Packets that came, each with its flow: how many came in another order where hashes don't tell the flows apart.
ghost use Rattle.std.specs.Prelude.{◌≡◌, map, IfOk};
ghost use Rattle.vg_diff.specs.Orders.{flow_of as flow_in, coming_with, coming_of, is_one_flow as is_in_one_flow, late as late_among, AreReordered};

use crate::lines::{file_of, frame_at};
use std::alloc::{AllocError, Global};
use vg_match::{Likeness, hash_of, likeness_of};
use vg_model::Bytes;

// A packet that came: the savefile that it stands in, the hash of its flow, its flow, and its numbers among those that came and those that
// were wanted. In this order they are compared, so the flows themselves only where their hashes are the same.
#[derive(Drop, PartialEq, Eq, PartialOrd, Ord)]
struct FlowTurn {
    file: usize,
    hash: u64,
    flow: Vec<u8>,
    got: u32,
    wanted: u32,
}

// What the frames of a flow have in common.
#[tactic(auto, unfolding(crate::specs::Orders::flow_of))]
fn flow_of(alloc: Global, frame: &[u8]) -> Result<Bytes, AllocError>
    ensures { IfOk result (λ flow. flow ≡ flow_in frame.now) }
{
    likeness_of(alloc, Likeness::Flow, frame, frame)
}

// The packet of a pair.
fn turn_of(
    alloc: Global,
    pair: (u32, u32),
    frames: &[&[u8]],
    starts: &[u32],
) -> Result<FlowTurn, AllocError>
    ensures { IfOk result (λ turn. coming_with turn ≡ coming_of frames.now starts.now pair) }
{
    let (wanted, got) = pair;
    let flow = flow_of(alloc, frame_at(frames, wanted))?;
    Ok(FlowTurn {
        file: file_of(starts, got),
        hash: hash_of(flow.as_slice()),
        flow: flow.into_vec(),
        got,
        wanted,
    })
}

// The packets of pairs.
fn turns(
    alloc: Global,
    pairs: &[(u32, u32)],
    frames: &[&[u8]],
    starts: &[u32],
) -> Result<Vec<FlowTurn>, AllocError>
    ensures { IfOk result (λ turns. map coming_with turns.items ≡ map (coming_of frames.now starts.now) pairs.now) }
{
    let mut turns = Vec::with_capacity(alloc, pairs.len())?;
    for pair in pairs {
        turns.push(turn_of(alloc, *pair, frames, starts)?)?;
    }
    Ok(turns)
}

// Whether both are of one savefile and one flow.
fn is_one_flow(one: &FlowTurn, other: &FlowTurn) -> bool
    ensures { result ≡ is_in_one_flow (coming_with one.now) (coming_with other.now) }
{
    one.file == other.file && one.flow.as_slice() == other.flow.as_slice()
}

// How many turns, in the order of savefile, flow and coming, stand behind one of the same that had to come later.
#[tactic(auto, using(crate::proofs::OrderLemmas::late_more))]
fn late(turns: &[FlowTurn]) -> usize
    ensures { result ≡ late_among (map coming_with turns.now) }
{
    let Some((first, others)) = turns.split_first() else {
        return 0;
    };
    let mut before = first;
    let mut latest = first.wanted;
    let mut count = 0;
    for turn in others {
        if is_one_flow(before, turn) && turn.wanted < latest {
            count += 1;
        } else {
            latest = turn.wanted;
        }
        before = turn;
    }
    count
}

/// How many of these pairs stand the other way round within their flow, by the flows themselves.
///
/// # Errors
///
/// [`AllocError`] where memory runs out.
pub fn reordered_by_flows(
    alloc: Global,
    pairs: &[(u32, u32)],
    frames: &[&[u8]],
    starts: &[u32],
) -> Result<u64, AllocError>
    ensures { IfOk result (AreReordered frames.now starts.now pairs.now) }
{
    let mut turns = turns(alloc, pairs, frames, starts)?;
    turns.sort()?;
    Ok(late(turns.as_slice()) as u64)
}
