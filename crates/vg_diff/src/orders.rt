//! Which packets came in another order than that of their flow.
ghost use Rattle.std.specs.Prelude.{◌≡◌, map, All, IfOk, IfSome, IsTrue};
ghost use Rattle.vg_diff.specs.Lines.{number_at as hash_standing_at};
ghost use Rattle.vg_diff.specs.Orders.{flow_of as flow_in, flow_hash as hash_of_flow, coming, turn_of as turn_of_pair, is_one_flow as is_in_one_flow};
ghost use Rattle.vg_diff.specs.Orders.{late as late_among, late_behind as late_among_others};
ghost use Rattle.vg_diff.specs.Orders.{IsHashed, AreFlowHashes, AreTold, AreToldBehind, AreAllTold, AreReordered};

use crate::flows::reordered_by_flows;
use crate::lines::{file_of, frame_at};
use std::alloc::{AllocError, Global};
use vg_match::{Likeness, hash_of, have_same_parts, put_likeness};

// A packet that came: the savefile that it stands in, the hash of its flow, and its numbers among those that came and those that were
// wanted. In this order they are compared. The flow itself stays in the frame.
#[derive(Clone, Copy, PartialEq, Eq, PartialOrd, Ord)]
struct Turn {
    file: usize,
    hash: u64,
    got: u32,
    wanted: u32,
}

// The hash of what the frames of a flow have in common, which is put together in memory that each frame uses again.
#[tactic(auto, unfolding(crate::specs::Orders::flow_of))]
fn flow_hash(memory: &mut Vec<u8>, frame: &[u8]) -> Result<u64, AllocError>
    ensures { IfOk result (λ hash. hash ≡ hash_of_flow frame.now) }
{
    memory.clear();
    put_likeness(memory, Likeness::Flow, frame, frame)?;
    Ok(hash_of(memory.as_slice()))
}

/// The hash of the flow of each frame, in the order of the frames, in which they stand in memory.
///
/// # Errors
///
/// [`AllocError`] where memory runs out.
pub fn flow_hashes(alloc: Global, frames: &[&[u8]]) -> Result<Vec<u64>, AllocError>
    ensures { IfOk result (λ hashes. AreFlowHashes frames.now hashes.items) }
{
    let mut hashes = Vec::with_capacity(alloc, frames.len())?;
    let mut memory = Vec::new(alloc);
    for frame in frames {
        hashes.push(flow_hash(&mut memory, frame)?)?;
    }
    Ok(hashes)
}

// The hash at a place, or that of no frame's flow behind the last.
fn hash_at(hashes: &[u64], at: u32) -> u64
    ensures { result ≡ hash_standing_at hashes.now at }
{
    match hashes.get(at as usize) {
        Some(hash) => *hash,
        None => 0,
    }
}

// The packet of a pair.
fn turn_of(pair: (u32, u32), hashes: &[u64], starts: &[u32]) -> Turn
    ensures { result ≡ turn_of_pair hashes.now starts.now pair }
{
    let (wanted, got) = pair;
    Turn {
        file: file_of(starts, got),
        hash: hash_at(hashes, wanted),
        got,
        wanted,
    }
}

// The packets of pairs.
fn turns(
    alloc: Global,
    pairs: &[(u32, u32)],
    hashes: &[u64],
    starts: &[u32],
) -> Result<Vec<Turn>, AllocError>
    ensures { IfOk result (λ turns. turns.items ≡ map (turn_of_pair hashes.now starts.now) pairs.now) }
{
    let mut turns = Vec::with_capacity(alloc, pairs.len())?;
    for pair in pairs {
        turns.push(turn_of(*pair, hashes, starts))?;
    }
    Ok(turns)
}

// Whether two frames are of one flow.
#[tactic(auto, unfolding(crate::specs::Orders::flow_of))]
fn have_one_flow(one: &[u8], other: &[u8]) -> bool
    ensures { IsTrue result → flow_in one.now ≡ flow_in other.now }
{
    have_same_parts(Likeness::Flow, one, other)
}

// Whether both are of one savefile and one flow; nothing where two flows have one hash.
fn is_one_flow(one: &Turn, other: &Turn, frames: &[&[u8]]) -> Option<bool>
    requires one { IsHashed frames.now one.now }
    requires other { IsHashed frames.now other.now }
    ensures value { IfSome result (λ is. is ≡ is_in_one_flow (coming frames.now one.now) (coming frames.now other.now)) }
    ensures told { IfSome result (λ _. AreTold frames.now one.now other.now) }
{
    if one.file != other.file || one.hash != other.hash {
        return Some(false);
    }
    if have_one_flow(frame_at(frames, one.wanted), frame_at(frames, other.wanted)) {
        Some(true)
    } else {
        None
    }
}

// How many turns, in their order, stand behind one of the same savefile and flow that had to come later; the one before them. Nothing where
// two flows have one hash.
#[tactic(auto, using(crate::proofs::OrderLemmas::late_more))]
fn late_behind(first: Turn, others: &[Turn], frames: &[&[u8]]) -> Option<usize>
    requires first { IsHashed frames.now first }
    requires others { All (IsHashed frames.now) others.now }
    ensures value { IfSome result (λ count. count ≡ late_among_others (coming frames.now first) first.wanted (map (coming frames.now) others.now)) }
    ensures told { IfSome result (λ _. AreToldBehind frames.now first others.now) }
{
    let mut before = first;
    let mut latest = first.wanted;
    let mut count = 0;
    for turn in others {
        let Some(is_one) = is_one_flow(&before, turn, frames) else {
            return None;
        };
        if is_one && turn.wanted < latest {
            count += 1;
        } else {
            latest = turn.wanted;
        }
        before = *turn;
    }
    Some(count)
}

// How many turns, in their order, stand behind one of the same savefile and flow that had to come later. Nothing where two flows have one
// hash.
#[tactic(auto, using(crate::proofs::OrderLemmas::first_hashed, crate::proofs::OrderLemmas::others_hashed))]
fn late(turns: &[Turn], frames: &[&[u8]]) -> Option<usize>
    requires { All (IsHashed frames.now) turns.now }
    ensures value { IfSome result (λ count. count ≡ late_among (map (coming frames.now) turns.now)) }
    ensures told { IfSome result (λ _. AreAllTold frames.now turns.now) }
{
    match turns.split_first() {
        Some((first, others)) => late_behind(*first, others, frames),
        None => Some(0),
    }
}

/// How many of these pairs of equal packets stand the other way round within their flow: behind one, in the same savefile, that had to come
/// later.
///
/// They are put in order by the hashes of their flows; only where two flows have one hash, by the flows themselves.
///
/// # Errors
///
/// [`AllocError`] where memory runs out.
pub fn reordered(
    alloc: Global,
    pairs: &[(u32, u32)],
    frames: &[&[u8]],
    hashes: &[u64],
    starts: &[u32],
) -> Result<u64, AllocError>
    requires { AreFlowHashes frames.now hashes.now }
    ensures { IfOk result (AreReordered frames.now starts.now pairs.now) }
{
    let mut turns = turns(alloc, pairs, hashes, starts)?;
    // No two are the same: they differ in their numbers.
    turns.sort_unstable();
    match late(turns.as_slice(), frames) {
        Some(count) => Ok(count as u64),
        None => reordered_by_flows(alloc, pairs, frames, starts),
    }
}
