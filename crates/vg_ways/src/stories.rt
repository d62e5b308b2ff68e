//! The way of a packet, leg by leg.
ghost use Rattle.std.specs.Prelude.{◌≡◌, ◌<◌, ◌≤◌, ◌++◌, length, OnOk};
ghost use Rattle.std.specs.List.{AllByRecursion};
ghost use Rattle.vg_ways.specs.Stories.{before_dequeue as before_dequeue_of, drop_pieces, leg_len as leg_len_of, received as received_of, AddsLeg, AddsLegs, IsStory};

use crate::stages::Stages;
use std::alloc::AllocError;
use vg_model::limits::LONGEST_PACKET;
use vg_model::start::{ERROR_DROP, HANDOFF_DEQUEUE};
use vg_model::{End, Leg, Memory};
use vg_nodes::KindSet;
use vg_story::{Chain, Piece, put_visits};

/// How a packet of a capture went.
#[derive(Clone, Copy)]
pub struct Went<'a> {
    /// Its number, from 0.
    pub number: u32,
    /// The bytes that were captured of it.
    pub bytes: &'a [u8],
    /// Its legs, in order.
    pub legs: &'a [Leg],
    /// The nodes that it visited, leg after leg.
    pub visits: &'a [u16],
    /// How it ended.
    pub end: End,
    /// Where a full queue refused it: how many frames that queue had accepted.
    pub accepted: Option<u64>,
}

// How many of these visits are those of the first leg: each later leg begins with a visit of the node where packets come from other workers.
fn leg_len(visits: &[u16]) -> usize
    ensures len { result ≡ leg_len_of visits.now }
    ensures within { result ≤ length visits.now }
{
    let Some((_, later)) = visits.split_first() else {
        return 0;
    };
    1 + before_dequeue(later)
}

// How many of these visits stand before the first where packets come from other workers.
fn before_dequeue(visits: &[u16]) -> usize
    ensures len { result ≡ before_dequeue_of visits.now }
    ensures within { result ≤ length visits.now }
{
    match visits.iter().position(|node| *node == HANDOFF_DEQUEUE) {
        Some(place) => place,
        None => visits.len(),
    }
}

// Adds the pieces of a leg with these visits.
fn put_leg<K: KindSet>(
    pieces: &mut Vec<Piece>,
    kinds: &K,
    workers: u8,
    stages: &mut Stages<'_>,
    leg: Leg,
    visits: &[u16],
    chain: &mut Chain,
) -> Result<(), Memory>
    requires workers { 0 < workers }
    requires generation { leg.generation < length stages.old.plan.graphs }
    ensures plan { stages.new.plan ≡ stages.old.plan }
    ensures leg { OnOk result (AddsLeg K.meaning stages.old.plan workers leg visits.now chain.old chain.new pieces.old.items pieces.new.items) }
{
    pieces.push(Piece::Leg {
        worker: leg.worker,
        generation: leg.generation,
    })?;
    stages.reach(leg.generation)?;
    match stages.get(leg.generation) {
        Some(stage) => {
            put_visits(pieces, kinds, stage, workers, visits, chain)?;
            Ok(())
        }
        None => unreachable!(),
    }
}

// Adds the pieces of legs with these visits.
fn put_legs<K: KindSet>(
    pieces: &mut Vec<Piece>,
    kinds: &K,
    workers: u8,
    stages: &mut Stages<'_>,
    legs: &[Leg],
    visits: &[u16],
    chain: &mut Chain,
) -> Result<(), Memory>
    requires workers { 0 < workers }
    requires generations { AllByRecursion (λ leg. leg.generation < length stages.old.plan.graphs) legs.now }
    ensures plan { stages.new.plan ≡ stages.old.plan }
    ensures legs { OnOk result (AddsLegs K.meaning stages.old.plan workers legs.now visits.now chain.old pieces.old.items pieces.new.items) }
{
    let mut rest = visits;
    for leg in legs {
        let (here, later) = rest.split_at(leg_len(rest));
        put_leg(pieces, kinds, workers, stages, *leg, here, chain)?;
        rest = later;
    }
    Ok(())
}

// Adds the visit of `error-drop` behind a drop at another node.
fn put_drop_visit(pieces: &mut Vec<Piece>, end: End) -> Result<(), AllocError>
    ensures { OnOk result (pieces.new.items ≡ pieces.old.items ++ drop_pieces end) }
{
    match end {
        End::Dropped { node, .. } => {
            if node != ERROR_DROP {
                pieces.push(Piece::Visit { node: ERROR_DROP })?;
            }
        }
        End::Tx { .. } => {}
    }
    Ok(())
}

// The bytes of a packet that come into buffers: none of one that is too long.
fn received(bytes: &[u8]) -> &[u8]
    ensures bytes { result.now ≡ received_of bytes.now }
    ensures short { length result.now ≤ LONGEST_PACKET }
{
    if bytes.len() > LONGEST_PACKET {
        return &[];
    }
    bytes
}

/// The pieces of a packet's way, in place of what the list had before. The last is a visit of `error-drop` where another node dropped the packet, as
/// reports count it.
///
/// # Errors
///
/// [`Memory`] where memory runs out.
pub fn put_story<K: KindSet>(
    pieces: &mut Vec<Piece>,
    kinds: &K,
    workers: u8,
    stages: &mut Stages<'_>,
    went: &Went<'_>,
    chain: &mut Chain,
) -> Result<(), Memory>
    requires workers { 0 < workers }
    requires generations { AllByRecursion (λ leg. leg.generation < length stages.old.plan.graphs) went.now.legs.now }
    ensures plan { stages.new.plan ≡ stages.old.plan }
    ensures story { OnOk result (IsStory K.meaning stages.old.plan workers went.now pieces.new.items) }
{
    pieces.clear();
    chain.fill(went.number, received(went.bytes));
    put_legs(
        pieces,
        kinds,
        workers,
        stages,
        went.legs,
        went.visits,
        chain,
    )?;
    put_drop_visit(pieces, went.end)?;
    Ok(())
}
