//! The table of counts of all packets.
ghost use Rattle.std.specs.Prelude.{◌≡◌, ◌<◌, ◌++◌, List, length, IfOk, OnOk};
ghost use Rattle.vg_model.specs.Journey.{Journey};
ghost use Rattle.vg_replay.specs.Replays.{IsInput};
ghost use Rattle.vg_story.specs.declared.pieces.Piece.{Piece as Told};
ghost use Rattle.vg_ways.specs.Entries.{entries_of};
ghost use Rattle.vg_ways.specs.Stories.{IsStory};
ghost use Rattle.vg_why.specs.Journeys.{AreEntries};
ghost use Rattle.vg_why.specs.Printed.{AreCounts};
ghost use Rattle.vg_why.specs.Trips.{gone_of, AreTrips, AreLegsUnder, AreUnder};

use crate::journeys::{advance_to, went_of};
use std::alloc::Global;
use vg_graph::Graph;
use vg_model::Memory;
use vg_nodes::KindSet;
use vg_replay::{Input, Trips};
use vg_story::{Chain, Piece};
use vg_ways::laws::counts_add_up;
use vg_ways::{Entry, Stages, Went, put_counts, put_entries, put_story};

// Adds what is counted of a packet that went so.
fn put_packet<K: KindSet>(
    entries: &mut Vec<(u32, Entry)>,
    kinds: &K,
    workers: u8,
    stages: &mut Stages<'_>,
    went: &Went<'_>,
    pieces: &mut Vec<Piece>,
    chain: &mut Chain,
) -> Result<(), Memory>
    requires workers { 0 < workers }
    requires under { AreLegsUnder (length stages.old.plan.graphs) went.now.legs.now }
    ensures plan { stages.new.plan ≡ stages.old.plan }
    ensures entries { OnOk result ((told : List Told) × IsStory K.meaning stages.old.plan workers went.now told
        × (entries.new.items ≡ entries.old.items ++ entries_of went.now told)) }
{
    advance_to(stages, went)?;
    put_story(pieces, kinds, workers, stages, went, chain)?;
    put_entries(entries, went, pieces.as_slice())?;
    Ok(())
}

// What is counted of all packets.
fn entries_of_all<'a, K: KindSet>(
    alloc: Global,
    kinds: &K,
    input: &Input<'a>,
    trips: &'a Trips,
) -> Result<Vec<(u32, Entry)>, Memory>
    requires input { IsInput input.now }
    requires many { length trips.now ≡ length input.now.capture.now.packets }
    requires under { AreUnder (length input.now.plan.now.graphs) trips.now }
    ensures { (js : List Journey) → AreTrips (gone_of K.meaning input.now js) input.now.lines.now trips.now
        → IfOk result (λ entries. AreEntries (gone_of K.meaning input.now js) (length trips.now) entries.items) }
{
    let _packets = input.capture.packets.len();
    let mut stages = Stages::new(alloc, input.plan)?;
    let mut pieces = Vec::new(alloc);
    let mut chain = Chain::new(alloc)?;
    let mut entries = Vec::new(alloc);
    for number in 0..trips.len() {
        let went = went_of(input, trips, number as u32);
        put_packet(
            &mut entries,
            kinds,
            input.workers,
            &mut stages,
            &went,
            &mut pieces,
            &mut chain,
        )?;
    }
    Ok(entries)
}

/// The table of counts of all packets.
///
/// # Errors
///
/// [`Memory`] where memory runs out.
pub(crate) fn counts<'a, K: KindSet>(
    alloc: Global,
    kinds: &K,
    input: &Input<'a>,
    trips: &'a Trips,
    names: &Graph,
) -> Result<Vec<u8>, Memory>
    requires input { IsInput input.now }
    requires many { length trips.now ≡ length input.now.capture.now.packets }
    requires under { AreUnder (length input.now.plan.now.graphs) trips.now }
    ensures { (js : List Journey) → AreTrips (gone_of K.meaning input.now js) input.now.lines.now trips.now
        → IfOk result (λ text. AreCounts (gone_of K.meaning input.now js) names.now text.items) }
{
    let _generations = input.plan.generations();
    let entries = entries_of_all(alloc, kinds, input, trips)?;
    let mut stages = Stages::new(alloc, input.plan)?;
    let mut out = Vec::new(alloc);
    put_counts(&mut out, alloc, &mut stages, names, entries.as_slice())?;
    counts_add_up();
    Ok(out)
}
