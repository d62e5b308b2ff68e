//! The ways of the packets that are asked for.
ghost use Rattle.std.specs.Prelude.{◌≡◌, ◌<◌, ◌++◌, ℕ, List, length, if◌then◌else◌, [], IfOk, OnOk};
ghost use Rattle.vg_model.specs.Journey.{Journey};
ghost use Rattle.vg_replay.specs.Replays.{IsInput};
ghost use Rattle.vg_story.specs.declared.pieces.Piece.{Piece as Told};
ghost use Rattle.vg_ways.specs.Stories.{IsStory};
ghost use Rattle.vg_ways.specs.Ways.{way_text};
ghost use Rattle.vg_why.specs.Asked.{asked_shown};
ghost use Rattle.vg_why.specs.Filters.{meets as meets_all};
ghost use Rattle.vg_why.specs.Printed.{AreWays};
ghost use Rattle.vg_why.specs.Sent.{is_sent_at};
ghost use Rattle.vg_why.specs.Trips.{gone_of, AreTrips, AreLegsUnder, AreUnder};

use crate::asks::Asked;
use crate::filters::meets;
use crate::journeys::{advance_to, went_of};
use std::alloc::Global;
use vg_graph::Graph;
use vg_model::{End, Memory};
use vg_nodes::KindSet;
use vg_replay::{Input, Trips};
use vg_story::{Chain, Piece};
use vg_ways::{Clock, Place, Stages, Went, put_story, put_way};

// What is printed so far, and what is kept from packet to packet.
#[derive(Drop)]
struct Room<'a> {
    out: Vec<u8>,
    stages: Stages<'a>,
    pieces: Vec<Piece>,
    chain: Chain,
}

// Appends the way of a packet that went so, where it meets what is asked for.
fn put_where<K: KindSet>(
    room: &mut Room<'_>,
    kinds: &K,
    workers: u8,
    asked: &Asked<'_>,
    names: &Graph,
    place: Place,
    went: &Went<'_>,
) -> Result<(), Memory>
    requires workers { 0 < workers }
    requires under { AreLegsUnder (length room.old.stages.plan.graphs) went.now.legs.now }
    ensures plan { room.new.stages.plan ≡ room.old.stages.plan }
    ensures way { OnOk result ((told : List Told) × IsStory K.meaning room.old.stages.plan workers went.now told
        × (room.new.out.items ≡ room.old.out.items ++ (if meets_all names.now (asked_shown asked.now) went.now.end told
        then way_text room.old.stages.plan.script names.now place went.now told else []))) }
{
    advance_to(&mut room.stages, went)?;
    put_story(
        &mut room.pieces,
        kinds,
        workers,
        &mut room.stages,
        went,
        &mut room.chain,
    )?;
    let pieces = room.pieces.as_slice();
    if meets(asked, names, went.end, pieces) {
        put_way(&mut room.out, &room.stages, names, place, went, pieces)?;
    }
    Ok(())
}

// Whether a packet that ended so was transmitted.
fn is_sent(end: End) -> bool
    ensures { result ≡ is_sent_at end }
{
    match end {
        End::Tx { .. } => true,
        End::Dropped { .. } => false,
    }
}

/// The ways of the packets that are asked for, in the order of their numbers.
///
/// # Errors
///
/// [`Memory`] where memory runs out.
pub(crate) fn ways<'a, K: KindSet>(
    alloc: Global,
    kinds: &K,
    input: &Input<'a>,
    trips: &'a Trips,
    names: &Graph,
    asked: &Asked<'_>,
) -> Result<Vec<u8>, Memory>
    requires input { IsInput input.now }
    requires many { length trips.now ≡ length input.now.capture.now.packets }
    requires under { AreUnder (length input.now.plan.now.graphs) trips.now }
    ensures { (js : List Journey) → AreTrips (gone_of K.meaning input.now js) input.now.lines.now trips.now
        → IfOk result (λ text. AreWays (gone_of K.meaning input.now js) names.now (asked_shown asked.now) (length trips.now) text.items) }
{
    let _packets = input.capture.packets.len();
    let mut room = Room {
        out: Vec::new(alloc),
        stages: Stages::new(alloc, input.plan)?,
        pieces: Vec::new(alloc),
        chain: Chain::new(alloc)?,
    };
    let marks = asked.marks(alloc, trips.len())?;
    let mut clock = Clock::new(input.capture);
    let mut index = 0;
    for number in 0..trips.len() {
        let went = went_of(input, trips, number as u32);
        let time = clock.time(input.capture, number);
        let place = Place { time, index };
        if marks[number] {
            put_where(&mut room, kinds, input.workers, asked, names, place, &went)?;
        }
        if is_sent(went.end) {
            index += 1;
        }
    }
    Ok(room.out)
}
