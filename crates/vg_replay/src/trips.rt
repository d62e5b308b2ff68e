//! How far packets have come.
ghost use Rattle.std.specs.Prelude.{◌≡◌, ◌+◌, ◌<◌, ◌≤◌, ◌++◌, [], ◌∷◌, ℕ, length, slice_get, slice_set, if◌then◌else◌, IfOk, OnOk, OnErr};
ghost use Rattle.vg_model.specs.Journey.{Course, longest_extent};
ghost use Rattle.vg_model.specs.Valid.{extent};
ghost use Rattle.vg_replay.specs.Courses.{in_hand};
ghost use Rattle.vg_replay.specs.Legs.{outcome_of};
ghost use Rattle.vg_replay.specs.Parts.{part_of, course_in, whole, IsTripIn, HasGrown};
ghost use Rattle.vg_replay.specs.Trips.{begun, IsKeptOf};

use crate::chains::{Chain, know_contents};
use crate::legs::Outcome;
use crate::walkers::Walker;
use std::alloc::{AllocError, Global};
use std::marker::Model;
use vg_model::limits::FIRST_ROOM;
use vg_model::{Leg, Legs};
use vg_pool::Buffer;

/// Where a part of a list stands.
#[derive(Clone, Copy)]
pub(crate) struct Part {
    at: u32,
    len: u32,
}

/// The part that has nothing.
const NOTHING: Part = Part { at: 0, len: 0 };

// A part of a list.
fn part_at<T>(list: &[T], place: Part) -> &[T]
    requires { place.at + place.len ≤ length list.now }
    ensures { result.now ≡ part_of place list.now }
{
    let start = place.at as usize;
    &list[start..start + place.len as usize]
}

// Adds elements behind a list, or none, and tells where they stand.
fn append<T: Copy>(list: &mut Vec<T>, more: &[T], is_wanted: bool) -> Result<Part, AllocError>
    ensures place { IfOk result (λ place. (place.at ≡ length list.old.items) × (place.len ≡ length (if is_wanted then more.now else []))) }
    ensures ok { OnOk result (list.new.items ≡ list.old.items ++ (if is_wanted then more.now else [])) }
    ensures err { OnErr result (list.new.items ≡ list.old.items) }
{
    let more = if is_wanted { more } else { &more[..0] };
    let Ok(at) = u32::try_from(list.len()) else {
        return Err(AllocError);
    };
    let Ok(len) = u32::try_from(more.len()) else {
        return Err(AllocError);
    };
    list.extend_from_slice(more)?;
    Ok(Part { at, len })
}

// Adds the bytes of a packet behind a list, or none, and tells where they stand.
fn append_packet(list: &mut Vec<u8>, buffer: &Buffer, is_wanted: bool) -> Result<Part, AllocError>
    ensures place { IfOk result (λ place. (place.at ≡ length list.old.items) × (place.len ≡ length (if is_wanted then buffer.now.packet.bytes else []))) }
    ensures ok { OnOk result (list.new.items ≡ list.old.items ++ (if is_wanted then buffer.now.packet.bytes else [])) }
    ensures err { OnErr result (list.new.items ≡ list.old.items) }
{
    if !is_wanted {
        return append(list, &[], false);
    }
    let Ok(at) = u32::try_from(list.len()) else {
        return Err(AllocError);
    };
    let len = buffer.len();
    list.reserve(len as usize)?;
    buffer.copy_into(list);
    Ok(Part { at, len })
}

/// What is kept of a packet, by places in the lists of all.
#[derive(Clone, Copy)]
pub(crate) struct Kept {
    number: u32,
    legs: Part,
    outcome: Outcome,
    bytes: Part,
    room: u32,
    checked: bool,
    adjacency: Option<u16>,
    interface: Option<u16>,
    visits: Part,
}

/// The legs, the bytes and the nodes visited that are kept of all packets.
#[derive(Drop)]
pub(crate) struct Lists {
    legs: Vec<Leg>,
    bytes: Vec<u8>,
    visits: Vec<u16>,
}

// Whether more is kept of a packet that ended its leg so than that it was dropped.
fn is_whole(outcome: Outcome) -> bool
    ensures { result ≡ whole (outcome_of outcome) }
{
    match outcome {
        Outcome::Sent { .. } | Outcome::Handed { .. } => true,
        Outcome::Dropped { .. } => false,
    }
}

impl Lists {
    // Notes how far a packet that is walked has come, with the nodes that it visited or without.
    fn note(&mut self, number: u32, walker: &Walker, with_visits: bool) -> Result<Kept, AllocError>
        ensures grown { HasGrown self.old self.new }
        ensures kept { IfOk result (λ kept. IsKeptOf with_visits number (in_hand walker.now) (course_in self.new kept)) }
        ensures trip { IfOk result (IsTripIn self.new) }
    {
        let buffer = walker.buffer.as_buffer();
        know_contents(buffer);
        let is_whole = is_whole(walker.outcome);
        let legs = append(&mut self.legs, walker.legs.as_slice(), true)?;
        let bytes = append_packet(&mut self.bytes, buffer, is_whole)?;
        let visits = append(&mut self.visits, walker.visits.as_slice(), with_visits)?;
        Ok(Kept {
            number,
            legs,
            outcome: walker.outcome,
            bytes,
            room: buffer.room(),
            checked: is_whole && buffer.checked(),
            adjacency: buffer.adjacency(),
            interface: buffer.interface(),
            visits,
        })
    }
}

/// How far packets have come, by number. They are seen as the list of that.
///
/// Of a packet that was dropped no more than the number is kept. The nodes that it visited are kept where more legs are to come, and
/// where they are asked for.
#[derive(Drop)]
pub struct Trips {
    kept: Vec<Kept>,
    lists: Lists,
}

impl Model for Trips {
    ghost use Rattle.std.specs.Prelude.{List, map, All};
    ghost use Rattle.vg_model.specs.Journey.{Course};
    ghost use Rattle.vg_replay.specs.Parts.{course_in, IsTripIn};

    ghost Value = { List Course };

    ghost view = { λ t. map (course_in t.lists) t.kept.items };

    ghost invariant = { λ t. All (IsTripIn t.lists) t.kept.items };
}

impl Trips {
    // No packet yet.
    pub(crate) fn new(alloc: Global) -> Trips
        ensures { result ≡ [] }
    {
        let lists = Lists {
            legs: Vec::new(alloc),
            bytes: Vec::new(alloc),
            visits: Vec::new(alloc),
        };
        Trips {
            kept: Vec::new(alloc),
            lists,
        }
    }

    /// How many packets there are.
    pub fn len(&self) -> usize
        ensures { result ≡ length self.now }
    {
        self.kept.len()
    }

    /// How far a packet has come.
    pub fn get(&self, number: usize) -> Trip<'_>
        requires { number < length self.now }
        ensures { slice_get self.now number ≡ Some result }
    {
        let kept = self.kept[number];
        Trip {
            number: kept.number,
            legs: part_at(self.lists.legs.as_slice(), kept.legs),
            outcome: kept.outcome,
            bytes: part_at(self.lists.bytes.as_slice(), kept.bytes),
            room: kept.room,
            checked: kept.checked,
            adjacency: kept.adjacency,
            interface: kept.interface,
            visits: part_at(self.lists.visits.as_slice(), kept.visits),
        }
    }

    // Adds a packet that has done no leg.
    pub(crate) fn begin(&mut self, number: u32) -> Result<(), AllocError>
        ensures { OnOk result (self.new ≡ self.old ++ begun number ∷ []) }
    {
        self.kept.push(Kept {
            number,
            legs: NOTHING,
            outcome: Outcome::Sent { interface: 0 },
            bytes: NOTHING,
            room: FIRST_ROOM as u32,
            checked: false,
            adjacency: None,
            interface: None,
            visits: NOTHING,
        })?;
        Ok(())
    }

    // Keeps how far the packet that is walked has come, with the nodes that it visited or without.
    pub(crate) fn keep(
        &mut self,
        number: u32,
        walker: &Walker,
        with_visits: bool,
    ) -> Result<(), AllocError>
        requires { number < length self.old }
        ensures { OnOk result ((trip : Course) × IsKeptOf with_visits number (in_hand walker.now) trip × (self.new ≡ slice_set self.old number trip)) }
    {
        let kept = self.lists.note(number, walker, with_visits)?;
        self.kept[number as usize] = kept;
        Ok(())
    }
}

/// How far a packet has come: the legs that it has done, how the last of them ended, and what it is then.
///
/// It is seen as that part of a journey.
#[derive(Drop)]
pub struct Trip<'a> {
    number: u32,
    legs: &'a [Leg],
    outcome: Outcome,
    bytes: &'a [u8],
    room: u32,
    checked: bool,
    adjacency: Option<u16>,
    interface: Option<u16>,
    visits: &'a [u16],
}

impl<'a> Model for Trip<'a> {
    ghost use Rattle.vg_model.specs.Journey.{Course};
    ghost use Rattle.vg_replay.specs.View.{course_of, IsTrip};

    ghost Value = { Course };

    ghost view = { course_of };

    ghost invariant = { IsTrip };
}

impl<'a> Trip<'a> {
    /// The legs that it has done, in order.
    pub fn legs(&self) -> &'a [Leg]
        ensures legs { result.now ≡ self.now.legs }
        ensures few { length result.now ≤ 4 }
    {
        self.legs
    }

    /// How the last of them ended.
    pub fn outcome(&self) -> Outcome
        ensures { outcome_of result ≡ self.now.outcome }
    {
        self.outcome
    }

    /// The packet's bytes.
    pub fn bytes(&self) -> &'a [u8]
        ensures bytes { result.now ≡ self.now.packet.bytes }
        ensures few { extent self.now.packet ≤ longest_extent }
    {
        self.bytes
    }

    /// The nodes that it visited, in order, leg after leg.
    pub fn visits(&self) -> &'a [u16]
        ensures { result.now ≡ self.now.visits }
    {
        self.visits
    }

    // Puts the packet into a buffer, as it is.
    pub(crate) fn load(&self, buffer: &mut Chain)
        ensures { buffer.new.packet ≡ self.now.packet }
    {
        buffer.lay(self.number, self.room, self.bytes);
        if let Some(adjacency) = self.adjacency {
            buffer.set_adjacency(adjacency);
        }
        if let Some(interface) = self.interface {
            buffer.set_interface(interface);
        }
        if self.checked {
            buffer.mark();
        }
    }
}

/// The same legs.
pub fn copied(legs: &[Leg]) -> Legs
    requires { length legs.now ≤ 4 }
    ensures { result ≡ legs.now }
{
    let mut copy = Legs::new();
    for leg in legs {
        copy.push(*leg);
    }
    copy
}
