//! What became of the packets.
ghost use Rattle.std.specs.Prelude.{◌≡◌, ◌<◌, ◌≤◌, [], ◌∷◌, ◌++◌, length};

use crate::kinds::DropError;
use crate::limits::MOST_LEGS;
use arrayvec::ArrayVec;
use std::marker::Model;

/// How a packet ended.
#[derive(Clone, Copy, Debug, PartialEq, Eq)]
pub enum End {
    /// Transmitted on the interface of this number.
    Tx { interface: u16 },
    /// Dropped by the node of this number.
    Dropped { node: u16, error: DropError },
}

/// A packet's way on one worker, under one generation of the graph.
#[derive(Clone, Copy, Debug, Default, PartialEq, Eq)]
pub struct Leg {
    /// The worker's number, from 0.
    pub worker: u8,
    /// The generation's number, from 0.
    pub generation: u32,
}

/// The legs of a packet, in order: at most four. The fate of a packet has at least one.
#[derive(Drop)]
pub struct Legs(ArrayVec<Leg, MOST_LEGS>);

impl Model for Legs {
    ghost use Rattle.std.specs.Prelude.{List, length, ◌≤◌};
    ghost use Rattle.vg_model.specs.declared.fates.Leg.{Leg};

    ghost Value = { List Leg };

    ghost view = { λ l. l.0.items };

    ghost invariant = { λ l. length l.0.items ≤ 4 };
}

/// What became of one packet.
#[derive(Drop)]
pub struct Fate {
    /// The packet's number in the capture, from 0.
    pub number: u32,
    pub legs: Legs,
    /// Where a full queue refused the packet: how many frames that queue had accepted.
    pub congested: Option<u64>,
    pub end: End,
}

/// A list of fates.
#[derive(Drop)]
pub struct Fates(Vec<Fate>);

impl Model for Fates {
    ghost use Rattle.std.specs.Prelude.{List};
    ghost use Rattle.vg_model.specs.declared.fates.Fate.{Fate};

    ghost Value = { List Fate };

    ghost view = { λ f. f.0.items };
}

impl Legs {
    /// No legs.
    pub fn new() -> Legs
        ensures { result ≡ [] }
    {
        Legs(ArrayVec::new())
    }

    /// Adds a leg behind the others.
    pub fn push(&mut self, leg: Leg)
        requires { length self.old < 4 }
        ensures { self.new ≡ self.old ++ leg ∷ [] }
    {
        self.0.push(leg);
    }

    /// The legs as a slice.
    pub fn as_slice(&self) -> &[Leg]
        ensures legs { result.now ≡ self.now }
        ensures few { length result.now ≤ 4 }
    {
        self.0.as_slice()
    }
}

impl Fates {
    /// The list of these fates.
    pub fn from_vec(fates: Vec<Fate>) -> Fates
        ensures { result ≡ fates.items }
    {
        Fates(fates)
    }

    /// The fates as a slice.
    pub fn as_slice(&self) -> &[Fate]
        ensures { result.now ≡ self.now }
    {
        self.0.as_slice()
    }

    /// The fates as a vector.
    pub fn into_vec(self) -> Vec<Fate>
        ensures { result.items ≡ self }
    {
        self.0
    }
}
