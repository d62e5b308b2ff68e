//! What is counted of packets.
ghost use Rattle.std.specs.Prelude.{◌≡◌, ◌++◌, None, OnOk};
ghost use Rattle.vg_ways.specs.Entries as counted;

use crate::stories::Went;
use std::alloc::AllocError;
use vg_model::{End, Leg, Prefix, Prefix6};
use vg_story::{Fact, Piece, Value, Word};

/// Something that is counted of a packet.
#[derive(Clone, Copy, Debug)]
pub enum Entry {
    /// It began.
    Began,
    /// A look-up matched the IPv4 route of this prefix.
    Matched(Prefix),
    /// A look-up matched the IPv6 route of this prefix.
    Matched6(Prefix6),
    /// It was transmitted to the neighbor of this number, or to none.
    Left(Option<u16>),
    /// It ended so.
    Ended(End),
}

// The generation of the first of these legs; 0 where there is none.
fn first_generation(legs: &[Leg]) -> u32
    ensures { result ≡ counted.first_generation legs.now }
{
    match legs.first() {
        Some(leg) => leg.generation,
        None => 0,
    }
}

// The generation of the last of these legs; 0 where there is none.
fn last_generation(legs: &[Leg]) -> u32
    ensures { result ≡ counted.last_generation legs.now }
{
    match legs.last() {
        Some(leg) => leg.generation,
        None => 0,
    }
}

// Adds a route that matched, where a fact says one.
fn put_match(entries: &mut Vec<(u32, Entry)>, generation: u32, fact: Fact) -> Result<(), AllocError>
    ensures { OnOk result (entries.new.items ≡ entries.old.items ++ counted.match_by generation fact.word fact.value) }
{
    match (fact.word, fact.value) {
        (Word::Route, Value::Prefix(prefix)) => {
            entries.push((generation, Entry::Matched(prefix)))?;
        }
        (Word::Route, Value::Prefix6(prefix)) => {
            entries.push((generation, Entry::Matched6(prefix)))?;
        }
        _ => {}
    }
    Ok(())
}

// Adds the routes that matched, each under the generation of its leg.
fn put_matches(entries: &mut Vec<(u32, Entry)>, pieces: &[Piece]) -> Result<(), AllocError>
    ensures { OnOk result (entries.new.items ≡ entries.old.items ++ counted.matches 0 pieces.now) }
{
    let mut generation = 0;
    for piece in pieces {
        match *piece {
            Piece::Leg {
                generation: next,
                ..
            } => generation = next,
            Piece::Because(fact) => put_match(entries, generation, fact)?,
            Piece::Visit { .. } | Piece::Change { .. } => {}
        }
    }
    Ok(())
}

// The neighbor that a fact names, or else the one before.
fn via_by(before: Option<u16>, fact: Fact) -> Option<u16>
    ensures { result ≡ counted.via_by before fact.word fact.value }
{
    match (fact.word, fact.value) {
        (Word::Via, Value::Neighbor(neighbor)) => Some(neighbor),
        _ => before,
    }
}

// The neighbor that is named last.
fn last_via(pieces: &[Piece]) -> Option<u16>
    ensures { result ≡ counted.last_via None pieces.now }
{
    let mut neighbor = None;
    for piece in pieces {
        if let Piece::Because(fact) = *piece {
            neighbor = via_by(neighbor, fact);
        }
    }
    neighbor
}

// Adds the end of a packet, and the neighbor to which it was transmitted, where it was.
fn put_end(
    entries: &mut Vec<(u32, Entry)>,
    generation: u32,
    neighbor: Option<u16>,
    end: End,
) -> Result<(), AllocError>
    ensures { OnOk result (entries.new.items ≡ entries.old.items ++ counted.end_entries generation neighbor end) }
{
    if let End::Tx { .. } = end {
        entries.push((generation, Entry::Left(neighbor)))?;
    }
    entries.push((generation, Entry::Ended(end)))?;
    Ok(())
}

/// Adds what is counted of a packet that went so, whose way these pieces show.
///
/// # Errors
///
/// [`AllocError`] where memory runs out.
pub fn put_entries(
    entries: &mut Vec<(u32, Entry)>,
    went: &Went<'_>,
    pieces: &[Piece],
) -> Result<(), AllocError>
    ensures { OnOk result (entries.new.items ≡ entries.old.items ++ counted.entries_of went.now pieces.now) }
{
    entries.push((first_generation(went.legs), Entry::Began))?;
    put_matches(entries, pieces)?;
    put_end(
        entries,
        last_generation(went.legs),
        last_via(pieces),
        went.end,
    )
}
