//! What was sent.
ghost use Rattle.std.specs.Prelude.{◌≡◌, ◌<◌, ◌≤◌, ◌^◌, ◌++◌, ◌∷◌, [], ℕ, List, IfOk, flat_map, length, map, slice_get, slice_index_or, MatchResult, Some};
ghost use Rattle.std.specs.List.{AllByRecursion};
ghost use Rattle.std.specs.List.Sorted.{IsPermutation, IsNonDecreasing};
ghost use Rattle.vg_underway.specs.SentEntries.{IsBelow, moved_on};

use std::alloc::{AllocError, Global};
use std::marker::Model;
use vg_model::Memory;

// The highest number of a part.
const LAST_PART: usize = 65_535;

/// A packet that was sent: its number; and in which list its bytes stand, how many they are, and where they begin.
#[derive(Clone, Copy)]
pub struct SentEntry {
    pub number: u32,
    pub part: u16,
    pub len: u16,
    pub start: usize,
}

/// The packets that were transmitted: the number and the bytes of each.
///
/// The bytes of all of them stand in one list for each worker that sent some.
#[derive(Drop)]
pub struct SentList {
    entries: Vec<SentEntry>,
    // The bytes of the list that it began with, which is part 0; and those of lists that were joined to it, from part 1 on.
    bytes: Vec<u8>,
    more: Vec<Vec<u8>>,
}

impl Model for SentList {
    ghost use Rattle.std.specs.Prelude.{List, ℕ, map, ◌∷◌};
    ghost use Rattle.vg_underway.specs.SentEntries.{sent_in, AreIn};

    ghost Value = { List (ℕ × List ℕ) };

    ghost view = { λ s. sent_in s.entries.items (s.bytes.items ∷ map (λ part. part.items) s.more.items) };

    ghost invariant = { λ s. AreIn s.entries.items (s.bytes.items ∷ map (λ part. part.items) s.more.items) };
}

// The bytes of a part.
fn part_of<'a>(bytes: &'a Vec<u8>, more: &'a Vec<Vec<u8>>, part: u16) -> &'a [u8]
    requires { part ≤ length more.now.items }
    ensures { result.now ≡ slice_index_or (bytes.now.items ∷ map (λ part. part.items) more.now.items) part [] }
{
    match part {
        0 => bytes.as_slice(),
        _ => more[part as usize - 1].as_slice(),
    }
}

// Entries, and behind them those of another list, whose parts stand so many places further on.
fn followed_by(
    mut entries: Vec<SentEntry>,
    others: Vec<SentEntry>,
    parts: u16,
) -> Result<Vec<SentEntry>, AllocError>
    requires { AllByRecursion (IsBelow (2 ^ 16) parts) others.items }
    ensures { IfOk result (λ all. all.items ≡ entries.items ++ map (moved_on parts) others.items) }
{
    for entry in others {
        entries.push(SentEntry {
            part: entry.part + parts,
            ..entry
        })?;
    }
    Ok(entries)
}

impl SentList {
    ghost use Rattle.vg_underway.specs.SentEntries.{sent_by, AreWithin};

    /// The packets with these entries, whose bytes stand in this list.
    pub fn new(entries: Vec<SentEntry>, bytes: Vec<u8>) -> SentList
        requires { AreWithin entries.items bytes.items }
        ensures { result ≡ sent_by entries.items bytes.items }
    {
        let more = Vec::new(*entries.allocator());
        SentList {
            entries,
            bytes,
            more,
        }
    }

    /// The packets of all these lists, one list behind the other. No packet's bytes are moved.
    ///
    /// # Errors
    ///
    /// [`Memory`] where memory runs out. It takes none where there is one list.
    pub fn joined(alloc: Global, lists: Vec<SentList>) -> Result<SentList, Memory>
        ensures { IfOk result (λ sent. sent ≡ flat_map (λ (list : List (ℕ × List ℕ)). list) lists.items) }
    {
        let mut lists = lists.into_iter();
        let Some(mut sent) = lists.next() else {
            return Ok(SentList::new(Vec::new(alloc), Vec::new(alloc)));
        };
        for list in lists {
            sent = sent.with(list)?;
        }
        Ok(sent)
    }

    // Its packets, and behind them those of another list.
    fn with(self, other: SentList) -> Result<SentList, Memory>
        ensures { IfOk result (λ sent. sent ≡ self ++ other) }
    {
        let SentList {
            entries,
            bytes,
            mut more,
        } = self;
        let SentList {
            entries: other_entries,
            bytes: other_bytes,
            more: mut other_more,
        } = other;
        let parts = more.len() + 1;
        if parts > LAST_PART || other_more.len() > LAST_PART - parts {
            return Err(Memory);
        }
        more.push(other_bytes)?;
        more.append(&mut other_more)?;
        let entries = followed_by(entries, other_entries, parts as u16)?;
        Ok(SentList {
            entries,
            bytes,
            more,
        })
    }

    /// Where the packets' bytes stand, and the one list that has all of them, which is part 0.
    ///
    /// # Errors
    ///
    /// The packets, unchanged, where their bytes stand in several lists.
    pub fn into_one(self) -> Result<(Vec<SentEntry>, Vec<u8>), SentList>
        ensures { MatchResult result (λ one. AreWithin one.0.items one.1.items × (self ≡ sent_by one.0.items one.1.items)) (λ sent. sent ≡ self) }
    {
        if !self.more.is_empty() {
            return Err(self);
        }
        let SentList {
            entries,
            bytes,
            more: _,
        } = self;
        Ok((entries, bytes))
    }

    /// How many packets were transmitted.
    pub fn len(&self) -> usize
        ensures { result ≡ length self.now }
    {
        self.entries.len()
    }

    /// The number and the bytes of one of them, by its place in the list.
    pub fn get(&self, k: usize) -> (u32, &[u8])
        requires { k < length self.now }
        ensures { slice_get self.now k ≡ Some (result.0, result.1.now) }
    {
        let entry = self.entries[k];
        let part = part_of(&self.bytes, &self.more, entry.part);
        (
            entry.number,
            &part[entry.start..entry.start + entry.len as usize],
        )
    }

    /// Puts the packets in the order of their numbers. No byte is moved. Stretches that have the order already, as those of several
    /// workers, are merged, where there is memory for a second list of places.
    pub fn sort(&mut self)
        ensures same { IsPermutation self.old self.new }
        ensures rising { IsNonDecreasing (map (λ (sent : ℕ × List ℕ). sent.0) self.new) }
    {
        match self.entries.sort_by_key(|entry| entry.number) {
            Ok(()) => (),
            Err(_) => self.entries.sort_unstable_by_key(|entry| entry.number),
        }
    }
}
