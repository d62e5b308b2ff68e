//! How the packets that came differ from those that had to come.
ghost use Rattle.std.specs.Prelude.{◌≡◌, ◌<◌, ◌↔◌, ℕ, List, IsTrue, length, map, All, IfOk};
ghost use Rattle.vg_match.specs.Keys.{compared as compared_bytes, likeness_of};
ghost use Rattle.vg_match.specs.Matching.{IsMatchingOf};
ghost use Rattle.vg_match.specs.Sides.{IsSide, IsOf, AreKeys, IsInOrder, seen, number_of, meant_numbers};
ghost use Rattle.vg_match.specs.Diffs.{IsDiff, IsMatched, AreRowsOf, AreNumbersOf, AllMatch, MatchIsExact, pair_numbers};

use crate::fields::Field;
use crate::keys::Likeness;
use crate::matching::{Entry, Matching, match_up, merge};
use crate::ranges::Range;
use crate::sides::{Side, alike_all, meant_entries, side_in_order, with_keys};
use std::alloc::{AllocError, Global};
use std::thread::{Threads, join};
use vg_model::Bytes;

/// How packets that came differ from those that had to come. All packets are named by their numbers; the first of a pair is the one that
/// had to come, or to be dropped.
#[derive(Drop)]
pub struct Diff {
    /// Equal packets.
    pub same: Vec<(u32, u32)>,
    /// Packets of the same addresses, protocol, identification and payload which differ elsewhere.
    pub changed: Vec<(u32, u32)>,
    /// Packets that had to come and didn't.
    pub missing: Vec<u32>,
    /// Packets that had to be dropped, each with one that came with its addresses and payload.
    pub there: Vec<(u32, u32)>,
    /// The other packets that came.
    pub extra: Vec<u32>,
}

/// Packets that are matched, by their numbers.
#[derive(Drop)]
pub struct Matched {
    /// The pairs.
    pub pairs: Vec<(u32, u32)>,
    /// What is left of the first side.
    pub first: Vec<u32>,
    /// What is left of the second side.
    pub second: Vec<u32>,
}

// The numbers of entries.
fn numbers_of(alloc: Global, entries: &[Entry<'_>]) -> Result<Vec<u32>, AllocError>
    ensures { IfOk result (λ numbers. numbers.items ≡ map number_of entries.now) }
{
    entries.iter().map(|entry| entry.number).collect(alloc)
}

// The numbers of pairs of entries.
fn numbers_of_pairs(
    alloc: Global,
    pairs: &[(Entry<'_>, Entry<'_>)],
) -> Result<Vec<(u32, u32)>, AllocError>
    ensures { IfOk result (λ numbers. numbers.items ≡ map pair_numbers pairs.now) }
{
    pairs
        .iter()
        .map(|(first, second)| (first.number, second.number))
        .collect(alloc)
}

// The numbers of what is matched.
fn matched_numbers(alloc: Global, matching: &Matching<'_>) -> Result<Matched, AllocError>
    ensures { IfOk result (AreNumbersOf matching.now) }
{
    Ok(Matched {
        pairs: numbers_of_pairs(alloc, matching.pairs.as_slice())?,
        first: numbers_of(alloc, matching.wanted.as_slice())?,
        second: numbers_of(alloc, matching.got.as_slice())?,
    })
}

// Matches the packets of two sides that are meant, and equal but for what is ignored. Each side is put in order by a thread of its own.
fn match_equal<'k, R: Threads>(
    rt: &R,
    alloc: Global,
    first: &Side<'_, '_, 'k>,
    second: &Side<'_, '_, 'k>,
    ignored: &[Field],
    only: &[Range],
) -> Result<Matched, AllocError>
    requires first { IsSide ignored.now first.now }
    requires second { IsSide ignored.now second.now }
    ensures { IfOk result (IsMatched (compared_bytes ignored.now) (seen first.now.frames.now) (seen second.now.frames.now)
        (meant_numbers only.now 0 (seen first.now.frames.now)) (meant_numbers only.now 0 (seen second.now.frames.now))) }
{
    let (frames, keys) = (first.frames, first.keys);
    let (other_frames, other_keys) = (second.frames, second.keys);
    let (ones, others) = join(
        rt,
        ||
            requires { AreKeys ignored.now frames.now keys.now }
            ensures { IfOk result (λ made. IsInOrder ignored.entry.now only.entry.now (seen frames.entry.now) made.items) }
        { side_in_order(alloc, frames, keys, ignored, only) },
        ||
            requires { AreKeys ignored.now other_frames.now other_keys.now }
            ensures { IfOk result (λ made. IsInOrder ignored.entry.now only.entry.now (seen other_frames.entry.now) made.items) }
        { side_in_order(alloc, other_frames, other_keys, ignored, only) },
    );
    let ones = ones?;
    let others = others?;
    let matching = merge(alloc, ones.as_slice(), others.as_slice())?;
    matched_numbers(alloc, &matching)
}

// Matches numbers of two sides, each with a row of bytes, by these rows.
fn match_rows<'a>(
    alloc: Global,
    numbers: &[u32],
    rows: &'a [Bytes],
    others: &[u32],
    more: &'a [Bytes],
) -> Result<Matched, AllocError>
    requires rows { length rows.now ≡ length numbers.now }
    requires more { length more.now ≡ length others.now }
    ensures { (key : List ℕ → List ℕ) → (first : List (List ℕ)) → (second : List (List ℕ))
        → AreRowsOf key first numbers.now rows.now → AreRowsOf key second others.now more.now
        → IfOk result (IsMatched key first second numbers.now others.now) }
{
    let ones = with_keys(alloc, numbers, rows)?;
    let twos = with_keys(alloc, others, more)?;
    let matching = match_up(alloc, ones.as_slice(), twos.as_slice())?;
    matched_numbers(alloc, &matching)
}

// Matches packets of two sides that are alike.
fn match_alike(
    alloc: Global,
    likeness: Likeness,
    first: &Side<'_, '_, '_>,
    numbers: &[u32],
    second: &Side<'_, '_, '_>,
    others: &[u32],
    ignored: &[Field],
) -> Result<Matched, AllocError>
    requires first { IsSide ignored.now first.now }
    requires second { IsSide ignored.now second.now }
    requires numbers { All (λ number. number < length first.now.frames.now) numbers.now }
    requires others { All (λ number. number < length second.now.frames.now) others.now }
    ensures { IfOk result (IsMatched (likeness_of likeness ignored.now) (seen first.now.frames.now) (seen second.now.frames.now) numbers.now others.now) }
{
    let _ = ignored;
    let rows = alike_all(alloc, likeness, first, numbers)?;
    let more = alike_all(alloc, likeness, second, others)?;
    match_rows(alloc, numbers, rows.as_slice(), others, more.as_slice())
}

// The numbers of the packets of a side that are meant.
fn meant(
    alloc: Global,
    side: &Side<'_, '_, '_>,
    ignored: &[Field],
    only: &[Range],
) -> Result<Vec<u32>, AllocError>
    requires { IsSide ignored.now side.now }
    ensures { IfOk result (λ numbers. numbers.items ≡ meant_numbers only.now 0 (seen side.now.frames.now)) }
{
    let entries = meant_entries(alloc, side, ignored, only)?;
    numbers_of(alloc, entries.as_slice())
}

// The three matchings together.
fn diff_of(same: Matched, changed: Matched, there: Matched) -> Diff
    ensures { result ≡ record { same = same.pairs; changed = changed.pairs; missing = changed.first; there = there.pairs; extra = there.second } }
{
    let Matched { pairs: same, .. } = same;
    let Matched {
        pairs: changed,
        first: missing,
        ..
    } = changed;
    let Matched {
        pairs: there,
        second: extra,
        ..
    } = there;
    Diff {
        same,
        changed,
        missing,
        there,
        extra,
    }
}

/// How the packets that came differ from those that had to come, and which of those that had to be dropped came.
///
/// Equal packets are matched first, then of what is left those that changed, and then those that had to be dropped. Noise is left out, and where there are
/// ranges, each packet that has no address in one of them.
///
/// # Errors
///
/// [`AllocError`] where memory runs out.
pub fn compare<'k, R: Threads>(
    rt: &R,
    alloc: Global,
    wanted: &Side<'_, '_, 'k>,
    got: &Side<'_, '_, 'k>,
    dropped: &Side<'_, '_, '_>,
    ignored: &[Field],
    only: &[Range],
) -> Result<Diff, AllocError>
    requires wanted { IsSide ignored.now wanted.now }
    requires got { IsSide ignored.now got.now }
    requires dropped { IsSide ignored.now dropped.now }
    ensures { IfOk result (IsDiff ignored.now
        (record { only = only.now; wanted = seen wanted.now.frames.now; got = seen got.now.frames.now; dropped = seen dropped.now.frames.now })) }
{
    let same = match_equal(rt, alloc, wanted, got, ignored, only)?;
    let changed = match_alike(
        alloc,
        Likeness::Datagram,
        wanted,
        same.first.as_slice(),
        got,
        same.second.as_slice(),
        ignored,
    )?;
    let drops = meant(alloc, dropped, ignored, only)?;
    let there = match_alike(
        alloc,
        Likeness::Payload,
        dropped,
        drops.as_slice(),
        got,
        changed.second.as_slice(),
        ignored,
    )?;
    Ok(diff_of(same, changed, there))
}

impl Diff {
    /// Whether all packets match: none changed, none is missing, and none came that had to be dropped or that nobody wanted.
    pub fn all_match(&self) -> bool
        ensures { IsTrue result ↔ AllMatch self.now }
    {
        self.changed.is_empty()
            && self.missing.is_empty()
            && self.there.is_empty()
            && self.extra.is_empty()
    }
}

/// All packets match exactly where both sides have the same packets, that are meant, as often each, up to what is ignored.
pub fn match_is_exact()
    ensures { MatchIsExact }
{}
