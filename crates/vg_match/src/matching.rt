//! Entries of two sides, matched one to one by their keys.
ghost use Rattle.std.specs.Prelude.{◌≡◌, ◌++◌, map, All, IfOk, OnOk};
ghost use Rattle.std.specs.Cmp.Lexicographic.{slice_cmp};
ghost use Rattle.std.specs.List.Sorted.{IsPermutation};
ghost use Rattle.std.specs.Ordering.{nat_cmp};
ghost use Rattle.vg_match.specs.Matching.{IsMatchingOf, entry_of, IsHashed, AreHashed, AreInOrder, hashed_cmp};

use crate::hashes::hash_of;
use std::alloc::{AllocError, Global};
use std::cmp::Ordering;

/// One of a side: what it is compared by, and its number there.
#[derive(Clone, Copy, PartialEq, Eq, PartialOrd, Ord)]
pub struct Entry<'a> {
    /// The bytes that it is compared by.
    pub key: &'a [u8],
    /// Its number among those of its side.
    pub number: u32,
}

/// What came of a matching.
#[derive(Drop)]
pub struct Matching<'a> {
    /// The pairs: of both sides one each, with equal keys.
    pub pairs: Vec<(Entry<'a>, Entry<'a>)>,
    /// What is left of the wanted side.
    pub wanted: Vec<Entry<'a>>,
    /// What is left of the side that came.
    pub got: Vec<Entry<'a>>,
}

// An entry and the hash of its key. They are put in order by the hash, which stands here, and by the key, which stands elsewhere in memory,
// only where the hashes are the same.
#[derive(Clone, Copy, PartialEq, Eq, PartialOrd, Ord)]
pub(crate) struct Hashed<'a> {
    hash: u64,
    entry: Entry<'a>,
}

// How two keys of one hash stand to each other. They are mostly the same, and that is seen sooner than an order.
fn order_of_keys(one: &[u8], other: &[u8]) -> Ordering
    ensures { result ≡ slice_cmp nat_cmp one.now other.now }
{
    if one == other {
        Ordering::Equal
    } else {
        one.cmp(other)
    }
}

impl<'a> Hashed<'a> {
    // How the keys stand to each other.
    fn key_order(&self, other: &Hashed<'_>) -> Ordering
        ensures { result ≡ hashed_cmp self.now other.now }
    {
        match self.hash.cmp(&other.hash) {
            Ordering::Equal => order_of_keys(self.entry.key, other.entry.key),
            order => order,
        }
    }
}

// An entry with the hash of its key.
pub(crate) fn with_hash<'a>(one: Entry<'a>) -> Hashed<'a>
    ensures same { entry_of result ≡ one.entry }
    ensures hash { IsHashed result }
{
    Hashed {
        hash: hash_of(one.key),
        entry: one,
    }
}

// Entries with the hashes of their keys.
fn with_hashes<'a>(alloc: Global, entries: &[Entry<'a>]) -> Result<Vec<Hashed<'a>>, AllocError>
    ensures entries { IfOk result (λ made. map entry_of made.items ≡ entries.now) }
    ensures hashes { IfOk result (λ made. All IsHashed made.items) }
{
    let mut made = Vec::with_capacity(alloc, entries.len())?;
    for entry in entries {
        made.push(with_hash(*entry))?;
    }
    Ok(made)
}

/// Adds entries behind the others.
///
/// # Errors
///
/// [`AllocError`] where memory runs out.
pub(crate) fn put_entries<'a>(
    out: &mut Vec<Entry<'a>>,
    hashed: &[Hashed<'a>],
) -> Result<(), AllocError>
    ensures { OnOk result (out.new.items ≡ out.old.items ++ map entry_of hashed.now) }
{
    for one in hashed {
        out.push(one.entry)?;
    }
    Ok(())
}

/// Matches two sides whose keys never fall, in one pass over both.
///
/// # Errors
///
/// [`AllocError`] where memory runs out.
pub(crate) fn merge<'a>(
    alloc: Global,
    wanted: &[Hashed<'a>],
    got: &[Hashed<'a>],
) -> Result<Matching<'a>, AllocError>
    requires wanted { AreHashed wanted.now }
    requires got { AreHashed got.now }
    ensures { IfOk result (IsMatchingOf (map entry_of wanted.now) (map entry_of got.now)) }
{
    let mut pairs = Vec::new(alloc);
    let mut missing = Vec::new(alloc);
    let mut extra = Vec::new(alloc);
    let mut next = 0;
    let mut coming = 0;
    while next < wanted.len() && coming < got.len() {
        let w = wanted[next];
        let g = got[coming];
        match w.key_order(&g) {
            Ordering::Less => {
                missing.push(w.entry)?;
                next += 1;
            }
            Ordering::Greater => {
                extra.push(g.entry)?;
                coming += 1;
            }
            Ordering::Equal => {
                pairs.push((w.entry, g.entry))?;
                next += 1;
                coming += 1;
            }
        }
    }
    put_entries(&mut missing, &wanted[next..])?;
    put_entries(&mut extra, &got[coming..])?;
    Ok(Matching {
        pairs,
        wanted: missing,
        got: extra,
    })
}

/// Puts entries in the order of their keys.
pub(crate) fn put_in_order(hashed: &mut Vec<Hashed<'_>>)
    requires { All IsHashed hashed.old.items }
    ensures order { AreHashed hashed.new.items }
    ensures moved { IsPermutation hashed.old.items hashed.new.items }
{
    // No two are the same: they differ in their numbers.
    hashed.sort_unstable();
}

// Entries with the hashes of their keys, in the order of their keys.
fn in_order<'a>(alloc: Global, entries: &[Entry<'a>]) -> Result<Vec<Hashed<'a>>, AllocError>
    ensures { IfOk result (λ made. AreInOrder entries.now made.items) }
{
    let mut hashed = with_hashes(alloc, entries)?;
    put_in_order(&mut hashed);
    Ok(hashed)
}

/// Matches the entries of two sides by their keys: each with at most one of the other side, and as many as can be. Of several with one key
/// those with the least numbers are matched, in their order.
///
/// # Errors
///
/// [`AllocError`] where memory runs out.
pub fn match_up<'a>(
    alloc: Global,
    wanted: &[Entry<'a>],
    got: &[Entry<'a>],
) -> Result<Matching<'a>, AllocError>
    ensures { IfOk result (IsMatchingOf wanted.now got.now) }
{
    let first = in_order(alloc, wanted)?;
    let second = in_order(alloc, got)?;
    merge(alloc, first.as_slice(), second.as_slice())
}
