//! The packets of one side which differ, in their order, and a line for each.
ghost use Rattle.std.specs.Prelude.{◌≡◌, ◌++◌, map, flat_map, OnOk, IfOk};
ghost use Rattle.vg_diff.specs.Lines.{Row, AreInOrder, row_of_pair, row_alone, turned as turned_pair, wanted_line, got_line};

use crate::lines::{Findings, put_got, put_wanted};
use std::alloc::{AllocError, Global};

// Packets with their partners, by their numbers.
fn rows_of_pairs(alloc: Global, pairs: &[(u32, u32)]) -> Result<Vec<(u32, Option<u32>)>, AllocError>
    ensures { IfOk result (λ rows. rows.items ≡ map row_of_pair pairs.now) }
{
    pairs
        .iter()
        .map(|(number, partner)| (*number, Some(*partner)))
        .collect(alloc)
}

// Packets without a partner, by their numbers.
fn rows_alone(alloc: Global, numbers: &[u32]) -> Result<Vec<(u32, Option<u32>)>, AllocError>
    ensures { IfOk result (λ rows. rows.items ≡ map row_alone numbers.now) }
{
    numbers.iter().map(|number| (*number, None)).collect(alloc)
}

// Packets of one side, those of pairs with their partners and those alone, in their order.
fn in_order(
    alloc: Global,
    pairs: &[(u32, u32)],
    alone: &[u32],
) -> Result<Vec<(u32, Option<u32>)>, AllocError>
    ensures { IfOk result (λ rows. AreInOrder pairs.now alone.now rows.items) }
{
    let mut rows = rows_of_pairs(alloc, pairs)?;
    let more = rows_alone(alloc, alone)?;
    rows.extend_from_slice(more.as_slice())?;
    rows.sort_by_key(|row| row.0)?;
    Ok(rows)
}

/// The packets that had to come and changed or are missing, in their order.
///
/// # Errors
///
/// [`AllocError`] where memory runs out.
pub fn wanted_rows(
    alloc: Global,
    found: &Findings<'_>,
) -> Result<Vec<(u32, Option<u32>)>, AllocError>
    ensures { IfOk result (λ rows. AreInOrder found.now.diff.now.changed.items found.now.diff.now.missing.items rows.items) }
{
    let diff = found.diff;
    in_order(alloc, diff.changed.as_slice(), diff.missing.as_slice())
}

// Pairs the other way round.
fn turned(alloc: Global, pairs: &[(u32, u32)]) -> Result<Vec<(u32, u32)>, AllocError>
    ensures { IfOk result (λ others. others.items ≡ map turned_pair pairs.now) }
{
    pairs
        .iter()
        .map(|(first, second)| (*second, *first))
        .collect(alloc)
}

/// The packets that came though they had to be dropped, or that nobody wanted, in their order.
///
/// # Errors
///
/// [`AllocError`] where memory runs out.
pub fn got_rows(alloc: Global, found: &Findings<'_>) -> Result<Vec<(u32, Option<u32>)>, AllocError>
    ensures { IfOk result (λ rows. AreInOrder (map turned_pair found.now.diff.now.there.items) found.now.diff.now.extra.items rows.items) }
{
    let there = turned(alloc, found.diff.there.as_slice())?;
    in_order(alloc, there.as_slice(), found.diff.extra.as_slice())
}

/// Appends a line for each of these packets that had to come.
///
/// # Errors
///
/// [`AllocError`] where memory runs out.
pub fn put_wanted_rows(
    out: &mut Vec<u8>,
    alloc: Global,
    found: &Findings<'_>,
    rows: &[(u32, Option<u32>)],
) -> Result<(), AllocError>
    ensures { OnOk result (out.new.items ≡ out.old.items ++ flat_map (λ (row : Row). wanted_line found.now row.0 row.1) rows.now) }
{
    for row in rows {
        put_wanted(out, alloc, found, row.0, row.1)?;
    }
    Ok(())
}

/// Appends a line for each of these packets that came.
///
/// # Errors
///
/// [`AllocError`] where memory runs out.
pub fn put_got_rows(
    out: &mut Vec<u8>,
    found: &Findings<'_>,
    rows: &[(u32, Option<u32>)],
) -> Result<(), AllocError>
    ensures { OnOk result (out.new.items ≡ out.old.items ++ flat_map (λ (row : Row). got_line found.now row.0 row.1) rows.now) }
{
    for row in rows {
        put_got(out, found, row.0, row.1)?;
    }
    Ok(())
}
