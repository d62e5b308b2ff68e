//! The text that says what was found.
ghost use Rattle.std.specs.Prelude.{◌≡◌, ◌++◌, OnOk, IfOk};
ghost use Rattle.vg_diff.specs.Answers.{IsBody, IsText, wanted_counts, got_counts, counts_text, last_lines as last_lines_of};
ghost use Rattle.vg_diff.specs.Lines.{AreLines};

use crate::classes::classes;
use crate::lines::Findings;
use crate::rows::{got_rows, put_got_rows, put_wanted_rows, wanted_rows};
use crate::texts::{put, put_count, put_decimal};
use std::alloc::{AllocError, Global};
use vg_match::Diff;

/// How what differs is printed.
#[derive(Clone, Copy, Debug, PartialEq, Eq)]
pub enum Manner {
    /// A line for each packet.
    Lines,
    /// The counts alone.
    Brief,
    /// A table of classes, each with one example.
    Classes,
}

// A line for each packet that differs: those that had to come, and then those that came.
fn lines(alloc: Global, found: &Findings<'_>) -> Result<Vec<u8>, AllocError>
    ensures { IfOk result (λ text. AreLines found.now text.items) }
{
    let mut out = Vec::new(alloc);
    let wanted = wanted_rows(alloc, found)?;
    put_wanted_rows(&mut out, alloc, found, wanted.as_slice())?;
    let got = got_rows(alloc, found)?;
    put_got_rows(&mut out, found, got.as_slice())?;
    Ok(out)
}

// Appends the counts of what had to come and differs.
fn put_wanted_counts(out: &mut Vec<u8>, diff: &Diff) -> Result<(), AllocError>
    ensures { OnOk result (out.new.items ≡ out.old.items ++ wanted_counts diff.now) }
{
    put_count(out, "missing", diff.missing.len() as u64)?;
    put_count(out, "changed", diff.changed.len() as u64)
}

// Appends the counts of what came and wasn't wanted.
fn put_got_counts(out: &mut Vec<u8>, diff: &Diff) -> Result<(), AllocError>
    ensures { OnOk result (out.new.items ≡ out.old.items ++ got_counts diff.now) }
{
    put_count(out, "extra", diff.extra.len() as u64)?;
    put_count(out, "dropped-but-there", diff.there.len() as u64)
}

// The counts alone of what differs.
fn counts(alloc: Global, diff: &Diff) -> Result<Vec<u8>, AllocError>
    ensures { IfOk result (λ text. text.items ≡ counts_text diff.now) }
{
    let mut out = Vec::new(alloc);
    put_wanted_counts(&mut out, diff)?;
    put_got_counts(&mut out, diff)?;
    Ok(out)
}

// What stands between the first line and the last three.
fn body(alloc: Global, found: &Findings<'_>, manner: Manner) -> Result<Vec<u8>, AllocError>
    ensures { IfOk result (λ text. IsBody manner found.now text.items) }
{
    match manner {
        Manner::Lines => lines(alloc, found),
        Manner::Brief => counts(alloc, found.diff),
        Manner::Classes => classes(alloc, found),
    }
}

// Appends the last three lines: how many pairs came in another order, and how many packets of each side were left out.
fn put_last(out: &mut Vec<u8>, reordered: u64, noise: (u64, u64)) -> Result<(), AllocError>
    ensures { OnOk result (out.new.items ≡ out.old.items ++ last_lines_of reordered noise) }
{
    put_count(out, "reordered", reordered)?;
    put(out, b"noise ")?;
    put_decimal(out, noise.0)?;
    put(out, b" ")?;
    put_decimal(out, noise.1)?;
    put(out, b"\nend\n")
}

/// The text that says how the packets differ.
///
/// # Errors
///
/// [`AllocError`] where memory runs out.
pub fn text_of(alloc: Global, found: &Findings<'_>, manner: Manner) -> Result<Vec<u8>, AllocError>
    ensures { IfOk result (λ text. IsText manner found.now text.items) }
{
    let mut out = Vec::new(alloc);
    put_count(&mut out, "same", found.diff.same.len() as u64)?;
    let body = body(alloc, found, manner)?;
    put(&mut out, body.as_slice())?;
    put_last(&mut out, found.reordered, found.noise)?;
    Ok(out)
}
