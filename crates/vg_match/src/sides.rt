//! The packets of one side.
ghost use Rattle.std.specs.Prelude.{◌≡◌, ◌<◌, ◌++◌, [], length, map, All, IfOk, OnOk};
ghost use Rattle.vg_match.specs.Keys.{compared as compared_bytes};
ghost use Rattle.vg_match.specs.Matching.{entry_of, IsHashed};
ghost use Rattle.vg_match.specs.Sides.{is_meant as is_meant_frame, IsSide, seen, number_of, key_of, meant_number, meant_numbers, frame_at, IsOf, alike_at, AreKeys, IsInOrder};

use crate::fields::Field;
use crate::frames::front;
use crate::keys::{Likeness, compared, likeness_of};
use crate::matching::{Entry, Hashed, put_entries, put_in_order, with_hash};
use crate::noise::is_noise;
use crate::ranges::{Range, is_in_reach};
use std::alloc::{AllocError, Global};
use vg_model::Bytes;

/// The packets of one side: their frames, and what each is compared by.
#[derive(Clone, Copy)]
pub struct Side<'s, 'f, 'k> {
    /// The frames in their order.
    pub frames: &'s [&'f [u8]],
    /// What each is compared by.
    pub keys: &'s [&'k [u8]],
}

/// What each of these frames is compared by, in memory of its own.
///
/// # Errors
///
/// [`AllocError`] where memory runs out.
pub fn compared_all(
    alloc: Global,
    frames: &[&[u8]],
    ignored: &[Field],
) -> Result<Vec<Bytes>, AllocError>
    ensures { IfOk result (λ rows. rows.items ≡ map (compared_bytes ignored.now) (seen frames.now)) }
{
    let mut rows = Vec::new(alloc);
    for frame in frames {
        rows.push(compared(alloc, frame, ignored)?)?;
    }
    Ok(rows)
}

// What a frame is compared by where nothing is ignored: a front of it.
#[tactic(auto, using(crate::proofs::SideLemmas::compared_none))]
fn whole_key(frame: &[u8]) -> &[u8]
    ensures { result.now ≡ compared_bytes [] frame.now }
{
    front(frame)
}

/// What each of these frames is compared by where nothing is ignored: a front of it.
///
/// # Errors
///
/// [`AllocError`] where memory runs out.
pub fn fronts<'a>(alloc: Global, frames: &[&'a [u8]]) -> Result<Vec<&'a [u8]>, AllocError>
    ensures { IfOk result (λ keys. seen keys.items ≡ map (compared_bytes []) (seen frames.now)) }
{
    let mut keys = Vec::with_capacity(alloc, frames.len())?;
    for frame in frames {
        keys.push(whole_key(frame))?;
    }
    Ok(keys)
}

/// Rows of bytes as slices.
///
/// # Errors
///
/// [`AllocError`] where memory runs out.
pub fn views(alloc: Global, rows: &[Bytes]) -> Result<Vec<&[u8]>, AllocError>
    ensures { IfOk result (λ keys. seen keys.items ≡ rows.now) }
{
    let mut keys = Vec::new(alloc);
    for row in rows {
        keys.push(row.as_slice())?;
    }
    Ok(keys)
}

/// Whether a frame is meant: it is no noise, and in the reach of the ranges.
pub fn is_meant(only: &[Range], frame: &[u8]) -> bool
    ensures { result ≡ is_meant_frame only.now frame.now }
{
    !is_noise(frame) && is_in_reach(only, frame)
}

// Adds the entry of a number, with the hash of its key, where its frame is meant.
fn put_meant<'k>(
    made: &mut Vec<Hashed<'k>>,
    side: &Side<'_, '_, 'k>,
    ignored: &[Field],
    only: &[Range],
    number: usize,
) -> Result<(), AllocError>
    requires side { IsSide ignored.now side.now }
    requires number { number < length side.now.frames.now }
    requires keys { All (IsOf (compared_bytes ignored.now) (seen side.now.frames.now)) (map entry_of made.old.items) }
    requires hashes { All IsHashed made.old.items }
    ensures numbers { OnOk result (map number_of (map entry_of made.new.items)
        ≡ map number_of (map entry_of made.old.items) ++ meant_number only.now number (frame_at (seen side.now.frames.now) number)) }
    ensures keys { OnOk result (All (IsOf (compared_bytes ignored.now) (seen side.now.frames.now)) (map entry_of made.new.items)) }
    ensures hashes { OnOk result (All IsHashed made.new.items) }
{
    if !is_meant(only, side.frames[number]) {
        return Ok(());
    }
    made.push(with_hash(Entry {
        key: side.keys[number],
        number: number as u32,
    }))?;
    Ok(())
}

// The entries of the frames of a side that are meant, with the hashes of their keys, in one pass over the frames.
fn meant_hashed<'k>(
    alloc: Global,
    side: &Side<'_, '_, 'k>,
    ignored: &[Field],
    only: &[Range],
) -> Result<Vec<Hashed<'k>>, AllocError>
    requires { IsSide ignored.now side.now }
    ensures numbers { IfOk result (λ made. map number_of (map entry_of made.items) ≡ meant_numbers only.now 0 (seen side.now.frames.now)) }
    ensures keys { IfOk result (λ made. All (IsOf (compared_bytes ignored.now) (seen side.now.frames.now)) (map entry_of made.items)) }
    ensures hashes { IfOk result (λ made. All IsHashed made.items) }
{
    let mut made = Vec::with_capacity(alloc, side.frames.len())?;
    for number in 0..side.frames.len() {
        put_meant(&mut made, side, ignored, only, number)?;
    }
    Ok(made)
}

/// The entries of the frames of a side that are meant.
///
/// # Errors
///
/// [`AllocError`] where memory runs out.
pub fn meant_entries<'k>(
    alloc: Global,
    side: &Side<'_, '_, 'k>,
    ignored: &[Field],
    only: &[Range],
) -> Result<Vec<Entry<'k>>, AllocError>
    requires { IsSide ignored.now side.now }
    ensures numbers { IfOk result (λ entries. map number_of entries.items ≡ meant_numbers only.now 0 (seen side.now.frames.now)) }
    ensures keys { IfOk result (λ entries. All (IsOf (compared_bytes ignored.now) (seen side.now.frames.now)) entries.items) }
{
    let made = meant_hashed(alloc, side, ignored, only)?;
    let mut entries = Vec::with_capacity(alloc, made.len())?;
    put_entries(&mut entries, made.as_slice())?;
    Ok(entries)
}

/// The entries of the frames that are meant, in the order of what these are compared by.
///
/// # Errors
///
/// [`AllocError`] where memory runs out.
pub(crate) fn side_in_order<'k>(
    alloc: Global,
    frames: &[&[u8]],
    keys: &[&'k [u8]],
    ignored: &[Field],
    only: &[Range],
) -> Result<Vec<Hashed<'k>>, AllocError>
    requires { AreKeys ignored.now frames.now keys.now }
    ensures { IfOk result (λ made. IsInOrder ignored.now only.now (seen frames.now) made.items) }
{
    let mut made = meant_hashed(alloc, &Side { frames, keys }, ignored, only)?;
    put_in_order(&mut made);
    Ok(made)
}

// What the frame of a number is alike by.
#[tactic(auto, using(crate::proofs::SideLemmas::seen_at))]
fn alike(
    alloc: Global,
    likeness: Likeness,
    side: &Side<'_, '_, '_>,
    number: usize,
) -> Result<Bytes, AllocError>
    requires side { length side.now.keys.now ≡ length side.now.frames.now }
    requires number { number < length side.now.frames.now }
    ensures { IfOk result (λ row. row ≡ alike_at likeness (seen side.now.frames.now) (seen side.now.keys.now) number) }
{
    likeness_of(alloc, likeness, side.frames[number], side.keys[number])
}

/// What the frames of these numbers are alike by.
///
/// # Errors
///
/// [`AllocError`] where memory runs out.
pub fn alike_all(
    alloc: Global,
    likeness: Likeness,
    side: &Side<'_, '_, '_>,
    numbers: &[u32],
) -> Result<Vec<Bytes>, AllocError>
    requires side { length side.now.keys.now ≡ length side.now.frames.now }
    requires numbers { All (λ number. number < length side.now.frames.now) numbers.now }
    ensures { IfOk result (λ rows. rows.items ≡ map (alike_at likeness (seen side.now.frames.now) (seen side.now.keys.now)) numbers.now) }
{
    let mut rows = Vec::new(alloc);
    for number in numbers {
        rows.push(alike(alloc, likeness, side, *number as usize)?)?;
    }
    Ok(rows)
}

/// The entries of these numbers with these keys.
///
/// # Errors
///
/// [`AllocError`] where memory runs out.
pub fn with_keys<'a>(
    alloc: Global,
    numbers: &[u32],
    rows: &'a [Bytes],
) -> Result<Vec<Entry<'a>>, AllocError>
    requires { length rows.now ≡ length numbers.now }
    ensures numbers { IfOk result (λ made. map number_of made.items ≡ numbers.now) }
    ensures keys { IfOk result (λ made. map key_of made.items ≡ rows.now) }
{
    let mut made = Vec::new(alloc);
    for at in 0..numbers.len() {
        made.push(Entry {
            key: rows[at].as_slice(),
            number: numbers[at],
        })?;
    }
    Ok(made)
}
