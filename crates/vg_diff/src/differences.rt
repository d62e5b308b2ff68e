//! The packets of both sides, and how they differ.
ghost use Rattle.std.specs.Prelude.{◌≡◌, ◌≤◌, ◌^◌, ◌++◌, [], length, map, IfOk, OnOk};
ghost use Rattle.vg_match.specs.Keys.{compared as compared_bytes};
ghost use Rattle.vg_match.specs.Sides.{seen, frame_at as frame_in};
ghost use Rattle.vg_match.specs.Diffs.{IsDiff};
ghost use Rattle.vg_diff.specs.Numbers.{frames_of_numbers};
ghost use Rattle.vg_diff.specs.Run.{packet_bytes, all_bytes};

use crate::numbers::MOST_FRAMES;
use std::alloc::{AllocError, Global};
use std::thread::{Threads, join};
use vg_capture::Capture;
use vg_match::{Diff, Field, Range, Side, compare, compared_all, fronts, views};
use vg_model::Bytes;

// Adds the frames of a capture behind the others.
fn put_frames<'a>(out: &mut Vec<&'a [u8]>, capture: &'a Capture) -> Result<(), AllocError>
    ensures { OnOk result (seen out.new.items ≡ seen out.old.items ++ packet_bytes capture.now.packets) }
{
    for number in 0..capture.packets.len() {
        out.push(capture.packets.bytes(number))?;
    }
    Ok(())
}

/// The frames of captures, one behind the other.
///
/// # Errors
///
/// [`AllocError`] where memory runs out.
pub fn frames_of<'a>(alloc: Global, captures: &'a [Capture]) -> Result<Vec<&'a [u8]>, AllocError>
    ensures { IfOk result (λ frames. seen frames.items ≡ all_bytes captures.now) }
{
    let mut frames = Vec::new(alloc);
    for capture in captures {
        put_frames(&mut frames, capture)?;
    }
    Ok(frames)
}

/// The frames of one capture.
///
/// # Errors
///
/// [`AllocError`] where memory runs out.
pub fn frames_in(alloc: Global, capture: &Capture) -> Result<Vec<&[u8]>, AllocError>
    ensures { IfOk result (λ frames. seen frames.items ≡ packet_bytes capture.now.packets) }
{
    let mut frames = Vec::with_capacity(alloc, capture.packets.len())?;
    put_frames(&mut frames, capture)?;
    Ok(frames)
}

// The frame of this number of a capture, or none where it has no such packet.
#[tactic(auto, using(crate::proofs::FrameLemmas::frame_there, crate::proofs::FrameLemmas::frame_past))]
fn frame_of(capture: &Capture, number: u32) -> &[u8]
    ensures { result.now ≡ frame_in (packet_bytes capture.now.packets) number }
{
    let number = number as usize;
    if number < capture.packets.len() {
        capture.packets.bytes(number)
    } else {
        &[]
    }
}

/// The frames of these numbers of a capture.
///
/// # Errors
///
/// [`AllocError`] where memory runs out.
pub fn frames_at<'a>(
    alloc: Global,
    capture: &'a Capture,
    numbers: &[u32],
) -> Result<Vec<&'a [u8]>, AllocError>
    ensures { IfOk result (λ frames. seen frames.items ≡ frames_of_numbers (packet_bytes capture.now.packets) numbers.now) }
{
    let mut frames = Vec::with_capacity(alloc, numbers.len())?;
    for number in numbers {
        frames.push(frame_of(capture, *number))?;
    }
    Ok(frames)
}

// How the packets of both sides differ, with what each is compared by.
fn compared_by<'k, R: Threads>(
    rt: &R,
    alloc: Global,
    wanted: &Side<'_, '_, 'k>,
    got: &Side<'_, '_, 'k>,
    dropped: &Side<'_, '_, '_>,
    ignored: &[Field],
    only: &[Range],
) -> Result<Diff, AllocError>
    requires wanted { seen wanted.now.keys.now ≡ map (compared_bytes ignored.now) (seen wanted.now.frames.now) }
    requires got { seen got.now.keys.now ≡ map (compared_bytes ignored.now) (seen got.now.frames.now) }
    requires dropped { seen dropped.now.keys.now ≡ map (compared_bytes ignored.now) (seen dropped.now.frames.now) }
    ensures { IfOk result (IsDiff ignored.now
        (record { only = only.now; wanted = seen wanted.now.frames.now; got = seen got.now.frames.now; dropped = seen dropped.now.frames.now })) }
{
    if wanted.frames.len() > MOST_FRAMES
        || got.frames.len() > MOST_FRAMES
        || dropped.frames.len() > MOST_FRAMES
    {
        return Err(AllocError);
    }
    compare(rt, alloc, wanted, got, dropped, ignored, only)
}

// What the frames of both sides are compared by where nothing is ignored. A thread of its own looks at those of the first side.
fn fronts_of_both<'f, R: Threads>(
    rt: &R,
    alloc: Global,
    wanted: &[&'f [u8]],
    got: &[&'f [u8]],
) -> Result<(Vec<&'f [u8]>, Vec<&'f [u8]>), AllocError>
    ensures wanted { IfOk result (λ both. seen both.0.items ≡ map (compared_bytes []) (seen wanted.now)) }
    ensures got { IfOk result (λ both. seen both.1.items ≡ map (compared_bytes []) (seen got.now)) }
{
    let (first, second) = join(
        rt,
        ||
            ensures { IfOk result (λ keys. seen keys.items ≡ map (compared_bytes []) (seen wanted.entry.now)) }
        { fronts(alloc, wanted) },
        ||
            ensures { IfOk result (λ keys. seen keys.items ≡ map (compared_bytes []) (seen got.entry.now)) }
        { fronts(alloc, got) },
    );
    Ok((first?, second?))
}

// How the packets of both sides differ where no field is ignored. Nothing is copied.
fn whole_differences<'f, R: Threads>(
    rt: &R,
    alloc: Global,
    wanted: &[&'f [u8]],
    got: &[&'f [u8]],
    dropped: &[&'f [u8]],
    only: &[Range],
) -> Result<Diff, AllocError>
    ensures { IfOk result (IsDiff [] (record { only = only.now; wanted = seen wanted.now; got = seen got.now; dropped = seen dropped.now })) }
{
    let (wanted_keys, got_keys) = fronts_of_both(rt, alloc, wanted, got)?;
    let dropped_keys = fronts(alloc, dropped)?;
    compared_by(
        rt,
        alloc,
        &side(wanted, wanted_keys.as_slice()),
        &side(got, got_keys.as_slice()),
        &side(dropped, dropped_keys.as_slice()),
        &[],
        only,
    )
}

// Frames, with what each is compared by.
fn side<'s, 'f, 'k>(frames: &'s [&'f [u8]], keys: &'s [&'k [u8]]) -> Side<'s, 'f, 'k>
    ensures frames { result.frames.now ≡ frames.entry.now }
    ensures keys { result.keys.now ≡ keys.entry.now }
{
    Side { frames, keys }
}

// How the packets of both sides differ, with rows of what they are compared by.
fn row_differences<'r, R: Threads>(
    rt: &R,
    alloc: Global,
    wanted: (&[&[u8]], &'r [Bytes]),
    got: (&[&[u8]], &'r [Bytes]),
    dropped: (&[&[u8]], &'r [Bytes]),
    ignored: &[Field],
    only: &[Range],
) -> Result<Diff, AllocError>
    requires wanted { wanted.1.now ≡ map (compared_bytes ignored.now) (seen wanted.0.now) }
    requires got { got.1.now ≡ map (compared_bytes ignored.now) (seen got.0.now) }
    requires dropped { dropped.1.now ≡ map (compared_bytes ignored.now) (seen dropped.0.now) }
    ensures { IfOk result (IsDiff ignored.now (record { only = only.now; wanted = seen wanted.entry.0.now; got = seen got.entry.0.now; dropped = seen dropped.entry.0.now })) }
{
    let wanted_keys = views(alloc, wanted.1)?;
    let got_keys = views(alloc, got.1)?;
    let dropped_keys = views(alloc, dropped.1)?;
    compared_by(
        rt,
        alloc,
        &side(wanted.0, wanted_keys.as_slice()),
        &side(got.0, got_keys.as_slice()),
        &side(dropped.0, dropped_keys.as_slice()),
        ignored,
        only,
    )
}

/// How the packets of both sides differ but for these fields, and which of those that had to be dropped came. Where there are ranges, the
/// packets with an address in one of them are compared alone.
///
/// # Errors
///
/// [`AllocError`] where memory runs out, or where a side has more than 2^32 packets.
pub fn differences<'f, R: Threads>(
    rt: &R,
    alloc: Global,
    wanted: &[&'f [u8]],
    got: &[&'f [u8]],
    dropped: &[&'f [u8]],
    ignored: &[Field],
    only: &[Range],
) -> Result<Diff, AllocError>
    ensures { IfOk result (IsDiff ignored.now (record { only = only.now; wanted = seen wanted.now; got = seen got.now; dropped = seen dropped.now })) }
{
    if let [] = ignored {
        return whole_differences(rt, alloc, wanted, got, dropped, only);
    }
    let wanted_rows = compared_all(alloc, wanted, ignored)?;
    let got_rows = compared_all(alloc, got, ignored)?;
    let dropped_rows = compared_all(alloc, dropped, ignored)?;
    row_differences(
        rt,
        alloc,
        (wanted, wanted_rows.as_slice()),
        (got, got_rows.as_slice()),
        (dropped, dropped_rows.as_slice()),
        ignored,
        only,
    )
}
