//! The numbers of packets: where the savefiles begin among those that came, and which packets of a run were transmitted or dropped.
ghost use Rattle.std.specs.Prelude.{◌≡◌, ◌++◌, IfOk, OnOk};
ghost use Rattle.vg_report.specs.Seen.{end_seen};
ghost use Rattle.vg_diff.specs.Numbers.{starts_of as starts_of_captures, number_if, counts_among, numbers_of as numbers_in};

use std::alloc::{AllocError, Global};
use vg_capture::Capture;
use vg_report::{EndRef, Report};

/// The most packets of a side.
pub const MOST_FRAMES: usize = 0x1_0000_0000;

/// The number of the first packet of each capture but the first.
///
/// # Errors
///
/// [`AllocError`] where memory runs out, or where there are 2^32 packets or more.
#[tactic(auto, using(crate::proofs::NumberLemmas::start_more, crate::proofs::NumberLemmas::starts_all))]
pub fn starts_of(alloc: Global, captures: &[Capture]) -> Result<Vec<u32>, AllocError>
    ensures { IfOk result (λ starts. starts.items ≡ starts_of_captures captures.now) }
{
    let mut starts = Vec::new(alloc);
    let Some((first, others)) = captures.split_first() else {
        return Ok(starts);
    };
    let mut count = first.packets.len() as u32;
    for capture in others {
        starts.push(count)?;
        let Some(behind) = count.checked_add(capture.packets.len() as u32) else {
            return Err(AllocError);
        };
        count = behind;
    }
    Ok(starts)
}

// Whether a packet that ended so counts: where those that were sent do, or where those that were dropped do.
fn does_count(end: EndRef<'_>, sent: bool) -> bool
    ensures { result ≡ counts_among sent (end_seen end.entry) }
{
    match end {
        EndRef::Tx { .. } => sent,
        EndRef::Dropped { .. } => !sent,
    }
}

/// Adds a number behind the others, where it counts.
///
/// # Errors
///
/// [`AllocError`] where memory runs out.
pub fn put_number(numbers: &mut Vec<u32>, number: u32, counts: bool) -> Result<(), AllocError>
    ensures { OnOk result (numbers.new.items ≡ numbers.old.items ++ number_if counts number) }
{
    if counts {
        numbers.push(number)?;
    }
    Ok(())
}

/// The numbers of a run's packets that were sent, or of those that were dropped.
///
/// # Errors
///
/// [`AllocError`] where memory runs out, or where there are more than 2^32 packets.
pub fn numbers_of(alloc: Global, report: &Report, sent: bool) -> Result<Vec<u32>, AllocError>
    ensures { IfOk result (λ numbers. numbers.items ≡ numbers_in sent report.now) }
{
    let mut numbers = Vec::new(alloc);
    if report.packets.len() > MOST_FRAMES {
        return Err(AllocError);
    }
    for number in 0..report.packets.len() {
        let counts = does_count(report.packets.get(number).end, sent);
        put_number(&mut numbers, number as u32, counts)?;
    }
    Ok(numbers)
}
