//! The first line of a text that is another than the one that is wanted.
ghost use Rattle.std.specs.Prelude.{◌≡◌, ◌+◌, ◌≤◌, length, count_by, drop, position, IfOk, MatchOption};
ghost use Rattle.vg_differs.specs.Lines.{is_feed, to_feed, IsLineStart, IsOtherLine};

use crate::places::first_difference;
use std::alloc::{AllocError, Global};

/// A line of a text that is another than the one that is wanted there.
#[derive(Drop)]
pub struct OtherLine {
    /// Its number, from 1.
    pub number: usize,
    /// What stands in it.
    pub stands: Vec<u8>,
    /// What is wanted.
    pub wanted: Vec<u8>,
}

// The number of the line that stands behind this front of a text.
fn line_number(front: &[u8]) -> usize
    ensures { result ≡ count_by is_feed front.now + 1 }
{
    front.iter().filter(|byte| **byte == b'\n').count() + 1
}

// Where the line begins that a place is in.
fn line_start(text: &[u8], place: usize) -> usize
    requires { place ≤ length text.now }
    ensures { IsLineStart text.now place result }
{
    let mut start = 0;
    for k in 0..place {
        if text[k] == b'\n' {
            start = k + 1;
        }
    }
    start
}

// The place of the first line feed.
fn next_feed(bytes: &[u8]) -> Option<usize>
    ensures { result ≡ position is_feed bytes.now }
{
    bytes.iter().position(|byte| *byte == b'\n')
}

// The bytes in front of the first line feed.
fn to_next_feed(bytes: &[u8]) -> &[u8]
    ensures { result.now ≡ to_feed bytes.now }
{
    match next_feed(bytes) {
        Some(end) => &bytes[..end],
        None => bytes,
    }
}

// The line from this place on; nothing where the text ends in front of it.
fn line_from(alloc: Global, text: &[u8], start: usize) -> Result<Vec<u8>, AllocError>
    ensures { IfOk result (λ line. line.items ≡ to_feed (drop start text.now)) }
{
    let rest = if start <= text.len() {
        &text[start..]
    } else {
        &[]
    };
    Vec::from_slice(alloc, to_next_feed(rest))
}

/// The first line of a text that is another than the one of the wanted text. None where they are the same.
///
/// # Errors
///
/// [`AllocError`] where memory runs out.
pub fn other_line(
    alloc: Global,
    text: &[u8],
    wanted: &[u8],
) -> Result<Option<OtherLine>, AllocError>
    ensures { IfOk result (λ line. MatchOption line (text.now ≡ wanted.now) (IsOtherLine text.now wanted.now)) }
{
    let Some(place) = first_difference(text, wanted) else {
        return Ok(None);
    };
    // Up to the place the texts are the same, so the wanted line begins where the other does.
    let place = place.min(text.len());
    let start = line_start(text, place);
    Ok(Some(OtherLine {
        number: line_number(&text[..place]),
        stands: line_from(alloc, text, start)?,
        wanted: line_from(alloc, wanted, start)?,
    }))
}
