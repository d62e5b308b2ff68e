//! What a call came to, and what of it isn't as a row says.
ghost use Rattle.std.specs.Prelude.{◌≡◌, is_none, option_map};
ghost use Rattle.vg_row.specs.Holds.{holds, prints_so, saves_so};

use crate::rows::{Printed, Row};
use std::fmt;

/// What a call came to.
#[derive(Drop)]
pub struct Outcome {
    /// The exit status.
    pub status: u8,
    /// All that was printed.
    pub printed: Vec<u8>,
    /// What the file `t` holds after the call, where there is one.
    pub saved: Option<Vec<u8>>,
}

/// What isn't as a row says.
#[derive(Clone, Copy, Debug, PartialEq, Eq)]
pub enum Difference {
    /// The exit status: this one.
    Status(u8),
    /// What is printed: from this line on, counted from 1.
    Printed(usize),
    /// The end of what is printed.
    End,
    /// What the file `t` holds: from this byte on, counted from 0.
    Saved(usize),
    /// The file `t` isn't there.
    NotSaved,
    /// The file `t` is there.
    IsSaved,
}

impl fmt::Display for Difference {
    fn fmt<W: fmt::Write>(&self, f: &mut fmt::Formatter<W>) -> fmt::Result {
        match self {
            Difference::Status(status) => write!(f, "the status is {status}"),
            Difference::End => f.write_str("what is printed ends otherwise"),
            Difference::Printed(line) => write!(f, "line {line} of what is printed is another"),
            Difference::Saved(place) => write!(f, "byte {place} of the file t is another"),
            Difference::NotSaved => f.write_str("there is no file t"),
            Difference::IsSaved => f.write_str("there is a file t"),
        }
    }
}

/// The first place at which bytes differ.
fn place_of_difference(one: &[u8], other: &[u8]) -> usize {
    let mut place = 0;
    while place < one.len() && place < other.len() && one[place] == other[place] {
        place += 1;
    }
    place
}

/// The number of the first line, from 1, in which texts differ.
fn line_of_difference(one: &[u8], other: &[u8]) -> usize {
    let place = place_of_difference(one, other);
    let mut line: usize = 1;
    for byte in one.iter().take(place) {
        if *byte == b'\n' {
            line = line.saturating_add(1);
        }
    }
    line
}

/// What of a printed text isn't as a row says.
fn printed_difference(printed: &Printed, found: &[u8]) -> Option<Difference>
    ensures { is_none result ≡ prints_so printed.now found.now }
{
    match printed {
        Printed::Whole(bytes) if bytes.as_slice() != found => {
            Some(Difference::Printed(line_of_difference(bytes.as_slice(), found)))
        }
        Printed::Begin(bytes) if !found.starts_with(bytes.as_slice()) => {
            Some(Difference::Printed(line_of_difference(bytes.as_slice(), found)))
        }
        Printed::End(bytes) if !found.ends_with(bytes.as_slice()) => Some(Difference::End),
        _ => None,
    }
}

/// What of the file `t` isn't as is wanted.
fn saved_difference(wanted: &Option<Vec<u8>>, found: &Option<Vec<u8>>) -> Option<Difference>
    ensures { is_none result ≡ saves_so (option_map (λ bytes. bytes.items) wanted.now) (option_map (λ bytes. bytes.items) found.now) }
{
    match (wanted, found) {
        (None, None) => None,
        (None, Some(_)) => Some(Difference::IsSaved),
        (Some(_), None) => Some(Difference::NotSaved),
        (Some(wanted), Some(found)) => {
            if wanted.as_slice() == found.as_slice() {
                None
            } else {
                Some(Difference::Saved(place_of_difference(wanted.as_slice(), found.as_slice())))
            }
        }
    }
}

/// What isn't as a row says of what a call came to; `None` exactly where the row holds.
pub fn difference_of(row: &Row, outcome: &Outcome) -> Option<Difference>
    ensures { is_none result ≡ holds row.now outcome.now }
{
    if outcome.status != row.status {
        return Some(Difference::Status(outcome.status));
    }
    let printed = printed_difference(&row.printed, outcome.printed.as_slice());
    if printed.is_some() {
        return printed;
    }
    saved_difference(&row.saved, &outcome.saved)
}
