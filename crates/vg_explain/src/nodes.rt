//! Which node of an arc isn't there, as far as the script's text shows it.

use crate::marks::{bytes_at, line_of, words_of};
use std::alloc::{AllocError, Global};

/// The nodes of the start graph.
const START_NODES: [&str; 9] = [
    "pg-input",
    "handoff-dequeue",
    "ethernet-input",
    "ip4-input",
    "ip4-lookup",
    "ip4-rewrite",
    "interface-output",
    "interface-tx",
    "error-drop",
];

/// The node that isn't there.
#[derive(Clone, Copy, Debug, PartialEq, Eq)]
pub enum Missing {
    /// The one whose slot the arc leads from.
    Node,
    /// The one that it leads to.
    Target,
    /// One of the two: the order of events decides which.
    Either,
}

/// Whether a node is there at a line.
#[derive(Clone, Copy, Debug, PartialEq, Eq)]
enum There {
    No,
    /// Where the event that makes it comes before.
    Perhaps,
    Yes,
}

/// Where a line stands: its number, counted from 1, and the group of edits that it is of. Those outside of blocks are group 0.
#[derive(Clone, Copy, Debug)]
struct Spot {
    line: u32,
    group: u32,
}

/// Whether a node that is made at one spot is there at another. Edits outside of blocks are made first, in the order of their lines.
fn reaches(made: Spot, used: Spot) -> There {
    let is_above = made.line < used.line;
    if made.group == used.group {
        return if is_above { There::Yes } else { There::No };
    }
    if made.group == 0 {
        There::Yes
    } else if used.group == 0 {
        There::No
    } else {
        There::Perhaps
    }
}

/// The lines of a script with their spots, one after the other.
#[derive(Debug, Drop)]
struct Lines<'a> {
    rest: &'a [u8],
    line: u32,
    group: u32,
    groups: u32,
}

/// A line, and where it stands.
#[derive(Clone, Copy, Debug)]
struct Line<'a> {
    bytes: &'a [u8],
    spot: Spot,
}

/// The word of a line at a place, counted from 0; empty where it has fewer.
fn word_at(alloc: Global, line: &[u8], place: usize) -> Result<&[u8], AllocError> {
    let words = words_of(alloc, line)?;
    Ok(match words.get(place) {
        Some(word) => bytes_at(line, *word),
        None => &[],
    })
}

impl<'a> Lines<'a> {
    fn of(text: &'a [u8]) -> Lines<'a> {
        Lines {
            rest: text,
            line: 0,
            group: 0,
            groups: 0,
        }
    }

    /// The next line; nothing behind the last.
    fn next(&mut self, alloc: Global) -> Result<Option<Line<'a>>, AllocError> {
        if self.rest.is_empty() {
            return Ok(None);
        }
        let bytes = line_of(self.rest, 1);
        self.rest = self
            .rest
            .get(bytes.len().saturating_add(1)..)
            .unwrap_or(&[]);
        self.line = self.line.saturating_add(1);
        let first = word_at(alloc, bytes, 0)?;
        if first == b"end".as_slice() {
            self.group = 0;
        } else if is_beginning(first) {
            self.groups = self.groups.saturating_add(1);
            self.group = self.groups;
        }
        Ok(Some(Line {
            bytes,
            spot: Spot {
                line: self.line,
                group: self.group,
            },
        }))
    }
}

/// Whether a group of edits begins with this word.
fn is_beginning(first: &[u8]) -> bool {
    first == b"at".as_slice() || first == b"process".as_slice() || first == b"then".as_slice()
}

/// The spot of a line.
fn spot_of(alloc: Global, text: &[u8], number: u32) -> Result<Spot, AllocError> {
    let mut lines = Lines::of(text);
    let mut group = 0;
    for _ in 0..number {
        if let Some(line) = lines.next(alloc)? {
            group = line.spot.group;
        }
    }
    Ok(Spot {
        line: number,
        group,
    })
}

/// Whether a node of this name is there at a spot.
fn is_there(alloc: Global, text: &[u8], name: &[u8], used: Spot) -> Result<There, AllocError> {
    if START_NODES.iter().any(|start| start.as_bytes() == name) {
        return Ok(There::Yes);
    }
    let mut lines = Lines::of(text);
    let mut is_there = There::No;
    for _ in 0..text.len() {
        let Some(line) = lines.next(alloc)? else {
            return Ok(is_there);
        };
        let is_node = word_at(alloc, line.bytes, 0)? == b"node".as_slice();
        if is_node && word_at(alloc, line.bytes, 1)? == name {
            match reaches(line.spot, used) {
                There::Yes => return Ok(There::Yes),
                There::Perhaps => is_there = There::Perhaps,
                There::No => {}
            }
        }
    }
    Ok(is_there)
}

/// Which node of the arc in this line isn't there.
pub fn missing_node(alloc: Global, text: &[u8], number: u32) -> Result<Missing, AllocError> {
    let line = line_of(text, number);
    let used = spot_of(alloc, text, number)?;
    let node = is_there(alloc, text, word_at(alloc, line, 1)?, used)?;
    let target = is_there(alloc, text, word_at(alloc, line, 3)?, used)?;
    Ok(match (node, target) {
        (There::No, _) | (There::Perhaps, There::Yes) => Missing::Node,
        (There::Yes, _) | (There::Perhaps, There::No) => Missing::Target,
        (There::Perhaps, There::Perhaps) => Missing::Either,
    })
}
