//! The words of a line, and the mark under one of them.

use crate::statements::{Wanted, is_as_wanted, is_statement, wanted_at};
use std::alloc::{AllocError, Global};
use std::str;

/// A word of a line: where it begins, and where it ends.
#[derive(Clone, Copy, Debug)]
pub struct Place {
    pub begin: usize,
    pub end: usize,
}

fn is_blank(byte: u8) -> bool {
    byte == b' ' || byte == b'\t' || byte == b'\r'
}

/// The words of a line, up to its comment.
pub fn words_of(alloc: Global, line: &[u8]) -> Result<Vec<Place>, AllocError> {
    let mut words = Vec::new(alloc);
    let mut begin: Option<usize> = None;
    for (place, byte) in line.iter().enumerate() {
        if !is_blank(*byte) && *byte != b'#' {
            if begin.is_none() {
                begin = Some(place);
            }
            continue;
        }
        if let Some(begin) = begin {
            words.push(Place { begin, end: place })?;
        }
        begin = None;
        if *byte == b'#' {
            return Ok(words);
        }
    }
    if let Some(begin) = begin {
        words.push(Place {
            begin,
            end: line.len(),
        })?;
    }
    Ok(words)
}

/// The bytes of a word.
pub fn bytes_at<'a>(line: &'a [u8], place: Place) -> &'a [u8] {
    line.get(place.begin..place.end).unwrap_or(&[])
}

/// The text of a word; none where it isn't UTF-8.
pub fn text_at<'a>(line: &'a [u8], place: Place) -> &'a str {
    str::from_utf8(bytes_at(line, place)).unwrap_or("")
}

/// The line of a number, counted from 1, without its line feed.
pub fn line_of(text: &[u8], number: u32) -> &[u8] {
    let mut rest = text;
    for _ in 1..number {
        match rest.iter().position(|byte| *byte == b'\n') {
            Some(end) => (_, rest) = rest.split_at(end.saturating_add(1).min(rest.len())),
            None => return &[],
        }
    }
    match rest.iter().position(|byte| *byte == b'\n') {
        Some(end) => {
            let (line, _) = rest.split_at(end.min(rest.len()));
            line
        }
        None => rest,
    }
}

/// The place of the first byte of a line's words that no script has.
fn bad_byte(line: &[u8]) -> Option<Place> {
    for (begin, byte) in line.iter().enumerate() {
        if *byte == b'#' {
            return None;
        }
        if !is_blank(*byte) && !(0x21..=0x7e).contains(byte) {
            return Some(Place {
                begin,
                end: begin.saturating_add(1),
            });
        }
    }
    None
}

/// Whether the cause that was printed speaks of what is wanted here.
fn speaks_of(cause: &str, wanted: Wanted) -> bool {
    match wanted {
        Wanted::Word(_) | Wanted::Choice | Wanted::Nothing => cause == "word",
        Wanted::Name | Wanted::Names => cause == "name",
        Wanted::Mac => cause == "mac",
        Wanted::Prefix => cause == "prefix",
        Wanted::Kind => cause == "kind",
        Wanted::Number { .. } => cause == "number",
    }
}

/// The place of the word that an edit is refused for, in its statement.
fn place_of_edit(statement: &str, cause: &str) -> usize {
    match (cause, statement) {
        ("unknown-slot", _) => 2,
        ("bad-target" | "cycle" | "unknown-interface" | "unknown-adjacency", _) => 3,
        ("block", _) => 0,
        ("too-many-generations", "process") => 5,
        _ => 1,
    }
}

/// Whether a cause is one of a line's words as they are spelled.
fn is_of_spelling(cause: &str) -> bool {
    matches!(
        cause,
        "word" | "name" | "mac" | "prefix" | "kind" | "number"
    )
}

/// Where a line is refused: the first word that the cause speaks of, the byte that no script has, or the end where a word is missing.
pub fn refused_at(line: &[u8], words: &[Place], cause: &str) -> Place {
    let end = Place {
        begin: line.len(),
        end: line.len().saturating_add(1),
    };
    if cause == "bytes" {
        return bad_byte(line).unwrap_or(end);
    }
    let Some(first) = words.first() else {
        return end;
    };
    let statement = text_at(line, *first);
    if !is_statement(statement) {
        return *first;
    }
    if !is_of_spelling(cause) {
        return words
            .get(place_of_edit(statement, cause))
            .copied()
            .unwrap_or(*first);
    }
    let mut before = bytes_at(line, *first);
    for (place, word) in words.iter().enumerate().skip(1) {
        let wanted = wanted_at(statement, place, before);
        let word_bytes = bytes_at(line, *word);
        let is_only = matches!(
            wanted,
            Wanted::Names | Wanted::Mac | Wanted::Prefix | Wanted::Kind
        );
        if speaks_of(cause, wanted) && (is_only || !is_as_wanted(statement, wanted, word_bytes)) {
            return *word;
        }
        before = word_bytes;
    }
    end
}
