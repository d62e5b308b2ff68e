//! The bytes that lines say, one line after the other.
ghost use Rattle.std.specs.Prelude.{◌≡◌, ◌≢◌, ◌++◌, ◌∷◌, ℕ, List, Some, None, [], IfSome, MatchOption, OnOk, option_map, replicate, take};
ghost use Rattle.vg_row.specs.Builds.{Builds, IsChanged, bytes_named};
ghost use Rattle.vg_row.specs.Hex.{hex_read};
ghost use Rattle.vg_row.specs.Records.{with_record};
ghost use Rattle.vg_row.specs.declared.records.Marks.{Marks};

use crate::cursor::first_word;
use crate::hex::put_hex;
use crate::records::{Marks, put_header, put_record, put_zeros};
use crate::rows::{Cause, Kept};
use std::alloc::{AllocError, Global};

/// What a line does to the bytes that the lines above it say.
#[derive(Clone, Copy, Debug, PartialEq, Eq)]
pub(crate) enum Form {
    /// Adds a text and a line feed.
    Line,
    /// Adds a text.
    Text,
    /// Adds the bytes that hexadecimal digits say.
    Hex,
    /// Adds zero bytes.
    Zeros,
    /// Adds a savefile's header.
    Header,
    /// Adds a savefile's record.
    Frame,
    /// Adds the bytes of a part.
    As,
    /// Leaves the first bytes alone.
    Cut,
    /// Puts a text in the place of another.
    Change,
}

impl Form {
    /// What a line does that begins with this word, where it says bytes.
    pub(crate) fn of(word: &str) -> Option<Form> {
        Some(match word {
            "|" => Form::Line,
            "text" => Form::Text,
            "hex" => Form::Hex,
            "zeros" => Form::Zeros,
            "header" => Form::Header,
            "frame" => Form::Frame,
            "as" => Form::As,
            "cut" => Form::Cut,
            "change" => Form::Change,
            _ => return None,
        })
    }
}

/// The number that a word says, in decimal digits.
pub(crate) fn number(word: &str) -> Result<u32, Cause> {
    word.parse::<u32>().map_err(|_| Cause::Number)
}

/// Adds a text and a line feed.
fn put_line(bytes: &mut Vec<u8>, text: &str) -> Result<(), AllocError>
    ensures { OnOk result (bytes.new.items ≡ bytes.old.items ++ (text.now ++ 10 ∷ [])) }
{
    bytes.extend_from_slice(text.as_bytes())?;
    bytes.push(b'\n')?;
    Ok(())
}

/// Adds as many zero bytes as a text says.
fn put_many(alloc: Global, bytes: &mut Vec<u8>, text: &str) -> Result<(), Cause>
    ensures { OnOk result ((count : ℕ) × (bytes.new.items ≡ bytes.old.items ++ replicate count 0)) }
{
    let count = number(text)?;
    put_zeros(alloc, bytes, count as usize)?;
    Ok(())
}

/// What a line says of a frame, and the digits behind that: how many bytes the record has, its time, and how many the frame had.
fn marks_of(text: &str) -> Result<(Marks, &str), Cause> {
    let (word, mut rest) = first_word(text);
    let len = number(word)?;
    let mut marks = Marks {
        time: 0,
        len,
        original: len,
    };
    if let Some(behind) = rest.strip_prefix("at ") {
        let (word, digits) = first_word(behind);
        marks.time = number(word)?;
        rest = digits;
    }
    if let Some(behind) = rest.strip_prefix("of ") {
        let (word, digits) = first_word(behind);
        marks.original = number(word)?;
        rest = digits;
    }
    Ok((marks, rest))
}

/// Adds the record of the frame that a line says.
fn put_frame(alloc: Global, bytes: &mut Vec<u8>, text: &str) -> Result<(), Cause>
    ensures { OnOk result ((marks : Marks) × (digits : List ℕ) × (frame : List ℕ) × (hex_read [] None digits ≡ Some frame)
        × (bytes.new.items ≡ with_record marks frame bytes.old.items)) }
{
    let (marks, digits) = marks_of(text)?;
    let mut frame = Vec::new(alloc);
    put_hex(&mut frame, digits)?;
    put_record(alloc, bytes, marks, frame.as_slice())?;
    Ok(())
}

/// The part of a name.
fn part_of<'a>(parts: &'a [Kept], name: &str) -> Option<&'a Kept>
    ensures { option_map (λ part. part.now.bytes.items) result ≡ bytes_named parts.entry.now name.now }
{
    let mut rest = parts;
    while let [part, others @ ..] = rest {
        if part.name.as_str() == name {
            return Some(part);
        }
        rest = others;
    }
    None
}

/// Adds the bytes of the part of a name.
fn put_part(bytes: &mut Vec<u8>, parts: &[Kept], name: &str) -> Result<(), Cause>
    ensures { OnOk result (option_map (λ added. bytes.old.items ++ added) (bytes_named parts.now name.now) ≡ Some bytes.new.items) }
{
    let Some(part) = part_of(parts, name) else {
        return Err(Cause::Part);
    };
    bytes.extend_from_slice(part.bytes.as_slice())?;
    Ok(())
}

/// Leaves as many of the first bytes as a text says.
fn cut(bytes: &mut Vec<u8>, text: &str) -> Result<(), Cause>
    ensures { OnOk result ((len : ℕ) × (bytes.new.items ≡ take len bytes.old.items)) }
{
    let len = number(text)?;
    bytes.truncate(len as usize);
    Ok(())
}

/// What stands behind a text at the front of bytes; `None` where others stand at the front.
fn behind<'a>(bytes: &'a [u8], front: &[u8]) -> Option<&'a [u8]>
    ensures { MatchOption result ((more : List ℕ) → bytes.now ≢ front.now ++ more) (λ rest. bytes.now ≡ front.now ++ rest.now) }
{
    bytes.strip_prefix(front)
}

/// What stands in front of the first place of a text in bytes, and what stands behind it.
fn parted<'a>(bytes: &'a [u8], text: &[u8]) -> Option<(&'a [u8], &'a [u8])>
    ensures { IfSome result (λ parts. bytes.entry.now ≡ parts.0.now ++ (text.now ++ parts.1.now)) }
{
    for place in 0..bytes.len() {
        if let Some(rest) = behind(&bytes[place..], text) {
            return Some((&bytes[..place], rest));
        }
    }
    None
}

/// Puts one text in the place where another stands first, parted by ` => `.
fn change(alloc: Global, bytes: &mut Vec<u8>, text: &str) -> Result<(), Cause>
    ensures { OnOk result (IsChanged text.now bytes.old.items bytes.new.items) }
{
    let Some((old, new)) = text.split_once(" => ") else {
        return Err(Cause::Line);
    };
    let Some((front, rest)) = parted(bytes.as_slice(), old.as_bytes()) else {
        return Err(Cause::Change);
    };
    let mut other = front.to_vec(alloc)?;
    other.extend_from_slice(new.as_bytes())?;
    other.extend_from_slice(rest)?;
    *bytes = other;
    Ok(())
}

/// Does to bytes what a line of this form says.
pub(crate) fn build(
    alloc: Global,
    bytes: &mut Vec<u8>,
    parts: &[Kept],
    form: Form,
    text: &str,
) -> Result<(), Cause>
    ensures { OnOk result (Builds form parts.now text.now bytes.old.items bytes.new.items) }
{
    match form {
        Form::Line => Ok(put_line(bytes, text)?),
        Form::Text => Ok(bytes.extend_from_slice(text.as_bytes())?),
        Form::Hex => put_hex(bytes, text),
        Form::Zeros => put_many(alloc, bytes, text),
        Form::Header => Ok(put_header(bytes)?),
        Form::Frame => put_frame(alloc, bytes, text),
        Form::As => put_part(bytes, parts, text),
        Form::Cut => cut(bytes, text),
        Form::Change => change(alloc, bytes, text),
    }
}
