//! The table of what differs: each class with its number and one example.
ghost use Rattle.std.specs.Prelude.{◌≡◌, ◌++◌, [], length, bytes_eq, flat_map, codes, OnOk, IfOk};
ghost use Rattle.vg_model.specs.declared.kinds.DropError.{DropError as Fault};
ghost use Rattle.vg_match.specs.declared.fields.Field.{Field as Place};
ghost use Rattle.vg_report.specs.Seen.{end_seen};
ghost use Rattle.vg_diff.specs.Classes.{part_text, class_begin, example_text, class_line, numbers_alone, change_class, changes_of, changes_of_row, changed_in as changed_in_class};
ghost use Rattle.vg_diff.specs.Classes.{changed_class, changed_classes, has_error as has_this_error, is_dropped_with as was_dropped_with, is_there_with as is_there};
ghost use Rattle.vg_diff.specs.Classes.{there_with as there_in_class, there_class, wanted_classes, got_classes, AreClasses};

use crate::lines::{Findings, change_of, frame_at, number_at, put_place};
use crate::numbers::put_number;
use crate::rows::{got_rows, wanted_rows};
use crate::texts::{put, put_decimal};
use std::alloc::{AllocError, Global};
use vg_match::Field;
use vg_model::DropError;
use vg_report::EndRef;

// Appends the second word of a class and a space, where it has one.
fn put_part(out: &mut Vec<u8>, part: &str) -> Result<(), AllocError>
    ensures { OnOk result (out.new.items ≡ out.old.items ++ part_text part.now) }
{
    if part.is_empty() {
        return Ok(());
    }
    put(out, part.as_bytes())?;
    put(out, b" ")
}

// Appends the beginning of a line: the words of a class.
fn put_class_begin(out: &mut Vec<u8>, word: &str, part: &str) -> Result<(), AllocError>
    ensures { OnOk result (out.new.items ≡ out.old.items ++ class_begin word.now part.now) }
{
    put(out, b"class ")?;
    put(out, word.as_bytes())?;
    put(out, b" ")?;
    put_part(out, part)
}

// Appends the rest of a line: how many packets are in the class, and the place of the first.
fn put_example(
    out: &mut Vec<u8>,
    count: usize,
    starts: &[u32],
    first: u32,
) -> Result<(), AllocError>
    ensures { OnOk result (out.new.items ≡ out.old.items ++ example_text count starts.now first) }
{
    put_decimal(out, count as u64)?;
    put(out, b" ")?;
    put_place(out, starts, first)?;
    put(out, b"\n")
}

// Appends the line of a class with these packets, by their numbers, where there are any.
fn put_class(
    out: &mut Vec<u8>,
    word: &str,
    part: &str,
    starts: &[u32],
    numbers: &[u32],
) -> Result<(), AllocError>
    ensures { OnOk result (out.new.items ≡ out.old.items ++ class_line word.now part.now starts.now numbers.now) }
{
    let Some((first, _)) = numbers.split_first() else {
        return Ok(());
    };
    put_class_begin(out, word, part)?;
    put_example(out, numbers.len(), starts, *first)
}

// The packets without a partner.
fn alone(alloc: Global, rows: &[(u32, Option<u32>)]) -> Result<Vec<u32>, AllocError>
    ensures { IfOk result (λ numbers. numbers.items ≡ numbers_alone rows.now) }
{
    let mut numbers = Vec::new(alloc);
    for row in rows {
        put_number(&mut numbers, row.0, row.1.is_none())?;
    }
    Ok(numbers)
}

// Adds the field in which a packet differs first from its partner, where it has one, with the number of that.
fn put_change(
    changes: &mut Vec<(Option<Field>, u32)>,
    alloc: Global,
    found: &Findings<'_>,
    wanted: u32,
    partner: Option<u32>,
) -> Result<(), AllocError>
    ensures { OnOk result (changes.new.items ≡ changes.old.items ++ changes_of_row found.now wanted partner) }
{
    let Some(got) = partner else {
        return Ok(());
    };
    let first = frame_at(found.wanted, wanted);
    let second = frame_at(found.got, got);
    let change = change_of(alloc, first, second, found.ignored)?;
    changes.push((change.field, got))?;
    Ok(())
}

// The field in which each changed packet differs first, with the number of the packet that came.
fn changes(
    alloc: Global,
    found: &Findings<'_>,
    rows: &[(u32, Option<u32>)],
) -> Result<Vec<(Option<Field>, u32)>, AllocError>
    ensures { IfOk result (λ changes. changes.items ≡ changes_of found.now rows.now) }
{
    let mut changes = Vec::new(alloc);
    for row in rows {
        put_change(&mut changes, alloc, found, row.0, row.1)?;
    }
    Ok(changes)
}

// The word of the class of changes in a field, or outside of all.
fn class_of(field: Option<Field>) -> &'static str
    ensures { result.now ≡ change_class field }
{
    match field {
        Some(field) => field.name(),
        None => "byte",
    }
}

// Whether changes in both are of one class.
fn is_one_class(one: Option<Field>, other: Option<Field>) -> bool
    ensures { result ≡ bytes_eq (change_class one) (change_class other) }
{
    class_of(one).as_bytes() == class_of(other).as_bytes()
}

// The packets that changed in this field, or outside of all, by those that came.
fn changed_in(
    alloc: Global,
    changes: &[(Option<Field>, u32)],
    field: Option<Field>,
) -> Result<Vec<u32>, AllocError>
    ensures { IfOk result (λ numbers. numbers.items ≡ changed_in_class field changes.now) }
{
    let mut numbers = Vec::new(alloc);
    for change in changes {
        put_number(&mut numbers, change.1, is_one_class(change.0, field))?;
    }
    Ok(numbers)
}

// Appends the class of the packets that changed in this field, or outside of all.
fn put_changed_in(
    out: &mut Vec<u8>,
    alloc: Global,
    changes: &[(Option<Field>, u32)],
    starts: &[u32],
    field: Option<Field>,
) -> Result<(), AllocError>
    ensures { OnOk result (out.new.items ≡ out.old.items ++ changed_class changes.now starts.now field) }
{
    let numbers = changed_in(alloc, changes, field)?;
    put_class(out, "changed", class_of(field), starts, numbers.as_slice())
}

// Appends the classes of the packets that changed in one of these fields.
fn put_changed_fields(
    out: &mut Vec<u8>,
    alloc: Global,
    changes: &[(Option<Field>, u32)],
    starts: &[u32],
    fields: &[Field],
) -> Result<(), AllocError>
    ensures { OnOk result (out.new.items ≡ out.old.items ++ flat_map (λ (field : Place). changed_class changes.now starts.now (Some field)) fields.now) }
{
    for field in fields {
        put_changed_in(out, alloc, changes, starts, Some(*field))?;
    }
    Ok(())
}

// Appends the classes of the packets that changed: by field, and then those that changed outside of all.
fn put_changed(
    out: &mut Vec<u8>,
    alloc: Global,
    changes: &[(Option<Field>, u32)],
    starts: &[u32],
) -> Result<(), AllocError>
    ensures { OnOk result (out.new.items ≡ out.old.items ++ changed_classes changes.now starts.now) }
{
    put_changed_fields(out, alloc, changes, starts, &Field::ALL)?;
    put_changed_in(out, alloc, changes, starts, None)
}

// Whether a packet that ended so was dropped with this error.
fn has_error(end: EndRef<'_>, error: DropError) -> bool
    ensures { result ≡ has_this_error error (end_seen end.entry) }
{
    match end {
        EndRef::Dropped { error: other, .. } => other.number() == error.number(),
        EndRef::Tx { .. } => false,
    }
}

// Whether one of the packets that were dropped was dropped with this error.
fn is_dropped_with(found: &Findings<'_>, dropped: u32, error: DropError) -> bool
    ensures { result ≡ was_dropped_with found.now error dropped }
{
    let number = number_at(found.dropped, dropped as usize) as usize;
    if number < found.report.packets.len() {
        has_error(found.report.packets.get(number).end, error)
    } else {
        false
    }
}

// Whether a packet has such a partner: one that was dropped with this error.
fn is_there_with(found: &Findings<'_>, partner: Option<u32>, error: DropError) -> bool
    ensures { result ≡ is_there found.now error partner }
{
    match partner {
        Some(dropped) => is_dropped_with(found, dropped, error),
        None => false,
    }
}

// The packets that came though they had to be dropped with this error.
fn there_with(
    alloc: Global,
    found: &Findings<'_>,
    rows: &[(u32, Option<u32>)],
    error: DropError,
) -> Result<Vec<u32>, AllocError>
    ensures { IfOk result (λ numbers. numbers.items ≡ there_in_class found.now rows.now error) }
{
    let mut numbers = Vec::new(alloc);
    for row in rows {
        put_number(&mut numbers, row.0, is_there_with(found, row.1, error))?;
    }
    Ok(numbers)
}

// Appends the class of the packets that came though they had to be dropped with this error.
fn put_there_with(
    out: &mut Vec<u8>,
    alloc: Global,
    found: &Findings<'_>,
    rows: &[(u32, Option<u32>)],
    error: DropError,
) -> Result<(), AllocError>
    ensures { OnOk result (out.new.items ≡ out.old.items ++ there_class found.now rows.now error) }
{
    let numbers = there_with(alloc, found, rows, error)?;
    put_class(
        out,
        "dropped-but-there",
        error.word(),
        found.starts,
        numbers.as_slice(),
    )
}

// Appends the classes of the packets that came though they had to be dropped with one of these errors.
fn put_there(
    out: &mut Vec<u8>,
    alloc: Global,
    found: &Findings<'_>,
    rows: &[(u32, Option<u32>)],
    errors: &[DropError],
) -> Result<(), AllocError>
    ensures { OnOk result (out.new.items ≡ out.old.items ++ flat_map (λ (error : Fault). there_class found.now rows.now error) errors.now) }
{
    for error in errors {
        put_there_with(out, alloc, found, rows, *error)?;
    }
    Ok(())
}

// Appends the classes of the packets that had to come: those that are missing, by the frame in the run's savefile, and those that changed.
fn put_wanted_classes(
    out: &mut Vec<u8>,
    alloc: Global,
    found: &Findings<'_>,
    rows: &[(u32, Option<u32>)],
) -> Result<(), AllocError>
    ensures { OnOk result (out.new.items ≡ out.old.items ++ wanted_classes found.now rows.now) }
{
    let missing = alone(alloc, rows)?;
    put_class(out, "missing", "", &[], missing.as_slice())?;
    let changes = changes(alloc, found, rows)?;
    put_changed(out, alloc, changes.as_slice(), found.starts)
}

// Appends the classes of the packets that came: those that nobody wanted, and those that had to be dropped.
fn put_got_classes(
    out: &mut Vec<u8>,
    alloc: Global,
    found: &Findings<'_>,
    rows: &[(u32, Option<u32>)],
) -> Result<(), AllocError>
    ensures { OnOk result (out.new.items ≡ out.old.items ++ got_classes found.now rows.now) }
{
    let extra = alone(alloc, rows)?;
    put_class(out, "extra", "", found.starts, extra.as_slice())?;
    put_there(out, alloc, found, rows, &DropError::ALL)
}

/// The classes of what differs, a line for each: what is missing, by its frame in the run's savefile; what changed, by field; what is extra;
/// and what came though it had to be dropped, by error; these by the frame that came. The example is the first of its class.
///
/// # Errors
///
/// [`AllocError`] where memory runs out.
pub fn classes(alloc: Global, found: &Findings<'_>) -> Result<Vec<u8>, AllocError>
    ensures { IfOk result (λ text. AreClasses found.now text.items) }
{
    let mut out = Vec::new(alloc);
    let wanted = wanted_rows(alloc, found)?;
    put_wanted_classes(&mut out, alloc, found, wanted.as_slice())?;
    let got = got_rows(alloc, found)?;
    put_got_classes(&mut out, alloc, found, got.as_slice())?;
    Ok(out)
}
