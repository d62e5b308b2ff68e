//! What a visit changed of a frame.
ghost use Rattle.std.specs.Prelude.{◌≡◌, ◌++◌, flat_map, OnOk};
ghost use Rattle.vg_story.specs.Changes as told;

use crate::fields::{has_field, number_of};
use crate::fronts::Front;
use crate::pieces::{Field, Piece};
use std::alloc::AllocError;

/// The fields whose changes are shown, in this order.
const FIELDS: [Field; 7] = [
    Field::Length,
    Field::Destination,
    Field::Source,
    Field::Vlan,
    Field::Ttl,
    Field::Checksum,
    Field::HopLimit,
];

// Adds the change of a number, where it differs.
fn put_change(
    pieces: &mut Vec<Piece>,
    field: Field,
    before: u64,
    after: u64,
) -> Result<(), AllocError>
    ensures { OnOk result (pieces.new.items ≡ pieces.old.items ++ told.change field before after) }
{
    if before == after {
        return Ok(());
    }
    pieces.push(Piece::Change {
        field,
        before,
        after,
    })?;
    Ok(())
}

// Adds the change of a field, where both frames show it and it differs.
fn put_change_of(
    pieces: &mut Vec<Piece>,
    before: &Front,
    after: &Front,
    field: Field,
) -> Result<(), AllocError>
    ensures { OnOk result (pieces.new.items ≡ pieces.old.items ++ told.change_of before.now after.now field) }
{
    if has_field(before, field) && has_field(after, field) {
        put_change(
            pieces,
            field,
            number_of(before, field),
            number_of(after, field),
        )
    } else {
        Ok(())
    }
}

// Adds the changes of these fields.
fn put_changes_of(
    pieces: &mut Vec<Piece>,
    before: &Front,
    after: &Front,
    fields: &[Field],
) -> Result<(), AllocError>
    ensures { OnOk result (pieces.new.items ≡ pieces.old.items ++ flat_map (told.change_of before.now after.now) fields.now) }
{
    for field in fields {
        put_change_of(pieces, before, after, *field)?;
    }
    Ok(())
}

/// Adds the fields that differ, each with its number before and after.
pub(crate) fn put_changes(
    pieces: &mut Vec<Piece>,
    before: &Front,
    after: &Front,
) -> Result<(), AllocError>
    ensures { OnOk result (pieces.new.items ≡ pieces.old.items ++ told.changes before.now after.now) }
{
    put_changes_of(pieces, before, after, &FIELDS)
}
