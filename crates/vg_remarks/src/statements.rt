//! The statements of a script: its filters, and its routes to neighbors.
ghost use Rattle.std.specs.Prelude.{◌≡◌, ◌++◌, List, IfOk, OnOk, flat_map, map};
ghost use Rattle.vg_model.specs.declared.edits.EditLine.{EditLine as LineValue};
ghost use Rattle.vg_remarks.specs.Found.{IsFound};
ghost use Rattle.vg_remarks.specs.Statements.{edits_in, filters_nothing, idle_filter, idle_filters as idle_lines, led as led_prefixes, led_on, statements as statements_of};

use crate::found::Found;
use std::alloc::{AllocError, Global};
use vg_model::{Edit, EditLine, Edits, Prefix, RouteWord};
use vg_script::{Block, Script};

// The interface that all packets come in on.
const RECEIVING: &str = "pg0";

// Puts edits behind others.
#[tactic(auto, using(crate::proofs::StatementLemmas::map_behind))]
fn push_edits<'a>(lines: &mut Vec<&'a EditLine>, edits: &'a Edits) -> Result<(), AllocError>
    ensures { OnOk result (map (λ e. e.now) lines.new.items ≡ map (λ e. e.now) lines.old.items ++ edits.now) }
{
    for line in edits.as_slice() {
        lines.push(line)?;
    }
    Ok(())
}

// Puts groups of edits behind others.
#[tactic(auto, using(crate::proofs::StatementLemmas::piece_more))]
fn push_groups<'a>(lines: &mut Vec<&'a EditLine>, groups: &'a [Edits]) -> Result<(), AllocError>
    ensures { OnOk result (map (λ e. e.now) lines.new.items ≡ map (λ e. e.now) lines.old.items ++ flat_map (λ (group : List LineValue). group) groups.now) }
{
    for group in groups {
        push_edits(lines, group)?;
    }
    Ok(())
}

// Puts the edits of a block behind others.
fn push_block<'a>(lines: &mut Vec<&'a EditLine>, block: &'a Block) -> Result<(), AllocError>
    ensures { OnOk result (map (λ e. e.now) lines.new.items ≡ map (λ e. e.now) lines.old.items ++ edits_in block.now) }
{
    match block {
        Block::At { edits, .. } => push_edits(lines, edits),
        Block::Process { groups, .. } => push_groups(lines, groups.as_slice()),
    }
}

/// The edits of a script with their lines: those outside blocks, and then those of its blocks in their order.
///
/// # Errors
///
/// [`AllocError`] where memory runs out.
#[tactic(auto, using(crate::proofs::StatementLemmas::piece_more))]
pub fn statements<'a>(alloc: Global, script: &'a Script) -> Result<Vec<&'a EditLine>, AllocError>
    ensures { IfOk result (λ lines. map (λ e. e.now) lines.items ≡ statements_of script.now) }
{
    let mut lines = Vec::new(alloc);
    push_edits(&mut lines, &script.start)?;
    for block in script.blocks.as_slice() {
        push_block(&mut lines, block)?;
    }
    Ok(lines)
}

// Whether an edit gives an interface a filter that no packet comes to.
fn filters_nothing_in(edit: &Edit) -> bool
    ensures { result ≡ filters_nothing edit.now }
{
    match edit {
        Edit::Interface { name, filter, .. } => *filter && name.as_str() != RECEIVING,
        _ => false,
    }
}

// The line of an edit that gives an interface a filter which no packet comes to.
fn idle(line: &EditLine) -> Option<u32>
    ensures { result ≡ idle_filter line.now }
{
    if filters_nothing_in(&line.edit) {
        Some(line.line)
    } else {
        None
    }
}

/// The lines that give an interface a filter which no packet comes to: all packets come in on `pg0`.
pub fn idle_filters(lines: &[&EditLine]) -> Found<u32>
    ensures { IsFound (idle_lines (map (λ e. e.now) lines.now)) result }
{
    let mut found = Found::none();
    for line in lines {
        found = found.with(idle(line));
    }
    found
}

// Puts the prefix of a route to neighbors behind others, where an edit makes one.
fn push_led(found: &mut Vec<Prefix>, line: &EditLine) -> Result<(), AllocError>
    ensures { OnOk result (found.new.items ≡ found.old.items ++ led_on line.now) }
{
    match &line.edit {
        Edit::Route {
            prefix,
            to: RouteWord::Via(_),
        } => {
            found.push(*prefix)?;
            Ok(())
        }
        _ => Ok(()),
    }
}

/// The prefixes that routes lead to neighbors, in the order of these lines.
///
/// # Errors
///
/// [`AllocError`] where memory runs out.
#[tactic(auto, using(crate::proofs::StatementLemmas::flat_map_next))]
pub fn led(alloc: Global, lines: &[&EditLine]) -> Result<Vec<Prefix>, AllocError>
    ensures { IfOk result (λ found. found.items ≡ led_prefixes (map (λ e. e.now) lines.now)) }
{
    let mut found = Vec::new(alloc);
    for line in lines {
        push_led(&mut found, line)?;
    }
    Ok(found)
}
