//! Copies of edits.
ghost use Rattle.std.specs.Prelude.{◌≡◌, IfOk};

use std::alloc::{AllocError, Global};
use vg_model::{Edit, EditLine, Edits, Names, RouteWord};
use vg_script::Groups;

fn copy_names(alloc: Global, names: &Names) -> Result<Names, AllocError>
    ensures { IfOk result (λ copy. copy ≡ names.now) }
{
    let names = names.as_slice();
    let mut copy = Vec::with_capacity(alloc, names.len())?;
    for name in names {
        copy.push(name.copied())?;
    }
    Ok(Names::from_vec(copy))
}

fn copy_target(alloc: Global, to: &RouteWord) -> Result<RouteWord, AllocError>
    ensures { IfOk result (λ copy. copy ≡ to.now) }
{
    match to {
        RouteWord::Via(names) => Ok(RouteWord::Via(copy_names(alloc, names)?)),
        RouteWord::Local => Ok(RouteWord::Local),
        RouteWord::Drop => Ok(RouteWord::Drop),
    }
}

fn copy_edit(alloc: Global, edit: &Edit) -> Result<Edit, AllocError>
    ensures { IfOk result (λ copy. copy ≡ edit.now) }
{
    match edit {
        Edit::Interface {
            name,
            mac,
            mtu,
            up,
            filter,
        } => Ok(Edit::Interface {
            name: name.copied(),
            mac: *mac,
            mtu: *mtu,
            up: *up,
            filter: *filter,
        }),
        Edit::Node { name, kind } => Ok(Edit::Node {
            name: name.copied(),
            kind: *kind,
        }),
        Edit::Arc { from, slot, to } => Ok(Edit::Arc {
            from: from.copied(),
            slot: slot.copied(),
            to: to.copied(),
        }),
        Edit::Adjacency {
            name,
            interface,
            mac,
        } => Ok(Edit::Adjacency {
            name: name.copied(),
            interface: interface.copied(),
            mac: *mac,
        }),
        Edit::Route { prefix, to } => Ok(Edit::Route {
            prefix: *prefix,
            to: copy_target(alloc, to)?,
        }),
        Edit::Unroute { prefix } => Ok(Edit::Unroute { prefix: *prefix }),
        Edit::Route6 { prefix, to } => Ok(Edit::Route6 {
            prefix: *prefix,
            to: copy_target(alloc, to)?,
        }),
        Edit::Unroute6 { prefix } => Ok(Edit::Unroute6 { prefix: *prefix }),
    }
}

fn copy_line(alloc: Global, line: &EditLine) -> Result<EditLine, AllocError>
    ensures { IfOk result (λ copy. copy ≡ line.now) }
{
    Ok(EditLine {
        line: line.line,
        edit: copy_edit(alloc, &line.edit)?,
    })
}

/// An equal list of edits.
pub fn copy_edits(alloc: Global, edits: &Edits) -> Result<Edits, AllocError>
    ensures { IfOk result (λ copy. copy ≡ edits.now) }
{
    let lines = edits.as_slice();
    let mut copy = Vec::with_capacity(alloc, lines.len())?;
    for line in lines {
        copy.push(copy_line(alloc, line)?)?;
    }
    Ok(Edits::from_vec(copy))
}

/// An equal list of groups.
pub fn copy_groups(alloc: Global, groups: &Groups) -> Result<Vec<Edits>, AllocError>
    ensures { IfOk result (λ copy. copy.items ≡ groups.now) }
{
    let groups = groups.as_slice();
    let mut copy = Vec::with_capacity(alloc, groups.len())?;
    for edits in groups {
        copy.push(copy_edits(alloc, edits)?)?;
    }
    Ok(copy)
}
