//! The prefixes of the routes that edits set, each once.
ghost use Rattle.std.specs.Prelude.{◌≡◌, [], OnOk};
ghost use Rattle.vg_ways.specs.Counts.{with_prefix, with_prefix6, with_set, with_set6, with_sets, with_sets6};
ghost use Rattle.vg_ways.specs.Known.{AreKnown, IsSetOf, IsSetOf6, IsWhole};

use std::alloc::{AllocError, Global};
use std::collections::BTreeSet;
use vg_model::{Edit, Edits, Prefix, Prefix6};

/// Prefixes in the order in which they came, each once and with no line.
#[derive(Drop)]
pub struct Known {
    pub prefixes: Vec<(Prefix, u32)>,
    pub prefixes6: Vec<(Prefix6, u32)>,
    // The same, to look one up.
    set: BTreeSet<(u32, u8)>,
    set6: BTreeSet<(u128, u8)>,
}

// Adds a prefix, where it isn't there.
fn put_prefix(
    prefixes: &mut Vec<(Prefix, u32)>,
    set: &mut BTreeSet<(u32, u8)>,
    prefix: Prefix,
) -> Result<(), AllocError>
    requires { IsSetOf prefixes.old.items set.old }
    ensures prefixes { OnOk result (prefixes.new.items ≡ with_prefix prefixes.old.items prefix) }
    ensures set { OnOk result (IsSetOf (with_prefix prefixes.old.items prefix) set.new) }
{
    if set.insert((prefix.addr, prefix.len))? {
        prefixes.push((prefix, 0))?;
    }
    Ok(())
}

// The same for IPv6.
fn put_prefix6(
    prefixes: &mut Vec<(Prefix6, u32)>,
    set: &mut BTreeSet<(u128, u8)>,
    prefix: Prefix6,
) -> Result<(), AllocError>
    requires { IsSetOf6 prefixes.old.items set.old }
    ensures prefixes { OnOk result (prefixes.new.items ≡ with_prefix6 prefixes.old.items prefix) }
    ensures set { OnOk result (IsSetOf6 (with_prefix6 prefixes.old.items prefix) set.new) }
{
    if set.insert((prefix.addr, prefix.len))? {
        prefixes.push((prefix, 0))?;
    }
    Ok(())
}

impl Known {
    /// None.
    pub(crate) fn new(alloc: Global) -> Known
        ensures { AreKnown [] [] result }
    {
        Known {
            prefixes: Vec::new(alloc),
            prefixes6: Vec::new(alloc),
            set: BTreeSet::new(alloc),
            set6: BTreeSet::new(alloc),
        }
    }

    // Adds the prefix of the route that an edit sets.
    fn put(&mut self, edit: &Edit) -> Result<(), AllocError>
        requires { IsWhole self.old }
        ensures { OnOk result (AreKnown (with_set self.old.prefixes.items edit.now) (with_set6 self.old.prefixes6.items edit.now) self.new) }
    {
        match edit {
            Edit::Route { prefix, .. } => put_prefix(&mut self.prefixes, &mut self.set, *prefix),
            Edit::Route6 { prefix, .. } => put_prefix6(
                &mut self.prefixes6,
                &mut self.set6,
                *prefix,
            ),
            _ => Ok(()),
        }
    }

    /// Adds the prefixes of the routes that these edits set, each where it isn't there.
    pub(crate) fn put_all(&mut self, edits: &Edits) -> Result<(), AllocError>
        requires { IsWhole self.old }
        ensures { OnOk result (AreKnown (with_sets self.old.prefixes.items edits.now) (with_sets6 self.old.prefixes6.items edits.now) self.new) }
    {
        for edit in edits.as_slice() {
            self.put(&edit.edit)?;
        }
        Ok(())
    }
}
