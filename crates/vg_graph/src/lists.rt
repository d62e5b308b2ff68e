//! Lists of named entries, of a limited length.
ghost use Rattle.std.specs.Prelude.{ℕ, List, ◌≡◌, ◌≤◌, ◌<◌, ◌^◌, length, OnErr, IfSome, IfOk};
ghost use Rattle.vg_model.specs.Edit.{placed, place_of};
ghost use Rattle.vg_graph.specs.Refusals.{Answers};

use crate::errors::GraphError;
use std::alloc::{AllocError, Global};
use vg_model::{Adjacency, Interface, Name};

/// What stands in a list under its name.
pub trait Entry: Drop {
    ghost name_of: { Self → List ℕ };

    /// Its name.
    fn name(&self) -> &Name
        ensures { result.now ≡ name_of self.now };

    /// An equal entry.
    fn copy(&self) -> Self
        ensures { result ≡ self.now };
}

impl Entry for Interface {
    ghost name_of = { λ interface. interface.name };

    fn name(&self) -> &Name {
        &self.name
    }

    fn copy(&self) -> Interface {
        Interface {
            name: self.name.copied(),
            mac: self.mac,
            mtu: self.mtu,
            up: self.up,
            filter: self.filter,
        }
    }
}

impl Entry for Adjacency {
    ghost name_of = { λ adjacency. adjacency.name };

    fn name(&self) -> &Name {
        &self.name
    }

    fn copy(&self) -> Adjacency {
        Adjacency {
            name: self.name.copied(),
            interface: self.interface,
            mac: self.mac,
        }
    }
}

fn position_named<T: Entry>(list: &[T], name: &Name) -> Option<usize>
    ensures place { result ≡ place_of T.name_of name.now list.now }
    ensures within { IfSome result (λ place. place < length list.now) }
{
    list.iter().position(|entry| entry.name() == name)
}

/// The place of the first entry of this name.
pub fn place_named<T: Entry>(list: &[T], name: &Name) -> Option<u16>
    requires { length list.now < 2 ^ 16 }
    ensures place { result ≡ place_of T.name_of name.now list.now }
    ensures within { IfSome result (λ place. place < length list.now) }
{
    let place = position_named(list, name)?;
    Some(place as u16)
}

/// An equal list.
pub fn copy_list<T: Entry>(alloc: Global, list: &[T]) -> Result<Vec<T>, AllocError>
    ensures { IfOk result (λ copy. copy.items ≡ list.now) }
{
    let mut copy = Vec::new(alloc);
    for entry in list {
        copy.push(entry.copy())?;
    }
    Ok(copy)
}

/// A new entry at the end of a list, in which so many may be.
pub fn append<T: Drop>(list: &mut Vec<T>, most: usize, entry: T) -> Result<(), GraphError>
    ensures answer { Answers (placed most None entry list.old.items) list.new.items result }
    ensures same { OnErr result (list.new.items ≡ list.old.items) }
{
    if list.len() >= most {
        return Err(GraphError::TooMany);
    }
    match list.push(entry) {
        Ok(()) => Ok(()),
        Err(_) => Err(GraphError::Memory),
    }
}

/// The entry of a place, or a new one at the end.
pub fn put<T: Drop>(
    list: &mut Vec<T>,
    most: usize,
    place: Option<u16>,
    entry: T,
) -> Result<(), GraphError>
    requires { IfSome place (λ at. at < length list.old.items) }
    ensures answer { Answers (placed most place entry list.old.items) list.new.items result }
    ensures same { OnErr result (list.new.items ≡ list.old.items) }
{
    match place {
        Some(at) => {
            list[at as usize] = entry;
            Ok(())
        }
        None => append(list, most, entry),
    }
}
