//! Nodes and their next arcs.
ghost use Rattle.std.specs.Prelude.{◌≡◌, ◌<◌, length, replicate, slice_set};
ghost use Rattle.vg_model.specs.Graph.{slots, error_drop};

use crate::lists::Entry;
use arrayvec::ArrayVec;
use vg_model::start::ERROR_DROP;
use vg_model::{Kind, Name};

/// A node, and the nodes that its slots lead to, by slot number: at most two.
#[derive(Drop)]
pub struct Node {
    pub name: Name,
    pub kind: Kind,
    pub arcs: ArrayVec<u16, 2>,
}

impl Entry for Node {
    ghost name_of = { λ node. node.name };

    fn name(&self) -> &Name {
        &self.name
    }

    fn copy(&self) -> Node {
        let mut arcs = ArrayVec::new();
        for arc in self.arcs.as_slice() {
            arcs.push(*arc);
        }
        Node {
            name: self.name.copied(),
            kind: self.kind,
            arcs,
        }
    }
}

impl Node {
    /// A node whose slots lead to the node that drops.
    pub fn new(name: Name, kind: Kind) -> Node
        ensures name { result.name ≡ name }
        ensures kind { result.kind ≡ kind }
        ensures arcs { result.arcs.items ≡ replicate (length (slots kind)) error_drop }
    {
        let mut arcs = ArrayVec::new();
        for _slot in 0..kind.slots() {
            arcs.push(ERROR_DROP);
        }
        Node { name, kind, arcs }
    }

    /// The slot leads to this node from now on.
    pub fn set_arc(&mut self, slot: u8, to: u16)
        requires { slot < length self.old.arcs.items }
        ensures name { self.new.name ≡ self.old.name }
        ensures kind { self.new.kind ≡ self.old.kind }
        ensures arcs { self.new.arcs.items ≡ slice_set self.old.arcs.items slot to }
    {
        self.arcs.as_mut_slice()[slot as usize] = to;
    }
}
