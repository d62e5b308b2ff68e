//! Edits of the graph.
ghost use Rattle.std.specs.Prelude.{◌≡◌};

use crate::kinds::Kind;
use crate::names::{Mac, Name};
use crate::routes::{Prefix, Prefix6, RouteWord};
use std::marker::Model;

/// A change of the graph.
#[derive(Drop)]
pub enum Edit {
    /// A new interface, or new properties of the one of this name.
    Interface {
        name: Name,
        mac: Mac,
        mtu: u16,
        up: bool,
        filter: bool,
    },
    /// A new node; its slots lead to the node that drops.
    Node {
        name: Name,
        kind: Kind,
    },
    /// A slot of a node leads to a node from now on.
    Arc {
        from: Name,
        slot: Name,
        to: Name,
    },
    /// A new neighbor behind an interface, or new properties of the one of this name.
    Adjacency {
        name: Name,
        interface: Name,
        mac: Mac,
    },
    /// A new IPv4 route, or a new target of the IPv4 route for this prefix.
    Route {
        prefix: Prefix,
        to: RouteWord,
    },
    /// The IPv4 route for this prefix is taken out.
    Unroute {
        prefix: Prefix,
    },
    /// A new IPv6 route, or a new target of the IPv6 route for this prefix.
    Route6 {
        prefix: Prefix6,
        to: RouteWord,
    },
    /// The IPv6 route for this prefix is taken out.
    Unroute6 {
        prefix: Prefix6,
    },
}

/// An edit and the line of the script that it stands on.
#[derive(Drop)]
pub struct EditLine {
    /// Counted from 1.
    pub line: u32,
    pub edit: Edit,
}

/// A list of edits.
#[derive(Drop)]
pub struct Edits(Vec<EditLine>);

impl Model for Edits {
    ghost use Rattle.std.specs.Prelude.{List};
    ghost use Rattle.vg_model.specs.declared.edits.EditLine.{EditLine};

    ghost Value = { List EditLine };

    ghost view = { λ e. e.0.items };
}

impl Edits {
    /// The list of these edits.
    pub fn from_vec(edits: Vec<EditLine>) -> Edits
        ensures { result ≡ edits.items }
    {
        Edits(edits)
    }

    /// The edits as a slice.
    pub fn as_slice(&self) -> &[EditLine]
        ensures { result.now ≡ self.now }
    {
        self.0.as_slice()
    }

    /// The edits as a vector.
    pub fn into_vec(self) -> Vec<EditLine>
        ensures { result.items ≡ self }
    {
        self.0
    }
}
