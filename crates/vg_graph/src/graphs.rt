//! The graph, its readers and its edits.
ghost use Rattle.std.specs.Prelude.{◌≡◌, ◌<◌, Some, IfSome, IfOk, OnErr, MatchResult, length, slice_get, option_map};
ghost use Rattle.vg_model.specs.Graph.{kind_at, slots, arc as arc_of};
ghost use Rattle.vg_model.specs.Start.{start_graph};
ghost use Rattle.vg_model.specs.Valid.{IsMac};
ghost use Rattle.vg_model.specs.Edit.{node_named, interface_named, adjacency_named, leads, with_arc, with_node, with_interface, apply};
ghost use Rattle.vg_graph.specs.Refusals.{IsGraphEdit, IsRefusedBy, Answers, placed_adjacency};

use crate::addresses::know_mac;
use crate::errors::GraphError;
use crate::lists::{append, copy_list, place_named, put};
use crate::nodes::Node;
use crate::search::Search;
use crate::start::{start_interface, start_nodes};
use std::alloc::Global;
use std::marker::Model;
use vg_model::limits::{MOST_ADJACENCIES, MOST_INTERFACES, MOST_NODES};
use vg_model::{Adjacency, Edit, Interface, Kind, Mac, Memory, Name};

/// A graph of nodes whose slots lead to nodes, with interfaces and adjacencies.
///
/// Each slot of each node leads to a node, and no walk over arcs comes back to a node.
#[derive(Drop)]
pub struct Graph {
    nodes: Vec<Node>,
    interfaces: Vec<Interface>,
    adjacencies: Vec<Adjacency>,
}

impl Model for Graph {
    ghost use Rattle.vg_model.specs.Graph.{Graph as WholeGraph};

    ghost Value = { WholeGraph };

    ghost use Rattle.vg_graph.specs.View.{whole, IsKept};

    ghost view = { whole };

    ghost invariant = { λ g. IsKept (whole g) };
}

impl Graph {
    ghost use Rattle.vg_graph.specs.View.{IsKept};
    ghost use Rattle.vg_graph.specs.NewArc.{IsNewArc};

    /// How many nodes there are.
    pub fn nodes(&self) -> u16
        ensures count { result ≡ length self.now.nodes }
        ensures kept { IsKept self.now }
    {
        self.nodes.len() as u16
    }

    /// How many interfaces there are.
    pub fn interfaces(&self) -> u16
        ensures { result ≡ length self.now.interfaces }
    {
        self.interfaces.len() as u16
    }

    /// How many adjacencies there are.
    pub fn adjacencies(&self) -> u16
        ensures { result ≡ length self.now.adjacencies }
    {
        self.adjacencies.len() as u16
    }

    /// The name of a node.
    pub fn node_name(&self, n: u16) -> &Name
        requires { n < length self.now.nodes }
        ensures { option_map (λ node. node.name) (slice_get self.now.nodes n) ≡ Some result.now }
    {
        &self.nodes[n as usize].name
    }

    /// The kind of a node.
    pub fn kind(&self, n: u16) -> Kind
        requires { n < length self.now.nodes }
        ensures { kind_at self.now n ≡ Some result }
    {
        self.nodes[n as usize].kind
    }

    /// The node that a slot of a node leads to.
    pub fn arc(&self, n: u16, slot: u8) -> u16
        requires node { n < length self.now.nodes }
        requires slot { IfSome (kind_at self.now n) (λ kind. slot < length (slots kind)) }
        ensures { arc_of self.now n slot ≡ Some result }
    {
        self.nodes[n as usize].arcs[slot as usize]
    }

    /// An interface.
    pub fn interface_at(&self, n: u16) -> &Interface
        requires { n < length self.now.interfaces }
        ensures { slice_get self.now.interfaces n ≡ Some result.now }
    {
        &self.interfaces[n as usize]
    }

    /// An adjacency.
    pub fn adjacency_at(&self, n: u16) -> &Adjacency
        requires { n < length self.now.adjacencies }
        ensures { slice_get self.now.adjacencies n ≡ Some result.now }
    {
        &self.adjacencies[n as usize]
    }

    /// The number of the node of this name; `None` where there is none.
    pub fn node(&self, name: &Name) -> Option<u16>
        ensures number { result ≡ node_named self.now name.now }
        ensures within { IfSome result (λ n. n < length self.now.nodes) }
    {
        place_named(self.nodes.as_slice(), name)
    }

    /// The number of the interface of this name; `None` where there is none.
    pub fn interface(&self, name: &Name) -> Option<u16>
        ensures number { result ≡ interface_named self.now name.now }
        ensures within { IfSome result (λ n. n < length self.now.interfaces) }
    {
        place_named(self.interfaces.as_slice(), name)
    }

    /// The number of the adjacency of this name; `None` where there is none.
    pub fn adjacency(&self, name: &Name) -> Option<u16>
        ensures number { result ≡ adjacency_named self.now name.now }
        ensures within { IfSome result (λ n. n < length self.now.adjacencies) }
    {
        place_named(self.adjacencies.as_slice(), name)
    }

    // Whether a walk over arcs leads from a node to another.
    fn leads(&self, from: u16, to: u16) -> bool
        requires from { from < length self.now.nodes }
        requires to { to < length self.now.nodes }
        ensures { result ≡ leads self.now (length self.now.nodes) from to }
    {
        let nodes = self.nodes.as_slice();
        let mut search = Search::from(from);
        while let Some(node) = search.next() {
            search.reach_all(nodes[node as usize].arcs.as_slice());
        }
        search.has_reached(to)
    }

    // The arc of these names, where it may be set.
    fn checked_arc(&self, from: &Name, slot: &Name, to: &Name) -> Result<NewArc, GraphError>
        ensures { MatchResult result (IsNewArc self.now from.now slot.now to.now) (IsRefusedBy (with_arc self.now from.now slot.now to.now)) }
    {
        let node = self.node(from).ok_or(GraphError::UnknownNode)?;
        let slot = self
            .kind(node)
            .slot(slot.bytes())
            .ok_or(GraphError::UnknownSlot)?;
        let target = self.node(to).ok_or(GraphError::UnknownNode)?;
        if self.kind(target).is_source() {
            return Err(GraphError::BadTarget);
        }
        if self.leads(target, node) {
            return Err(GraphError::Cycle);
        }
        Ok(NewArc { node, slot, target })
    }

    fn set_arc(&mut self, from: &Name, slot: &Name, to: &Name) -> Result<(), GraphError>
        ensures answer { Answers (with_arc self.old from.now slot.now to.now) self.new result }
        ensures same { OnErr result (self.new ≡ self.old) }
    {
        let arc = self.checked_arc(from, slot, to)?;
        self.nodes[arc.node as usize].set_arc(arc.slot, arc.target);
        Ok(())
    }

    fn add_node(&mut self, name: &Name, kind: Kind) -> Result<(), GraphError>
        ensures answer { Answers (with_node self.old name.now kind) self.new result }
        ensures same { OnErr result (self.new ≡ self.old) }
    {
        if self.node(name).is_some() {
            return Err(GraphError::DoubleName);
        }
        append(&mut self.nodes, MOST_NODES, Node::new(name.copied(), kind))
    }

    fn set_interface(&mut self, interface: Interface) -> Result<(), GraphError>
        requires { IsMac interface.mac }
        ensures answer { Answers (with_interface self.old interface) self.new result }
        ensures same { OnErr result (self.new ≡ self.old) }
    {
        let place = self.interface(&interface.name);
        put(&mut self.interfaces, MOST_INTERFACES, place, interface)
    }

    fn set_adjacency(&mut self, adjacency: Adjacency) -> Result<(), GraphError>
        requires mac { IsMac adjacency.mac }
        requires interface { adjacency.interface < length self.old.interfaces }
        ensures answer { Answers (placed_adjacency self.old adjacency) self.new result }
        ensures same { OnErr result (self.new ≡ self.old) }
    {
        let place = self.adjacency(&adjacency.name);
        put(&mut self.adjacencies, MOST_ADJACENCIES, place, adjacency)
    }

    /// The graph as the edit makes it. After a refusal it is as it was. Edits of routes are none of a graph's own: they go to its tables of routes.
    ///
    /// An edit is refused for its first check that fails:
    /// - `Interface`: `TooMany` where the name is new and 16 interfaces are there.
    /// - `Node`: `DoubleName` where a node has the name; `TooMany` where 64 nodes are there.
    /// - `Arc`: `UnknownNode` where no node has the first name; `UnknownSlot` where its kind has no such slot;
    ///   `UnknownNode` where no node has the target's name; `BadTarget` where no arc may lead to the target's
    ///   kind, `PgInput` or `HandoffDequeue`; `Cycle` where one comes back to the node over arcs from the target, or the two are one.
    /// - `Adjacency`: `UnknownInterface` where no interface has the name; `TooMany` where the adjacency's name is new
    ///   and 256 adjacencies are there.
    ///
    /// `Memory` comes only where no check fails and memory runs out.
    pub fn apply(&mut self, edit: &Edit) -> Result<(), GraphError>
        requires { IsGraphEdit edit.now }
        ensures answer { Answers (apply self.old edit.now) self.new result }
        ensures same { OnErr result (self.new ≡ self.old) }
    {
        match edit {
            Edit::Interface {
                name,
                mac,
                mtu,
                up,
                filter,
            } => {
                know_mac(mac);
                self.set_interface(Interface {
                    name: name.copied(),
                    mac: *mac,
                    mtu: *mtu,
                    up: *up,
                    filter: *filter,
                })
            }
            Edit::Node { name, kind } => self.add_node(name, *kind),
            Edit::Arc { from, slot, to } => self.set_arc(from, slot, to),
            Edit::Adjacency {
                name,
                interface,
                mac,
            } => {
                know_mac(mac);
                match self.interface(interface) {
                    None => Err(GraphError::UnknownInterface),
                    Some(interface) => self.set_adjacency(Adjacency {
                        name: name.copied(),
                        interface,
                        mac: *mac,
                    }),
                }
            }
            Edit::Route { .. }
            | Edit::Unroute { .. }
            | Edit::Route6 { .. }
            | Edit::Unroute6 { .. } => unreachable!(),
        }
    }

    /// An equal graph. `Memory` comes where memory runs out.
    pub fn copy(&self, alloc: Global) -> Result<Graph, Memory>
        ensures { IfOk result (λ copy. copy ≡ self.now) }
    {
        Ok(Graph {
            nodes: copy_list(alloc, self.nodes.as_slice())?,
            interfaces: copy_list(alloc, self.interfaces.as_slice())?,
            adjacencies: copy_list(alloc, self.adjacencies.as_slice())?,
        })
    }

    /// The graph that a run starts from: nine nodes from `pg-input` to `error-drop`, the interface `pg0`, no adjacency.
    /// `Memory` comes where memory runs out.
    pub fn start(alloc: Global) -> Result<Graph, Memory>
        ensures { IfOk result (λ graph. graph ≡ start_graph) }
    {
        Ok(Graph {
            nodes: start_nodes(alloc)?,
            interfaces: vec![in alloc; start_interface()]?,
            adjacencies: Vec::new(alloc),
        })
    }
}

/// An arc from a slot of a node to a node, all by number.
#[derive(Clone, Copy)]
struct NewArc {
    node: u16,
    slot: u8,
    target: u16,
}
