//! The nodes and the interface that a run starts from.
ghost use Rattle.std.specs.Prelude.{◌≡◌, [], ◌∷◌, IsTrue, IfOk, map, option_to_list};
ghost use Rattle.vg_model.specs.Start.{start_graph, node as node_record};
ghost use Rattle.vg_model.specs.Name.{is_name};
ghost use Rattle.vg_graph.specs.View.{node_of};

use crate::nodes::Node;
use arrayvec::ArrayVec;
use std::alloc::{AllocError, Global};
use vg_model::{Interface, Kind, Mac, Name};

/// The name of this text.
fn name_of(text: &str) -> Name
    requires { IsTrue (is_name text.now) }
    ensures { result ≡ text.now }
{
    Name::of(text.as_bytes()).unwrap()
}

/// A node whose slot, where its kind has one, leads to this node.
fn start_node(text: &str, kind: Kind, next: Option<u16>) -> Node
    requires { IsTrue (is_name text.now) }
    ensures { node_of result ≡ node_record text.now kind (option_to_list next) }
{
    let mut arcs = ArrayVec::new();
    if let Some(next) = next {
        arcs.push(next);
    }
    Node {
        name: name_of(text),
        kind,
        arcs,
    }
}

/// The nodes, by number.
pub fn start_nodes(alloc: Global) -> Result<Vec<Node>, AllocError>
    ensures { IfOk result (λ nodes. map node_of nodes.items ≡ start_graph.nodes) }
{
    let nodes = vec![in alloc;
        start_node("pg-input", Kind::PgInput, Some(2)),
        start_node("handoff-dequeue", Kind::HandoffDequeue, None),
        start_node("ethernet-input", Kind::EthernetInput, Some(3)),
        start_node("ip4-input", Kind::Ip4Input, Some(4)),
        start_node("ip4-lookup", Kind::Ip4Lookup, Some(5)),
        start_node("ip4-rewrite", Kind::Ip4Rewrite, Some(6)),
        start_node("interface-output", Kind::InterfaceOutput, Some(7)),
        start_node("interface-tx", Kind::InterfaceTx, None),
        start_node("error-drop", Kind::ErrorDrop, None),
    ]?;
    Ok(nodes)
}

/// Interface 0.
pub fn start_interface() -> Interface
    ensures { start_graph.interfaces ≡ result ∷ [] }
{
    Interface {
        name: name_of("pg0"),
        mac: Mac([0x02, 0xfe, 0, 0, 0, 0]),
        mtu: 9000,
        up: true,
        filter: false,
    }
}
