//! Tests of drawings: graphs with nodes of all forms of kinds, and routes. The calls of `vgdraw` draw with reports that were read.

use std::alloc::Global;
use std::process::Abort;
use std::test::Fail;
use vg_draw::laws::{arcs_stand_once, lines_end_at_nodes, nodes_stand_once};
use vg_draw::{Routes, draw};
use vg_graph::Graph;
use vg_model::{Edit, Kind, Name};
use vg_plan::{Generations, Master, Plan};
use vg_report::{Report, read_report};
use vg_script::parse_script;

/// No routes.
fn none() -> Routes<'static> {
    Routes { ip4: &[], ip6: &[] }
}

/// The routes of a graph.
fn routes_of(master: &Master) -> Routes<'_> {
    Routes {
        ip4: master.fib().routes(),
        ip6: master.fib6().routes(),
    }
}

#[test]
fn the_start_graph_is_drawn(rt: HostRuntime) -> Result<(), Fail> {
    nodes_stand_once();
    arcs_stand_once();
    lines_end_at_nodes();
    let graph = Graph::start(rt.alloc())?;
    let mut out = Vec::new(rt.alloc());
    draw(&mut out, &None, 0, 0, none(), &graph, none())?;
    let text = "digraph \"generation 0\" {
  label=\"generation 0, from 0 us\";
  labelloc=t;
  node [shape=box];
  wire [shape=point];
  n0 [label=\"pg-input\"];
  n2 [label=\"ethernet-input\"];
  n3 [label=\"ip4-input\"];
  n4 [label=\"ip4-lookup\"];
  n5 [label=\"ip4-rewrite\"];
  n6 [label=\"interface-output\"];
  n7 [label=\"interface-tx\"]; n7 -> wire [style=dashed];
  n0 -> n2 [label=\" out\"];
  n2 -> n3 [label=\" ip4\"];
  n3 -> n4 [label=\" lookup\"];
  n4 -> n5 [label=\" rewrite\"];
  n5 -> n6 [label=\" output\"];
  n6 -> n7 [label=\" tx\"];
  i0 [shape=house, label=\"pg0\\n02:fe:00:00:00:00\\nmtu 9000 up\"]; wire -> i0 [style=dashed];
}
";
    assert_eq!(rt; out.as_slice(), text.as_bytes());
    Ok(())
}

/// The drawing of a script's first generation, with a report or without one.
fn drawn(
    rt: &impl Abort,
    alloc: Global,
    script: &[u8],
    report: &Option<Report>,
) -> Result<Vec<u8>, Fail> {
    let script = parse_script(alloc, script).expect(rt, "a script");
    let plan = Plan::new(alloc, script).expect(rt, "a plan");
    let generations = Generations::of(alloc, &plan).expect(rt, "memory");
    let master = generations.master();
    let routes = routes_of(master);
    let mut out = Vec::new(alloc);
    draw(&mut out, report, 0, 0, routes, master.graph(), routes)?;
    Ok(out)
}

/// Whether these lines stand in a text, one behind the other.
pub fn has(text: &[u8], lines: &str) -> bool {
    !lines.is_empty()
        && text
            .windows(lines.len())
            .any(|window| window == lines.as_bytes())
}

/// Nodes of kinds with a number, and with two slots.
const TAGGED: &[u8] = b"node cut kind dot1q-match-100
node both kind ethernet-dual
node cross kind xconnect-3
arc cut match both
arc cut else ethernet-input
arc both ip4 ip4-input
arc both ip6 cross
arc cross out interface-output
arc pg-input out cut
";

#[test]
fn kinds_with_a_number_and_with_two_slots_are_drawn(rt: HostRuntime) -> Result<(), Fail> {
    let text = drawn(&rt, rt.alloc(), TAGGED, &None)?;
    let nodes = "  n9 [label=\"cut\\ndot1q-match-100\"];
  n10 [label=\"both\\nethernet-dual\"];
  n11 [label=\"cross\\nxconnect-3\"];
  n0 -> n9 [label=\" out\"];
";
    let arcs = "  n9 -> n10 [label=\" match\"];
  n9 -> n2 [label=\" else\"];
  n10 -> n3 [label=\" ip4\"];
  n10 -> n11 [label=\" ip6\"];
  n11 -> n6 [label=\" out\"];
  i0 [";
    assert!(rt; has(&text, nodes));
    assert!(rt; has(&text, arcs));
    Ok(())
}

/// What a run over these nodes counted: of five packets `cut` dropped two, and `both` the others.
const COUNTED: &[u8] = b"vgd report 1
workers 1
buffers 4096
generations 1
packets 0
interface 0 pg0 tx 0
node 0 pg-input 5
node 1 handoff-dequeue 0
node 2 ethernet-input 0
node 3 ip4-input 0
node 4 ip4-lookup 0
node 5 ip4-rewrite 0
node 6 interface-output 0
node 7 interface-tx 0
node 8 error-drop 5
node 9 cut 5
node 10 both 3
node 11 cross 0
error cut bad-length 2
error both unknown-type 3
end
";

#[test]
fn arcs_have_a_count_where_it_is_known(rt: HostRuntime) -> Result<(), Fail> {
    let alloc = rt.alloc();
    let report = read_report(alloc, COUNTED).map_err(|_| "a faulty report")?;
    let text = drawn(&rt, alloc, TAGGED, &Some(report))?;
    let nodes = "  n9 [label=\"cut\\ndot1q-match-100\\nvisits 5\"];
  n10 [label=\"both\\nethernet-dual\\nvisits 3\"];
  n11 [label=\"cross\\nxconnect-3\\nvisits 0\", color=grey, fontcolor=grey];
";
    let arcs = "  n9 -> n10 [label=\" match\"];
  n9 -> n2 [label=\" else\"];
  n10 -> n3 [label=\" ip4 0\", color=grey, fontcolor=grey];
  n10 -> n11 [label=\" ip6 0\", color=grey, fontcolor=grey];
";
    let drops = "  n9 -> n8 [label=\" bad-length 2\", penwidth=1, color=red, fontcolor=red];
  n10 -> n8 [label=\" unknown-type 3\", penwidth=1, color=red, fontcolor=red];
  i0 [";
    assert!(rt; has(&text, nodes));
    assert!(rt; has(&text, arcs));
    assert!(rt; has(&text, drops));
    assert!(rt; has(&text, "  n8 [label=\"error-drop\\nvisits 5\"];\n"));
    assert!(rt; !has(&text, "  n1 ["));
    assert!(rt; has(&text, "  label=\"generation 0, from 0 us, 0 packets\";\n"));
    Ok(())
}

#[test]
fn a_kind_is_drawn_by_its_name_where_scripts_have_no_word(rt: HostRuntime) -> Result<(), Fail> {
    let mut graph = Graph::start(rt.alloc())?;
    let name = Name::of(b"far").ok_or("no name")?;
    graph.apply(&Edit::Node {
        name,
        kind: Kind::CrossConnect(200),
    })?;
    let mut out = Vec::new(rt.alloc());
    draw(&mut out, &None, 0, 0, none(), &graph, none())?;
    assert!(rt; has(&out, "  n9 [label=\"far\\nxconnect-200\"];\n"));
    assert!(rt; has(&out, "  n9 -> n8 [label=\" out\"];\n"));
    assert!(rt; has(&out, "  n8 [label=\"error-drop\"];\n"));
    Ok(())
}

/// Three neighbors, routes over one and over several of them, and an interface that is down.
const ROUTED: &[u8] = b"interface pg0 mac 02:fe:00:00:00:00 mtu 9000 down
adjacency a interface pg0 dst 02:00:00:00:00:0a
adjacency b interface pg0 dst 02:00:00:00:00:0b
adjacency c interface pg0 dst 02:00:00:00:00:0c
route 10.1.0.0/16 via a
route 10.2.0.0/16 via a,b
route 10.3.0.0/16 drop
route6 2001:db8::/32 via b,b
route6 2001:db8:0:0:1::abcd/128 via b
route6 ::/0 via b
route6 fe80::/10 local
";

#[test]
fn a_neighbor_has_the_prefixes_that_are_routed_over_it(rt: HostRuntime) -> Result<(), Fail> {
    let text = drawn(&rt, rt.alloc(), ROUTED, &None)?;
    let end = "
  i0 [shape=house, label=\"pg0\\n02:fe:00:00:00:00\\nmtu 9000 down\", color=red, fontcolor=red]; wire -> i0 [style=dashed];
  a0 [style=rounded, label=<a<BR/>02:00:00:00:00:0a<BR/>10.1.0.0/16<BR/>10.2.0.0/16>]; i0 -> a0 [style=dashed];
  a1 [style=rounded, label=<b<BR/>02:00:00:00:00:0b<BR/>10.2.0.0/16<BR/>2001:db8::/32<BR/>2001:db8:0:0:1:0:0:abcd/128<BR/>::/0>]; i0 -> a1 [style=dashed];
  a2 [style=rounded, label=<c<BR/>02:00:00:00:00:0c>]; i0 -> a2 [style=dashed];
}
";
    assert!(rt; text.ends_with(end.as_bytes()));
    Ok(())
}

/// Ten routes over one neighbor.
const MANY: &[u8] = b"adjacency a interface pg0 dst 02:00:00:00:00:0a
route 10.1.0.0/16 via a
route 10.2.0.0/16 via a
route 10.3.0.0/16 via a
route 10.4.0.0/16 via a
route 10.5.0.0/16 via a
route 10.6.0.0/16 via a
route 10.7.0.0/16 via a
route6 2001:db8:1::/48 via a
route6 2001:db8:2::/48 via a
route6 2001:db8:3::/48 via a
";

#[test]
fn eight_prefixes_stand_at_a_neighbor(rt: HostRuntime) -> Result<(), Fail> {
    let text = drawn(&rt, rt.alloc(), MANY, &None)?;
    let end =
        "<BR/>10.7.0.0/16<BR/>2001:db8:1::/48<BR/>and 2 more>]; i0 -> a0 [style=dashed];\n}\n";
    assert!(rt; text.ends_with(end.as_bytes()));
    Ok(())
}
