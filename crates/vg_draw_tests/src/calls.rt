//! Calls over folders in memory.

use crate::draw::has;
use std::test::Fail;
use vg_drawing::draw_run;
use vg_outside::{SureFolder, SureSink};

/// The status and the printed text of a call over a script and a report.
fn drawn<R: AllocGlobal>(
    rt: &R,
    words: &[&str],
    script: &[u8],
    report: &[u8],
) -> Result<(u8, Vec<u8>), Fail> {
    let alloc = rt.alloc();
    let mut folder = SureFolder::new(alloc);
    folder.add("s", script)?;
    folder.add("r", report)?;
    let mut out = SureSink::new(alloc);
    let status = draw_run(alloc, words, &mut folder, &mut out);
    Ok((status, out.written().to_vec(alloc)?))
}

const REPORT: &[u8] = b"vgd report 1
workers 1
buffers 4096
generations 2
packets 0
interface 0 pg0 tx 1
node 0 pg-input 3
node 1 handoff-dequeue 0
node 2 ethernet-input 3
node 3 ip4-input 2
node 4 ip4-lookup 1
node 5 ip4-rewrite 0
node 6 interface-output 0
node 7 interface-tx 1
node 8 error-drop 2
error ethernet-input short 1
error ip4-input bad-length 1
end
";

#[test]
fn all_generations_are_drawn(rt: HostRuntime) -> Result<(), Fail> {
    let script =
        b"adjacency east interface pg0 dst 02:00:00:00:00:09\nroute 10.0.0.0/8 via east\nat 5\narc ethernet-input ip4 interface-tx\nroute 11.0.0.0/8 via east\nend\n";
    let (status, text) = drawn(&rt, &["--all", "s", "r"], script, REPORT)?;
    assert_eq!(rt; status, 0);
    assert!(rt; has(&text, "digraph \"generation 0\" {\n"));
    assert!(rt; has(&text, "digraph \"generation 1\" {\n"));
    assert!(rt; has(&text, "  n2 -> n3 [label=\" ip4 2\", penwidth=1];\n"));
    assert!(rt; has(&text, "  n2 -> n7 [label=\" ip4 2\", penwidth=1];\n"));
    assert!(rt; has(&text, "  n2 [label=\"ethernet-input\\nvisits 3\"];\n"));
    assert!(rt;
        has(
            &text,
            "  n2 -> n8 [label=\" short 1\", penwidth=1, color=red, fontcolor=red];\n"
        )
    );
    assert!(rt; has(&text, "  n3 -> n4 [label=\" lookup 1\", penwidth=1];\n"));
    assert!(rt;
        has(
            &text,
            "  n5 -> n6 [label=\" output 0\", color=grey, fontcolor=grey];\n"
        )
    );
    assert!(rt;
        has(
            &text,
            "  i0 [shape=house, label=\"pg0\\n02:fe:00:00:00:00\\nmtu 9000 up\"]; wire -> i0 [style=dashed, label=\" tx 1\", penwidth=1];\n"
        )
    );
    assert!(rt;
        has(
            &text,
            "  a0 [style=rounded, label=<east<BR/>02:00:00:00:00:09<BR/>10.0.0.0/8>]; i0 -> a0 [style=dashed];\n"
        )
    );
    assert!(rt;
        has(
            &text,
            "  a0 [style=rounded, label=<east<BR/>02:00:00:00:00:09<BR/>10.0.0.0/8<BR/><B>11.0.0.0/8</B>>]; i0 -> a0 [style=dashed];\n"
        )
    );
    assert!(rt; has(&text, "  label=\"generation 0, from 0 us, 0 packets\";\n"));
    assert!(rt; has(&text, "  label=\"generation 1, from 5 us, 0 packets\";\n"));
    let (status, one) = drawn(&rt, &["--generation", "1", "s"], script, REPORT)?;
    assert_eq!(rt; status, 0);
    assert!(rt; has(&one, "<B>11.0.0.0/8</B>") && has(&one, "1, from 5 us\";\n"));
    assert!(rt; !has(&one, "n2 -> n3") && has(&one, "n2 -> n7"));
    Ok(())
}

/// Of two packets, of which each goes to another of two neighbors.
const PICKED: &[u8] = b"vgd report 1
workers 1
buffers 4096
generations 1
packets 2
interface 0 pg0 tx 2
node 0 pg-input 2
node 1 handoff-dequeue 0
node 2 ethernet-input 2
node 3 ip4-input 2
node 4 ip4-lookup 2
node 5 ip4-rewrite 2
node 6 interface-output 2
node 7 interface-tx 2
node 8 error-drop 0
node 9 cut 0
node 10 both 0
packet 0 0:0 tx pg0
packet 1 0:0 tx pg0
end
";

#[test]
fn all_neighbors_and_all_slots_are_drawn(rt: HostRuntime) -> Result<(), Fail> {
    let script = b"adjacency e0 interface pg0 dst 02:00:00:00:00:10
adjacency e1 interface pg0 dst 02:00:00:00:00:11
route 10.1.0.0/16 via e0,e1
route6 2001:db8::/32 via e1,e1,e0
node cut kind dot1q-match-100
node both kind ethernet-dual
arc cut else both
arc both ip4 ip4-input
";
    let (status, text) = drawn(&rt, &["s", "r"], script, PICKED)?;
    assert_eq!(rt; status, 0);
    for line in [
        "  label=\"generation 0, from 0 us, 2 packets\";\n",
        "  a0 [style=rounded, label=<e0<BR/>02:00:00:00:00:10<BR/>10.1.0.0/16<BR/>2001:db8::/32>]; i0 -> a0 [style=dashed];\n",
        "  a1 [style=rounded, label=<e1<BR/>02:00:00:00:00:11<BR/>10.1.0.0/16<BR/>2001:db8::/32>]; i0 -> a1 [style=dashed];\n",
        "  i0 [shape=house, label=\"pg0\\n02:fe:00:00:00:00\\nmtu 9000 up\"]; wire -> i0 [style=dashed, label=\" tx 2\", penwidth=5];\n",
        "  n4 -> n5 [label=\" rewrite 2\", penwidth=5];\n",
        "  n9 [label=\"cut\\ndot1q-match-100\\nvisits 0\", color=grey, fontcolor=grey];\n",
        "  n9 -> n8 [label=\" match 0\", color=grey, fontcolor=grey];\n",
        "  n9 -> n10 [label=\" else 0\", color=grey, fontcolor=grey];\n",
        "  n10 -> n3 [label=\" ip4 0\", color=grey, fontcolor=grey];\n",
        "  n10 -> n8 [label=\" ip6 0\", color=grey, fontcolor=grey];\n",
    ] {
        assert!(rt; has(&text, line), "{line}");
    }
    Ok(())
}

#[test]
fn refusals_have_their_status_and_their_line(rt: HostRuntime) -> Result<(), Fail> {
    let (status, text) = drawn(&rt, &[], b"", b"")?;
    assert!(rt; status == 2 && text.as_slice() == b"usage\n".as_slice());
    let (status, text) = drawn(&rt, &["--generation", "1", "s"], b"", b"")?;
    assert!(rt; status == 2 && text.as_slice() == b"usage\n".as_slice());
    let (status, text) = drawn(&rt, &["x"], b"", b"")?;
    assert!(rt; status == 3 && text.as_slice() == b"load x\n".as_slice());
    let (status, text) = drawn(&rt, &["s"], b"\narc a b c\n", b"")?;
    assert!(rt; status == 5 && text.as_slice() == b"script 2 unknown-node\n".as_slice());
    let (status, text) = drawn(&rt, &["s", "r"], b"", b"vgd report 1\nworkers 9\n")?;
    assert!(rt; status == 9 && text.as_slice() == b"report 2 number\n".as_slice());
    Ok(())
}
