//! Tests of the reader, of its refusals, of the lists of a script, and of its text.

mod prefixes;
mod spellings;
mod writing;

use std::alloc::Global;
use std::process::Abort;
use std::str;
use vg_model::{Edit, EditLine, Edits, HashKind, Kind, Mac, Names, RouteWord, VlanId};
use vg_script::*;

/// Asserts that a text is refused at a line with a cause.
fn assert_refused(rt: &impl Abort, alloc: Global, text: &[u8], line: u32, cause: ScriptCause) {
    let words = str::from_utf8(text);
    match parse_script(alloc, text) {
        Ok(_) => assert!(rt; false, "read: {words:?}"),
        Err(error) => {
            assert_eq!(rt; (error.line, error.cause), (line, cause), "{words:?}");
        }
    }
}

#[test]
fn reads_nodes_arcs_and_comments(rt: HostRuntime) {
    let text = b"# \xff\n\nnode hand kind handoff-dst\r\n\tarc  hand resume ethernet-input # on";
    let script = parse_script(rt.alloc(), text).expect(&rt, "a script");
    let edits = script.start.as_slice();
    assert_eq!(rt; edits.len(), 2);
    assert_eq!(rt; edits[0].line, 3);
    match &edits[0].edit {
        Edit::Node { name, kind } => {
            assert_eq!(rt; name.as_str(), "hand");
            assert_eq!(rt; *kind, Kind::WorkerHandoff(HashKind::Dst));
        }
        _ => assert!(rt; false, "no node"),
    }
    assert_eq!(rt; edits[1].line, 4);
    match &edits[1].edit {
        Edit::Arc { from, slot, to } => {
            assert_eq!(rt; from.as_str(), "hand");
            assert_eq!(rt; slot.as_str(), "resume");
            assert_eq!(rt; to.as_str(), "ethernet-input");
        }
        _ => assert!(rt; false, "no arc"),
    }
    assert_eq!(rt; script.blocks.as_slice().len(), 0);
}

/// Asserts that these are the names.
fn assert_names(rt: &impl Abort, names: &Names, expected: &[&str]) {
    assert_eq!(rt; names.as_slice().len(), expected.len());
    for (name, text) in names.as_slice().iter().zip(expected) {
        assert_eq!(rt; name.as_str(), *text);
    }
}

#[test]
fn reads_interfaces_and_routes(rt: HostRuntime) {
    let text =
        b"interface lan mac 0A:ff:00:00:00:01 mtu 1500 up filter\nroute 10.1.0.0/16 via next\n";
    let script = parse_script(rt.alloc(), text).expect(&rt, "a script");
    let edits = script.start.as_slice();
    assert_eq!(rt; edits.len(), 2);
    match &edits[0].edit {
        Edit::Interface {
            name,
            mac,
            mtu,
            up,
            filter,
        } => {
            assert_eq!(rt; name.as_str(), "lan");
            assert_eq!(rt; *mac, Mac([10, 255, 0, 0, 0, 1]));
            assert_eq!(rt; *mtu, 1500);
            assert!(rt; *up);
            assert!(rt; *filter);
        }
        _ => assert!(rt; false, "no interface"),
    }
    match &edits[1].edit {
        Edit::Route {
            prefix,
            to: RouteWord::Via(names),
        } => {
            assert_eq!(rt; prefix.addr, 0x0a01_0000);
            assert_eq!(rt; prefix.len, 16);
            assert_names(&rt, names, &["next"]);
        }
        _ => assert!(rt; false, "no route"),
    }
}

#[test]
fn a_route_names_1_to_16_adjacencies(rt: HostRuntime) {
    let alloc = rt.alloc();
    let sixteen = b"route 0.0.0.0/0 via a,b,c,d,e,f,g,h,i,j,k,l,m,n,o,p\n";
    let script = parse_script(alloc, sixteen).expect(&rt, "a script");
    let text = print_script(alloc, &script).expect(&rt, "memory");
    assert_eq!(rt; text.as_slice(), sixteen.as_slice());
    let refused: [&[u8]; 4] = [
        b"route 10.0.0.0/8 via a,b:c",
        b"route 10.0.0.0/8 via a,b;c d",
        b"route 10.0.0.0/8 via a,012345678901234567890123456789012",
        b"route 0.0.0.0/0 via a,b,c,d,e,f,g,h,i,j,k,l,m,n,o,p,q",
    ];
    for text in refused {
        assert_refused(&rt, alloc, text, 1, ScriptCause::Name);
    }
    assert_refused(
        &rt,
        alloc,
        b"route 10.0.0.0/8 via a b",
        1,
        ScriptCause::Word,
    );
    assert_refused(&rt, alloc, b"route 10.0.0.0/8 via", 1, ScriptCause::Word);
}

/// The kind of the one node of a script.
fn read_kind(rt: &impl Abort, alloc: Global, word: &str) -> Kind {
    let mut text = Vec::new(alloc);
    text.extend_from_slice(b"node a kind ").expect(rt, "memory");
    text.extend_from_slice(word.as_bytes()).expect(rt, "memory");
    text.extend_from_slice(b"\n").expect(rt, "memory");
    let script = parse_script(alloc, &text).expect(rt, "a script");
    let printed = print_script(alloc, &script).expect(rt, "memory");
    assert!(rt; printed.as_slice() == text.as_slice());
    match script.start.as_slice() {
        [
            EditLine {
                edit: Edit::Node { kind, .. },
                ..
            },
        ] => *kind,
        _ => panic!(rt; "not one node"),
    }
}

#[test]
fn kinds_with_and_without_numbers_are_read(rt: HostRuntime) {
    let kinds = [
        ("ethernet-dual", Kind::EthernetDual),
        ("ip6-input", Kind::Ip6Input),
        ("ip6-lookup", Kind::Ip6Lookup),
        ("ip6-rewrite", Kind::Ip6Rewrite),
        ("dot1q-match-1", Kind::Dot1qMatch(VlanId { number: 1 })),
        (
            "dot1q-match-4094",
            Kind::Dot1qMatch(VlanId { number: 4094 }),
        ),
        ("dot1q-push-200", Kind::Dot1qPush(VlanId { number: 200 })),
        (
            "dot1q-rewrite-300",
            Kind::Dot1qRewrite(VlanId { number: 300 }),
        ),
        ("xconnect-0", Kind::CrossConnect(0)),
        ("xconnect-15", Kind::CrossConnect(15)),
        ("pass", Kind::Pass),
    ];
    for (word, kind) in kinds {
        assert_eq!(rt; read_kind(&rt, rt.alloc(), word), kind, "{word}");
    }
    let refused: [&[u8]; 14] = [
        b"node x kind dot1q-push-0",
        b"node x kind dot1q-push-",
        b"node x kind dot1q-push",
        b"node x kind dot1q-match-4095",
        b"node x kind dot1q-match-01",
        b"node x kind dot1q-match-+1",
        b"node x kind dot1q-match--1",
        b"node x kind dot1q-match-1x",
        b"node x kind dot1q-rewrite-65537",
        b"node x kind xconnect-16",
        b"node x kind xconnect-00",
        b"node x kind xconnect-",
        b"node x kind Xconnect-1",
        b"node x kind dot1q-match-18446744073709551617",
    ];
    for text in refused {
        assert_refused(&rt, rt.alloc(), text, 1, ScriptCause::Kind);
    }
}

#[test]
fn the_first_fault_of_the_first_faulty_line_is_named(rt: HostRuntime) {
    let alloc = rt.alloc();
    assert_refused(
        &rt,
        alloc,
        b"node a kind pass\n# b\nnode b\narcs",
        3,
        ScriptCause::Word,
    );
    assert_refused(&rt, alloc, b"node a:b kinds pass", 1, ScriptCause::Name);
    assert_refused(
        &rt,
        alloc,
        b"adjacency a interface b dst 02:00",
        1,
        ScriptCause::Mac,
    );
    assert_refused(&rt, alloc, b"route 10.0.0.1/8 drop", 1, ScriptCause::Prefix);
    assert_refused(&rt, alloc, b"node a kind pg-input", 1, ScriptCause::Kind);
    assert_refused(&rt, alloc, b"at 01", 1, ScriptCause::Number);
    assert_refused(&rt, alloc, b"arcs \x00 # a", 1, ScriptCause::Bytes);
}

/// Asserts that there is one edit, on this line.
fn assert_line(rt: &impl Abort, edits: &Edits, line: u32) {
    let edits = edits.as_slice();
    assert_eq!(rt; edits.len(), 1);
    assert_eq!(rt; edits[0].line, line);
}

/// A process of two groups, and a block at the time of its first run.
fn process_and_block() -> &'static [u8] {
    b"adjacency east interface pg0 dst 02:00:00:00:00:09
route 10.0.0.0/8 via east
process p every 100 count 3
route 10.0.0.0/8 drop
then
route 10.0.0.0/8 via east
end
at 100
route 10.0.0.0/8 local
end
"
}

#[test]
fn reads_a_process_and_a_block(rt: HostRuntime) {
    let script = parse_script(rt.alloc(), process_and_block()).expect(&rt, "a script");
    assert_eq!(rt; script.start.as_slice().len(), 2);
    let blocks = script.blocks.as_slice();
    assert_eq!(rt; blocks.len(), 2);
    match &blocks[0] {
        Block::Process {
            line,
            name,
            every,
            count,
            groups,
        } => {
            assert_eq!(rt; *line, 3);
            assert_eq!(rt; name.as_str(), "p");
            assert_eq!(rt; *every, 100);
            assert_eq!(rt; *count, 3);
            let groups = groups.as_slice();
            assert_eq!(rt; groups.len(), 2);
            assert_line(&rt, &groups[0], 4);
            assert_line(&rt, &groups[1], 6);
        }
        Block::At { .. } => assert!(rt; false, "no process"),
    }
    match &blocks[1] {
        Block::At { line, time, edits } => {
            assert_eq!(rt; *line, 8);
            assert_eq!(rt; *time, 100);
            assert_line(&rt, edits, 9);
        }
        Block::Process { .. } => assert!(rt; false, "a process"),
    }
}

#[test]
fn what_was_read_is_printed_and_read_again(rt: HostRuntime) {
    let alloc = rt.alloc();
    let script = parse_script(alloc, process_and_block()).expect(&rt, "a script");
    let text = print_script(alloc, &script).expect(&rt, "memory");
    assert_eq!(rt; text.as_slice(), process_and_block());
    let again = parse_script(alloc, text.as_slice()).expect(&rt, "a script");
    assert_eq!(rt; again.blocks.as_slice().len(), 2);
    laws::events_are_in_order();
    laws::events_are_few();
}

#[test]
fn a_block_stands_in_no_block(rt: HostRuntime) {
    let alloc = rt.alloc();
    assert_refused(&rt, alloc, b"then", 1, ScriptCause::Block);
    assert_refused(&rt, alloc, b"end of", 1, ScriptCause::Block);
    assert_refused(&rt, alloc, b"at 5\nat 01\nend", 2, ScriptCause::Block);
    assert_refused(&rt, alloc, b"at 5\nprocess\nend", 2, ScriptCause::Block);
    assert_refused(&rt, alloc, b"at 5\nthen\nend", 2, ScriptCause::Block);
    assert_refused(&rt, alloc, b"at 5\nend\nend", 3, ScriptCause::Block);
    assert_refused(&rt, alloc, b"at 5", 1, ScriptCause::Block);
    assert_refused(
        &rt,
        alloc,
        b"process p every 1 count 1\nthen\n\n# begun\n",
        4,
        ScriptCause::Block,
    );
}

#[test]
fn a_script_has_at_most_999_events(rt: HostRuntime) {
    let alloc = rt.alloc();
    let script = parse_script(alloc, b"process p every 1 count 998\nthen\nend\nat 1\nend").expect(
        &rt, "a script",
    );
    assert_eq!(rt; script.blocks.as_slice().len(), 2);
    assert_refused(
        &rt,
        alloc,
        b"process p every 1 count 999\nend\nat 1",
        3,
        ScriptCause::TooManyGenerations,
    );
    assert_refused(
        &rt,
        alloc,
        b"at 1\nend\nprocess p every 1 count 999",
        3,
        ScriptCause::TooManyGenerations,
    );
}

#[test]
fn a_text_of_more_than_262144_bytes_is_too_large(rt: HostRuntime) {
    let mut text = vec![in rt.alloc(); b'#'; 262_144].expect(&rt, "memory");
    let script = parse_script(rt.alloc(), &text).expect(&rt, "a script");
    assert_eq!(rt; script.start.as_slice().len(), 0);
    text.push(b'#').expect(&rt, "memory");
    assert_refused(&rt, rt.alloc(), &text, 0, ScriptCause::TooLarge);
}

#[test]
fn a_cause_has_a_word(rt: HostRuntime) {
    assert_eq!(rt;
        ScriptCause::TooManyGenerations.word(),
        "too-many-generations"
    );
}

#[test]
fn lists_keep_what_is_put_in(rt: HostRuntime) {
    let mut groups = Vec::new(rt.alloc());
    groups
        .push(Edits::from_vec(Vec::new(rt.alloc())))
        .expect(&rt, "memory");
    let groups = Groups::from_vec(groups);
    assert_eq!(rt; groups.as_slice().len(), 1);
    assert_eq!(rt; groups.into_vec().len(), 1);
    let mut blocks = Vec::new(rt.alloc());
    blocks
        .push(Block::At {
            line: 1,
            time: 5,
            edits: Edits::from_vec(Vec::new(rt.alloc())),
        })
        .expect(&rt, "memory");
    let blocks = Blocks::from_vec(blocks);
    assert_eq!(rt; blocks.as_slice().len(), 1);
    assert_eq!(rt; blocks.into_vec().len(), 1);
}
