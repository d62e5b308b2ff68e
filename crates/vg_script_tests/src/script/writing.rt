//! Whole scripts as text.
ghost use Rattle.std.specs.Prelude.{◌≡◌};

use std::alloc::Global;
use std::process::Abort;
use vg_model::{Edit, EditLine, Edits, HashKind, Kind, Mac, Name, Names, Prefix, RouteWord};
use vg_script::{Block, Blocks, Script, laws, parse_script, print_script};

fn name(rt: &impl Abort, text: &[u8]) -> Name
    ensures { result ≡ text.now }
{
    Name::of(text).expect(rt, "a name")
}

// A line for an edit; which one is of no matter.
fn line(edit: Edit) -> EditLine
    ensures { result.edit ≡ edit }
{
    EditLine { line: 7, edit }
}

#[test]
fn every_edit_has_its_words(rt: HostRuntime) {
    let alloc = rt.alloc();
    let neighbors = vec![in alloc; name(&rt, b"east"), name(&rt, b"west")].expect(&rt, "memory");
    let neighbors = Names::from_vec(neighbors);
    let edits = vec![in alloc;
        line(Edit::Interface {
            name: name(&rt, b"pg0"),
            mac: Mac([0x02, 0xfe, 0x00, 0x9a, 0xa9, 0xff]),
            mtu: 65535,
            up: true,
            filter: true,
        }),
        line(Edit::Interface {
            name: name(&rt, b"lan_1.b"),
            mac: Mac([0, 1, 2, 3, 4, 5]),
            mtu: 68,
            up: false,
            filter: false,
        }),
        line(Edit::Node {
            name: name(&rt, b"hand"),
            kind: Kind::WorkerHandoff(HashKind::Dst),
        }),
        line(Edit::Arc {
            from: name(&rt, b"hand"),
            slot: name(&rt, b"resume"),
            to: name(&rt, b"ethernet-input"),
        }),
        line(Edit::Adjacency {
            name: name(&rt, b"east"),
            interface: name(&rt, b"pg0"),
            mac: Mac([2, 0, 0, 0, 0, 9]),
        }),
        line(Edit::Route {
            prefix: Prefix { addr: 0, len: 0 },
            to: RouteWord::Via(neighbors),
        }),
        line(Edit::Route {
            prefix: Prefix {
                addr: 0x0a01_0000,
                len: 16,
            },
            to: RouteWord::Local,
        }),
        line(Edit::Route {
            prefix: Prefix {
                addr: 0x0a00_64ff,
                len: 32,
            },
            to: RouteWord::Drop,
        }),
        line(Edit::Unroute {
            prefix: Prefix {
                addr: 0x0a01_0000,
                len: 16,
            },
        }),
    ]
    .expect(&rt, "memory");
    let script = Script {
        start: Edits::from_vec(edits),
        blocks: Blocks::from_vec(Vec::new(alloc)),
    };
    let text = print_script(alloc, &script).expect(&rt, "memory");
    let expected = b"interface pg0 mac 02:fe:00:9a:a9:ff mtu 65535 up filter
interface lan_1.b mac 00:01:02:03:04:05 mtu 68 down
node hand kind handoff-dst
arc hand resume ethernet-input
adjacency east interface pg0 dst 02:00:00:00:00:09
route 0.0.0.0/0 via east,west
route 10.1.0.0/16 local
route 10.0.100.255/32 drop
unroute 10.1.0.0/16
";
    assert_eq!(rt; text.as_slice(), expected.as_slice());
    laws::printed_is_read_back();
    assert_eq!(rt; script.start.into_vec().len(), 9);
    assert_eq!(rt; script.blocks.into_vec().len(), 0);
}

/// The one block of a script, which is printed as it was read.
fn read_block(rt: &impl Abort, alloc: Global, text: &[u8]) -> Block {
    let script = parse_script(alloc, text).expect(rt, "a script");
    let printed = print_script(alloc, &script).expect(rt, "memory");
    assert!(rt; printed.as_slice() == text);
    let mut blocks = script.blocks.into_vec();
    match blocks.pop() {
        Some(block) if blocks.is_empty() => block,
        _ => panic!(rt; "not one block"),
    }
}

#[test]
fn an_empty_block_has_two_lines(rt: HostRuntime) {
    let block = read_block(&rt, rt.alloc(), b"at 1000000000000\nend\n");
    let Block::At { line, time, edits } = block else {
        panic!(rt; "no block")
    };
    assert!(rt; line == 1 && time == 1_000_000_000_000 && edits.as_slice().is_empty());
}

#[test]
fn a_process_has_a_then_between_its_groups(rt: HostRuntime) {
    let text = b"process p every 250 count 999
node a kind pass
then
then
end
";
    let block = read_block(&rt, rt.alloc(), text);
    let Block::Process {
        name,
        every,
        count,
        groups,
        ..
    } = block
    else {
        panic!(rt; "no process")
    };
    assert!(rt; name.as_str() == "p" && every == 250 && count == 999);
    let groups = groups.into_vec();
    assert!(rt; groups.len() == 3);
    assert!(rt; groups[0].as_slice().len() == 1);
    assert!(rt; groups[1].as_slice().is_empty() && groups[2].as_slice().is_empty());
}
