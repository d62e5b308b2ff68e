use crate::checks::{has_length, same};
use vg_load::{Load, load_capture, summary};

#[test]
fn packets_are_made_of_the_words_of_a_seed(rt: HostRuntime) {
    let capture = load_capture(rt.alloc(), 0, 17).expect(&rt, "memory");
    has_length(&rt, capture.packets.len(), 17);
    let first = capture.packets.bytes(0);
    has_length(&rt, first.len(), 60);
    // From 198.18.205.175 to 10.57.123.29.
    let head = [
        0x02, 0xfe, 0, 0, 0, 0, 0x02, 0, 0, 0, 0, 0x01, 0x08, 0x00, 0x45, 0, 0, 0x2e, 0, 0, 0, 0,
        0x40, 0x11, 0x61, 0xa7, 0xc6, 0x12, 0xcd, 0xaf, 0x0a, 0x39, 0x7b, 0x1d, 0,
    ];
    same(
        &rt,
        first.get(..35).expect(&rt, "35 bytes"),
        head.as_slice(),
    );
    // The second word is 0x6e789e6aa1b965f4, and the sixteenth packet has the time to live 1.
    let second = capture.packets.bytes(1);
    same(
        &rt,
        second.get(28..34).expect(&rt, "34 bytes"),
        [0x65, 0xf4, 0x0a, 0x6a, 0xa1, 0xb9].as_slice(),
    );
    same(&rt, capture.packets.bytes(15).get(22).copied(), Some(1));
    same(&rt, capture.packets.bytes(16).get(22).copied(), Some(64));
    let marks = capture.packets.marks(16);
    same(&rt, marks.seconds, 0);
    same(&rt, marks.fraction, 16);
    same(&rt, marks.original, 60);
}

#[test]
fn a_load_is_told_in_six_lines(rt: HostRuntime) {
    let load = Load {
        seed: 0,
        packets: 1000,
        workers: 2,
    };
    let text = summary(rt.alloc(), &load, 1000, 4096).expect(&rt, "memory");
    let expected =
        "load 0 1000 2\ncapture 76024\nplain tx 938 drop 62\nhandoff ended 1000\nbuffers 4096\nend\n";
    same(&rt, text.as_str(), expected);
}
