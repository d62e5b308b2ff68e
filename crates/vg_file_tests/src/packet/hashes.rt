//! Frames whose hashes are known.
use crate::checks::same;
use vg_model::HashKind;
use vg_packet::flow_hash;

/// An IPv4 frame from 192.0.2.1, of 34 bytes.
fn frame(destination: [u8; 4], checksum: [u8; 2]) -> [u8; 34] {
    let [a, b, c, d] = destination;
    let [sum_high, sum_low] = checksum;
    [
        0x02, 0xfe, 0, 0, 0, 0, 0x02, 0, 0, 0, 0, 1, 0x08, 0x00, 0x45, 0, 0, 20, 0, 0, 0, 0, 64,
        17, sum_high, sum_low, 192, 0, 2, 1, a, b, c, d,
    ]
}

/// The hashes of a frame by both addresses, by its source and by its destination.
fn hashes(frame: &[u8]) -> [u32; 3] {
    [HashKind::Flow, HashKind::Src, HashKind::Dst].map(|kind| flow_hash(kind, frame))
}

#[test]
fn hashes_take_the_addresses_of_their_kind(rt: HostRuntime) {
    let plain = frame([10, 1, 2, 3], [0xac, 0xd4]);
    same(&rt, hashes(&plain), [0xcacb_cbc9, 0xc0c0_c2c3, 0x0a0b_090a]);
    let other = frame([10, 1, 2, 11], [0xac, 0xcc]);
    same(&rt, hashes(&other), [0xcacb_cbc1, 0xc0c0_c2c3, 0x0a0b_0902]);
}

#[test]
fn destinations_choose_workers(rt: HostRuntime) {
    let odd = frame([10, 0, 0, 1], [0xae, 0xd7]);
    same(&rt, flow_hash(HashKind::Dst, &odd) % 2, 1);
    let even = frame([10, 0, 0, 2], [0xae, 0xd6]);
    same(&rt, flow_hash(HashKind::Dst, &even) % 2, 0);
}

#[test]
fn frames_without_addresses_hash_to_0(rt: HostRuntime) {
    let plain = frame([10, 1, 2, 3], [0xac, 0xd4]);
    let (_, short) = plain.split_last().expect(&rt, "34 bytes");
    same(&rt, hashes(short), [0, 0, 0]);
    let mut arp = plain;
    arp[13] = 0x06;
    same(&rt, hashes(&arp), [0, 0, 0]);
    same(&rt, hashes(&[]), [0, 0, 0]);
}
