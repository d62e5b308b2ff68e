//! IPv6 beside IPv4: packets over the nodes of both, over folders and sinks in memory. What is saved and printed was worked out by hand.

use crate::memory_runs::{
    FRAME, Frame, HEADER, RUN, WORKERS, bytes_of, run_over, saved_by, savefile,
};
use std::alloc::{AllocError, Global};

/// A packet from 2001:db8::1 to 2001:db8::2, with a hop limit of 64 and no data.
const IP6: Frame<'static> = (
    "02fe00000000 020000000001 86dd 6000000000003b40 \
        20010db8000000000000000000000001 20010db8000000000000000000000002",
    54,
);

/// A router for IPv6 behind a node that parts it from IPv4, with one neighbor.
const DUAL: &str = "adjacency six interface pg0 dst 02:00:00:00:00:66\n\
    route6 2001:db8::/32 via six\n\
    node eth kind ethernet-dual\nnode in6 kind ip6-input\n\
    node look6 kind ip6-lookup\nnode re6 kind ip6-rewrite\n\
    arc re6 output interface-output\narc look6 rewrite re6\narc in6 lookup look6\n\
    arc eth ip6 in6\narc eth ip4 ip4-input\narc pg-input out eth\n";

/// The address of the packets' source.
const SOURCE: u128 = 0x2001_0db8_0000_0000_0000_0000_0000_0001;

/// The address of most packets' destination.
const HOST: u128 = 0x2001_0db8_0000_0000_0000_0000_0000_0002;

/// An IPv6 packet of a test: what its header says, and how long the frame is.
#[derive(Clone, Copy)]
struct Packet6 {
    /// The version, in the upper four bits.
    first: u8,
    payload: u16,
    hops: u8,
    to: u128,
    len: u32,
}

/// A packet that is forwarded.
const GOOD: Packet6 = Packet6 {
    first: 0x60,
    payload: 0,
    hops: 64,
    to: HOST,
    len: 54,
};

/// Adds the record of a packet to a savefile, with an Ethernet header that begins so. The bytes behind the header are zeros.
fn add(
    alloc: Global,
    file: &mut Vec<u8>,
    addresses: &str,
    packet: Packet6,
) -> Result<(), AllocError> {
    let mut bytes = bytes_of(alloc, addresses)?;
    bytes.extend_from_slice(&[0x86, 0xdd, packet.first, 0, 0, 0])?;
    bytes.extend_from_slice(&packet.payload.to_be_bytes())?;
    bytes.extend_from_slice(&[0x3b, packet.hops])?;
    bytes.extend_from_slice(&SOURCE.to_be_bytes())?;
    bytes.extend_from_slice(&packet.to.to_be_bytes())?;
    bytes.resize(packet.len as usize, 0)?;
    file.extend_from_slice(&[0; 8])?;
    file.extend_from_slice(&packet.len.to_le_bytes())?;
    file.extend_from_slice(&packet.len.to_le_bytes())?;
    file.extend_from_slice(bytes.as_slice())
}

/// The savefile of these packets as they arrive.
fn arriving(alloc: Global, packets: &[Packet6]) -> Result<Vec<u8>, AllocError> {
    let mut file = HEADER.to_vec(alloc)?;
    for packet in packets {
        add(alloc, &mut file, "02fe00000000 020000000001", *packet)?;
    }
    Ok(file)
}

/// An address whose bits are mixed.
const MIXED: u128 = 0x0123_4567_89ab_cdef_fedc_ba98_7654_3210;

/// Adds the eight groups of an address, with their leading zeros.
fn push_groups(text: &mut String, address: u128) -> Result<(), AllocError> {
    let digits = b"0123456789abcdef";
    for (place, byte) in address.to_be_bytes().iter().enumerate() {
        if place > 0 && place % 2 == 0 {
            text.push(':')?;
        }
        text.push(char::from(digits[usize::from(*byte >> 4)]))?;
        text.push(char::from(digits[usize::from(*byte & 15)]))?;
    }
    Ok(())
}

/// What a run over a prefix of each length takes and saves.
#[derive(Drop)]
struct Prefixes {
    script: String,
    packets: Vec<Packet6>,
    saved: Vec<u8>,
}

/// A prefix of each length around one address, each with a neighbor of its own, and a packet that each is the longest match of.
fn all_prefixes(alloc: Global) -> Result<Prefixes, AllocError> {
    let mut script = String::from_str(alloc, DUAL)?;
    let mut packets = Vec::new(alloc);
    let mut saved = HEADER.to_vec(alloc)?;
    for len in 0..129_u32 {
        let (prefix, to) = if len < 128 {
            let bit = 1_u128 << (127 - len);
            (MIXED & !(bit | (bit - 1)), MIXED ^ bit)
        } else {
            (MIXED, MIXED)
        };
        let line = format!(in alloc; "adjacency n{len} interface pg0 dst 02:00:00:00:00:")?;
        script.push_str(line.as_str())?;
        let digits = b"0123456789abcdef";
        let (high, low) = (digits[(len / 16) as usize], digits[(len % 16) as usize]);
        script.push(char::from(high))?;
        script.push(char::from(low))?;
        script.push_str("\nroute6 ")?;
        push_groups(&mut script, prefix)?;
        let line = format!(in alloc; "/{len} via n{len}\n")?;
        script.push_str(line.as_str())?;
        packets.push(Packet6 { to, ..GOOD })?;
        let mut addresses = String::from_str(alloc, "0200000000")?;
        addresses.push(char::from(high))?;
        addresses.push(char::from(low))?;
        addresses.push_str("02fe00000000")?;
        let sent = Packet6 {
            hops: 63,
            to,
            ..GOOD
        };
        add(alloc, &mut saved, addresses.as_str(), sent)?;
    }
    Ok(Prefixes {
        script,
        packets,
        saved,
    })
}

// An address that differs in a bit from the mixed one is covered by those prefixes that end in front of it; the longest has that bit's number as
// its length.
#[test]
fn every_prefix_length_counts(rt: HostRuntime) {
    let alloc = rt.alloc();
    let all = all_prefixes(alloc).expect(&rt, "memory");
    let capture = arriving(alloc, all.packets.as_slice()).expect(&rt, "memory");
    let ran = run_over(
        &rt,
        &RUN,
        capture.as_slice(),
        all.script.as_str().as_bytes(),
    );
    assert_eq!(rt; ran.status, 0);
    assert_eq!(rt; ran.tx.expect(&rt, "no savefile"), all.saved);
}

/// Both versions behind a handoff, with events on both tables of routes.
const CHANGING: &str = "adjacency seven interface pg0 dst 02:00:00:00:00:77\n\
    route 0.0.0.0/0 via six\nnode hand kind handoff-flow\n\
    arc hand resume eth\narc pg-input out hand\n\
    at 1000\nroute6 2001:db8::/32 via seven,six\nroute 10.1.0.0/16 via seven\nend\n\
    at 2000\nunroute6 2001:db8::/32\nunroute 10.1.0.0/16\nend\n";

/// The savefile of 32 frames, one every 100 microseconds, of IPv4 and of IPv6 in turn.
fn in_turn(alloc: Global) -> Result<Vec<u8>, AllocError> {
    let mut file = HEADER.to_vec(alloc)?;
    for number in 0..32_u32 {
        let (text, len) = if number % 2 == 0 { FRAME } else { IP6 };
        file.extend_from_slice(&[0; 4])?;
        file.extend_from_slice(&(100 * number).to_le_bytes())?;
        file.extend_from_slice(&len.to_le_bytes())?;
        file.extend_from_slice(&len.to_le_bytes())?;
        file.extend_from_slice(bytes_of(alloc, text)?.as_slice())?;
    }
    Ok(file)
}

// Where a packet that is handed over meets an event depends on the turns, so the check alone says what may come of it.
#[test]
fn any_workers_do_what_a_check_accepts(rt: HostRuntime) {
    let alloc = rt.alloc();
    let capture = in_turn(alloc).expect(&rt, "memory");
    let script = format!(in alloc; "{DUAL}{CHANGING}").expect(&rt, "memory");
    for workers in WORKERS {
        for in_threads in [false, true] {
            let _saved = saved_by(
                &rt,
                capture.as_slice(),
                script.as_str().as_bytes(),
                b"00m0m00m",
                workers,
                in_threads,
            );
        }
    }
}
