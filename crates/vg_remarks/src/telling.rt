//! A sentence for each remark, written to the standard error.

use crate::addresses::Class;
use crate::finding::Remarks;
use crate::found::Found;
use crate::late::LateEvent;
use crate::packets::Unforwarded;
use std::io;

/// An IPv4 address as its four bytes.
fn parts_of(address: u32) -> [u8; 4] {
    address.to_be_bytes()
}

fn tell_congested<R: Eprint>(rt: &R, packets: usize) -> io::Result<()> {
    match packets {
        0 => Ok(()),
        1 => eprintln!(rt;
            "vgd: 1 packet was dropped since a queue between two workers was full: --hold loses none"
        ),
        _ => eprintln!(rt;
            "vgd: {packets} packets were dropped since a queue between two workers was full: --hold loses none"
        ),
    }
}

fn tell_late<R: Eprint>(rt: &R, late: &Found<LateEvent>) -> io::Result<()> {
    let Some(first) = late.first else {
        return Ok(());
    };
    let (line, time) = (first.line, first.time);
    match late.count {
        1 => eprint!(rt;
            "vgd: the event of line {line} of the script, at {time} microseconds, comes"
        ),
        events => eprint!(rt;
            "vgd: {events} events, the first that of line {line} of the script, at {time} microseconds, come"
        ),
    }?;
    match first.last {
        None => eprintln!(rt; " into a capture without packets"),
        Some(last) => eprintln!(rt;
            " after the last packet, which is at {last}: no packet begins under it"
        ),
    }
}

fn tell_filters<R: Eprint>(rt: &R, filters: &Found<u32>) -> io::Result<()> {
    let Some(line) = filters.first else {
        return Ok(());
    };
    match filters.count {
        1 => eprintln!(rt;
            "vgd: the filter of line {line} of the script does nothing: all packets come in on pg0"
        ),
        filters => eprintln!(rt;
            "vgd: {filters} filters of the script do nothing, the first on line {line}: all packets come in on pg0"
        ),
    }
}

/// What a class is, in words, and where that is said.
fn class_words(class: Class) -> &'static str {
    match class {
        Class::LimitedBroadcast => "the limited broadcast (RFC 1812)",
        Class::ThisNetwork => "an address of 0.0.0.0/8 (RFC 1812)",
        Class::Loopback => "a loopback address (RFC 1812)",
        Class::Reserved => "a reserved address (RFC 1812)",
        Class::Multicast => "a multicast group without a route of its own (RFC 1812)",
        Class::DirectedBroadcast =>
            "the last address of a route's prefix, as a directed broadcast is (RFC 2644)",
    }
}

/// The prefix of a class that holds more than one address.
fn class_prefix(class: Class) -> Option<&'static str> {
    match class {
        Class::ThisNetwork => Some("0.0.0.0/8"),
        Class::Loopback => Some("127.0.0.0/8"),
        Class::Reserved => Some("240.0.0.0/4"),
        Class::Multicast => Some("224.0.0.0/4"),
        Class::LimitedBroadcast | Class::DirectedBroadcast => None,
    }
}

fn tell_unforwarded<R: Eprint>(rt: &R, unforwarded: &Found<Unforwarded>) -> io::Result<()> {
    let Some(first) = unforwarded.first else {
        return Ok(());
    };
    let number = first.number;
    let [a, b, c, d] = parts_of(first.address);
    let words = class_words(first.class);
    match unforwarded.count {
        1 => eprint!(rt; "vgd: packet {number} was transmitted"),
        packets => eprint!(rt;
            "vgd: {packets} packets, the first of them packet {number}, were transmitted"
        ),
    }?;
    eprintln!(rt;
        " though a router doesn't forward to such addresses: {a}.{b}.{c}.{d} is {words}"
    )?;
    match class_prefix(first.class) {
        Some(prefix) => eprint!(rt;
            "vgd: `route {prefix} drop` drops it where no longer prefix wins"
        ),
        None => eprint!(rt; "vgd: `route {a}.{b}.{c}.{d}/32 drop` drops it"),
    }?;
    eprintln!(rt;
        "; \"Addresses that a router does not forward to\" in docs/FORMATS.md has the routes for all"
    )
}

/// Writes a sentence for each kind of remark to the standard error, in a fixed order: packets that a full queue dropped, events behind the
/// last packet, filters that no packet comes to, packets to addresses that a router does not forward to.
pub fn tell<R: Eprint>(rt: &R, remarks: &Remarks) -> io::Result<()> {
    tell_congested(rt, remarks.congested)?;
    tell_late(rt, &remarks.late)?;
    tell_filters(rt, &remarks.filters)?;
    tell_unforwarded(rt, &remarks.unforwarded)
}
