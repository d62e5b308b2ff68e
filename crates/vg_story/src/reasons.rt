//! What a visit decided by. Each function adds facts behind others; where memory runs out it stops.
ghost use Rattle.std.specs.Prelude.{◌≡◌, ◌++◌, ◌<◌, Some, OnOk, slice_get};
ghost use Rattle.std.specs.Option.{option_copied};
ghost use Rattle.vg_model.specs.nodes.Interfaces.{transmit_interface};
ghost use Rattle.vg_story.specs.Reasons as told;

use crate::fields::{
    checksum, destination, destination6, hash6, header_len, hop_limit, is_tagged, payload_len,
    time_to_live, total_len, type_of, version, vlan,
};
use crate::fronts::Front;
use crate::matches::matched4;
use crate::matches6::matched6;
use crate::numbers::number48;
use crate::pieces::{Fact, Piece, Value, Word};
use crate::stages::Stage;
use std::alloc::AllocError;
use vg_fork::Fork;
use vg_model::{Adjacency, DropError, HashKind, Kind, Prefix, Prefix6, RouteTo, Step};
use vg_packet::flow_hash;
use vg_pool::Buffer;

// Adds a fact.
fn put_fact(pieces: &mut Vec<Piece>, word: Word, value: Value) -> Result<(), AllocError>
    ensures { OnOk result (pieces.new.items ≡ pieces.old.items ++ told.fact word value) }
{
    pieces.push(Piece::Because(Fact { word, value }))?;
    Ok(())
}

// Adds a fact that is a number.
fn put_number(pieces: &mut Vec<Piece>, word: Word, number: u64) -> Result<(), AllocError>
    ensures { OnOk result (pieces.new.items ≡ pieces.old.items ++ told.number word number) }
{
    put_fact(pieces, word, Value::Number(number))
}

// Whether a step drops the packet with this error.
fn drops(step: Step, error: DropError) -> bool
    ensures { result ≡ told.drops step error }
{
    match step {
        Step::Dropped { error: other } => other.number() == error.number(),
        Step::Next { .. } | Step::Tx { .. } | Step::Hand { .. } => false,
    }
}

// How many bytes stand behind the Ethernet header.
fn behind(front: &Front) -> u64
    ensures { result ≡ told.behind front.now }
{
    u64::from(front.len().saturating_sub(14))
}

// Of an Ethernet header: its length where it isn't whole, the address where it is foreign, and else the type.
fn put_link(pieces: &mut Vec<Piece>, before: &Front, step: Step) -> Result<(), AllocError>
    ensures { OnOk result (pieces.new.items ≡ pieces.old.items ++ told.link before.now step) }
{
    if drops(step, DropError::Short) {
        return put_number(pieces, Word::Bytes, u64::from(before.len()));
    }
    if drops(step, DropError::WrongMac) {
        let address = number48(before.bytes(), 0);
        return put_fact(pieces, Word::Frame, Value::Link(address));
    }
    put_fact(pieces, Word::Type, Value::Hex(type_of(before)))
}

// The length that an IPv4 header says of itself, and how many bytes are there.
fn put_lengths(pieces: &mut Vec<Piece>, before: &Front) -> Result<(), AllocError>
    ensures { OnOk result (pieces.new.items ≡ pieces.old.items ++ told.lengths before.now) }
{
    put_number(pieces, Word::Header, u64::from(header_len(before)))?;
    put_number(pieces, Word::Bytes, behind(before))
}

// Of the check of an IPv4 header that failed: the value found.
fn put_header4(pieces: &mut Vec<Piece>, before: &Front, step: Step) -> Result<(), AllocError>
    ensures { OnOk result (pieces.new.items ≡ pieces.old.items ++ told.header4 before.now step) }
{
    if drops(step, DropError::Short) {
        return put_number(pieces, Word::Bytes, behind(before));
    }
    if drops(step, DropError::BadVersion) {
        return put_number(pieces, Word::Version, u64::from(version(before)));
    }
    if drops(step, DropError::BadHeaderLength) {
        return put_lengths(pieces, before);
    }
    if drops(step, DropError::BadLength) {
        put_number(pieces, Word::Length, u64::from(total_len(before)))?;
        return put_lengths(pieces, before);
    }
    if drops(step, DropError::BadChecksum) {
        return put_fact(pieces, Word::Checksum, Value::Hex(checksum(before)));
    }
    if drops(step, DropError::TtlZero) {
        return put_number(pieces, Word::Ttl, u64::from(time_to_live(before)));
    }
    Ok(())
}

// Of the check of an IPv6 header that failed: the value found.
fn put_header6(pieces: &mut Vec<Piece>, before: &Front, step: Step) -> Result<(), AllocError>
    ensures { OnOk result (pieces.new.items ≡ pieces.old.items ++ told.header6 before.now step) }
{
    if drops(step, DropError::Short) {
        return put_number(pieces, Word::Bytes, behind(before));
    }
    if drops(step, DropError::BadVersion) {
        return put_number(pieces, Word::Version, u64::from(version(before)));
    }
    if drops(step, DropError::BadLength) {
        put_number(pieces, Word::Length, u64::from(payload_len(before)))?;
        return put_number(pieces, Word::Bytes, behind(before));
    }
    if drops(step, DropError::TtlZero) {
        return put_number(pieces, Word::Ttl, u64::from(hop_limit(before)));
    }
    Ok(())
}

// Of several neighbors: the hash, the place that it picks, and how many there are.
fn put_several(pieces: &mut Vec<Piece>, count: u64, hash: u32) -> Result<(), AllocError>
    ensures { OnOk result (pieces.new.items ≡ pieces.old.items ++ told.several count hash) }
{
    if count < 2 {
        return Ok(());
    }
    put_number(pieces, Word::Hash, u64::from(hash))?;
    put_number(pieces, Word::Place, u64::from(hash) / 8 % count)?;
    put_number(pieces, Word::Of, count)
}

// The neighbor that was chosen, where one was and the graph has it.
fn put_via(
    pieces: &mut Vec<Piece>,
    fork: &Fork,
    neighbor: Option<u16>,
    count: u64,
    hash: u32,
) -> Result<(), AllocError>
    ensures { OnOk result (pieces.new.items ≡ pieces.old.items ++ told.via fork.now.graph neighbor count hash) }
{
    match neighbor {
        Some(neighbor) if neighbor < fork.adjacencies() => {
            put_fact(pieces, Word::Via, Value::Neighbor(neighbor))?;
            put_several(pieces, count, hash)
        }
        _ => Ok(()),
    }
}

// The neighbor that was chosen of a route's.
fn put_target(
    pieces: &mut Vec<Piece>,
    fork: &Fork,
    target: &RouteTo,
    hash: u32,
    neighbor: Option<u16>,
) -> Result<(), AllocError>
    ensures { OnOk result (pieces.new.items ≡ pieces.old.items ++ told.chosen fork.now.graph (Some target.now) hash neighbor) }
{
    match target {
        RouteTo::Via(members) => {
            let count = members.as_slice().len() as u64;
            put_via(pieces, fork, neighbor, count, hash)
        }
        RouteTo::Local | RouteTo::Drop => Ok(()),
    }
}

// The neighbor that was chosen of a route's, where there is a route.
fn put_chosen(
    pieces: &mut Vec<Piece>,
    fork: &Fork,
    target: Option<&RouteTo>,
    hash: u32,
    neighbor: Option<u16>,
) -> Result<(), AllocError>
    ensures { OnOk result (pieces.new.items ≡ pieces.old.items ++ told.chosen fork.now.graph (option_copied target.entry) hash neighbor) }
{
    match target {
        Some(target) => put_target(pieces, fork, target, hash, neighbor),
        None => Ok(()),
    }
}

// The route that matched, with its line.
fn put_matched(pieces: &mut Vec<Piece>, route: Option<(Prefix, u32)>) -> Result<(), AllocError>
    ensures { OnOk result (pieces.new.items ≡ pieces.old.items ++ told.matched route) }
{
    match route {
        Some(route) => {
            put_fact(pieces, Word::Route, Value::Prefix(route.0))?;
            put_number(pieces, Word::Line, u64::from(route.1))
        }
        None => Ok(()),
    }
}

// The same for IPv6.
fn put_matched6(pieces: &mut Vec<Piece>, route: Option<(Prefix6, u32)>) -> Result<(), AllocError>
    ensures { OnOk result (pieces.new.items ≡ pieces.old.items ++ told.matched6 route) }
{
    match route {
        Some(route) => {
            put_fact(pieces, Word::Route, Value::Prefix6(route.0))?;
            put_number(pieces, Word::Line, u64::from(route.1))
        }
        None => Ok(()),
    }
}

// Of an IPv4 look-up: the destination, the longest prefix that covers it, and the neighbor that was chosen.
fn put_lookup4(
    pieces: &mut Vec<Piece>,
    stage: &Stage,
    before: &Front,
    step: Step,
    after: &Buffer,
) -> Result<(), AllocError>
    ensures { OnOk result (pieces.new.items ≡ pieces.old.items ++ told.lookup4 stage.now before.now step after.now.packet) }
{
    if drops(step, DropError::Unchecked) {
        return Ok(());
    }
    let address = destination(before);
    put_fact(pieces, Word::To, Value::Address(address))?;
    put_matched(pieces, matched4(&stage.routes, address))?;
    let hash = flow_hash(HashKind::Flow, before.bytes());
    put_chosen(
        pieces,
        &stage.fork,
        stage.fork.target(address),
        hash,
        after.adjacency(),
    )
}

// The same of an IPv6 look-up.
fn put_lookup6(
    pieces: &mut Vec<Piece>,
    stage: &Stage,
    before: &Front,
    step: Step,
    after: &Buffer,
) -> Result<(), AllocError>
    ensures { OnOk result (pieces.new.items ≡ pieces.old.items ++ told.lookup6 stage.now before.now step after.now.packet) }
{
    if drops(step, DropError::Unchecked) {
        return Ok(());
    }
    let address = destination6(before);
    put_fact(pieces, Word::To, Value::Address6(address))?;
    put_matched6(pieces, matched6(&stage.routes6, address))?;
    put_chosen(
        pieces,
        &stage.fork,
        stage.fork.target6(address),
        hash6(before),
        after.adjacency(),
    )
}

// An interface, and what it takes, where the graph has it.
fn put_takes(pieces: &mut Vec<Piece>, fork: &Fork, number: u16) -> Result<(), AllocError>
    ensures { OnOk result (pieces.new.items ≡ pieces.old.items ++ told.takes number (slice_get fork.now.graph.interfaces number)) }
{
    if number >= fork.interfaces() {
        return Ok(());
    }
    put_fact(pieces, Word::On, Value::Interface(number))?;
    put_number(pieces, Word::Mtu, u64::from(fork.interface(number).mtu))
}

// A neighbor, and its interface.
fn put_adjacency(
    pieces: &mut Vec<Piece>,
    fork: &Fork,
    number: u16,
    adjacency: &Adjacency,
) -> Result<(), AllocError>
    ensures { OnOk result (pieces.new.items ≡ pieces.old.items ++ told.neighbor_at fork.now.graph number (Some adjacency.now)) }
{
    put_fact(pieces, Word::Via, Value::Neighbor(number))?;
    put_takes(pieces, fork, adjacency.interface)
}

// The neighbor that a frame is made ready for.
fn put_neighbor(
    pieces: &mut Vec<Piece>,
    fork: &Fork,
    neighbor: Option<u16>,
) -> Result<(), AllocError>
    ensures { OnOk result (pieces.new.items ≡ pieces.old.items ++ told.neighbor fork.now.graph neighbor) }
{
    match neighbor {
        Some(number) => {
            if number < fork.adjacencies() {
                put_adjacency(pieces, fork, number, fork.adjacency(number))
            } else {
                Ok(())
            }
        }
        None => Ok(()),
    }
}

// Of a rewrite: the neighbor, its interface and what that takes, and the number that was looked at.
fn put_rewrite(
    pieces: &mut Vec<Piece>,
    stage: &Stage,
    length: u64,
    ttl: u8,
    step: Step,
    after: &Buffer,
) -> Result<(), AllocError>
    ensures { OnOk result (pieces.new.items ≡ pieces.old.items ++ told.rewrite stage.now length ttl step after.now.packet) }
{
    if drops(step, DropError::Unchecked) {
        return Ok(());
    }
    put_neighbor(pieces, &stage.fork, after.adjacency())?;
    if drops(step, DropError::TtlExpired) {
        return put_number(pieces, Word::Ttl, u64::from(ttl));
    }
    if drops(step, DropError::MtuExceeded) {
        return put_number(pieces, Word::Length, length);
    }
    Ok(())
}

// An interface, where the graph has it.
fn put_on(pieces: &mut Vec<Piece>, fork: &Fork, number: u16) -> Result<(), AllocError>
    ensures { OnOk result (pieces.new.items ≡ pieces.old.items ++ told.on_interface fork.now.graph number) }
{
    if number < fork.interfaces() {
        put_fact(pieces, Word::On, Value::Interface(number))
    } else {
        Ok(())
    }
}

// The interface that a packet leaves on: its own, where the graph has it, or else the first.
fn leaves_on(fork: &Fork, packet: &Buffer) -> u16
    ensures { result ≡ transmit_interface fork.now.graph packet.now.packet }
{
    match packet.interface() {
        Some(interface) if interface < fork.interfaces() => interface,
        _ => 0,
    }
}

// The interface that a packet leaves on.
fn put_leaving(pieces: &mut Vec<Piece>, fork: &Fork, after: &Buffer) -> Result<(), AllocError>
    ensures { OnOk result (pieces.new.items ≡ pieces.old.items ++ told.leaving fork.now.graph after.now.packet) }
{
    put_on(pieces, fork, leaves_on(fork, after))
}

// Of a handoff: the hash, and the worker that it chooses.
fn put_handed(pieces: &mut Vec<Piece>, workers: u8, step: Step) -> Result<(), AllocError>
    requires { 0 < workers }
    ensures { OnOk result (pieces.new.items ≡ pieces.old.items ++ told.handed workers step) }
{
    match step {
        Step::Hand { hash } => {
            put_number(pieces, Word::Hash, u64::from(hash))?;
            put_number(pieces, Word::Worker, u64::from(hash) % u64::from(workers))
        }
        Step::Next { .. } | Step::Tx { .. } | Step::Dropped { .. } => Ok(()),
    }
}

// Of a tag: the length of a frame that is too short for one, and else the VLAN id of the tag that the frame came with, where it has one.
fn put_tag(pieces: &mut Vec<Piece>, before: &Front, step: Step) -> Result<(), AllocError>
    ensures { OnOk result (pieces.new.items ≡ pieces.old.items ++ told.tagged before.now step) }
{
    if drops(step, DropError::Short) {
        return put_number(pieces, Word::Bytes, u64::from(before.len()));
    }
    if is_tagged(before) {
        put_number(pieces, Word::Tag, u64::from(vlan(before)))
    } else {
        Ok(())
    }
}

// Why the node dropped the packet, where it did.
fn put_drop(pieces: &mut Vec<Piece>, step: Step) -> Result<(), AllocError>
    ensures { OnOk result (pieces.new.items ≡ pieces.old.items ++ told.dropped step) }
{
    match step {
        Step::Dropped { error } => put_fact(pieces, Word::Drop, Value::Error(error)),
        Step::Next { .. } | Step::Tx { .. } | Step::Hand { .. } => Ok(()),
    }
}

// What a node of a kind decides by.
fn put_by_kind(
    pieces: &mut Vec<Piece>,
    stage: &Stage,
    workers: u8,
    kind: Kind,
    before: &Front,
    step: Step,
    after: &Buffer,
) -> Result<(), AllocError>
    requires { 0 < workers }
    ensures { OnOk result (pieces.new.items ≡ pieces.old.items ++ told.by_kind stage.now workers kind before.now step after.now.packet) }
{
    match kind {
        Kind::EthernetInput | Kind::EthernetDual => put_link(pieces, before, step),
        Kind::Ip4Input => put_header4(pieces, before, step),
        Kind::Ip6Input => put_header6(pieces, before, step),
        Kind::Ip4Lookup => put_lookup4(pieces, stage, before, step, after),
        Kind::Ip6Lookup => put_lookup6(pieces, stage, before, step, after),
        Kind::Ip4Rewrite => {
            let length = u64::from(total_len(before));
            put_rewrite(pieces, stage, length, time_to_live(before), step, after)
        }
        Kind::Ip6Rewrite => {
            let length = 40 + u64::from(payload_len(before));
            put_rewrite(pieces, stage, length, hop_limit(before), step, after)
        }
        Kind::InterfaceOutput | Kind::InterfaceTx => put_leaving(pieces, &stage.fork, after),
        Kind::CrossConnect(interface) => put_on(pieces, &stage.fork, u16::from(interface)),
        Kind::WorkerHandoff(_) => put_handed(pieces, workers, step),
        Kind::Dot1qMatch(_) | Kind::Dot1qPush(_) | Kind::Dot1qRewrite(_) => {
            put_tag(pieces, before, step)
        }
        Kind::PgInput | Kind::HandoffDequeue | Kind::ErrorDrop | Kind::Pass => Ok(()),
    }
}

/// Adds what a visit decided by: the packet came with this front, and went with this step as it is now.
pub(crate) fn put_reasons(
    pieces: &mut Vec<Piece>,
    stage: &Stage,
    workers: u8,
    kind: Kind,
    before: &Front,
    step: Step,
    after: &Buffer,
) -> Result<(), AllocError>
    requires { 0 < workers }
    ensures { OnOk result (pieces.new.items ≡ pieces.old.items ++ told.reasons stage.now workers kind before.now step after.now.packet) }
{
    put_by_kind(pieces, stage, workers, kind, before, step, after)?;
    put_drop(pieces, step)
}
