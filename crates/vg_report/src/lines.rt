//! The lines of a report behind its first five, word for word.
ghost use Rattle.std.specs.Prelude.{◌≡◌, ◌+◌, ◌*◌, ◌<◌, ◌≤◌, IfOk, length, unwrap_or, IfSome};
ghost use Rattle.vg_model.specs.Errors.{error_number};
ghost use Rattle.vg_report.specs.Answers.{found, IsFound};
ghost use Rattle.vg_report.specs.Forms.{title_form, count_form, interface_form, node_form, a_next_node, a_next_error, error_form, sent_form, dropped_form, congested_form, an_end, packet_form, trace_form, least_node, least_place, place_in};
ghost use Rattle.vg_report.specs.Lawful.{names};

use crate::errors::ReportCause;
use crate::lists::Names;
use crate::parts::Parts;
use crate::reports::{PacketEnd, PacketLine, Report};
use crate::words::{is_congestion, place_of};
use std::alloc::Global;
use vg_model::{DropError, Name};

/// The greatest count.
const MOST_COUNTED: u64 = 0x7fff_ffff_ffff_ffff;

/// The greatest number of frames that a queue accepted.
const MOST_ACCEPTED: u64 = 0x3fff_ffff_ffff_ffff;

/// The most nodes of a trace.
const LONGEST_TRACE: usize = 272;

/// The first line.
pub fn title(words: &mut Parts) -> Result<(), ReportCause>
    ensures { title_form words.old ≡ found result words.new }
{
    words.fixed("vgd")?;
    words.fixed("report")?;
    words.fixed("1")?;
    words.end()
}

/// A fixed word and a number in its range.
pub fn count(words: &mut Parts, word: &str, least: u64, most: u64) -> Result<u64, ReportCause>
    ensures value { count_form word.now least most words.old ≡ found result words.new }
    ensures within { IfOk result (λ number. (least ≤ number) × (number ≤ most)) }
{
    words.fixed(word)?;
    let number = words.number(least, most)?;
    words.end()?;
    Ok(number)
}

/// The words behind `interface`.
pub fn interface(words: &mut Parts, interfaces: &[(Name, u64)]) -> Result<(Name, u64), ReportCause>
    ensures { interface_form interfaces.now words.old ≡ found result words.new }
{
    words.running_number(interfaces.len())?;
    let name = words.new_name(interfaces)?;
    words.fixed("tx")?;
    let count = words.number(0, MOST_COUNTED)?;
    words.end()?;
    Ok((name, count))
}

/// The words behind `node`.
pub fn node(words: &mut Parts, nodes: &[(Name, u64)]) -> Result<(Name, u64), ReportCause>
    ensures { node_form nodes.now words.old ≡ found result words.new }
{
    words.running_number(nodes.len())?;
    let name = words.new_name(nodes)?;
    let count = words.number(0, MOST_COUNTED)?;
    words.end()?;
    Ok((name, count))
}

/// The number of a name among these.
fn number_in(nodes: &[(Name, u64)], name: &Name) -> usize
    requires { length nodes.now ≤ 64 }
    ensures value { result ≡ place_in (names nodes.now) name.now }
    ensures within { result ≤ 64 }
{
    place_of(nodes, name.bytes()).unwrap_or(0)
}

/// The number of the node of the error line before: no node of a lower number is next.
fn least_number(nodes: &[(Name, u64)], errors: &[(Name, DropError, u64)]) -> usize
    requires { length nodes.now ≤ 64 }
    ensures { result ≡ least_node (names nodes.now) errors.now }
{
    match errors.last() {
        Some((node, _, _)) => number_in(nodes, node),
        None => 0,
    }
}

/// The place of an error at the node of a number.
fn place(number: usize, error: DropError) -> usize
    requires { number ≤ 64 }
    ensures value { result ≡ 19 * number + error_number error }
    ensures within { result < 10000 }
{
    DropError::ALL.len() * number + usize::from(error.number())
}

/// The place behind that of the error line before: no error of a lower place is next.
fn least_after(nodes: &[(Name, u64)], errors: &[(Name, DropError, u64)]) -> usize
    requires { length nodes.now ≤ 64 }
    ensures { result ≡ least_place (names nodes.now) errors.now }
{
    match errors.last() {
        Some((node, error, _)) => place(number_in(nodes, node), *error) + 1,
        None => 0,
    }
}

/// A node that doesn't come before that of the error line before.
fn next_node(words: &mut Parts, report: &Report) -> Result<Name, ReportCause>
    requires { length report.now.nodes ≤ 64 }
    ensures { a_next_node (names report.now.nodes) report.now.errors words.old ≡ found result words.new }
{
    let nodes = report.nodes.as_slice();
    let node = words.declared_name(nodes)?;
    if number_in(nodes, &node) < least_number(nodes, report.errors.as_slice()) {
        return Err(ReportCause::Order);
    }
    Ok(node)
}

/// An error that at this node comes behind the error line before.
fn next_error(words: &mut Parts, report: &Report, node: &Name) -> Result<DropError, ReportCause>
    requires { length report.now.nodes ≤ 64 }
    ensures { a_next_error (names report.now.nodes) report.now.errors node.now words.old ≡ found result words.new }
{
    let nodes = report.nodes.as_slice();
    let error = words.error()?;
    if place(number_in(nodes, node), error) < least_after(nodes, report.errors.as_slice()) {
        return Err(ReportCause::Order);
    }
    Ok(error)
}

/// The words behind `error`.
pub fn error(words: &mut Parts, report: &Report) -> Result<(Name, DropError, u64), ReportCause>
    requires { length report.now.nodes ≤ 64 }
    ensures { error_form (names report.now.nodes) report.now.errors words.old ≡ found result words.new }
{
    let node = next_node(words, report)?;
    let error = next_error(words, report, &node)?;
    let count = words.number(1, MOST_COUNTED)?;
    words.end()?;
    Ok((node, error, count))
}

/// Behind `tx`: the interface.
fn sent(
    words: &mut Parts,
    interfaces: &[(Name, u64)],
) -> Result<(Option<u64>, PacketEnd), ReportCause>
    ensures { sent_form (names interfaces.now) words.old ≡ found result words.new }
{
    let interface = words.declared_name(interfaces)?;
    Ok((None, PacketEnd::Tx { interface }))
}

/// Behind `drop`: the node, and an error other than congestion.
fn dropped(
    words: &mut Parts,
    nodes: &[(Name, u64)],
) -> Result<(Option<u64>, PacketEnd), ReportCause>
    ensures { dropped_form (names nodes.now) words.old ≡ found result words.new }
{
    let node = words.declared_name(nodes)?;
    let error = words.error()?;
    if is_congestion(error) {
        return Err(ReportCause::Form);
    }
    Ok((None, PacketEnd::Dropped { node, error }))
}

/// Behind `congested`: how many frames the queue had accepted, and the node that dropped the packet.
fn congested(
    words: &mut Parts,
    nodes: &[(Name, u64)],
) -> Result<(Option<u64>, PacketEnd), ReportCause>
    ensures { congested_form (names nodes.now) words.old ≡ found result words.new }
{
    let accepted = words.number(0, MOST_ACCEPTED)?;
    words.fixed("drop")?;
    let node = words.declared_name(nodes)?;
    let error = words.error()?;
    if !is_congestion(error) {
        return Err(ReportCause::Form);
    }
    Ok((Some(accepted), PacketEnd::Dropped { node, error }))
}

/// How a packet ended, and how many frames a full queue had accepted that was the end.
fn end(
    words: &mut Parts,
    interfaces: &[(Name, u64)],
    nodes: &[(Name, u64)],
) -> Result<(Option<u64>, PacketEnd), ReportCause>
    ensures { an_end (names interfaces.now) (names nodes.now) words.old ≡ found result words.new }
{
    let word = words.word()?;
    if word == "tx".as_bytes() {
        sent(words, interfaces)
    } else if word == "drop".as_bytes() {
        dropped(words, nodes)
    } else if word == "congested".as_bytes() {
        congested(words, nodes)
    } else {
        Err(ReportCause::Form)
    }
}

/// The words behind `packet`.
pub fn packet(words: &mut Parts, report: &Report) -> Result<PacketLine, ReportCause>
    ensures { packet_form report.now words.old ≡ found result words.new }
{
    words.running_number(report.packets.len())?;
    let legs = words.legs(report.workers, report.generations)?;
    let (congested, end) = end(words, report.interfaces.as_slice(), report.nodes.as_slice())?;
    words.end()?;
    Ok(PacketLine {
        legs,
        congested,
        end,
    })
}

/// The words behind `trace`.
pub fn trace(alloc: Global, words: &mut Parts, report: &Report) -> Result<Names, ReportCause>
    ensures { IsFound (trace_form report.now words.old) result words.new }
{
    words.running_number(report.traces.as_slice().len())?;
    let nodes = report.nodes.as_slice();
    let first = words.declared_name(nodes)?;
    let mut names = Names::from_vec(Vec::new(alloc));
    names.push(first)?;
    while !words.is_empty() {
        if names.as_slice().len() >= LONGEST_TRACE {
            return Err(ReportCause::Form);
        }
        names.push(words.declared_name(nodes)?)?;
    }
    Ok(names)
}
