//! What a report counted, by the names of nodes and interfaces.
ghost use Rattle.std.specs.Prelude.{◌≡◌, ◌+◌, ◌<◌, ◌≤◌, ◌^◌, ◌++◌, ℕ, List, Some, bytes_eq, count_by, length, option_map, slice_get, IfSome, OnOk, if◌then◌else◌};
ghost use Rattle.std.specs.List.{position_from};
ghost use Rattle.vg_draw.specs.Drawing.{counted_in, less as less_of, passed_on as passed_on_of, passed_count as passed_count_of, carried as carried_of, arc_count as arc_count_of};
ghost use Rattle.vg_draw.specs.Drawing.{sent_count as sent_count_of, packets_of as packets_by, is_unvisited as is_unvisited_by, began_in, began_text, counted_text, node_counts};

use crate::words::{put, put_count, put_decimal};
use std::alloc::AllocError;
use vg_model::{DropError, Kind, Name};
use vg_report::{PacketLines, Report};

// The place of the first entry of a name.
fn place_of(entries: &[(Name, u64)], name: &Name) -> Option<usize>
    ensures place { result ≡ position_from (λ (e : List ℕ × ℕ). bytes_eq e.0 name.now) 0 entries.now }
    ensures within { IfSome result (λ place. place < length entries.now) }
{
    entries.iter().position(|entry| entry.0 == *name)
}

// The count of a name.
fn counted(entries: &[(Name, u64)], name: &Name) -> Option<u64>
    ensures { result ≡ counted_in entries.now name.now }
{
    match place_of(entries, name) {
        Some(place) => Some(entries[place].1),
        None => None,
    }
}

// What is left of a node's visits, less those of this entry where it is the node's.
fn less(name: &Name, left: u64, entry: &(Name, DropError, u64)) -> u64
    ensures { result ≡ less_of name.now left entry.now }
{
    if entry.0 == *name {
        left.saturating_sub(entry.2)
    } else {
        left
    }
}

// How many packets a node passed on: its visits, less those that it dropped.
fn passed_on(errors: &[(Name, DropError, u64)], name: &Name, visits: u64) -> u64
    ensures { result ≡ passed_on_of errors.now name.now visits }
{
    let mut left = visits;
    for entry in errors {
        left = less(name, left, entry);
    }
    left
}

/// How many packets a report says that a node passed on.
pub fn passed_count(report: &Option<Report>, name: &Name) -> Option<u64>
    ensures { result ≡ passed_count_of report.now name.now }
{
    match report {
        None => None,
        Some(report) => match counted(report.nodes.as_slice(), name) {
            None => None,
            Some(visits) => Some(passed_on(report.errors.as_slice(), name, visits)),
        },
    }
}

// What each arc of a node with so many slots carried, where that is known.
fn carried(slots: u8, passed: u64) -> Option<u64>
    ensures { result ≡ carried_of slots passed }
{
    if slots == 1 || passed == 0 {
        Some(passed)
    } else {
        None
    }
}

/// What each arc of a node carried, where a report tells: it counts by node, and so not what each of two arcs carried.
pub fn arc_count(report: &Option<Report>, name: &Name, kind: Kind) -> Option<u64>
    ensures { result ≡ arc_count_of report.now name.now kind }
{
    match passed_count(report, name) {
        None => None,
        Some(passed) => carried(kind.slots(), passed),
    }
}

/// How many packets a report says were transmitted on an interface.
pub fn sent_count(report: &Option<Report>, name: &Name) -> Option<u64>
    ensures { result ≡ sent_count_of report.now name.now }
{
    match report {
        None => None,
        Some(report) => counted(report.interfaces.as_slice(), name),
    }
}

/// How many packets the run of a report had.
pub fn packets_of(report: &Option<Report>) -> u64
    ensures { result ≡ packets_by report.now }
{
    match report {
        None => 0,
        Some(report) => report.packets.len() as u64,
    }
}

// Appends a further line of a label, for a count that is there.
fn put_counted(out: &mut Vec<u8>, word: &[u8], count: Option<u64>) -> Result<(), AllocError>
    ensures { OnOk result (out.new.items ≡ out.old.items ++ counted_text word.now count) }
{
    match count {
        None => Ok(()),
        Some(count) => put_count(out, word, count),
    }
}

/// Appends what a report counts of a node: its visits.
pub fn put_node_counts(
    out: &mut Vec<u8>,
    report: &Option<Report>,
    name: &Name,
) -> Result<(), AllocError>
    ensures { OnOk result (out.new.items ≡ out.old.items ++ node_counts report.now name.now) }
{
    match report {
        None => Ok(()),
        Some(report) => put_counted(out, b"visits", counted(report.nodes.as_slice(), name)),
    }
}

/// Whether by a report a node was never visited.
pub fn is_unvisited(report: &Option<Report>, name: &Name) -> bool
    ensures { result ≡ is_unvisited_by report.now name.now }
{
    match report {
        None => false,
        Some(report) => match counted(report.nodes.as_slice(), name) {
            None => false,
            Some(visits) => visits == 0,
        },
    }
}

// Whether a packet began in a generation: its first leg has it.
fn began(packets: &PacketLines, number: usize, generation: u32) -> bool
    requires { number < length packets.now }
    ensures { option_map (began_in generation) (slice_get packets.now number) ≡ Some result }
{
    let line = packets.get(number);
    match line.legs.as_slice().first() {
        Some(leg) => leg.generation == generation,
        None => false,
    }
}

// One more where there is one.
fn with_one(count: usize, more: bool) -> usize
    requires { count + 1 < 2 ^ 64 }
    ensures sum { result ≡ (if more then count + 1 else count) }
    ensures few { result ≤ count + 1 }
{
    if more { count + 1 } else { count }
}

// How many packets began in a generation.
fn count_began(packets: &PacketLines, generation: u32) -> usize
    ensures { result ≡ count_by (began_in generation) packets.now }
{
    let mut count = 0;
    for number in 0..packets.len() {
        count = with_one(count, began(packets, number, generation));
    }
    count
}

/// Appends how many packets of a report began in a generation.
pub fn put_began(
    out: &mut Vec<u8>,
    report: &Option<Report>,
    generation: u32,
) -> Result<(), AllocError>
    ensures { OnOk result (out.new.items ≡ out.old.items ++ began_text report.now generation) }
{
    match report {
        None => Ok(()),
        Some(report) => {
            put(out, b", ")?;
            put_decimal(out, count_began(&report.packets, generation) as u64)?;
            put(out, b" packets")
        }
    }
}
