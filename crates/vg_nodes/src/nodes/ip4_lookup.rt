//! The visit of `ip4-lookup` (RFC 1812, section 5.2.4.3).
ghost use Rattle.std.specs.Prelude.{◌≡◌};
ghost use Rattle.vg_model.specs.declared.kinds.HashKind.TheVariants.{Flow};
ghost use Rattle.vg_model.specs.Hash.{flow_hash as hash_of_flow};
ghost use Rattle.vg_model.specs.Members.{member};
ghost use Rattle.vg_model.specs.Visit as visits;

use crate::heads::{destination_of, hash_of};
use crate::nodes::steps::{NEXT, dropped};
use vg_fork::Fork;
use vg_model::{DropError, HashKind, Members, RouteTo, Step};
use vg_pool::Buffer;

// Chooses the route of the longest prefix that covers the destination, and of its adjacencies the one that the flow's hash picks.
#[inline(always)]
pub(crate) fn ip4_lookup(fork: &Fork, buffer: &mut Buffer) -> Step
    ensures visited { (result, buffer.new.packet) ≡ visits.ip4_lookup fork.now.graph buffer.old.packet }
    ensures legs { buffer.new.legs ≡ buffer.old.legs }
    ensures chain { buffer.new.pieces ≡ buffer.old.pieces }
{
    if !buffer.checked() {
        return dropped(DropError::Unchecked);
    }
    let Some(target) = fork.target(destination_of(buffer)) else {
        return dropped(DropError::NoRoute);
    };
    match target {
        RouteTo::Drop => dropped(DropError::RouteDrop),
        RouteTo::Local => dropped(DropError::Local),
        RouteTo::Via(members) => {
            let adjacency = picked(members, buffer);
            buffer.set_adjacency(adjacency);
            NEXT
        }
    }
}

// The adjacency that the hash of a packet's flow picks. The hash is computed where there is more than one.
#[inline]
fn picked(members: &Members, buffer: &Buffer) -> u16
    ensures { result ≡ member members.now (hash_of_flow Flow buffer.now.packet.bytes) }
{
    match members.as_slice() {
        [adjacency] => *adjacency,
        _ => picked_by_hash(members, buffer),
    }
}

// The same by the hash, whatever the list. It stands apart, so that a look-up with one adjacency is short.
#[inline(never)]
fn picked_by_hash(members: &Members, buffer: &Buffer) -> u16
    ensures { result ≡ member members.now (hash_of_flow Flow buffer.now.packet.bytes) }
{
    members.member(hash_of(HashKind::Flow, buffer))
}
