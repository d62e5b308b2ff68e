//! The visit of `ip6-lookup` (RFC 7608, section 2).
ghost use Rattle.std.specs.Prelude.{◌≡◌, false};
ghost use Rattle.vg_model.specs.Members.{member};
ghost use Rattle.vg_model.specs.Visit.{datagram};
ghost use Rattle.vg_ip6.specs.Header as headers;
ghost use Rattle.vg_ip6.specs.Visit as visits;

use crate::heads::{destination_of, flow_hash_of, lacks_header};
use vg_fork::Fork;
use vg_model::{DropError, Members, RouteTo, Step};
use vg_nodes::parts::{NEXT, dropped};
use vg_pool::Buffer;

// Chooses the route of the longest prefix that covers the destination, and of its adjacencies the one that the flow's hash picks.
#[inline(always)]
pub(crate) fn ip6_lookup(fork: &Fork, buffer: &mut Buffer) -> Step
    ensures visited { (result, buffer.new.packet) ≡ visits.ip6_lookup fork.now.graph buffer.old.packet }
    ensures legs { buffer.new.legs ≡ buffer.old.legs }
    ensures chain { buffer.new.pieces ≡ buffer.old.pieces }
{
    if lacks_header(buffer) {
        return dropped(DropError::Unchecked);
    }
    let Some(target) = fork.target6(destination_of(buffer)) else {
        return dropped(DropError::NoRoute);
    };
    match target {
        RouteTo::Drop => dropped(DropError::RouteDrop),
        RouteTo::Local => dropped(DropError::Local),
        RouteTo::Via(members) => {
            let adjacency = picked(members, buffer);
            buffer.set_adjacency(adjacency);
            NEXT
        }
    }
}

// The adjacency that the hash of the packet's flow picks. The hash is computed where there is more than one.
#[inline]
fn picked(members: &Members, buffer: &Buffer) -> u16
    requires { headers.lacks_header (datagram buffer.now.packet) ≡ false }
    ensures { result ≡ member members.now (headers.flow_hash6 (datagram buffer.now.packet)) }
{
    match members.as_slice() {
        [adjacency] => *adjacency,
        _ => picked_by_hash(members, buffer),
    }
}

// The same by the hash, whatever the list. It stands apart, so that a look-up with one adjacency is short.
#[inline(never)]
fn picked_by_hash(members: &Members, buffer: &Buffer) -> u16
    requires { headers.lacks_header (datagram buffer.now.packet) ≡ false }
    ensures { result ≡ member members.now (headers.flow_hash6 (datagram buffer.now.packet)) }
{
    members.member(flow_hash_of(buffer))
}
