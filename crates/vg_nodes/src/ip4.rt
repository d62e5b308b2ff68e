//! The Ethernet and IPv4 kinds (RFC 791; RFC 1812, sections 5.2.2, 5.2.4.3 and 5.3.1).
ghost use Rattle.vg_model.specs.Visit.{ip4_visit};
ghost use Rattle.vg_model.proofs.KindLaws.{ip4_laws};

use crate::kinds::KindSet;
use crate::nodes::ethernet_input::ethernet_input;
use crate::nodes::interfaces::{interface_output, interface_tx, know_interfaces};
use crate::nodes::ip4_input::ip4_input;
use crate::nodes::ip4_lookup::ip4_lookup;
use crate::nodes::ip4_rewrite::ip4_rewrite;
use crate::nodes::steps::{NEXT, dropped};
use crate::nodes::worker_handoff::worker_handoff;
use crate::sorted::Sorted;
use crate::visiting::visit_each;
use vg_fork::Fork;
use vg_frame::BufferMemory;
use vg_model::{DropError, Kind, Step};
use vg_pool::Buffer;

/// The Ethernet and IPv4 kinds, with `Pass`, the handoffs and the node that drops. A node of any other kind drops, too.
#[derive(Clone, Copy, Debug, PartialEq, Eq)]
pub struct Ip4Kinds;

impl KindSet for Ip4Kinds {
    ghost meaning = { ip4_visit };

    #[inline]
    fn visit(&self, fork: &Fork, node: u16, buffer: &mut Buffer) -> Step {
        self.visit_at(fork.kind(node), fork, node, buffer)
    }

    #[inline]
    fn visit_at(&self, kind: Kind, fork: &Fork, _node: u16, buffer: &mut Buffer) -> Step {
        know_interfaces(fork);
        match kind {
            Kind::EthernetInput => ethernet_input(fork, buffer),
            Kind::Ip4Input => ip4_input(buffer),
            Kind::Ip4Lookup => ip4_lookup(fork, buffer),
            Kind::Ip4Rewrite => ip4_rewrite(fork, buffer),
            Kind::InterfaceOutput => interface_output(fork, buffer),
            Kind::InterfaceTx => interface_tx(fork, buffer),
            Kind::Pass => NEXT,
            Kind::WorkerHandoff(kind) => worker_handoff(kind, buffer),
            Kind::ErrorDrop | Kind::PgInput | Kind::HandoffDequeue => dropped(DropError::Blackhole),
            // What other sets of kinds visit.
            Kind::EthernetDual
            | Kind::Ip6Input
            | Kind::Ip6Lookup
            | Kind::Ip6Rewrite
            | Kind::Dot1qMatch(_)
            | Kind::Dot1qPush(_)
            | Kind::Dot1qRewrite(_)
            | Kind::CrossConnect(_) => dropped(DropError::Blackhole),
        }
    }

    // A loop for each kind that packets are forwarded by, with its visit in line; all others share one.
    fn visit_all(
        &self,
        kind: Kind,
        fork: &Fork,
        node: u16,
        indexes: &[u32],
        memory: &mut BufferMemory,
        out: &mut Sorted,
    ) {
        know_interfaces(fork);
        match kind {
            Kind::EthernetInput => visit_each(indexes, memory, out, move |buffer| {
                ethernet_input(fork, buffer)
            }),
            Kind::Ip4Input => visit_each(indexes, memory, out, |buffer| ip4_input(buffer)),
            Kind::Ip4Lookup => visit_each(indexes, memory, out, move |buffer| {
                ip4_lookup(fork, buffer)
            }),
            Kind::Ip4Rewrite => visit_each(indexes, memory, out, move |buffer| {
                ip4_rewrite(fork, buffer)
            }),
            Kind::InterfaceOutput => visit_each(indexes, memory, out, move |buffer| {
                interface_output(fork, buffer)
            }),
            Kind::InterfaceTx => visit_each(indexes, memory, out, move |buffer| {
                interface_tx(fork, buffer)
            }),
            Kind::WorkerHandoff(kind) => visit_each(indexes, memory, out, move |buffer| {
                worker_handoff(kind, buffer)
            }),
            _ => visit_each(indexes, memory, out, move |buffer| {
                self.visit_at(kind, fork, node, buffer)
            }),
        }
    }

    ghost lawful = { ip4_laws };
}
