//! The IPv6 kinds (RFC 8200, section 3), around another set.
ghost use Rattle.vg_ip6.specs.Visit.{ip6_visit};
ghost use Rattle.vg_ip6.specs.lawful.KindLaws.{ip6_laws};

use crate::nodes::ethernet_dual::ethernet_dual;
use crate::nodes::ip6_input::ip6_input;
use crate::nodes::ip6_lookup::ip6_lookup;
use crate::nodes::ip6_rewrite::ip6_rewrite;
use vg_fork::Fork;
use vg_frame::BufferMemory;
use vg_model::{Kind, Step};
use vg_nodes::parts::know_interfaces;
use vg_nodes::{KindSet, Sorted, visit_each};
use vg_pool::Buffer;

/// The IPv6 kinds, and the node that parts IPv4 from IPv6. A node of any other kind is visited by the set in it.
#[derive(Clone, Copy)]
pub struct Ip6Kinds<K: KindSet>(pub K);

impl<K: KindSet> KindSet for Ip6Kinds<K> {
    ghost meaning = { ip6_visit K.meaning };

    #[inline]
    fn visit(&self, fork: &Fork, node: u16, buffer: &mut Buffer) -> Step {
        self.visit_at(fork.kind(node), fork, node, buffer)
    }

    #[inline]
    fn visit_at(&self, kind: Kind, fork: &Fork, node: u16, buffer: &mut Buffer) -> Step {
        know_interfaces(fork);
        match kind {
            Kind::EthernetDual => ethernet_dual(fork, buffer),
            Kind::Ip6Input => ip6_input(buffer),
            Kind::Ip6Lookup => ip6_lookup(fork, buffer),
            Kind::Ip6Rewrite => ip6_rewrite(fork, buffer),
            _ => self.0.visit_at(kind, fork, node, buffer),
        }
    }

    // A loop for each kind, with its visit in line.
    fn visit_all(
        &self,
        kind: Kind,
        fork: &Fork,
        node: u16,
        indexes: &[u32],
        memory: &mut BufferMemory,
        out: &mut Sorted,
    ) {
        know_interfaces(fork);
        match kind {
            Kind::EthernetDual => visit_each(indexes, memory, out, |buffer| {
                ethernet_dual(fork, buffer)
            }),
            Kind::Ip6Input => visit_each(indexes, memory, out, |buffer| ip6_input(buffer)),
            Kind::Ip6Lookup => visit_each(indexes, memory, out, |buffer| {
                ip6_lookup(fork, buffer)
            }),
            Kind::Ip6Rewrite => visit_each(indexes, memory, out, |buffer| {
                ip6_rewrite(fork, buffer)
            }),
            _ => self.0.visit_all(kind, fork, node, indexes, memory, out),
        }
    }

    ghost lawful = { ip6_laws K.meaning K.lawful };
}
