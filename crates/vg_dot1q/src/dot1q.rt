//! The VLAN kinds (IEEE 802.1Q) and cross-connects, around another set.
ghost use Rattle.vg_dot1q.specs.Visit.{dot1q_visit};
ghost use Rattle.vg_dot1q.specs.lawful.KindLaws.{dot1q_laws};

use crate::nodes::cross_connect::cross_connect;
use crate::nodes::dot1q_match::dot1q_match;
use crate::nodes::dot1q_push::dot1q_push;
use crate::nodes::dot1q_rewrite::dot1q_rewrite;
use vg_fork::Fork;
use vg_frame::BufferMemory;
use vg_model::{Kind, Step};
use vg_nodes::{KindSet, Sorted, visit_each};
use vg_pool::Buffer;

/// The kinds that take tags off, put them on and renumber them, and cross-connects. A node of any other kind is visited by the set in it.
#[derive(Clone, Copy)]
pub struct Dot1qKinds<K: KindSet>(pub K);

impl<K: KindSet> KindSet for Dot1qKinds<K> {
    ghost meaning = { dot1q_visit K.meaning };

    #[inline]
    fn visit(&self, fork: &Fork, node: u16, buffer: &mut Buffer) -> Step {
        self.visit_at(fork.kind(node), fork, node, buffer)
    }

    #[inline]
    fn visit_at(&self, kind: Kind, fork: &Fork, node: u16, buffer: &mut Buffer) -> Step {
        match kind {
            Kind::Dot1qMatch(id) => dot1q_match(id, buffer),
            Kind::Dot1qPush(id) => dot1q_push(id, buffer),
            Kind::Dot1qRewrite(id) => dot1q_rewrite(id, buffer),
            Kind::CrossConnect(interface) => cross_connect(interface, fork, buffer),
            _ => self.0.visit_at(kind, fork, node, buffer),
        }
    }

    // A loop for each kind, with its visit in line.
    fn visit_all(
        &self,
        kind: Kind,
        fork: &Fork,
        node: u16,
        indexes: &[u32],
        memory: &mut BufferMemory,
        out: &mut Sorted,
    ) {
        match kind {
            Kind::Dot1qMatch(id) => visit_each(indexes, memory, out, |buffer| {
                dot1q_match(id, buffer)
            }),
            Kind::Dot1qPush(id) => visit_each(indexes, memory, out, |buffer| {
                dot1q_push(id, buffer)
            }),
            Kind::Dot1qRewrite(id) => visit_each(indexes, memory, out, |buffer| {
                dot1q_rewrite(id, buffer)
            }),
            Kind::CrossConnect(interface) => visit_each(indexes, memory, out, |buffer| {
                cross_connect(interface, fork, buffer)
            }),
            _ => self.0.visit_all(kind, fork, node, indexes, memory, out),
        }
    }

    ghost lawful = { dot1q_laws K.meaning K.lawful };
}
