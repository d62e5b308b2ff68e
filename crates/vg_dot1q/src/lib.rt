//! The kinds of nodes for VLAN tags and cross-connects, around another set of kinds (IEEE 802.1Q).
//!
//! [`Dot1qKinds`] visits `dot1q-match-N`, `dot1q-push-N`, `dot1q-rewrite-N` and `xconnect-I`, and leaves all other kinds to the set that it
//! stands around. What a visit of a kind makes of a packet stands in `specs/nodes/`, and its body in `nodes/`, in files of the same names.
//! Only the outer tag counts, and only its type 0x8100. Tags come off and go on in front of the packet where it lies: no more than twelve
//! bytes move.
//!
//! In which order to read: `dot1q`, `tags`, `nodes`; then `laws`.
#![tactic(auto)]

pub mod dot1q;
pub mod laws;
mod nodes;
mod tags;

pub use dot1q::Dot1qKinds;
