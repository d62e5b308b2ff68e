//! The IPv6 kinds of nodes, around another set of kinds (RFC 8200, section 3).
//!
//! [`Ip6Kinds`] visits `ethernet-dual`, `ip6-input`, `ip6-lookup` and `ip6-rewrite`, and leaves all other kinds to the set that it stands
//! around. What a visit of a kind makes of a packet stands in `specs/nodes/`, and its body in `nodes/`, in files of the same names.
//! Extension headers are payload, and nothing is answered by ICMPv6.
//!
//! In which order to read: `ip6`, `heads` with `fields`, `nodes`; then `laws`.
#![tactic(auto)]

mod fields;
mod heads;
pub mod ip6;
pub mod laws;
mod nodes;

pub use ip6::Ip6Kinds;
