//! What the packet path computes on bytes. That is number fields, the checksum of an IPv4 header (RFC 791, RFC 1071), its update as the time
//! to live falls (RFC 1624), the hash that chooses a worker, and the checks and the rewrite of a frame's headers. No call allocates.
//!
//! In which order to read: `fields`, `headers`, `checksums`, `hashes`, `laws`.
#![tactic(auto)]

mod checksums;
mod fields;
mod hashes;
pub mod headers;
pub mod laws;

pub use checksums::{TIME_TO_LIVE, lower_ttl, lowered_ttl, verify_header};
pub use fields::{u16_at, u32_at};
pub use hashes::{flow_hash, mixed};
