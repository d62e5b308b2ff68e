//! The tables of routes of IPv4 and of IPv6, and the longest match in them (RFC 1812, section 5.2.4.3).
//!
//! [`Fib`] and [`Fib6`] are the tables that routes are set in and taken out of, in time that grows as the logarithm of their number but
//! for moves of at most 4,096 places; a look-up in one goes over all routes. [`Mtrie`] is built of a `Fib`, [`Spans6`] of a `Fib6`, and
//! they answer the same in few steps. Both name a route by its number, and lend the target where it lies, so that one of its
//! adjacencies is picked without a copy of the list.
//!
//! [`Mtrie`] takes at most three steps: by the first 16 bits of an address, then by the next 8, then by the last 8, as the mtrie of VPP's
//! IPv4 FIB. A step to 8 bits more is there only where some prefix is longer than the bits so far.
//!
//! An entry takes 2 bytes, the slot of a route 48, and a child has 256 entries. The most that 4,096 routes of 32 bits take is where
//! no two of them have their first 16 bits in common: 65,536 * 2 + 4,096 * 256 * 2 + 4,096 * 256 * 2 + 4,096 * 48 = 4,521,984 bytes.
//! Where 4,096 such routes in as many prefixes of 24 bits share 16 of 16 bits, it is 65,536 * 2 + 16 * 256 * 2 + 4,096 * 256 * 2 +
//! 4,096 * 48 = 2,433,024 bytes. Slots and children that removed routes leave are at most as many again, so two tries, those before
//! and after a change, take less than 18 million bytes. An entry names a route by its number, so it stays as small where a target
//! grows.
//!
//! [`Spans6`] are spans of addresses side by side, in each of which one route is best: 4,096 routes make at most 8,193 of them, of 18 bytes
//! each, and removed routes leave at most as many again. A trie of 128 bits would take up to 15 steps and, for as many routes of 128 bits,
//! 4,096 * 14 * 256 entries. The span of an address is searched by where spans begin: 16 places at once, then 15 between two of them, 15
//! again, and one. These looks don't hang on one another, so the processor makes them side by side, and a look-up costs as much whatever
//! the prefixes are and however they nest.
//!
//! [`Mtrie::renewed`] and [`Spans6::renewed`] bring them up to date with their table in place: they go over all routes of the table, and
//! a new prefix, or a removed one, costs the places, or the spans, that it covers. For a removed one they look at each slot once more. They
//! take their value, so nobody looks up in it meanwhile. [`Mtrie::target`] and [`Spans6::target`] only read, so the workers of one
//! generation can share both behind a reference.
//!
//! In which order to read: `table`, `numbers`, `entries`, `trie`; then `table6`, `spans`, and `laws`.
#![tactic(auto)]

mod entries;
pub mod laws;
mod numbers;
mod spans;
mod table;
mod table6;
mod trie;

pub use spans::Spans6;
pub use table::{Fib, FibError, NoSuchRoute};
pub use table6::Fib6;
pub use trie::Mtrie;
