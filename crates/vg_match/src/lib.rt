//! Packets of two sides, matched by their bytes.
//!
//! In which order to read: `frames`, `fields`, `keys`, `noise`, `ranges`, `hashes`, `matching`, `sides`, `diffs`.
#![tactic(auto)]

pub mod diffs;
pub mod fields;
pub mod frames;
pub mod hashes;
pub mod keys;
pub mod matching;
pub mod noise;
pub mod ranges;
pub mod sides;

pub use diffs::{Diff, compare, match_is_exact};
pub use fields::{Field, Span, is_among};
pub use frames::{ARP, Carried, IP4, IP6, Layout, front, layout_of};
pub use hashes::hash_of;
pub use keys::{Likeness, compared, cut, have_same_parts, likeness_of, put_likeness};
pub use matching::{Entry, Matching, match_up};
pub use noise::is_noise;
pub use ranges::{Range, is_in_reach};
pub use sides::{Side, alike_all, compared_all, fronts, is_meant, meant_entries, views, with_keys};
