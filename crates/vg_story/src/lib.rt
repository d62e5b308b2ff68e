//! What the visits of a packet decided by, and what they changed, as values and as text.
//!
//! [`put_visits`] takes a packet through nodes that it is known to visit and makes [`Piece`]s: each visit, what it decided by (the check that
//! failed and the value found, the route that matched, the neighbor chosen), and each field of the frame that it changed. [`put_pieces`]
//! writes them.
//!
//! In which order to read: `pieces`, `matches` with `matches6`, and `stages`; `fronts` with `numbers` and `fields`, `changes`, `reasons`, `chains`,
//! `visits`; `words` and `writing` by themselves; then `laws`.
#![tactic(auto)]

mod chains;
mod changes;
mod fields;
mod fronts;
pub mod laws;
mod matches;
mod matches6;
mod numbers;
mod pieces;
mod reasons;
mod stages;
mod visits;
mod words;
mod writing;

pub use chains::Chain;
pub use matches::{RouteIndex, matched4};
pub use matches6::{RouteIndex6, matched6};
pub use pieces::{Fact, Field, Piece, Value, Word};
pub use stages::Stage;
pub use visits::put_visits;
pub use words::{put, put_decimal};
pub use writing::{put_interface, put_node, put_pieces, put_value};
