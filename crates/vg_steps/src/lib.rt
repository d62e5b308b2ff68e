//! Steps on shared words that leave a trail. Each seat at a table carries, for each step that it made, the number of the word and
//! the value that the step found there. So a contract can say which word a call has read, and what it read, whatever the
//! protocol's own part of the seat says.
//!
//! A protocol brings its rule, a `TableRule`, and its kinds of step, each a `Play`, as for `atomic_table`, on which this crate
//! stands. Both see the protocol's own part of a seat alone. The trail lies beside it: `load`, `store`, `fetch_add` and
//! `fetch_sub` put one entry in front of it, and nothing else changes it.
//!
//! What a contract has to name, for an answer that comes by a word that a call has read: the seat's table and number, which
//! stay the same, and its trail, which is longer by the steps of this call. Two seats have never the same table and number: that
//! rests on `atomic_table`'s seats. Cutting off and taking in a seat make no entry, though each loads the table's first word.
//!
//! In which order to read: `tables`, `seats`, `steps` with `moves`, `notes`.
#![tactic(auto)]

mod moves;
mod notes;
mod seats;
mod steps;
mod tables;

pub use atomic_table::{Closed, Join, Play, Refused, Split, TableRule};
pub use notes::{Found, Noted};
pub use seats::Seat;
pub use tables::Table;
