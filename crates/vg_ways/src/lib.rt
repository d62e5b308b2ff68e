//! The ways of packets through the generations of a plan: what is shown of each leg, and how many packets went which way.
//!
//! A packet's way is known beforehand, as a [`Went`]: its legs, the nodes that it visited, and its end. [`put_story`] takes the packet through
//! these visits once more, each leg under its generation, and makes the pieces of what each visit decided by and changed (`vg_story`);
//! [`put_way`] writes them. [`Stages`] are the generations, made as they are needed, with the lines of the script that set their routes.
//! [`put_entries`] makes of a packet's pieces what is counted of it, and [`put_counts`] writes the table; the [`laws`] say that what is counted
//! under each generation adds up.
//!
//! In which order to read: `lines`, `stages`, `stories`, `clocks` and `telling`; `entries`, `keys`, `tallies`, `logs`, `prefixes` and `tables`; `laws`
//! by itself.
#![tactic(auto)]

mod clocks;
mod entries;
mod keys;
pub mod laws;
mod lines;
mod logs;
mod prefixes;
mod stages;
mod stories;
mod tables;
mod tallies;
mod telling;

pub use clocks::Clock;
pub use entries::{Entry, put_entries};
pub use stages::Stages;
pub use stories::{Went, put_story};
pub use tables::put_counts;
pub use telling::{Place, put_way};
