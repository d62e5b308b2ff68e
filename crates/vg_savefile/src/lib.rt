//! The savefile of the packets that were transmitted.
//!
//! [`savefile_of`] makes it in the memory in which the packets' bytes were kept, where they stand there in the savefile's order: each moves
//! back to its record, from the last to the first, and nothing else is copied. Else the savefile is written anew.
#![tactic(auto)]

mod placing;
mod saving;

pub use saving::savefile_of;
