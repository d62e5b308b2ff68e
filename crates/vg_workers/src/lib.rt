//! All workers of a run together: the queues between them, their turns, and what they have kept.
//!
//! [`links_of`] makes a queue from each worker to each other one. The functions of `crews` give the workers turns on one thread:
//! [`turn_all`] each one, [`finish`] all of them until no frame is left in a queue. At the end of a run [`end_all`] takes from each
//! worker what it has kept, [`close_all`] closes the queues, and [`gather::gather`] puts together what was kept.
//!
//! In which order to read: `links`, `crews`, `ends`, `closing` with `rests`, `gather`; `lists` has what several of them use.
#![tactic(auto)]

mod closing;
mod crews;
mod ends;
pub mod gather;
pub mod links;
pub mod lists;
pub mod rests;

pub use closing::close_all;
pub use crews::{finish, have_ended, have_stopped, turn_all, turn_one};
pub use ends::{Ends, end_all};
pub use links::links_of;
pub use rests::Rests;
