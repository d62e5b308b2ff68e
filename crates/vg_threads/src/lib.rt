//! Main, and the workers of a run in threads of their own.
//!
//! [`Main`] leads a run by steps: it asks the workers to park, decides what they do next while all are, and releases them with a parcel
//! each. What it decides by is [`Lead`]. [`run_workers`] starts a thread for each worker, makes main's steps on the thread that called
//! it, and joins the workers once main has told them to stop. A worker and main go through threads as `Tied` and `TiedMain`: values
//! whose turns and steps change nothing that contracts see of them, so what comes back is known to be what was given.
//!
//! In which order to read: `decisions` with `events` and `forks`, then `mains`; for the threads `tied`, `posts` with `patience`,
//! `started`, `teams`, `driving`, and `workers`, where all of it comes together.
#![tactic(auto)]

mod decisions;
mod driving;
mod events;
mod forks;
mod mains;
mod patience;
mod posts;
mod started;
mod teams;
mod tied;
mod workers;

pub use decisions::Lead;
pub use forks::forks_of;
pub use mains::{Main, Phase, Way};
pub use posts::{Posts, posts_of};
pub use workers::run_workers;
