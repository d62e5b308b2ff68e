//! Runs of a capture through the generations of a script, on several workers.
//!
//! There are two runners, and both promise the same of what comes of a run. [`run_turns`] runs main and the workers on one thread: they
//! have turns in the order of a list, and behind it one after the other. [`run_threads`] runs each worker in a thread of its own, and
//! main on the thread that called it.
//!
//! A run goes the same way in both. `seats_of` and `workers_of` put main and the workers at a barrier; main and the workers have their
//! turns until each worker has stopped; the workers take what is left in their queues; and `conclude` ends them, closes the queues and
//! the pool, and puts together what was kept. The queues between the workers are made before, by [`links_of`].
//!
//! In which order to read: `seats`, `leading`, and `runs` for the run on one thread; then `threads` for the other. Main's
//! steps and the threads stand in `vg_threads`; the workers' turns, the queues and what is kept in `vg_workers`.
#![tactic(auto)]

mod leading;
pub mod runs;
mod seats;
pub mod threads;

pub use runs::{Outcome, run_turns};
pub use threads::run_threads;
pub use vg_dispatch::{Input, Links, Options, WorkerLinks};
pub use vg_workers::{Rests, links, links_of, rests};
