//! How workers are linked with each other.

use std::sync::ledger::Ledger;
use vg_hands::{HandFrame, Handoff};
use vg_pool::Cache;
use vg_ring::RingRx;

/// A worker's ends of the queues from and to the other workers: one input and one output for each of them, by rising number.
#[derive(Drop)]
pub struct WorkerLinks<H: Handoff<HandFrame>> {
    pub inputs: Vec<RingRx<HandFrame>>,
    pub outputs: Vec<H>,
}

/// The links of all workers of a run, by number.
#[derive(Drop)]
pub struct Links<H: Handoff<HandFrame>> {
    pub workers: Vec<WorkerLinks<H>>,
}

/// What comes back where memory for a worker runs out.
#[derive(Drop)]
pub struct Refused<H: Handoff<HandFrame>, T: Ledger, L: Ledger> {
    pub links: WorkerLinks<H>,
    pub cache: Cache<T, L>,
}
