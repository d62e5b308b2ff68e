//! Tests of the top call, over folders and sinks in memory. They stand in a crate of tests alone, since a crate that has tests is proved
//! twice.
//!
//! What a call prints and saves, and no more, is a row of `vg_rows`: here are calls with gates, faults and the end of a run, orders of threads, and
//! bytes made by loops.
//!
//! In which order to read: `memory_runs`, `runs`, `remarks`, `refusals`, `captures`, `workers`, `holds`, `walked`, `loads`, `checks`; then
//! `lengths`, `dual_stack`, `vlans`.
#![tactic(auto)]

#[cfg(test)]
mod captures;
#[cfg(test)]
mod checks;
#[cfg(test)]
mod dual_stack;
#[cfg(test)]
mod holds;
#[cfg(test)]
mod lengths;
#[cfg(test)]
mod loads;
#[cfg(test)]
mod memory_runs;
#[cfg(test)]
mod refusals;
#[cfg(test)]
mod remarks;
#[cfg(test)]
mod runs;
#[cfg(test)]
mod vlans;
#[cfg(test)]
mod walked;
#[cfg(test)]
mod workers;
