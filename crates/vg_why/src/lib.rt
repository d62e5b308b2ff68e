//! Why packets went where they went, as a program's top call: the words of a call, its files, and what is printed.
//!
//! [`why_run`] loads a capture, a script and a report, takes the packets through the choices that the report names (`vg_replay`), and prints
//! the ways of those that are asked for, or how many went which way (`vg_ways`).
//!
//! In which order to read: `asks` with `routes` and `filters`, `loading`, `journeys`, `ways`, `counting`, `finding`, `top`; `explaining` with
//! `faults`, and `laws`, by themselves.
#![tactic(auto)]

mod asks;
mod counting;
mod explaining;
mod faults;
mod filters;
mod finding;
mod journeys;
pub mod laws;
mod loading;
mod routes;
mod top;
mod ways;

pub use explaining::explain_why;
pub use top::why_run;
