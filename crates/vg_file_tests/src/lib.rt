//! Tests of what is read and written, and of a packet's bytes: captures, savefiles, loads, headers, fates and reports, a module for each
//! crate, over the built libraries. They stand in a crate of tests alone, since a crate that has tests is proved twice.
//!
//! In which order to read: `checks`, `capture`, `savefile`, `load`, `packet`, `fates`, `report`.
#![tactic(auto)]

#[cfg(test)]
mod capture;
#[cfg(test)]
mod checks;
#[cfg(test)]
mod fates;
#[cfg(test)]
mod load;
#[cfg(test)]
mod packet;
#[cfg(test)]
mod report;
#[cfg(test)]
mod savefile;
