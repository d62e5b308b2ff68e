//! Tests of what is remarked of a run, over the built library.
#![tactic(auto)]

#[cfg(test)]
mod remarks;
