//! Sets of kinds around other sets: values and laws alone. A set of one's own visits the nodes of its kinds, and leaves those of all other
//! kinds to the set that it stands around.
#![tactic(auto)]

pub mod laws;
