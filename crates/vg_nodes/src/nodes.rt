//! The visits of the Ethernet and IPv4 kinds, a file for each kind.
pub(crate) mod ethernet_input;
pub(crate) mod interfaces;
pub(crate) mod ip4_input;
pub(crate) mod ip4_lookup;
pub(crate) mod ip4_rewrite;
pub(crate) mod steps;
pub(crate) mod worker_handoff;
