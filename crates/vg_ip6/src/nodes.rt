//! The visits of the IPv6 kinds, a file for each kind.
pub(crate) mod ethernet_dual;
pub(crate) mod ip6_input;
pub(crate) mod ip6_lookup;
pub(crate) mod ip6_rewrite;
