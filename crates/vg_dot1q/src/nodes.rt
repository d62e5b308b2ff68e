//! The visits of the VLAN kinds and of cross-connects, a file for each kind.
pub(crate) mod cross_connect;
pub(crate) mod dot1q_match;
pub(crate) mod dot1q_push;
pub(crate) mod dot1q_rewrite;
