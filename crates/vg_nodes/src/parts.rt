//! What another crate's set of kinds may use: what is read of a packet, and steps.

pub use crate::heads::{is_foreign_to, is_short, type_of};
pub use crate::nodes::interfaces::{FIRST_INTERFACE, know_interfaces};
pub use crate::nodes::ip4_rewrite::adjacency_of;
pub use crate::nodes::steps::{NEXT, dropped};
