//! Remarks on a run that ended well: what was lost in it that need not be, and what of its script did nothing.
//!
//! [`remarks_on`] finds them, by the capture, the script and the report alone; [`tell`] writes a sentence for each to the standard error, in a
//! fixed order.
//!
//! In which order to read: `found`, `statements`, `prefixes`, `lasts`, `addresses`, `late`, `packets`, `finding`; then `telling`.
#![tactic(auto)]

pub mod addresses;
pub mod finding;
pub mod found;
mod lasts;
pub mod late;
pub mod packets;
mod prefixes;
pub mod statements;
mod telling;

pub use addresses::{Class, Known};
pub use finding::{Remarks, remarks_on};
pub use found::Found;
pub use late::LateEvent;
pub use packets::Unforwarded;
pub use telling::tell;
