//! Header checksums, number fields and flow hashes.

mod checksums;
mod fields;
mod hashes;
