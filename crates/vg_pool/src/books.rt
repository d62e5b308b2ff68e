//! The ledgers of a pool.
ghost use Rattle.std.specs.Prelude.{ℕ};

use std::marker::Brand;
use std::sync::ledger::Ledger;

/// The ledger of the buffers ever taken from a pool. It also names how many buffers the pool has.
pub trait PoolLedger: Ledger {
    /// How many buffers the pool has.
    ghost total: { ℕ };
}

impl PoolLedger for Brand {
    ghost total = { 0 };
}
