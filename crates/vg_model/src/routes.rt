//! Routes.
ghost use Rattle.std.specs.Prelude.{◌≡◌, ◌≤◌, ◌-◌, ◌%◌, ◌^◌};

use crate::members::{Members, Names};

/// The first `len` bits of an IPv4 address, at most 32. The bits behind them, the host bits, are zero.
#[derive(Clone, Copy, Debug, PartialEq, Eq)]
pub struct Prefix {
    /// The address in the host's order; the bits behind the prefix are 0.
    pub addr: u32,
    /// At most 32.
    pub len: u8,
    pub ghost few: { len ≤ 32 },
    pub ghost host_bits: { addr % 2 ^ (32 - len) ≡ 0 },
}

/// The first `len` bits of an IPv6 address, at most 128. The bits behind them, the host bits, are zero.
#[derive(Clone, Copy, Debug, PartialEq, Eq)]
pub struct Prefix6 {
    /// The address in the host's order; the bits behind the prefix are 0.
    pub addr: u128,
    /// At most 128.
    pub len: u8,
    pub ghost few: { len ≤ 128 },
    pub ghost host_bits: { addr % 2 ^ (128 - len) ≡ 0 },
}

/// Where a route leads: over one of some adjacencies, to this host, or nowhere.
#[derive(Clone, Copy, Debug, PartialEq, Eq)]
pub enum RouteTo {
    /// The adjacencies' numbers.
    Via(Members),
    Local,
    Drop,
}

/// Where a route leads, with the adjacencies by their names.
#[derive(Drop)]
pub enum RouteWord {
    Via(Names),
    Local,
    Drop,
}
