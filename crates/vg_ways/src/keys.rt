//! What entries count for.

/// What an entry counts for: each has a line of the table.
#[derive(Clone, Copy, PartialEq, Eq, PartialOrd, Ord)]
pub(crate) enum Key {
    /// The packets that began.
    Began,
    /// The IPv4 route of the prefix of this address and so many bits.
    Matched(u32, u8),
    /// The same for IPv6.
    Matched6(u128, u8),
    /// The neighbor of this number.
    Left(u16),
    /// The packets that were transmitted to no neighbor.
    Alone,
    /// The interface of this number.
    Sent(u16),
    /// The drops of the node of this number with the error of this number.
    Dropped(u16, u16),
}
