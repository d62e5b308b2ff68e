//! VLANs.
ghost use Rattle.std.specs.Prelude.{◌≤◌};

/// The id of a VLAN (IEEE 802.1Q): 1 to 4094, since 0 and 4095 name none.
#[derive(Clone, Copy, Debug, PartialEq, Eq)]
pub struct VlanId {
    /// From [`LEAST_VLAN`](crate::limits::LEAST_VLAN) to [`MOST_VLAN`](crate::limits::MOST_VLAN).
    pub number: u16,
    pub ghost some: { 1 ≤ number },
    pub ghost few: { number ≤ 4094 },
}
