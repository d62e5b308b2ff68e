//! The kinds of nodes that calls run with.

use vg_dot1q::Dot1qKinds;
use vg_ip6::Ip6Kinds;
use vg_nodes::Ip4Kinds;

/// The sets of kinds, one around the other.
pub type VgdKinds = Dot1qKinds<Ip6Kinds<Ip4Kinds>>;

/// All kinds of nodes.
pub const KINDS: VgdKinds = Dot1qKinds(Ip6Kinds(Ip4Kinds));
