//! Laws of the visits: each is a function whose contract is the law.
ghost use Rattle.std.specs.Prelude.{◌≡◌, ◌-◌, ℕ, List, take, drop, false, slice_range};
ghost use Rattle.vg_model.specs.declared.kinds.Adjacency.{Adjacency};
ghost use Rattle.vg_model.specs.declared.kinds.Interface.{Interface};
ghost use Rattle.vg_model.specs.Graph.{Graph};
ghost use Rattle.vg_model.specs.Packet.{Packet};
ghost use Rattle.vg_model.specs.Visit.{Visit};
ghost use Rattle.vg_model.specs.Valid.{IsKindSet, IsMac};
ghost use Rattle.vg_kinds.specs.Around.{IsUncongested};
ghost use Rattle.vg_ip6.specs.Header.{lacks_header, hop_limit};
ghost use Rattle.vg_ip6.specs.Visit.{rewritten6, ip6_visit};

/// The visits of the IPv6 kinds, around visits that keep the laws of a set of kinds, keep them.
pub fn ip6_kinds_are_lawful()
    ensures { (inner : Visit) → IsKindSet inner → IsKindSet (ip6_visit inner) }
{}

/// The IPv6 kinds drop no packet by congestion: where a visit does, it is one that is left to the other set.
pub fn ip6_kinds_never_congest()
    ensures { (inner : Visit) (g : Graph) (n : ℕ) (p : Packet) → IsUncongested (inner g n p) → IsUncongested (ip6_visit inner g n p) }
{}

/// A frame that leaves has the neighbor's address, its interface's own, a hop limit less by one, and all else as it came.
pub fn all_else_of_a_frame_stays()
    ensures { (adjacency : Adjacency) (interface : Interface) (frame : List ℕ) → IsMac adjacency.mac → IsMac interface.mac
        → lacks_header (drop 14 frame) ≡ false
        → (let new = rewritten6 adjacency interface frame in
        (take 6 new ≡ adjacency.mac.0) × (slice_range new 6 12 ≡ interface.mac.0) × (slice_range new 12 21 ≡ slice_range frame 12 21)
        × (hop_limit (drop 14 new) ≡ hop_limit (drop 14 frame) - 1) × (drop 22 new ≡ drop 22 frame)) }
{}
