//! Laws of tags and visits: each is a function whose contract is the law.
ghost use Rattle.std.specs.Prelude.{◌≡◌, ◌≤◌, ◌<◌, ◌/◌, ℕ, true, false, length};
ghost use Rattle.vg_model.specs.Bytes.{number16_at};
ghost use Rattle.vg_model.specs.Graph.{Graph};
ghost use Rattle.vg_model.specs.Packet.{Packet};
ghost use Rattle.vg_model.specs.Tag.{is_tagged, vlan_id, cut, tagged, renumbered};
ghost use Rattle.vg_model.specs.Visit.{Visit};
ghost use Rattle.vg_model.specs.Valid.{IsKindSet, AreBytes};
ghost use Rattle.vg_kinds.specs.Around.{IsUncongested};
ghost use Rattle.vg_dot1q.specs.Visit.{dot1q_visit};

/// The visits of the VLAN kinds and of cross-connects, around visits that keep the laws of a set of kinds, keep them.
pub fn dot1q_kinds_are_lawful()
    ensures { (inner : Visit) → IsKindSet inner → IsKindSet (dot1q_visit inner) }
{}

/// These kinds drop no packet by congestion: where a visit does, it is one that is left to the other set.
pub fn dot1q_kinds_never_congest()
    ensures { (inner : Visit) (g : Graph) (n : ℕ) (p : Packet) → IsUncongested (inner g n p) → IsUncongested (dot1q_visit inner g n p) }
{}

/// A packet that gets a tag is tagged with this VLAN id, and is the packet from before, but for the mark, once the tag is taken off.
pub fn a_tag_comes_off_again()
    ensures { (id : ℕ) (p : Packet) → id < 4096 → 14 ≤ length p.bytes → 4 ≤ p.room
        → (is_tagged (tagged id p) ≡ true) × (vlan_id (tagged id p) ≡ id) × (cut (tagged id p) ≡ record p { checked = false }) }
{}

/// A tagged packet that gets another VLAN id is tagged with it, and what stands in front of the id stays.
pub fn a_tag_is_renumbered()
    ensures { (id : ℕ) (p : Packet) → id < 4096 → AreBytes p.bytes → is_tagged p ≡ true
        → (is_tagged (renumbered id p) ≡ true) × (vlan_id (renumbered id p) ≡ id)
        × (number16_at (renumbered id p).bytes 14 / 4096 ≡ number16_at p.bytes 14 / 4096) }
{}
