//! Laws of sets of kinds around other sets: each is a function whose contract is the law.
ghost use Rattle.std.specs.Prelude.{ℕ};
ghost use Rattle.vg_model.specs.Graph.{Graph};
ghost use Rattle.vg_model.specs.Packet.{Packet};
ghost use Rattle.vg_model.specs.Valid.{IsKindSet};
ghost use Rattle.vg_model.specs.Visit.{Visit};
ghost use Rattle.vg_kinds.specs.Around.{OwnVisit, around, AreLawful, IsUncongested, NeverCongest};

/// A set of kinds around another keeps the laws of visits, where its own visits and those of the other set do.
pub fn a_set_around_another_is_lawful()
    ensures { (own : OwnVisit) → AreLawful own → (inner : Visit) → IsKindSet inner → IsKindSet (around own inner) }
{}

/// It drops no packet by congestion at a visit, where neither it nor the other set does.
pub fn a_set_around_another_never_congests()
    ensures { (own : OwnVisit) → NeverCongest own → (inner : Visit) (g : Graph) (n : ℕ) (p : Packet) → IsUncongested (inner g n p)
        → IsUncongested (around own inner g n p) }
{}
