//! Laws of loads: each is a function whose contract is the law.
ghost use Rattle.std.specs.Prelude.{◌≡◌, ℕ, length};
ghost use Rattle.vg_capture.specs.declared.captures.Capture.{Capture};
ghost use Rattle.vg_load.specs.Packets.{IsLoad};
ghost use Rattle.vg_load.specs.Saved.{whole_savefile};
ghost use Rattle.vg_load.specs.Scripts.{MakesGenerations};
ghost use Rattle.vg_load.specs.Summary.{savefile_len};

use crate::{HANDOFF, PLAIN};

/// Both scripts of a load are accepted: each is read, all of its edits can be made, and they make five generations.
pub fn scripts_are_accepted()
    ensures plain { MakesGenerations PLAIN.now 5 }
    ensures handoff { MakesGenerations HANDOFF.now 5 }
{}

/// The savefile of the packets of a load has the length that the text says.
pub fn savefiles_have_their_length()
    ensures { (seed packets : ℕ) (capture : Capture) → IsLoad seed packets capture → length (whole_savefile capture) ≡ savefile_len packets }
{}
