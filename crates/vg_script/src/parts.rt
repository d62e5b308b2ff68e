//! The parts of a word between marks.
ghost use Rattle.std.specs.Prelude.{◌≡◌, ◌==◌, ◌∷◌, ◌<◌, length, IfSome};
ghost use Rattle.std.specs.Option.{option_copied};
ghost use Rattle.std.specs.List.{slice_split};
ghost use Rattle.vg_script.specs.Parts.{parts_left};

use crate::classes::split_at;

/// The part before the first mark, and what stands behind that mark: all, and `None`, where there is no mark.
pub fn first_part(text: &[u8], mark: u8) -> (&[u8], Option<&[u8]>)
    ensures parts { slice_split (λ byte. byte == mark) text.now ≡ result.0.now ∷ parts_left (λ byte. byte == mark) (option_copied result.1) }
    ensures shorter { IfSome result.1 (λ rest. length rest.now < length text.now) }
{
    match text.iter().position(|byte| *byte == mark) {
        Some(place) => {
            let (part, rest) = split_at(text, Some(place));
            (part, Some(rest))
        }
        None => (text, None),
    }
}
