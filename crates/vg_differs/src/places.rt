//! Where two lists of bytes differ first.
ghost use Rattle.std.specs.Prelude.{◌≡◌, MatchOption};
ghost use Rattle.vg_differs.specs.First.{IsFirst};

/// The first place at which two lists of bytes differ: by another byte, or since one of them ends there. None where they are the same.
pub fn first_difference(ones: &[u8], others: &[u8]) -> Option<usize>
    ensures { MatchOption result (ones.now ≡ others.now) (IsFirst ones.now others.now) }
{
    let shared = ones.len().min(others.len());
    for place in 0..shared {
        if ones[place] != others[place] {
            return Some(place);
        }
    }
    if ones.len() == others.len() {
        None
    } else {
        Some(shared)
    }
}
