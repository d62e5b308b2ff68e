//! The other workers of a run, by rising number.
ghost use Rattle.std.specs.Prelude.{◌≡◌, ◌≢◌, ◌<◌};
ghost use Rattle.vg_underway.specs.Peers.{place_among};

/// The place of another worker among all others.
pub fn place_of(worker: u8, other: u8) -> usize
    requires { other ≢ worker }
    ensures { result ≡ place_among worker other }
{
    if other < worker {
        other as usize
    } else {
        other as usize - 1
    }
}
