//! A barrier's words and slots.
ghost use Rattle.std.specs.Prelude.{◌≡◌};
ghost use Rattle.vg_steps.specs.Tables.{place, key_of};
ghost use Rattle.vg_barrier.specs.Machine.{mark_word};

use crate::parcel::Parcel;
use crate::views::BarrierTable;

/// How many words lie from one that is used to the next: 128 bytes, since processors fetch lines of the cache in pairs. So a
/// store of one of them slows no load of another.
pub(crate) const APART: usize = 16;

/// The place of the request word: twice the number of releases, and one more from main's asking to its release.
pub(crate) const REQUEST: usize = 0;

/// The place of the arrival count: the number of workers that are parked or leaving.
pub(crate) const ARRIVALS: usize = 16;

/// The place of the published generation: that of the parcels that main gave back last.
pub(crate) const GENERATION: usize = 32;

/// The place of the mark of worker 0's parcel. Worker k's stands k times `APART` behind it, and the parcel itself lies in slot k.
pub(crate) const MARKS: usize = 48;

/// A barrier between main and its workers. It is shared: each seat steps through a `&` to it.
#[derive(Drop)]
pub struct Barrier<P: Parcel + Drop> {
    pub(crate) table: BarrierTable<P>,
    ghost sized: { (place table).words ≡ mark_word (place table).slots },
    ghost keyed: { (place table).slots ≡ (key_of table).workers },
}
