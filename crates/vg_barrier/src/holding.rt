//! How main takes the parcels of all workers, and gives them back.
ghost use Rattle.std.specs.Prelude.{◌≡◌, ℕ, ◌+◌, ◌≤◌, ◌<◌, true, false, [], ◌++◌, length, replicate, vec_capacity};
ghost use Rattle.vg_steps.specs.Trails.{found};
ghost use Rattle.vg_steps.specs.Seats.{table_of, trail_of, IsSameSeat};
ghost use Rattle.vg_barrier.specs.Answers.{marks_found};
ghost use Rattle.vg_barrier.specs.declared.barrier.TheConstants.{GENERATION as GENERATION_WORD};
ghost use Rattle.vg_barrier.specs.Seats.{IsMain, Whole, MayReturn, main_view, first_of};
ghost use Rattle.vg_barrier.specs.Barrier.{IsSeatOf};
ghost use Rattle.vg_barrier.specs.declared.views.MainPhase.TheVariants.{Holding};
ghost use Rattle.vg_barrier.specs.declared.views.MainView.{MainView};

use crate::barrier::{APART, Barrier, GENERATION, MARKS};
use crate::parcel::{Parcel, Stamped};
use crate::plays::{ReturnParcel, TakeParcel};
use crate::views::Place;

// Takes the parcels of all workers, by rising number.
pub(crate) fn take_all<P: Parcel + Drop>(
    barrier: &Barrier<P>,
    seat: &mut Place<P>,
    parcels: &mut Vec<P>,
    workers: usize,
)
    requires seat { IsSeatOf seat.old barrier.now × (workers ≡ (table_of seat.old).slots) × (workers ≤ 8) }
    requires main { IsMain seat.old Holding 0 false × (workers ≡ (main_view seat.old).made) }
    requires none { (parcels.old.items ≡ []) × (workers ≤ vec_capacity parcels.old) }
    ensures seat { IsSameSeat seat.old seat.new }
    ensures main { IsMain seat.new Holding workers false }
    ensures view { let m : MainView P.Book = main_view seat.old in let n : MainView P.Book = main_view seat.new in n ≡ record m { marks = n.marks; with = workers; steps = m.steps + workers } }
    ensures trail { trail_of seat.new ≡ marks_found (main_view seat.new).marks workers (trail_of seat.old) }
    ensures all { (length parcels.new.items ≡ workers) × (workers ≤ vec_capacity parcels.new) }
    ensures whole { let n : MainView P.Book = main_view seat.new in Whole P.fits P.mark P.generation n n.released parcels.new.items }
{
    let words = &barrier.table;
    for k in 0..workers {
        words.load::<TakeParcel>(seat, k * APART + MARKS);
        let Some(Stamped { stamp: _, parcel }) = words.exchange(seat, k, None) else {
            unreachable!()
        };
        let Ok(()) = parcels.push(parcel) else {
            unreachable!()
        };
    }
}

// Gives the parcels of all workers back with this stamp, by falling number.
pub(crate) fn return_all<P: Parcel + Drop>(
    barrier: &Barrier<P>,
    seat: &mut Place<P>,
    parcels: &mut Vec<P>,
    stamp: u64,
)
    requires seat { IsSeatOf seat.old barrier.now }
    requires main { IsMain seat.old Holding (length parcels.old.items) false × (length parcels.old.items ≡ (main_view seat.old).made) × (0 < length parcels.old.items) × (stamp ≡ (main_view seat.old).stamp + 1) }
    requires whole { let m : MainView P.Book = main_view seat.old in MayReturn P.fits P.mark P.generation m parcels.old.items }
    ensures seat { IsSameSeat seat.old seat.new }
    ensures main { IsMain seat.new Holding 0 true }
    ensures view { let m : MainView P.Book = main_view seat.old in main_view seat.new ≡ record m { with = 0; returning = true; back = first_of P.generation parcels.old.items; steps = m.steps + length parcels.old.items } }
    ensures trail { trail_of seat.new ≡ replicate (length parcels.old.items) (found GENERATION_WORD (first_of P.generation parcels.old.items)) ++ trail_of seat.old }
    ensures none { (parcels.new.items ≡ []) × (vec_capacity parcels.new ≡ vec_capacity parcels.old) }
{
    let words = &barrier.table;
    while let Some(parcel) = parcels.pop() {
        let k = parcels.len();
        let generation = parcel.generation() as u64;
        match words.exchange(seat, k, Some(Stamped { stamp, parcel })) {
            None => {}
            Some(_) => unreachable!(),
        }
        words.store::<ReturnParcel>(seat, GENERATION, generation);
    }
}
