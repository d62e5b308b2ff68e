//! How a barrier is made, with main and its workers.
ghost use Rattle.std.specs.Prelude.{◌≡◌, ◌<◌, ◌≤◌, [], length, map, IfOk};
ghost use Rattle.vg_steps.specs.Seats.{me_of};
ghost use Rattle.vg_barrier.specs.Seats.{main_view, worker_view};
ghost use Rattle.vg_barrier.specs.Barrier.{IsSeatOf, workers_of};
ghost use Rattle.vg_barrier.specs.Parcels.{wrapped, AreFirst, AreFirstWords};
ghost use Rattle.vg_barrier.specs.Machine.{opening_view};
ghost use Rattle.vg_barrier.specs.Steps.{made_one, newcomer};
ghost use Rattle.vg_barrier.specs.declared.views.MainPhase.TheVariants.{Clearing as is_clearing};

use crate::barrier::{APART, ARRIVALS, Barrier, MARKS};
use crate::main_seat::{Cleared, Clearing, MainSeat};
use crate::parcel::{Parcel, Stamped};
use crate::plays::MakeWorker;
use crate::views::{About, Place};
use crate::worker_seat::{Check, ParkedSeat, Running};
use std::alloc::Global;
use vg_model::Memory;
use vg_steps::Table;

/// A barrier, with main's seat and the workers', which stand by their numbers.
#[derive(Drop)]
pub struct Parts<P: Parcel + Drop> {
    pub barrier: Barrier<P>,
    pub main: MainSeat<P>,
    pub workers: Vec<Running<P>>,
}

// The parcels' marks.
fn marks_of<P: Parcel>(alloc: Global, parcels: &Vec<P>) -> Result<Vec<u64>, Memory>
    ensures { IfOk result (λ marks. marks.items ≡ map P.mark parcels.now.items) }
{
    let mut marks = Vec::new(alloc);
    for parcel in parcels {
        marks.push(parcel.mark())?;
    }
    Ok(marks)
}

// The words as the table is made.
fn words_of(alloc: Global, marks: &Vec<u64>) -> Result<Vec<u64>, Memory>
    requires { length marks.now.items ≤ 8 }
    ensures { IfOk result (λ words. AreFirstWords words.items marks.now.items) }
{
    let workers = marks.len();
    let mut words = vec![in alloc; 0; workers * APART + MARKS]?;
    words[ARRIVALS] = workers as u64;
    for k in 0..marks.len() {
        words[k * APART + MARKS] = marks[k];
    }
    Ok(words)
}

// The slots as the table is made: each parcel lies in its own.
fn slots_of<P: Drop>(alloc: Global, parcels: Vec<P>) -> Result<Vec<Option<Stamped<P>>>, Memory>
    ensures { IfOk result (λ slots. slots.items ≡ map wrapped parcels.items) }
{
    let mut slots = Vec::new(alloc);
    for parcel in parcels {
        slots.push(Some(Stamped { stamp: 0, parcel }))?;
    }
    Ok(slots)
}

impl<P: Parcel + Drop> Barrier<P>
where
    P::Book: Drop,
{
    ghost use Rattle.vg_barrier.specs.Making.{IsMade};
    ghost use Rattle.vg_barrier.specs.declared.views.View.TheVariants.{Main};

    // Main's seat as the table is made, before any worker is.
    fn lay(alloc: Global, book: P::Book, parcels: Vec<P>) -> Result<(Barrier<P>, Place<P>), Memory>
        requires few { length parcels.items ≤ 8 }
        requires first { AreFirst P.fits P.generation book parcels.items }
        ensures { IfOk result (λ p. (workers_of p.0 ≡ length parcels.items) × IsSeatOf p.1 p.0 × (me_of p.1 ≡ (opening_view book (map P.mark parcels.items), []))) }
    {
        let marks = marks_of(alloc, &parcels)?;
        let words = words_of(alloc, &marks)?;
        let slots = slots_of(alloc, parcels)?;
        let workers = marks.len() as u64;
        let about = About {
            workers,
            marks,
            book,
        };
        match Table::new(alloc, words.as_slice(), slots, &about) {
            Ok((table, seat)) => Ok((Barrier { table }, seat)),
            Err(_) => Err(Memory),
        }
    }

    // The next worker, which has this number. It is parked.
    fn make_worker(&self, seat: &mut Place<P>, number: usize) -> ParkedSeat<P>
        requires seat { IsSeatOf seat.old self.now }
        requires main { (me_of seat.old ≡ (Main (main_view seat.old), [])) × ((main_view seat.old).phase ≡ is_clearing) }
        requires number { (number ≡ (main_view seat.old).made) × (number < workers_of self.now) × (number < 8) }
        ensures seats { IsSeatOf seat.new self.now × IsSeatOf result.seat self.now }
        ensures main { me_of seat.new ≡ (Main (made_one (main_view seat.old)), []) }
        ensures worker { worker_view result.seat ≡ newcomer (main_view seat.old) }
    {
        let seat = self.table.split_seat::<MakeWorker>(seat);
        ParkedSeat { number, seat }
    }

    /// A barrier with a worker for each of 1 to 8 parcels, which fit the book and have generation 0: main is idle, no
    /// release was made, and the workers run, by number, each with its parcel.
    ///
    /// # Errors
    ///
    /// [`Memory`] where memory runs out.
    pub fn new(alloc: Global, book: P::Book, parcels: Vec<P>) -> Result<Parts<P>, Memory>
        requires few { (0 < length parcels.items) × (length parcels.items ≤ 8) }
        requires first { AreFirst P.fits P.generation book parcels.items }
        ensures { IfOk result (λ parts. IsMade book parcels.items parts) }
    {
        let workers = parcels.len();
        let room = Vec::with_capacity(alloc, workers)?;
        let mut running = Vec::with_capacity(alloc, workers)?;
        let (barrier, mut seat) = Barrier::lay(alloc, book, parcels)?;
        for k in 0..workers {
            // The first request word that a worker reads is 0, so it runs.
            let Check::Run(worker) = barrier.make_worker(&mut seat, k).poll(&barrier) else {
                unreachable!()
            };
            let Ok(()) = running.push(worker) else {
                unreachable!()
            };
        }
        let clearing = Clearing {
            stamp: 0,
            workers,
            parcels: room,
            seat,
        };
        // All workers have left, so main finds the count 0. It can't know that: what it knows of workers it has from the
        // count alone. So this answer has no cause of its own.
        let Cleared::Idle(main) = clearing.poll(&barrier) else {
            return Err(Memory);
        };
        Ok(Parts {
            barrier,
            main,
            workers: running,
        })
    }
}
