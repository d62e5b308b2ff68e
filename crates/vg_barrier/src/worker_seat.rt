//! A worker's side of a barrier.
ghost use Rattle.std.specs.Prelude.{◌≡◌, [], ◌∷◌, None};
ghost use Rattle.vg_barrier.specs.Seats.{IsWorker, HasNumber, worker_view};
ghost use Rattle.vg_barrier.specs.Barrier.{IsSeatOf};
ghost use Rattle.vg_barrier.specs.declared.views.WorkerPhase.TheVariants.{Running as is_running, Parked as is_parked};

use crate::barrier::{APART, ARRIVALS, Barrier, GENERATION, MARKS, REQUEST};
use crate::parcel::{Parcel, Stamped};
use crate::plays::{Arrive, Depart, ReadRequest, ReceiveParcel, StoreMark};
use crate::views::Place;

/// The seat of a worker that runs.
#[derive(Drop)]
pub struct RunningSeat<P: Parcel + Drop> {
    number: usize,
    stamp: u64,
    pub seat: Place<P>,
    ghost phase: { IsWorker seat is_running ((number, None) ∷ []) },
    ghost numbered: { HasNumber seat number },
    ghost stamped: { stamp ≡ (worker_view seat).stamp },
}

/// A worker that runs, with its parcel.
#[derive(Drop)]
pub struct Running<P: Parcel + Drop> {
    pub worker: RunningSeat<P>,
    pub parcel: P,
}

/// A worker that is parked: its parcel is in its slot, and main may hold the barrier.
#[derive(Drop)]
pub struct ParkedSeat<P: Parcel + Drop> {
    pub(crate) number: usize,
    pub seat: Place<P>,
    ghost phase: { IsWorker seat is_parked [] },
    ghost numbered: { HasNumber seat number },
}

/// What [`Running::check`] and [`ParkedSeat::poll`] find.
#[derive(Drop)]
pub enum Check<P: Parcel + Drop> {
    /// Main doesn't ask, and the worker runs.
    Run(Running<P>),
    /// Main asks, and the worker is parked.
    Parked(ParkedSeat<P>),
}

impl<P: Parcel + Drop> Running<P> {
    ghost use Rattle.vg_barrier.specs.Answers.{Checks, MayGive};
    ghost use Rattle.vg_barrier.specs.Lending.{LendsParcel};
    ghost use Rattle.std.specs.Borrow.{sem};

    /// The worker's parcel.
    pub fn parcel(&self) -> &P
        ensures { result.now ≡ self.now.parcel }
    {
        &self.parcel
    }

    /// The worker's parcel, to be changed.
    pub fn parcel_mut(&mut self) -> &mut P
        ensures* writes_back { sem 𝓛 (LendsParcel P.row P.Book.row P.Parcel self.entry result) }
        ensures value { result.now ≡ self.old.parcel }
    {
        &mut self.parcel
    }

    /// How many times main had released the workers when the parcel came.
    pub fn stamp(&self) -> u64
        ensures { result ≡ (worker_view self.now.worker.seat).stamp }
    {
        self.worker.stamp
    }

    /// The worker's parcel, and the worker takes no more part in the barrier.
    pub fn into_parcel(self) -> P
        ensures { result ≡ self.parcel }
    {
        let Running { worker: _, parcel } = self;
        parcel
    }

    /// Reads the request word, once a turn: [`Check::Run`] comes only where it is even, and then it is twice the parcel's
    /// stamp. [`Check::Parked`] comes only where it is odd; the parcel is then given, and the worker counts as arrived.
    pub fn check(self, barrier: &Barrier<P>) -> Check<P>
        requires seat { IsSeatOf self.worker.seat barrier.now }
        requires parcel { MayGive self }
        ensures { Checks self result }
    {
        let Running {
            worker: RunningSeat {
                number,
                stamp,
                mut seat,
            },
            parcel,
        } = self;
        let words = &barrier.table;
        let request = words.load::<ReadRequest>(&mut seat, REQUEST);
        if request % 2 == 1 {
            words.store::<StoreMark>(&mut seat, number * APART + MARKS, parcel.mark());
            match words.exchange(&mut seat, number, Some(Stamped { stamp, parcel })) {
                None => {}
                Some(_) => unreachable!(),
            }
            words.fetch_add::<Arrive>(&mut seat, ARRIVALS, 1);
            Check::Parked(ParkedSeat { number, seat })
        } else {
            let worker = RunningSeat {
                number,
                stamp,
                seat,
            };
            Check::Run(Running { worker, parcel })
        }
    }
}

impl<P: Parcel + Drop> ParkedSeat<P> {
    ghost use Rattle.vg_barrier.specs.Answers.{Polls};

    /// Reads the request word: [`Check::Parked`] comes only where it is odd, and [`Check::Run`] only where it is even; the
    /// worker has then taken its parcel, whose stamp is half the word, and itself off the arrival count. The parcel fits
    /// the book and has the mark with which it was given.
    pub fn poll(self, barrier: &Barrier<P>) -> Check<P>
        requires { IsSeatOf self.seat barrier.now }
        ensures { Polls self result }
    {
        let ParkedSeat { number, mut seat } = self;
        let words = &barrier.table;
        let word = words.load::<ReadRequest>(&mut seat, REQUEST);
        if word % 2 == 1 {
            return Check::Parked(ParkedSeat { number, seat });
        }
        words.load::<ReceiveParcel>(&mut seat, GENERATION);
        let Some(Stamped { stamp, parcel }) = words.exchange(&mut seat, number, None) else {
            unreachable!()
        };
        words.fetch_sub::<Depart>(&mut seat, ARRIVALS, 1);
        let worker = RunningSeat {
            number,
            stamp,
            seat,
        };
        Check::Run(Running { worker, parcel })
    }
}
