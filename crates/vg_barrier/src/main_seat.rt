//! Main's side of a barrier.
ghost use Rattle.std.specs.Prelude.{◌≡◌, ◌+◌, ◌*◌, ◌^◌, ◌<◌, ◌≤◌, false, [], length, slice_get, vec_len, vec_capacity, Some};
ghost use Rattle.vg_steps.specs.Seats.{IsSameSeat, Finds};
ghost use Rattle.vg_barrier.specs.declared.barrier.TheConstants.{REQUEST as REQUEST_WORD};
ghost use Rattle.vg_barrier.specs.Seats.{IsMain, Numbers, MayReturn, main_view};
ghost use Rattle.vg_barrier.specs.Barrier.{IsSeatOf};
ghost use Rattle.vg_barrier.specs.Steps.{asked};
ghost use Rattle.vg_barrier.specs.declared.views.MainPhase.TheVariants.{Idle as is_idle, Asked as is_asked, Holding as is_holding, Clearing as is_clearing};

use crate::barrier::{ARRIVALS, Barrier, REQUEST};
use crate::holding::{return_all, take_all};
use crate::parcel::Parcel;
use crate::plays::{Ask, CountArrivals, CountLeavers, Release};
use crate::views::Place;

/// Main, while all workers run.
#[derive(Drop)]
pub struct MainSeat<P: Parcel + Drop> {
    stamp: u64,
    workers: usize,
    // None here, and with room for those of all workers, so that main takes no memory when it holds the barrier.
    parcels: Vec<P>,
    pub seat: Place<P>,
    ghost phase: { IsMain seat is_idle 0 false },
    ghost numbers: { Numbers seat stamp workers },
    ghost none: { (parcels.items ≡ []) × (workers ≤ vec_capacity parcels) },
}

/// Main, after it has asked the workers to park.
#[derive(Drop)]
pub struct Asked<P: Parcel + Drop> {
    stamp: u64,
    workers: usize,
    parcels: Vec<P>,
    pub seat: Place<P>,
    ghost phase: { IsMain seat is_asked 0 false },
    ghost numbers: { Numbers seat stamp workers },
    ghost none: { (parcels.items ≡ []) × (workers ≤ vec_capacity parcels) },
    ghost room: { stamp < 2 ^ 62 },
}

/// Main's seat while all workers are parked.
#[derive(Drop)]
pub struct HeldSeat<P: Parcel + Drop> {
    stamp: u64,
    workers: usize,
    pub seat: Place<P>,
    ghost phase: { IsMain seat is_holding workers false },
    ghost numbers: { Numbers seat stamp workers },
    ghost room: { stamp < 2 ^ 62 },
}

/// Main, while all workers are parked, with their parcels by number.
#[derive(Drop)]
pub struct Held<P: Parcel + Drop> {
    pub main: HeldSeat<P>,
    pub parcels: Vec<P>,
    ghost all: { (length parcels.items ≡ main.workers) × (main.workers ≤ vec_capacity parcels) },
}

/// Main, after it has released the workers.
#[derive(Drop)]
pub struct Clearing<P: Parcel + Drop> {
    pub(crate) stamp: u64,
    pub(crate) workers: usize,
    pub(crate) parcels: Vec<P>,
    pub seat: Place<P>,
    ghost phase: { IsMain seat is_clearing 0 false },
    ghost numbers: { Numbers seat stamp workers },
    ghost none: { (parcels.items ≡ []) × (workers ≤ vec_capacity parcels) },
}

/// What [`Asked::poll`] finds.
#[derive(Drop)]
pub enum Parking<P: Parcel + Drop> {
    /// All workers are parked.
    All(Held<P>),
    /// Only `seen` of them have arrived.
    Wait { asked: Asked<P>, seen: u64 },
}

/// What [`Clearing::poll`] finds.
#[derive(Drop)]
pub enum Cleared<P: Parcel + Drop> {
    /// All workers run.
    Idle(MainSeat<P>),
    /// `seen` of them have not left yet.
    Wait { clearing: Clearing<P>, seen: u64 },
}

impl<P: Parcel + Drop> MainSeat<P> {
    /// How many times main has released the workers.
    pub fn stamp(&self) -> u64
        ensures { result ≡ (main_view self.now.seat).stamp }
    {
        self.stamp
    }

    /// Asks the workers to park: the request word becomes odd, one above twice the stamp.
    pub fn ask(self, barrier: &Barrier<P>) -> Asked<P>
        requires seat { IsSeatOf self.seat barrier.now }
        requires room { (main_view self.seat).stamp < 2 ^ 62 }
        ensures seat { IsSameSeat self.seat result.seat }
        ensures trail { Finds self.seat REQUEST_WORD (2 * (main_view self.seat).stamp + 1) result.seat }
        ensures step { main_view result.seat ≡ asked (main_view self.seat) }
    {
        let MainSeat {
            stamp,
            workers,
            parcels,
            mut seat,
        } = self;
        let words = &barrier.table;
        words.store::<Ask>(&mut seat, REQUEST, 2 * stamp + 1);
        Asked {
            stamp,
            workers,
            parcels,
            seat,
        }
    }

    // Main's place, by which it can make no further step.
    pub(crate) fn into_place(self) -> Place<P>
        ensures { result ≡ self.seat }
    {
        let MainSeat {
            stamp: _,
            workers: _,
            parcels: _,
            seat,
        } = self;
        seat
    }
}

impl<P: Parcel + Drop> Asked<P> {
    ghost use Rattle.vg_barrier.specs.Answers.{CountsArrived};

    /// Reads how many workers have arrived: all of them at [`Parking::All`], fewer at [`Parking::Wait`], which says how many in
    /// `seen`. With `All` every worker's parcel has come to main. Each of these fits the book, and their generation is the one that
    /// main released last, or 0 where it has released none.
    pub fn poll(self, barrier: &Barrier<P>) -> Parking<P>
        requires { IsSeatOf self.seat barrier.now }
        ensures { CountsArrived self result }
    {
        let Asked {
            stamp,
            workers,
            mut parcels,
            mut seat,
        } = self;
        let words = &barrier.table;
        let seen = words.load::<CountArrivals>(&mut seat, ARRIVALS);
        if seen == workers as u64 {
            take_all(barrier, &mut seat, &mut parcels, workers);
            let main = HeldSeat {
                stamp,
                workers,
                seat,
            };
            Parking::All(Held { main, parcels })
        } else {
            let asked = Asked {
                stamp,
                workers,
                parcels,
                seat,
            };
            Parking::Wait { asked, seen }
        }
    }
}

impl<P: Parcel + Drop> Held<P> {
    ghost use Rattle.vg_barrier.specs.Answers.{Releases};
    ghost use Rattle.vg_barrier.specs.Lending.{LendsParcelOf};
    ghost use Rattle.std.specs.Borrow.{sem};

    /// The parcel of worker `k`.
    pub fn parcel(&self, k: usize) -> &P
        requires { k < vec_len self.now.parcels }
        ensures { Some result.now ≡ slice_get self.now.parcels.items k }
    {
        &self.parcels[k]
    }

    /// The parcel of worker `k`, to be changed.
    pub fn parcel_mut(&mut self, k: usize) -> &mut P
        requires { k < vec_len self.old.parcels }
        ensures* writes_back { sem 𝓛 (LendsParcelOf P.row P.Book.row P.Parcel self.entry k result) }
        ensures value { Some result.now ≡ slice_get self.old.parcels.items k }
    {
        &mut self.parcels[k]
    }

    /// Lets the workers go. Every parcel is handed back under a stamp that is one higher, which is then the barrier's; the request
    /// word says so by twice that stamp, an even number.
    pub fn release(self, barrier: &Barrier<P>) -> Clearing<P>
        requires seat { IsSeatOf self.main.seat barrier.now }
        requires parcels { MayReturn P.fits P.mark P.generation (main_view self.main.seat) self.parcels.items }
        ensures { Releases self result }
    {
        let Held {
            main: HeldSeat {
                stamp,
                workers,
                mut seat,
            },
            mut parcels,
        } = self;
        let stamp = stamp + 1;
        return_all(barrier, &mut seat, &mut parcels, stamp);
        let words = &barrier.table;
        words.store::<Release>(&mut seat, REQUEST, 2 * stamp);
        Clearing {
            stamp,
            workers,
            parcels,
            seat,
        }
    }
}

impl<P: Parcel + Drop> Clearing<P> {
    ghost use Rattle.vg_barrier.specs.Answers.{CountsLeft};

    /// Reads the arrival count: [`Cleared::Idle`] comes only where it is 0, and [`Cleared::Wait`] only where it is `seen`,
    /// which is more.
    pub fn poll(self, barrier: &Barrier<P>) -> Cleared<P>
        requires { IsSeatOf self.seat barrier.now }
        ensures { CountsLeft self result }
    {
        let Clearing {
            stamp,
            workers,
            parcels,
            mut seat,
        } = self;
        let words = &barrier.table;
        let seen = words.load::<CountLeavers>(&mut seat, ARRIVALS);
        if seen == 0 {
            Cleared::Idle(MainSeat {
                stamp,
                workers,
                parcels,
                seat,
            })
        } else {
            let clearing = Clearing {
                stamp,
                workers,
                parcels,
                seat,
            };
            Cleared::Wait { clearing, seen }
        }
    }
}
