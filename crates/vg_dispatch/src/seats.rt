//! A worker's look at its seat.
ghost use Rattle.std.specs.Prelude.{◌≡◌};
ghost use Rattle.vg_dispatch.specs.Workers.{seat_of};
ghost use Rattle.vg_dispatch.specs.Turned.{Looks};
ghost use Rattle.vg_dispatch.specs.Standing.{barrier_id};
ghost use Rattle.vg_dispatch.specs.Seating.{Gives};

use crate::parcels::WorkerParcel;
use vg_barrier::{Barrier, Check};

/// One check of a worker that runs, or one poll of one that is parked.
pub(crate) fn looked(
    seat: Check<WorkerParcel>,
    barrier: &Barrier<WorkerParcel>,
) -> Check<WorkerParcel>
    requires gives { Gives seat }
    requires of { (seat_of seat).barrier ≡ barrier_id barrier.now }
    ensures { Looks (seat_of seat) (seat_of result) }
{
    match seat {
        Check::Run(running) => running.check(barrier),
        Check::Parked(parked) => parked.poll(barrier),
    }
}
