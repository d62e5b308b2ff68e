//! Laws of a round: each is a function whose contract is the law.
ghost use Rattle.std.specs.Prelude.{ℕ, Bool};
ghost use Rattle.vg_model.specs.Graph.{Graph};
ghost use Rattle.vg_journeys.specs.Trips.{Run};
ghost use Rattle.vg_dispatch.specs.Workers.{WorkerBook};
ghost use Rattle.vg_dispatch.specs.Rounds.{IsRoundOf};
ghost use Rattle.vg_dispatch.specs.Refusals.{AreRefusals};

/// A round refuses a packet for a full queue only where it offered a frame with this packet to this very queue, and the frame came back
/// with the count that is logged. Each packet of such a frame is refused. Just these frames are what the queue has refused since the
/// round began.
pub fn refused_packets_were_offered()
    ensures { (run : Run) (lossless : Bool) (g : Graph) (generation limit : ℕ) (old new : WorkerBook)
        → (round : IsRoundOf run lossless g generation limit old new) → (to : ℕ) → AreRefusals to old new round.trips (round.pushes to) }
{}
