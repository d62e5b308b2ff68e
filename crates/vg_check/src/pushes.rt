//! The pushes that a report names as refused.
ghost use Rattle.std.specs.Prelude.{◌≡◌, ◌↔◌, ◌<◌, ◌≤◌, ◌+◌, ◌*◌, ◌==◌, ◌&&◌, ℕ, if◌then◌else◌, length, slice_index, IsTrue, MatchOption};
ghost use Rattle.std.specs.List.{AllByRecursion};
ghost use Rattle.vg_model.specs.Lawful.{hands_in, last_worker as last_of};
ghost use Rattle.vg_check.specs.Hands.{AreHands, AreRefusalsBelow, IsFirstUnlawful, IsOnWorkers, IsRefusalOf, handed};

use vg_model::Leg;
use vg_model::limits::MOST_WORKERS;
use vg_replay::{Outcome, Trip, Trips};
use vg_report::PacketLines;

// Counts a packet that goes over from the one worker to the other.
fn count_hand(counts: &mut [u64; 64], from: u8, to: u8)
    requires workers { (from < 8) × (to < 8) }
    requires few { slice_index counts.old (from * 8 + to) ≤ 262144 }
    ensures { (f t : ℕ) → f < 8 → t < 8 → slice_index counts.new (f * 8 + t) ≡ slice_index counts.old (f * 8 + t) + (if from == f && to == t then 1 else 0) }
{
    counts[usize::from(from * MOST_WORKERS + to)] += 1;
}

// Counts how often a packet goes over from each worker to each other.
fn add_hands(counts: &mut [u64; 64], legs: &[Leg])
    requires legs { length legs.now ≤ 4 }
    requires workers { AllByRecursion (λ leg. leg.worker < 8) legs.now }
    requires few { (from to : ℕ) → from < 8 → to < 8 → slice_index counts.old (from * 8 + to) ≤ 262140 }
    ensures { (from to : ℕ) → from < 8 → to < 8 → slice_index counts.new (from * 8 + to) ≡ slice_index counts.old (from * 8 + to) + hands_in from to legs.now }
{
    let mut k = legs.len();
    while k > 1 {
        k -= 1;
        count_hand(counts, legs[k - 1].worker, legs[k].worker);
    }
}

// How often packets go over from each worker to each other, by the first worker and then the second.
fn all_hands(trips: &Trips) -> [u64; 64]
    requires few { length trips.now ≤ 65536 }
    requires workers { AllByRecursion IsOnWorkers trips.now }
    ensures { AreHands trips.now result }
{
    let mut counts = [0; 64];
    for k in 0..trips.len() {
        let trip = trips.get(k);
        add_hands(&mut counts, trip.legs());
    }
    counts
}

// The worker of the last leg.
fn last_worker(trip: &Trip<'_>) -> u8
    requires { IsOnWorkers trip.now }
    ensures { result ≡ last_of trip.now.legs }
{
    let legs = trip.legs();
    legs[legs.len() - 1].worker
}

// Whether the push that a packet's line names as refused, if it names one, may have been.
fn is_lawful(
    slots: u64,
    counts: &[u64],
    trips: &Trips,
    congested: Option<u64>,
    trip: &Trip<'_>,
) -> bool
    requires hands { AreHands trips.now counts.now }
    requires workers { IsOnWorkers trip.now }
    ensures { IsTrue result ↔ IsRefusalOf slots (handed trips.now) trip.now.legs congested trip.now.outcome }
{
    let _trips = trips;
    let Some(accepted) = congested else {
        return true;
    };
    let from = last_worker(trip);
    let Outcome::Handed { worker, .. } = trip.outcome() else {
        return false;
    };
    slots <= accepted && accepted <= counts[from as usize * MOST_WORKERS as usize + worker as usize]
}

/// The number of the first packet whose refused push may not have been; None where there is none.
pub(crate) fn first_unlawful(slots: u64, lines: &PacketLines, trips: &Trips) -> Option<u32>
    requires few { length trips.now ≤ 65536 }
    requires lines { length lines.now ≡ length trips.now }
    requires workers { AllByRecursion IsOnWorkers trips.now }
    ensures { MatchOption result (AreRefusalsBelow slots lines.now trips.now (length trips.now)) (IsFirstUnlawful slots lines.now trips.now) }
{
    let counts = all_hands(trips);
    for k in 0..trips.len() {
        let congested = lines.get(k).congested;
        let trip = trips.get(k);
        if !is_lawful(slots, counts.as_slice(), trips, congested, &trip) {
            return Some(k as u32);
        }
    }
    None
}
