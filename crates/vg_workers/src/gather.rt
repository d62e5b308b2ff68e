//! How what the workers have kept is put together.
ghost use Rattle.std.specs.Prelude.{◌≡◌, ◌<◌, ℕ, List, IfOk, flat_map, length, map};
ghost use Rattle.std.specs.Bool.{OnTrue};
ghost use Rattle.std.specs.List.Sorted.{IsPermutation, IsNonDecreasing, IsNonDecreasingBy};
ghost use Rattle.vg_model.specs.declared.fates.Fate.{Fate};
ghost use Rattle.vg_counters.specs.Tally.{AreOneSize, HasRoom, IsTotal};
ghost use Rattle.vg_counters.specs.Notes.{AreOneLength, IsMerged};

use std::alloc::Global;
use vg_counters::{Counters, Trace, TraceLists, merge, total};
use vg_dispatch::{FateList, SentList};
use vg_model::Memory;

/// What all workers have kept together.
#[derive(Drop)]
pub struct Gathered {
    pub fates: FateList,
    pub sent: SentList,
    pub counts: Counters,
    pub trace: TraceLists,
}

// Whether the packets sent stand in the order of their numbers.
fn are_sent_in_order(sent: &SentList) -> bool
    ensures { OnTrue result (IsNonDecreasing (map (λ (packet : ℕ × List ℕ). packet.0) sent.now)) }
{
    let mut least = 0;
    for k in 0..sent.len() {
        let (number, _) = sent.get(k);
        if number < least {
            return false;
        }
        least = number;
    }
    true
}

// The packets sent in the order of their numbers. Where they have it none is moved.
fn sent_by_number(sent: SentList) -> SentList
    ensures same { IsPermutation sent result }
    ensures rising { IsNonDecreasing (map (λ (packet : ℕ × List ℕ). packet.0) result) }
{
    if are_sent_in_order(&sent) {
        return sent;
    }
    let mut sent = sent;
    sent.sort();
    sent
}

/// Puts together what the workers have kept: fates and packets sent by number, counts added up, and traces merged.
///
/// # Errors
///
/// [`Memory`] where memory runs out.
pub fn gather(
    alloc: Global,
    logs: Vec<FateList>,
    sent: Vec<SentList>,
    counters: &Vec<Counters>,
    traces: &Vec<Trace>,
) -> Result<Gathered, Memory>
    requires some { (0 < length counters.now.items) × (0 < length traces.now.items) }
    requires size { AreOneSize counters.now.items × AreOneLength traces.now.items }
    requires room { HasRoom counters.now.items }
    ensures fates { IfOk result (λ all. IsPermutation (flat_map (λ (log : List Fate). log) logs.items) all.fates) }
    ensures fates_rise { IfOk result (λ all. IsNonDecreasingBy (λ fate. fate.number) all.fates) }
    ensures sent { IfOk result (λ all. IsPermutation (flat_map (λ (list : List (ℕ × List ℕ)). list) sent.items) all.sent) }
    ensures sent_rise { IfOk result (λ all. IsNonDecreasing (map (λ (s : ℕ × List ℕ). s.0) all.sent)) }
    ensures counts { IfOk result (λ all. IsTotal counters.now.items all.counts) }
    ensures trace { IfOk result (λ all. IsMerged traces.now.items all.trace) }
{
    let fates = FateList::by_number(alloc, logs)?;
    let sent = sent_by_number(SentList::joined(alloc, sent)?);
    let counts = total(alloc, counters.as_slice())?;
    let trace = merge(alloc, traces.as_slice())?;
    Ok(Gathered {
        fates,
        sent,
        counts,
        trace,
    })
}
