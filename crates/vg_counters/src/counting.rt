//! Counters by node, error and interface.
ghost use Rattle.std.specs.Prelude.{◌≡◌, ℕ, ◌+◌, ◌<◌, ◌^◌, length, slice_index, All, IfOk};
ghost use Rattle.vg_model.specs.Errors.{error_number};
ghost use Rattle.vg_counters.specs.Tally.{nothing_counted, more_at, drops_at, one_drop_more, AreOneSize, HasRoom, IsTotal, IsSameSize, IsWhole, HasRoomFor, IsSum};

use std::alloc::Global;
use std::marker::Model;
use vg_model::kinds::ERRORS;
use vg_model::{DropError, Memory};

/// How often nodes were visited, how many packets each dropped with each error, and how many packets interfaces transmitted.
///
/// A count stays below 2^63, so that the counts of two workers can be added.
#[derive(Drop)]
pub struct Counters {
    // By node number.
    visits: Vec<u64>,
    // By node number and then by error number.
    drops: Vec<[u64; ERRORS]>,
    // By interface number.
    sends: Vec<u64>,
}

impl Model for Counters {
    ghost use Rattle.vg_counters.specs.Tally.{Tally, IsWhole};

    ghost Value = { Tally };

    ghost use Rattle.vg_counters.specs.View.{tally_of};

    ghost view = { tally_of };

    ghost invariant = { λ counters. IsWhole (tally_of counters) };
}

impl Counters {
    /// Counters for so many nodes and so many interfaces, in which nothing is counted yet.
    ///
    /// # Errors
    ///
    /// [`Memory`] where memory runs out.
    pub fn new(alloc: Global, nodes: u16, interfaces: u16) -> Result<Counters, Memory>
        ensures { IfOk result (λ counters. counters ≡ nothing_counted nodes interfaces) }
    {
        Counters::sized(alloc, nodes as usize, interfaces as usize)
    }

    /// For how many nodes it counts.
    pub fn nodes(&self) -> usize
        ensures count { result ≡ length self.now.visits }
        ensures kept { IsWhole self.now }
    {
        self.visits.len()
    }

    /// Counts so many visits of a node.
    pub fn visit(&mut self, node: u16, count: u64)
        requires place { node < length self.old.visits }
        requires room { slice_index self.old.visits node + count < 2 ^ 63 }
        ensures { self.new ≡ record self.old { visits = more_at node count self.old.visits } }
    {
        self.visits[node as usize] += count;
    }

    /// Counts one packet that a node dropped with an error.
    pub fn dropped(&mut self, node: u16, error: DropError)
        requires place { node < length self.old.visits }
        requires room { drops_at node (error_number error) self.old.drops + 1 < 2 ^ 63 }
        ensures { self.new ≡ record self.old { drops = one_drop_more node (error_number error) self.old.drops } }
    {
        self.drops[node as usize][error.number() as usize] += 1;
    }

    /// Counts one packet that an interface transmitted.
    pub fn sent(&mut self, interface: u16)
        requires place { interface < length self.old.sends }
        requires room { slice_index self.old.sends interface + 1 < 2 ^ 63 }
        ensures { self.new ≡ record self.old { sends = more_at interface 1 self.old.sends } }
    {
        self.sends[interface as usize] += 1;
    }

    /// How often a node was visited.
    pub fn visits(&self, node: u16) -> u64
        requires { node < length self.now.visits }
        ensures { result ≡ slice_index self.now.visits node }
    {
        self.visits[node as usize]
    }

    /// How many packets a node dropped with an error.
    pub fn drops(&self, node: u16, error: DropError) -> u64
        requires { node < length self.now.visits }
        ensures { result ≡ drops_at node (error_number error) self.now.drops }
    {
        self.drops[node as usize][error.number() as usize]
    }

    /// How many packets an interface transmitted.
    pub fn sends(&self, interface: u16) -> u64
        requires { interface < length self.now.sends }
        ensures { result ≡ slice_index self.now.sends interface }
    {
        self.sends[interface as usize]
    }

    // Counters of this size, in which nothing is counted yet.
    fn sized(alloc: Global, nodes: usize, interfaces: usize) -> Result<Counters, Memory>
        ensures { IfOk result (λ counters. counters ≡ nothing_counted nodes interfaces) }
    {
        let visits = vec![in alloc; 0; nodes]?;
        let drops = vec![in alloc; [0; ERRORS]; nodes]?;
        let sends = vec![in alloc; 0; interfaces]?;
        Ok(Counters {
            visits,
            drops,
            sends,
        })
    }

    // Adds the counts of a part, place by place.
    fn add(&mut self, part: &Counters)
        requires size { IsSameSize part.now self.old }
        requires room { HasRoomFor self.old part.now }
        ensures { IsSum self.old part.now self.new }
    {
        add_counts(self.visits.as_mut_slice(), part.visits.as_slice());
        add_rows(self.drops.as_mut_slice(), part.drops.as_slice());
        add_counts(self.sends.as_mut_slice(), part.sends.as_slice());
    }
}

// Adds counts, place by place.
fn add_counts(counts: &mut [u64], more: &[u64])
    requires size { length counts.old ≡ length more.now }
    requires room { (place : ℕ) → slice_index counts.old place + slice_index more.now place < 2 ^ 64 }
    ensures { (place : ℕ) → slice_index counts.new place ≡ slice_index counts.old place + slice_index more.now place }
{
    for (place, count) in more.iter().enumerate() {
        counts[place] += *count;
    }
}

// Adds drops, place by place.
fn add_rows(rows: &mut [[u64; ERRORS]], more: &[[u64; ERRORS]])
    requires size { length rows.old ≡ length more.now }
    requires room { (node error : ℕ) → drops_at node error rows.old + drops_at node error more.now < 2 ^ 64 }
    ensures sums { (node error : ℕ) → drops_at node error rows.new ≡ drops_at node error rows.old + drops_at node error more.now }
    ensures errors { All (λ row. length row ≡ ERRORS) rows.old → All (λ row. length row ≡ ERRORS) rows.new }
{
    for (node, row) in more.iter().enumerate() {
        add_counts(&mut rows[node], row);
    }
}

/// The sum of the parts, place by place.
///
/// # Errors
///
/// [`Memory`] where memory runs out.
pub fn total(alloc: Global, parts: &[Counters]) -> Result<Counters, Memory>
    requires some { 0 < length parts.now }
    requires size { AreOneSize parts.now }
    requires room { HasRoom parts.now }
    ensures { IfOk result (IsTotal parts.now) }
{
    let first = &parts[0];
    let mut whole = Counters::sized(alloc, first.visits.len(), first.sends.len())?;
    for part in parts {
        whole.add(part);
    }
    Ok(whole)
}
