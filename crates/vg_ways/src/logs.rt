//! Entries by the generation where they were made.
ghost use Rattle.std.specs.Prelude.{◌≡◌, ◌<◌, length, map, replicate, slice_set, IfOk, OnOk};
ghost use Rattle.vg_ways.specs.Logs.{all_with, none, tallies_of, tallies_with, tally_at, tally_of_all, HasRoom, IsLogOf};
ghost use Rattle.vg_ways.specs.Tallied.{with_entry};
ghost use Rattle.vg_ways.specs.Tallies.{tally_in};

use crate::entries::Entry;
use crate::tallies::Tally;
use std::alloc::{AllocError, Global};

/// How many entries count for each line.
#[derive(Drop)]
pub struct Log {
    /// Under each generation.
    pub tallies: Vec<Tally>,
    /// Of all of them.
    pub all: Tally,
}

/// The entries that are under one of so many generations, by generation.
///
/// # Errors
///
/// [`AllocError`] where memory runs out.
pub fn log_of(alloc: Global, generations: u32, entries: &[(u32, Entry)]) -> Result<Log, AllocError>
    ensures { IfOk result (IsLogOf generations entries.now) }
{
    let mut log = Log {
        tallies: no_tallies(alloc, generations)?,
        all: Tally::new(alloc),
    };
    for entry in entries {
        put_entry(&mut log, *entry)?;
    }
    Ok(log)
}

// Adds an entry, where there is its generation.
fn put_entry(log: &mut Log, entry: (u32, Entry)) -> Result<(), AllocError>
    requires { HasRoom entry log.old }
    ensures tallies { OnOk result (tallies_of log.new ≡ tallies_with (tallies_of log.old) entry) }
    ensures all { OnOk result (tally_of_all log.new ≡ all_with (length log.old.tallies.items) (tally_of_all log.old) entry) }
{
    if (entry.0 as usize) < log.tallies.len() {
        put_under(log, entry.0, entry.1)
    } else {
        Ok(())
    }
}

// Adds an entry under its generation, and to all.
fn put_under(log: &mut Log, generation: u32, entry: Entry) -> Result<(), AllocError>
    requires generation { generation < length log.old.tallies.items }
    requires room { HasRoom (generation, entry) log.old }
    ensures tallies { OnOk result (tallies_of log.new
        ≡ slice_set (tallies_of log.old) generation (with_entry (tally_at (tallies_of log.old) generation) entry)) }
    ensures all { OnOk result (tally_of_all log.new ≡ with_entry (tally_of_all log.old) entry) }
{
    log.tallies[generation as usize].put(entry)?;
    log.all.put(entry)
}

// So many, each of no entry.
fn no_tallies(alloc: Global, count: u32) -> Result<Vec<Tally>, AllocError>
    ensures { IfOk result (λ tallies. map tally_in tallies.items ≡ replicate count none) }
{
    let mut tallies = Vec::with_capacity(alloc, count as usize)?;
    for _ in 0..count {
        tallies.push(Tally::new(alloc))?;
    }
    Ok(tallies)
}
