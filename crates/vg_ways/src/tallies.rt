//! How many entries count for each line of the table.
ghost use Rattle.std.specs.Prelude.{◌≡◌, ◌<◌, ◌-◌, ◌^◌, [], OnOk};
ghost use Rattle.vg_ways.specs.Tallied.{tallied, counted_as, with_entry};
ghost use Rattle.vg_ways.specs.Tallies.{count_in, key_of as key_by, tally_in, AddsOne};

use crate::entries::Entry;
use crate::keys::Key;
use std::alloc::{AllocError, Global};
use std::collections::BTreeMap;
use vg_model::{DropError, End, Prefix, Prefix6};

/// How many of some entries count for each line.
#[derive(Drop)]
pub struct Tally {
    counts: BTreeMap<Key, usize>,
}

// What an entry counts for.
fn key_of(entry: Entry) -> Key
    ensures { result ≡ key_by entry }
{
    match entry {
        Entry::Began => Key::Began,
        Entry::Matched(prefix) => Key::Matched(prefix.addr, prefix.len),
        Entry::Matched6(prefix) => Key::Matched6(prefix.addr, prefix.len),
        Entry::Left(Some(neighbor)) => Key::Left(neighbor),
        Entry::Left(None) => Key::Alone,
        Entry::Ended(End::Tx { interface }) => Key::Sent(interface),
        Entry::Ended(End::Dropped { node, error }) => Key::Dropped(node, error.number()),
    }
}

impl Tally {
    /// That of no entry.
    pub(crate) fn new(alloc: Global) -> Tally
        ensures { tally_in result ≡ tallied [] }
    {
        Tally {
            counts: BTreeMap::new(alloc),
        }
    }

    // How many entries count for a key.
    fn count(&self, key: Key) -> usize
        ensures { result ≡ count_in self.now key }
    {
        match self.counts.get(&key) {
            Some(count) => *count,
            None => 0,
        }
    }

    // One more counts for a key.
    fn add(&mut self, key: Key) -> Result<(), AllocError>
        requires { count_in self.old key < 2 ^ 64 - 1 }
        ensures { OnOk result (AddsOne key self.old self.new) }
    {
        let count = self.count(key);
        self.counts.insert(key, count + 1)?;
        Ok(())
    }

    /// With one entry more.
    pub(crate) fn put(&mut self, entry: Entry) -> Result<(), AllocError>
        requires { counted_as entry (tally_in self.old) < 2 ^ 64 - 1 }
        ensures { OnOk result (tally_in self.new ≡ with_entry (tally_in self.old) entry) }
    {
        self.add(key_of(entry))
    }

    /// How many packets began.
    pub(crate) fn began(&self) -> usize
        ensures { result ≡ (tally_in self.now).began }
    {
        self.count(Key::Began)
    }

    /// How often the route of this prefix matched.
    pub(crate) fn matched(&self, prefix: Prefix) -> usize
        ensures { result ≡ (tally_in self.now).matched prefix }
    {
        self.count(Key::Matched(prefix.addr, prefix.len))
    }

    /// The same for IPv6.
    pub(crate) fn matched6(&self, prefix: Prefix6) -> usize
        ensures { result ≡ (tally_in self.now).matched6 prefix }
    {
        self.count(Key::Matched6(prefix.addr, prefix.len))
    }

    /// How many packets were transmitted to this neighbor.
    pub(crate) fn left(&self, neighbor: u16) -> usize
        ensures { result ≡ (tally_in self.now).left neighbor }
    {
        self.count(Key::Left(neighbor))
    }

    /// How many packets were transmitted to no neighbor.
    pub(crate) fn alone(&self) -> usize
        ensures { result ≡ (tally_in self.now).alone }
    {
        self.count(Key::Alone)
    }

    /// How many packets were transmitted on this interface.
    pub(crate) fn sent(&self, interface: u16) -> usize
        ensures { result ≡ (tally_in self.now).sent interface }
    {
        self.count(Key::Sent(interface))
    }

    /// How many packets this node dropped with this error.
    pub(crate) fn dropped(&self, node: u16, error: DropError) -> usize
        ensures { result ≡ (tally_in self.now).dropped node error }
    {
        self.count(Key::Dropped(node, error.number()))
    }
}
