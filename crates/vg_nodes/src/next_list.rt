//! Packets that go on, in runs over one slot.
ghost use Rattle.std.specs.Prelude.{◌≡◌, ◌+◌, ◌<◌, ◌≤◌, ◌==◌, [], ◌∷◌, ◌++◌, length, IfOk, MatchOption};
ghost use Rattle.vg_frame.specs.Pending.{frame_size};
ghost use Rattle.vg_nodes.specs.Runs.{over_slot};

use std::alloc::{AllocError, Global};
use std::marker::Model;
use vg_frame::Frame;
use vg_model::limits::FRAME_SIZE;

/// So many packets, one behind the other, that go on over one slot.
#[derive(Clone, Copy)]
pub struct NextRun {
    pub slot: u8,
    pub len: usize,
}

/// Packets that go on, each with the slot of the node over which it does: at most as many as a frame has. Their room is taken as the
/// list is made. It is seen as the list of their entries.
#[derive(Drop)]
pub struct NextList {
    indexes: Frame,
    // The runs in front of the last one.
    closed: Vec<NextRun>,
    // The last run: where it begins, and its slot.
    start: usize,
    slot: u8,
}

impl Model for NextList {
    ghost use Rattle.std.specs.Prelude.{List, ℕ, ◌≤◌, length, vec_capacity};
    ghost use Rattle.vg_frame.specs.Pending.{frame_size};
    ghost use Rattle.vg_nodes.specs.Runs.{run_entries, AreRuns};

    ghost Value = { List (ℕ × ℕ) };

    ghost view = { λ n. run_entries n.closed.items n.slot n.indexes };

    ghost invariant = { λ n. AreRuns n.closed.items n.start (length n.indexes) × (frame_size ≤ vec_capacity n.closed) };
}

impl NextList {
    // No packet, and room for all.
    pub(crate) fn new(alloc: Global) -> Result<NextList, AllocError>
        ensures { IfOk result (λ list. list ≡ []) }
    {
        Ok(NextList {
            indexes: Frame::new(),
            closed: Vec::with_capacity(alloc, FRAME_SIZE)?,
            start: 0,
            slot: 0,
        })
    }

    /// How many packets there are.
    pub fn len(&self) -> usize
        ensures count { result ≡ length self.now }
        ensures few { length self.now ≤ frame_size }
    {
        self.indexes.len()
    }

    /// Whether there is no packet.
    pub fn is_empty(&self) -> bool
        ensures { result ≡ (length self.now == 0) }
    {
        self.len() == 0
    }

    /// Their runs, in order.
    pub fn runs(&self) -> NextRuns<'_>
        ensures { result ≡ self.now }
    {
        NextRuns {
            indexes: self.indexes.as_slice(),
            closed: self.closed.as_slice(),
            slot: self.slot,
        }
    }

    /// Adds a packet behind the others.
    pub fn push(&mut self, index: u32, slot: u8)
        requires { length self.old < frame_size }
        ensures { self.new ≡ self.old ++ (index, slot) ∷ [] }
    {
        self.push_each(&[index], slot);
    }

    /// Adds packets behind the others, which go on over one slot.
    #[inline]
    pub fn push_each(&mut self, indexes: &[u32], slot: u8)
        requires { length self.old + length indexes.now ≤ frame_size }
        ensures { self.new ≡ self.old ++ over_slot slot indexes.now }
    {
        if !indexes.is_empty() {
            self.push_run(indexes, slot);
        }
    }

    // The same where there are any. It stands apart, so that the loops over frames are short.
    #[inline(never)]
    fn push_run(&mut self, indexes: &[u32], slot: u8)
        requires { length self.old + length indexes.now ≤ frame_size }
        ensures { self.new ≡ self.old ++ over_slot slot indexes.now }
    {
        let end = self.indexes.len();
        self.indexes.push_each(indexes);
        if slot == self.slot {
            return;
        }
        let before = self.slot;
        self.slot = slot;
        if self.start < end {
            self.closed.push_reserved(NextRun {
                slot: before,
                len: end - self.start,
            });
            self.start = end;
        }
    }

    /// Removes all packets. The room stays.
    pub fn clear(&mut self)
        ensures { self.new ≡ [] }
    {
        self.indexes.clear();
        self.closed.clear();
        self.start = 0;
    }
}

/// Packets that go on, run by run. They are seen as the list of their entries.
#[derive(Drop)]
pub struct NextRuns<'a> {
    indexes: &'a [u32],
    // The runs in front of the last one.
    closed: &'a [NextRun],
    // The slot of the last run.
    slot: u8,
}

impl<'a> Model for NextRuns<'a> {
    ghost use Rattle.std.specs.Prelude.{List, ℕ, ◌≤◌, length};
    ghost use Rattle.std.specs.List.{AllByRecursion};
    ghost use Rattle.vg_nodes.specs.Runs.{run_entries, run_total};

    ghost Value = { List (ℕ × ℕ) };

    ghost view = { λ r. run_entries r.closed.now r.slot r.indexes.now };

    ghost invariant = { λ r. (run_total r.closed.now ≤ length r.indexes.now) × AllByRecursion (λ run. 1 ≤ run.len) r.closed.now };
}

impl<'a> NextRuns<'a> {
    /// The next run: its slot and the indexes, some. `None` exactly where no packet is left.
    #[inline]
    pub fn next(&mut self) -> Option<(u8, &'a [u32])>
        ensures { MatchOption result ((self.old ≡ []) × (self.new ≡ []))
            (λ run. (1 ≤ length run.1.now) × (self.old ≡ over_slot run.0 run.1.now ++ self.new)) }
    {
        let indexes = self.indexes;
        if indexes.is_empty() {
            return None;
        }
        let Some((run, closed)) = self.closed.split_first() else {
            self.indexes = &indexes[indexes.len()..];
            return Some((self.slot, indexes));
        };
        let (front, behind) = indexes.split_at(run.len);
        self.closed = closed;
        self.indexes = behind;
        Some((run.slot, front))
    }
}
