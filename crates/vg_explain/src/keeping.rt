//! A sink that keeps the first bytes that it hands on.
ghost use Rattle.std.specs.Prelude.{◌≡◌};

use std::alloc::Global;
use vg_outside::{Failed, Sink};

/// How many bytes are kept: a refusal's line with the longest name of a file has fewer.
const MOST_KEPT: usize = 4_352;

/// A sink that hands on what it is given, and keeps the first bytes of it.
#[derive(Drop)]
pub struct Keeping<O> {
    inner: O,
    kept: Vec<u8>,
}

impl<O: Sink> Keeping<O> {
    /// A sink in front of another.
    pub fn new(alloc: Global, inner: O) -> Keeping<O> {
        Keeping {
            inner,
            kept: Vec::new(alloc),
        }
    }

    /// The first bytes that were handed on, as far as there was memory for them.
    pub fn kept(&self) -> &[u8] {
        self.kept.as_slice()
    }

    fn keep(&mut self, bytes: &[u8])
        ensures { self.new.inner ≡ self.old.inner }
    {
        let room = MOST_KEPT.saturating_sub(self.kept.len());
        let kept = if bytes.len() <= room {
            self.kept.extend_from_slice(bytes)
        } else {
            self.kept.extend_from_slice(&bytes[..room])
        };
        // What can't be kept is missing in an explanation alone.
        let _ = kept;
    }
}

impl<O: Sink> Sink for Keeping<O> {
    ghost written = { λ sink. O.written sink.inner };

    ghost faults = { λ sink. O.faults sink.inner };

    fn put(&mut self, bytes: &[u8]) -> Result<usize, Failed> {
        let taken = self.inner.put(bytes)?;
        let (handed, _) = bytes.split_at(taken);
        self.keep(handed);
        Ok(taken)
    }
}
