//! The buffers behind the first of a chain.
ghost use Rattle.std.specs.Prelude.{◌≡◌, ◌^◌, ◌<◌, suc, [], ◌∷◌, length, slice_index_or, MatchOption};
ghost use Rattle.std.specs.Bool.{MatchBool};
ghost use Rattle.vg_pool.specs.Parts.{spread};

use crate::buffers::Block;
use crate::spares::Spare;
use std::marker::Model;
use std::mem;
use vg_model::limits::{BUFFER_SIZE, FIRST_ROOM};

/// The buffers behind the first of a chain, each linked to the next through its block: at most four.
#[cycle(stack)]
pub(crate) struct Parts {
    link: PartLink,
}

// The next block, where there is one.
#[cycle(stack)]
#[derive(Drop)]
pub(crate) enum PartLink {
    End,
    More(Box<Block>),
}

impl Model for Parts {
    ghost use Rattle.std.specs.Prelude.{List, ℕ, length};

    ghost Value = { List (List ℕ) };

    ghost use Rattle.vg_pool.specs.Blocks.{parts, IsPartLink};

    ghost view = { λ s. parts s.link };

    ghost invariant = { λ s. IsPartLink s.link };

    ghost size = { length };

    ghost use Rattle.std.proofs.Common.{arith};

    ghost size_decreases = { λ s h. Prim.grind (arith) };
}

impl Parts {
    /// No buffer.
    pub(crate) fn new() -> Parts
        ensures { result ≡ [] }
    {
        Parts {
            link: PartLink::End,
        }
    }

    /// Whether there is no buffer.
    #[inline]
    pub(crate) fn is_empty(&self) -> bool
        ensures { MatchBool result (self.now ≡ []) (0 < length self.now) }
    {
        matches!(self.link, PartLink::End)
    }

    /// How many buffers there are.
    #[inline]
    pub(crate) fn len(&self) -> u32
        requires { length self.now < 2 ^ 32 }
        ensures { result ≡ length self.now }
    {
        match &self.link {
            PartLink::End => 0,
            PartLink::More(block) => block.rest.len() + 1,
        }
    }

    /// What is in buffer `k` of them.
    pub(crate) fn part(&self, k: u32) -> &[u8]
        requires { k < length self.now }
        ensures { result.now ≡ slice_index_or self.now k [] }
    {
        match &self.link {
            PartLink::End => unreachable!(),
            PartLink::More(block) => {
                if k == 0 {
                    block.area.bytes()
                } else {
                    block.rest.part(k - 1)
                }
            }
        }
    }

    /// Puts a buffer with no bytes in front.
    pub(crate) fn push(&mut self, spare: Spare)
        ensures { self.new ≡ [] ∷ self.old }
    {
        let mut block = spare.into_block();
        block.area.fill(FIRST_ROOM, &[]);
        block.rest = mem::replace(self, Parts::new());
        self.link = PartLink::More(block);
    }

    /// Takes the first buffer; `None` exactly where there is none.
    pub(crate) fn pop(&mut self) -> Option<Spare>
        ensures { MatchOption result ((self.old ≡ []) × (self.new ≡ [])) (λ _. length self.old ≡ suc (length self.new)) }
    {
        match mem::replace(&mut self.link, PartLink::End) {
            PartLink::End => None,
            PartLink::More(mut block) => {
                *self = mem::replace(&mut block.rest, Parts::new());
                Some(Spare::new(block))
            }
        }
    }

    /// Puts these bytes over the buffers.
    #[inline]
    pub(crate) fn fill(&mut self, bytes: &[u8])
        ensures { self.new ≡ spread (length self.old) bytes.now }
    {
        if !self.is_empty() {
            self.put_over(bytes);
        }
    }

    fn put_over(&mut self, bytes: &[u8])
        ensures { self.new ≡ spread (length self.old) bytes.now }
    {
        match &mut self.link {
            PartLink::End => {}
            PartLink::More(block) => {
                let block = &mut **block;
                let first = bytes.len().min(BUFFER_SIZE);
                block.area.fill(FIRST_ROOM, &bytes[..first]);
                block.rest.put_over(&bytes[first..]);
            }
        }
    }
}

// A loop, which gives back the memory of one block after the other.
impl Drop for Parts {
    fn drop(mut self) {
        loop {
            match self {
                Parts {
                    link: PartLink::End,
                } => return,
                Parts {
                    link: PartLink::More(block),
                } => self = behind(block),
            }
        }
    }
}

// The buffers behind a block that is in no stack. Its memory is given back.
fn behind(block: Box<Block>) -> Parts
    requires { block.value.below ≡ [] }
    ensures { result ≡ block.value.rest }
{
    let Block {
        below,
        rest,
        number: _,
        checked: _,
        adjacency: _,
        interface: _,
        legs: _,
        behind: _,
        area: _,
    } = Box::into_inner(block);
    below.end();
    rest
}
