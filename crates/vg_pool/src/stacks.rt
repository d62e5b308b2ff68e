//! Stacks of buffers.
ghost use Rattle.std.specs.Prelude.{◌≡◌, [], ◌∷◌, reverse, MatchOption};
ghost use Rattle.std.specs.Bool.{MatchBool};

use crate::buffers::{Block, Buffer};
use std::marker::Model;
use std::mem;

/// A stack of buffers, of which the one pushed last is on top.
///
/// It is two words: whether there is a buffer, and the pointer to the block of the one on top. Each block has the same for the one below
/// it, so no call takes memory or moves a packet. Buffers that are dropped with their stack never come back to their pool.
#[cycle(stack)]
pub struct BufferStack {
    top: Link,
}

// The block on top, where there is one.
#[cycle(stack)]
#[derive(Drop)]
enum Link {
    Empty,
    Top(Box<Block>),
}

impl Model for BufferStack {
    ghost use Rattle.std.specs.Prelude.{List};
    ghost use Rattle.vg_pool.specs.Contents.{Contents};

    ghost Value = { List Contents };

    ghost use Rattle.vg_pool.specs.Blocks.{stacked, IsLink};

    ghost view = { λ s. stacked s.top };

    ghost invariant = { λ s. IsLink s.top };

    ghost use Rattle.vg_pool.specs.Blocks.{blocks_of};

    ghost size = { blocks_of };

    ghost use Rattle.std.proofs.Common.{arith};

    ghost size_decreases = { λ s h. Prim.grind (arith) };
}

impl BufferStack {
    /// No buffer.
    pub fn new() -> BufferStack
        ensures { result ≡ [] }
    {
        BufferStack { top: Link::Empty }
    }

    /// Whether there is no buffer.
    pub fn is_empty(&self) -> bool
        ensures { MatchBool result (self.now ≡ []) (¬ (self.now ≡ [])) }
    {
        matches!(self.top, Link::Empty)
    }

    /// Puts a buffer on top. Of the blocks it touches this buffer's alone.
    pub fn push(&mut self, buffer: Buffer)
        ensures { self.new ≡ buffer ∷ self.old }
    {
        let Buffer { mut block } = buffer;
        block.below = mem::replace(self, BufferStack::new());
        self.top = Link::Top(block);
    }

    /// Takes the buffer on top; `None` exactly where there is none. Of the blocks it touches this buffer's alone.
    pub fn pop(&mut self) -> Option<Buffer>
        ensures { MatchOption result ((self.old ≡ []) × (self.new ≡ [])) (λ buffer. self.old ≡ buffer ∷ self.new) }
    {
        match mem::replace(&mut self.top, Link::Empty) {
            Link::Empty => None,
            Link::Top(mut block) => {
                *self = mem::replace(&mut block.below, BufferStack::new());
                Some(Buffer { block })
            }
        }
    }

    // Ends a stack with no buffer: there is nothing to give back.
    pub(crate) fn end(self)
        requires { self ≡ [] }
    {
        match self {
            BufferStack { top: Link::Empty } => {}
            BufferStack {
                top: Link::Top(_block),
            } => unreachable!(),
        }
    }

    /// The same buffers the other way round. It touches the block of each.
    pub fn reversed(mut self) -> BufferStack
        ensures { result ≡ reverse self }
    {
        let mut reversed = BufferStack::new();
        while let Some(buffer) = self.pop() {
            reversed.push(buffer);
        }
        reversed
    }
}

// A loop, since a stack may be high.
impl Drop for BufferStack {
    fn drop(mut self) {
        loop {
            match self {
                BufferStack { top: Link::Empty } => return,
                BufferStack {
                    top: Link::Top(block),
                } => self = below(block),
            }
        }
    }
}

// The buffers below a block. Its memory is given back, and that of its chain.
fn below(block: Box<Block>) -> BufferStack
    ensures { result ≡ block.value.below }
{
    let Block {
        below,
        rest,
        number: _,
        checked: _,
        adjacency: _,
        interface: _,
        legs: _,
        behind: _,
        area: _,
    } = Box::into_inner(block);
    drop(rest);
    below
}
