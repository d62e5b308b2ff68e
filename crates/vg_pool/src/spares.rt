//! Buffers that nobody uses.
ghost use Rattle.std.specs.Prelude.{◌≡◌, ◌≤◌, [], length};
ghost use Rattle.vg_model.specs.PoolBook.{buffer_size};
ghost use Rattle.vg_pool.specs.Areas.{area_size};
ghost use Rattle.vg_pool.specs.Contents.{received};

use crate::areas::Area;
use crate::buffers::{Block, Buffer};
use crate::parts::Parts;
use crate::stacks::BufferStack;
use std::alloc::{AllocError, Global};
use std::marker::Model;
use vg_land::Plot;
use vg_model::Legs;
use vg_model::limits::FIRST_ROOM;

/// One buffer that nobody uses, in no chain and in no stack. What it carried last is of no meaning.
#[derive(Drop)]
pub(crate) struct Spare {
    block: Box<Block>,
}

// It is seen as the number 1: one unit of the pool's book.
impl Model for Spare {
    ghost use Rattle.std.specs.Prelude.{ℕ};
    ghost use Rattle.vg_pool.specs.Blocks.{IsSpare};

    ghost Value = { ℕ };

    ghost view = { λ _. 1 };

    ghost invariant = { λ s. IsSpare s.block.value };
}

impl Spare {
    ghost use Rattle.vg_pool.specs.Blocks.{IsSpare};

    /// A buffer of its own, whose bytes lie in this plot.
    pub(crate) fn made(alloc: Global, plot: Plot) -> Result<Spare, AllocError>
        requires { plot.cap ≡ area_size }
    {
        let block = Block {
            below: BufferStack::new(),
            rest: Parts::new(),
            number: 0,
            checked: false,
            adjacency: None,
            interface: None,
            legs: Legs::new(),
            behind: 0,
            area: Area::new(plot),
        };
        Ok(Spare {
            block: Box::new(alloc, block)?,
        })
    }

    /// The buffer of this block.
    pub(crate) fn new(block: Box<Block>) -> Spare
        requires { IsSpare block.value }
    {
        Spare { block }
    }

    /// Its block.
    pub(crate) fn into_block(self) -> Box<Block>
        ensures { IsSpare result.value }
    {
        let Spare { block } = self;
        block
    }

    /// A chain of this buffer alone, with the packet of this number and these bytes, as it is received.
    #[inline(always)]
    pub(crate) fn filled(self, number: u32, bytes: &[u8]) -> Buffer
        requires { length bytes.now ≤ buffer_size }
        ensures { result ≡ received 1 number bytes.now }
    {
        let Spare { mut block } = self;
        let filled = &mut *block;
        filled.number = number;
        filled.checked = false;
        filled.adjacency = None;
        filled.interface = None;
        filled.legs = Legs::new();
        filled.behind = 0;
        filled.area.fill(FIRST_ROOM, bytes);
        Buffer { block }
    }
}
