//! The packets that a worker has under way.
ghost use Rattle.std.specs.Prelude.{◌≡◌, ◌+◌, ◌<◌, None, Some, IfOk, [], length};
ghost use Rattle.std.specs.Borrow.{sem};
ghost use Rattle.vg_frame.specs.Placed.{buffer_at, count, Changes, IsLive, most_placed};
ghost use Rattle.vg_frame.specs.LendsBuffer.{LendsBuffer};

use slab::Slab;
use std::alloc::Global;
use std::marker::Model;
use vg_model::Memory;
use vg_model::limits::MOST_UNDER_WAY;
use vg_pool::Buffer;

/// The packets that a worker has under way, each in its chain of buffers: at most [`MOST_UNDER_WAY`], each under an index.
///
/// A packet, meant here as the [`Buffer`] that it lies in, keeps its index until it is lifted, and only then another one may get it.
#[derive(Drop)]
pub struct BufferMemory {
    buffers: Slab<Buffer>,
}

impl Model for BufferMemory {
    ghost use Rattle.std.specs.Prelude.{List, Option, ◌≤◌, ◌<◌, ◌^◌};
    ghost use Rattle.slab.specs.Slab.{slab_len};
    ghost use Rattle.vg_pool.specs.Contents.{Contents};
    ghost use Rattle.vg_frame.specs.Placed.{most_placed};

    ghost Value = { List (Option Contents) };

    ghost view = { λ m. m.buffers.slots };

    ghost invariant = { λ m. (slab_len m.buffers ≤ most_placed) × (most_placed ≤ m.buffers.capacity) × (m.buffers.capacity < 2 ^ 32) };
}

impl BufferMemory {
    /// A memory with no packet, and room for [`MOST_UNDER_WAY`].
    ///
    /// # Errors
    ///
    /// [`Memory`] where memory runs out.
    pub fn new(alloc: Global) -> Result<BufferMemory, Memory>
        ensures { IfOk result (λ memory. memory ≡ []) }
    {
        let buffers = Slab::with_capacity(alloc, MOST_UNDER_WAY)?;
        // Indexes are `u32`. No allocator gives so much more than was asked for.
        if buffers.capacity() > u32::MAX as usize {
            return Err(Memory);
        }
        Ok(BufferMemory { buffers })
    }

    /// Takes the buffer in, and answers its index, which no buffer had.
    pub fn place(&mut self, buffer: Buffer) -> u32
        requires { count self.old < most_placed }
        ensures vacant { buffer_at self.old result ≡ None }
        ensures placed { Changes self.old self.new result (Some buffer) }
        ensures count { count self.new ≡ count self.old + 1 }
    {
        self.buffers.insert_reserved(buffer) as u32
    }

    /// Takes the buffer of an index out.
    pub fn lift(&mut self, index: u32) -> Buffer
        requires { IsLive self.old index }
        ensures buffer { buffer_at self.old index ≡ Some result }
        ensures lifted { Changes self.old self.new index None }
        ensures count { count self.new + 1 ≡ count self.old }
    {
        self.buffers.remove(index as usize)
    }

    /// The buffer of an index, for reading and writing. All other buffers stay as they are.
    pub fn get_mut(&mut self, index: u32) -> &mut Buffer
        requires { IsLive self.old index }
        ensures* writes_back { sem 𝓛 (LendsBuffer self.entry index result) }
        ensures buffer { buffer_at self.old index ≡ Some result.now }
    {
        &mut self.buffers[index as usize]
    }
}
