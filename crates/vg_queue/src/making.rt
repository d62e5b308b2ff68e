//! How a queue is made.
ghost use Rattle.std.specs.Prelude.{◌<◌, ◌≤◌, IfOk};
ghost use Rattle.vg_queue.specs.Ends.{AreNew};

use crate::ends::{QueueRx, QueueTx};
use crate::logs::{Line, Part};
use std::alloc::Global;
use std::sync::Arc;
use vg_model::Memory;

/// The two ends of a new queue with 1 to 256 slots, or want of memory. No later call on the queue takes memory.
pub fn ring<T: Drop + Send>(alloc: Global, slots: u64) -> Result<(QueueTx<T>, QueueRx<T>), Memory>
    requires { (0 < slots) × (slots ≤ 256) }
    ensures { IfOk result (λ ends. AreNew slots ends.0 ends.1) }
{
    let (line, mut pass) = Line::ruled(alloc, slots as usize)?;
    let line = Arc::new(alloc, line)?;
    let other = Arc::try_clone(&line)?;
    let receiver = line.another::<Part>(&mut pass);
    let tx = QueueTx {
        line,
        pass,
        accepted: 0,
    };
    let rx = QueueRx {
        line: other,
        pass: receiver,
    };
    Ok((tx, rx))
}
