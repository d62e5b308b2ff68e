//! How a queue is closed.
ghost use Rattle.std.specs.Prelude.{◌≡◌, ◌++◌};
ghost use Rattle.vg_queue.specs.Ends.{put, taken, tx_queue, rx_queue};
ghost use Rattle.vg_queue.specs.Rests.{all_put, left};

use crate::ends::{QueueRx, QueueTx};
use crate::logs::{Come, Take};
use crate::rest::Rest;
use std::sync::Wait;

/// Closes a queue: the two ends of one queue are given up, and what was put and not taken is left.
pub fn close<T: Drop, R: Wait>(_rt: &R, tx: QueueTx<T>, rx: QueueRx<T>) -> Rest<T>
    requires { tx_queue tx ≡ rx_queue rx }
    ensures left { put tx ≡ taken rx ++ left result }
    ensures put { all_put result ≡ put tx }
{
    let QueueTx {
        line: _,
        pass: sender,
        accepted: _,
    } = tx;
    let QueueRx { line, mut pass } = rx;
    line.absorb::<Come>(&mut pass, sender);
    line.learn_as::<Take>(&mut pass);
    Rest { line, pass }
}
