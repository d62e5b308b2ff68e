//! The visit of `worker-handoff`.
ghost use Rattle.std.specs.Prelude.{◌≡◌};
ghost use Rattle.vg_model.specs.declared.kinds.Step.TheVariants.{Hand};
ghost use Rattle.vg_model.specs.Hash.{flow_hash as hash_of_flow};

use crate::heads::hash_of;
use vg_model::{HashKind, Step};
use vg_pool::Buffer;

// Hands the packet to the worker that its hash chooses.
#[inline(always)]
pub(crate) fn worker_handoff(kind: HashKind, buffer: &Buffer) -> Step
    ensures { result ≡ Hand (hash_of_flow kind buffer.now.packet.bytes) }
{
    Step::Hand {
        hash: hash_of(kind, buffer),
    }
}
