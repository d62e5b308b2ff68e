//! How a worker takes frames that others handed over.
ghost use Rattle.std.specs.Prelude.{ℕ, ◌≡◌, ◌+◌, ◌*◌, ◌<◌, ◌≤◌, ◌^◌, ◌↔◌, length, vec_len};
ghost use Rattle.std.specs.Bool.{IsTrue};
ghost use Rattle.vg_hands.specs.Handed.{IsHandFrame};
ghost use Rattle.vg_underway.specs.Underway.{stationed, leg_here, IsSetting};
ghost use Rattle.vg_underway.specs.Rest.{IsAtRest};
ghost use Rattle.std.specs.List.{AllByRecursion};
ghost use Rattle.vg_underway.specs.Queues.{Queue};
ghost use Rattle.vg_underway.specs.Taking.{MayTake, IsWithinLog, TakesFrames};

use crate::incoming::Incoming;
use crate::stations::Station;
use crate::underway::Work;
use vg_fork::Fork;
use vg_hands::HandFrame;
use vg_model::{Kind, Leg};
use vg_nodes::KindSet;

/// What bounds the frames that a worker takes.
#[derive(Clone, Copy)]
pub struct Bounds {
    /// How many packets the capture has, and how many bytes they and their rooms have together.
    pub packets: u32,
    pub bytes: usize,
    /// How many of the worker's own packets aren't drawn yet, and how many bytes they and their rooms have together.
    pub own: u32,
    pub left: usize,
    /// How many packets it has ever taken.
    pub taken: u32,
}

/// Packets that came in a round: how many, and how many bytes they and their rooms have together.
#[derive(Clone, Copy)]
pub struct Came {
    pub count: u32,
    pub bytes: usize,
}

// Whether a frame may be taken: it isn't of a later generation, one of the fork's handoff nodes put it, and it is within the log.
fn may_take(
    fork: &Fork,
    frame: &HandFrame,
    bounds: Bounds,
    came: Came,
    logged: usize,
    kept: usize,
) -> bool
    requires few { (logged ≤ 65536) × (came.count ≤ 65536) × (bounds.packets ≤ 65536) × (bounds.own ≤ bounds.packets) × (bounds.taken ≤ 3 * bounds.packets) }
    requires light { (kept + came.bytes + bounds.left ≤ bounds.bytes) }
    ensures may { IsTrue result ↔ (MayTake fork.now.graph fork.now.generation frame.now × IsWithinLog bounds came logged kept frame.now) }
    ensures kept { IsHandFrame frame.now }
{
    if frame.generation() > fork.generation() || frame.node() >= fork.nodes() {
        return false;
    }
    let Kind::WorkerHandoff(_) = fork.kind(frame.node()) else {
        return false;
    };
    let count = frame.count_packets() as u32;
    bounds.taken + came.count + count <= 3 * bounds.packets
        && logged as u32 + came.count + count + bounds.own <= bounds.packets
        && frame.count_bytes() <= bounds.bytes - bounds.left - came.bytes - kept
}

impl Work {
    /// Takes a frame of each of the first so many queues, where one is there that may be taken. Any other waits.
    pub fn take_frames<K: KindSet>(
        &mut self,
        fork: &Fork,
        station: Station,
        leg: Leg,
        inputs: &mut [Incoming],
        tried: usize,
        bounds: Bounds,
    ) -> Came
        requires setting { IsSetting (stationed K.meaning fork.now.graph fork.now.generation station) }
        requires leg { leg ≡ leg_here (stationed K.meaning fork.now.graph fork.now.generation station) }
        requires tried { (tried ≤ length inputs.old) × (tried ≤ 7) }
        requires frames { AllByRecursion (λ (queue : Queue). length queue.taken < 2 ^ 62) inputs.old }
        requires rest { (came : ℕ) × IsAtRest bounds.packets bounds.bytes came bounds.own bounds.left self.old }
        requires taken { bounds.taken ≤ 3 * bounds.packets }
        ensures { TakesFrames (stationed K.meaning fork.now.graph fork.now.generation station) bounds tried self.old inputs.old self.new inputs.new result }
    {
        let logged = self.fates.len();
        let kept = self.bytes.len();
        let mut came = Came { count: 0, bytes: 0 };
        'places: for place in 0..tried {
            let incoming = &mut inputs[place];
            let Some(frame) = incoming.next_frame() else {
                continue;
            };
            if !may_take(fork, &frame, bounds, came, logged, kept) {
                incoming.put_back(frame);
                continue;
            }
            came.count += frame.count_packets() as u32;
            came.bytes += frame.count_bytes();
            self.take_frame::<K>(fork, station, leg, frame);
        }
        came
    }
}
