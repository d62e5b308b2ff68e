//! The memory of a worker, and what it has before its first turn.
ghost use Rattle.std.specs.Prelude.{◌≡◌, ◌<◌, ◌≤◌, ◌^◌, [], length, map, min, replicate, vec_len, vec_capacity, IfOk, MatchOption};
ghost use Rattle.std.specs.List.{AllByRecursion};
ghost use Rattle.vg_nodes.specs.Sorting.{nothing_sorted};
ghost use Rattle.vg_ring.specs.Ends.{taken, rx_ring, rx_trail};
ghost use Rattle.vg_underway.specs.OwnPackets.{captured_extent, own_from};
ghost use Rattle.vg_underway.specs.Queues.{Queue, queue_of};
ghost use Rattle.vg_underway.specs.Rest.{IsNew};

use crate::counting::Counting;
use crate::incoming::Incoming;
use crate::underway::Work;
use std::alloc::{AllocError, Global};
use vg_capture::Packets;
use vg_frame::Frame;
use vg_hands::{HandFrame, Handoff};
use vg_model::Memory;
use vg_model::limits::FIRST_ROOM;
use vg_nodes::Sorted;
use vg_ring::{RingRx, RingTx};

/// The memory of a worker: what it has under way, lists for a frame that is dispatched, its ends of queues, and lists with room for these
/// ends as they are handed out.
#[derive(Drop)]
pub struct Rooms<H: Handoff<HandFrame>> {
    pub work: Work,
    pub sorted: Sorted,
    pub groups: Vec<Frame>,
    pub inputs: Vec<Incoming>,
    pub outputs: Vec<Counting<H>>,
    pub rx_room: Vec<RingRx<HandFrame>>,
    pub tx_room: Vec<RingTx<HandFrame>>,
}

impl<H: Handoff<HandFrame>> Rooms<H> {
    /// The memory of one of so many workers, for so many packets, which send so many bytes at most and of which so many are traced.
    pub fn new(
        alloc: Global,
        workers: usize,
        packets: usize,
        bytes: usize,
        traced: u32,
    ) -> Result<Rooms<H>, Memory>
        requires few { packets ≤ 65536 }
        ensures work { IfOk result (λ rooms. IsNew packets bytes traced rooms.work) }
        ensures sorted { IfOk result (λ rooms. rooms.sorted ≡ nothing_sorted) }
        ensures groups { IfOk result (λ rooms. rooms.groups.items ≡ replicate workers []) }
        ensures inputs { IfOk result (λ rooms. (rooms.inputs.items ≡ []) × (workers ≤ vec_capacity rooms.inputs)) }
        ensures outputs { IfOk result (λ rooms. (rooms.outputs.items ≡ []) × (workers ≤ vec_capacity rooms.outputs)) }
        ensures ends { IfOk result (λ rooms. (rooms.rx_room.items ≡ []) × (workers ≤ vec_capacity rooms.rx_room) × (rooms.tx_room.items ≡ []) × (workers ≤ vec_capacity rooms.tx_room)) }
    {
        let groups = empty_groups(alloc, workers)?;
        let inputs = Vec::with_capacity(alloc, workers)?;
        let outputs = Vec::with_capacity(alloc, workers)?;
        let rx_room = Vec::with_capacity(alloc, workers)?;
        let tx_room = Vec::with_capacity(alloc, workers)?;
        Ok(Rooms {
            work: Work::new(alloc, packets, bytes, traced)?,
            sorted: Sorted::new(alloc)?,
            groups,
            inputs,
            outputs,
            rx_room,
            tx_room,
        })
    }
}

// So many groups with no packet.
fn empty_groups(alloc: Global, count: usize) -> Result<Vec<Frame>, AllocError>
    ensures { IfOk result (λ groups. groups.items ≡ replicate count []) }
{
    let mut groups = Vec::with_capacity(alloc, count)?;
    'groups: for _i in 0..count {
        groups.push(Frame::new())?;
    }
    Ok(groups)
}

/// The queues of which these are the ends, in a list that has room for them.
pub fn queues_of(rings: Vec<RingRx<HandFrame>>, mut room: Vec<Incoming>) -> Vec<Incoming>
    requires new { AllByRecursion (λ rx. taken rx ≡ []) rings.items }
    requires room { (room.items ≡ []) × (vec_len rings ≤ vec_capacity room) }
    ensures { result.items ≡ map (λ rx. queue_of (rx_ring rx) (rx_trail rx)) rings.items }
{
    for ring in rings {
        room.push_reserved(Incoming::new(ring));
    }
    room
}

/// These handoffs, which have accepted nothing, in a list that has room for them.
pub fn counting_of<H: Handoff<HandFrame>>(
    handoffs: Vec<H>,
    mut room: Vec<Counting<H>>,
) -> Vec<Counting<H>>
    requires new { AllByRecursion (λ handoff. H.accepted handoff ≡ []) handoffs.items }
    requires room { (room.items ≡ []) × (vec_len handoffs ≤ vec_capacity room) }
    ensures { map (λ output. output.handoff) result.items ≡ handoffs.items }
{
    for handoff in handoffs {
        room.push_reserved(Counting {
            handoff,
            accepted: 0,
        });
    }
    room
}

/// How many bytes the packets and the rooms that they are received with have together; `None` exactly where that is 2^64 or more.
pub fn total_bytes(packets: &Packets) -> Option<usize>
    ensures { MatchOption result (2 ^ 64 ≤ captured_extent packets.now) (λ total. total ≡ captured_extent packets.now) }
{
    let mut total: usize = 0;
    for place in 0..packets.len() {
        let extent = packets.bytes(place).len() + FIRST_ROOM;
        total = total.checked_add(extent)?;
    }
    Some(total)
}

/// A worker's own packets: how many, and how many bytes they and their rooms have together.
#[derive(Clone, Copy)]
pub struct Own {
    pub count: u32,
    pub bytes: usize,
}

/// The own packets of a worker: that of its number, and then each as many numbers behind the one before as there are workers.
pub fn own_of(packets: &Packets, workers: u8, number: u8) -> Own
    requires workers { 0 < workers }
    requires few { length packets.now ≤ 65536 }
    requires bytes { captured_extent packets.now < 2 ^ 64 }
    ensures count { result.count ≡ length (own_from workers number packets.now) }
    ensures bytes { result.bytes ≡ captured_extent (own_from workers number packets.now) }
{
    let mut own = Own { count: 0, bytes: 0 };
    let count = packets.len();
    let mut place = number as usize;
    'packets: while place < count {
        own.count += 1;
        own.bytes += packets.bytes(place).len() + FIRST_ROOM;
        place += workers as usize;
    }
    own
}
