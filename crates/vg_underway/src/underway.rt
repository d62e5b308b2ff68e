//! What a worker has under way, and what it keeps.
ghost use Rattle.std.specs.Prelude.{ℕ, List, ◌≢◌, ◌≡◌, ◌+◌, ◌<◌, ◌-◌, ◌≤◌, ◌^◌, ◌⊎◌, None, [], ◌∷◌, ◌++◌, length, map, replicate, take, drop, vec_len, vec_capacity, IfOk};
ghost use Rattle.std.specs.Bool.{MatchBool};
ghost use Rattle.std.specs.List.{AllByRecursion};
ghost use Rattle.vg_model.specs.Graph.{kind_at, handoff_dequeue};
ghost use Rattle.vg_model.specs.declared.kinds.Step.{Step};
ghost use Rattle.vg_hands.specs.Handed.{most_handed};
ghost use Rattle.vg_model.specs.PoolBook.{CacheBook, IsChainOf};
ghost use Rattle.vg_pool.specs.Contents.{AreContents, received};
ghost use Rattle.vg_journeys.specs.Accounts.{frame_arrivals};
ghost use Rattle.vg_model.specs.Valid.{IsTarget, IsValid, AreBytes};
ghost use Rattle.vg_frame.specs.Pending.{IsNothingPending};
ghost use Rattle.vg_frame.specs.Placed.{IsLive};
ghost use Rattle.vg_nodes.specs.Sorting.{nothing_sorted};
ghost use Rattle.vg_underway.specs.SentEntries.{AreWithin, sent_by};
ghost use Rattle.vg_underway.specs.Underway.{stationed, leg_here, contents_at, IsSetting};

use crate::peers::place_of;
use crate::sent::SentEntry;
use crate::stations::Station;
use std::alloc::Global;
use std::mem;
use std::sync::ledger::Ledger;
use vg_capture::Packets;
use vg_counters::{Counters, Trace};
use vg_fates::FateLog;
use vg_fork::Fork;
use vg_frame::{BufferMemory, Frame, FrameStore};
use vg_hands::{HandFrame, HandPackets, Handoff};
use vg_model::limits::{FIRST_ROOM, LONGEST_PACKET, MOST_INTERFACES, MOST_LEGS, MOST_NODES};
use vg_model::start::{ERROR_DROP, FIRST_SLOT, HANDOFF_DEQUEUE, PG_INPUT};
use vg_model::{DropError, End, Leg, Memory};
use vg_nodes::{KindSet, Sorted, dispatch_frame};
use vg_pool::{Buffer, Cache};

/// Packets under way, and what is kept of those whose legs are over.
#[derive(Drop)]
pub struct Work {
    pub memory: BufferMemory,
    pub pending: FrameStore,
    pub fates: FateLog,
    pub entries: Vec<SentEntry>,
    pub bytes: Vec<u8>,
    pub counts: Counters,
    pub trace: Trace,
}

/// Packets that were drawn: how many, how many bytes they and their rooms have together, and the number of the next.
#[derive(Clone, Copy)]
pub struct Drew {
    pub count: u32,
    pub bytes: usize,
    pub mark: u64,
}

impl Work {
    ghost use Rattle.vg_underway.specs.Works.{counted_end, CanCount, CanFinish, Finishes, hand_of, hand_step, without_drops, IsSteady, TakesAll, IsPutAway, visits_left};
    ghost use Rattle.vg_underway.specs.Hands.{CanRefuse, Refuses, handed_to, HasFewLegs, HandsOver, IsGrouped, grouped, AreGroups, CanHand, PutsAway, IsDispatched};
    ghost use Rattle.vg_underway.specs.Outlets.{Push, outlet_of, most_in_round, dropped_by, ArePushes, PushesOver};
    ghost use Rattle.vg_underway.specs.Peers.{by_worker};
    ghost use Rattle.vg_frame.specs.Placed.{count};
    ghost use Rattle.vg_underway.specs.Traced.{noted_end, noted_frame};
    ghost use Rattle.vg_underway.specs.Draws.{CanEnter, CanDraw, DrawsLong, DrawsShort, Enters, IsHandoff, IsUnderway, IsEntered, CanDrawOwn, AreBelow, AreChained, LacksBuffers};
    ghost use Rattle.vg_journeys.specs.Windows.{next_draws, mark_behind};
    ghost use Rattle.vg_underway.specs.Rest.{IsNew};
    ghost use Rattle.vg_underway.specs.OwnPackets.{captured_extent, own_from, frames_of};

    /// Nothing under way or kept, and room for the fates of so many packets and for so many bytes, and for the visits of so many.
    pub fn new(alloc: Global, packets: usize, bytes: usize, traced: u32) -> Result<Work, Memory>
        requires few { packets ≤ 65536 }
        ensures { IfOk result (IsNew packets bytes traced) }
    {
        let fates = FateLog::new(alloc, packets)?;
        let entries = Vec::with_capacity(alloc, packets)?;
        let bytes = Vec::with_capacity(alloc, bytes)?;
        Ok(Work {
            memory: BufferMemory::new(alloc)?,
            pending: FrameStore::new(alloc, MOST_NODES as u16)?,
            fates,
            entries,
            bytes,
            counts: Counters::new(alloc, MOST_NODES as u16, MOST_INTERFACES as u16)?,
            trace: Trace::new(alloc, traced)?,
        })
    }

    // Logs the end of a packet, and counts it. A drop at another node brings a visit of `error-drop`.
    #[inline(always)]
    fn log(&mut self, number: u32, legs: &[Leg], congested: Option<u64>, end: End)
        requires legs { (1 ≤ length legs.now) × (length legs.now ≤ 4) }
        requires room { length self.old.fates.items < self.old.fates.room }
        requires counts { CanCount end self.old.counts }
        ensures fates { self.new.fates.items ≡ self.old.fates.items ++ (record { number = number; legs = legs.now; congested = congested; end = end }) ∷ [] }
        ensures room { self.new.fates.room ≡ self.old.fates.room }
        ensures rest { self.new ≡ record self.old {
          fates = self.new.fates;
          counts = counted_end end self.old.counts;
          trace = noted_end number (length legs.now - 1) end self.old.trace;
        } }
    {
        match end {
            End::Tx { interface } => self.counts.sent(interface),
            End::Dropped { node, error } => {
                self.counts.dropped(node, error);
                if node != ERROR_DROP {
                    self.counts.visit(ERROR_DROP, 1);
                    self.trace.note(number, legs.len() as u8, ERROR_DROP);
                }
            }
        }
        self.fates.push(number, legs, congested, end);
    }

    // Keeps the bytes of a packet that is transmitted.
    #[inline(always)]
    fn keep(&mut self, packet: &Buffer)
        requires entries { vec_len self.old.entries < vec_capacity self.old.entries }
        requires bytes { vec_len self.old.bytes + length packet.now.packet.bytes ≤ vec_capacity self.old.bytes }
        requires within { AreWithin self.old.entries.items self.old.bytes.items }
        ensures within { AreWithin self.new.entries.items self.new.bytes.items }
        ensures sent { sent_by self.new.entries.items self.new.bytes.items ≡ sent_by self.old.entries.items self.old.bytes.items ++ (packet.now.packet.number, packet.now.packet.bytes) ∷ [] }
        ensures entries { vec_len self.new.entries ≡ vec_len self.old.entries + 1 }
        ensures bytes { vec_len self.new.bytes ≡ vec_len self.old.bytes + length packet.now.packet.bytes }
        ensures room { (vec_capacity self.new.entries ≡ vec_capacity self.old.entries) × (vec_capacity self.old.bytes ≤ vec_capacity self.new.bytes) }
        ensures rest { self.new ≡ record self.old { entries = self.new.entries; bytes = self.new.bytes } }
    {
        know_contents(packet);
        let start = self.bytes.len();
        packet.copy_into(&mut self.bytes);
        self.entries.push_reserved(SentEntry {
            number: packet.number(),
            part: 0,
            len: packet.len() as u16,
            start,
        });
    }

    // Takes the packet of an index out, whose leg is over, and gives its buffers back.
    #[inline(always)]
    fn finish<T: Ledger, G: Ledger>(&mut self, index: u32, end: End, cache: &mut Cache<T, G>)
        requires { CanFinish index end self.old cache.old }
        ensures finished { Finishes index end self.old self.new }
        ensures cache { let pieces = (contents_at self.old.memory index).pieces in
            cache.new ≡ record cache.old { len = cache.old.len + pieces; freed = cache.old.freed + pieces } }
    {
        let packet = self.memory.lift(index);
        if let End::Tx { .. } = end {
            self.keep(&packet);
        }
        self.log(packet.number(), packet.legs(), None, end);
        cache.free(packet);
    }

    // Puts packets away that the visits of `K` at a node have sorted, but for those that are handed over: those that go on wait for the
    // next node, and those whose legs are over are taken out.
    #[inline]
    fn put_apart<K: KindSet, T: Ledger, G: Ledger>(
        &mut self,
        fork: &Fork,
        station: Station,
        node: u16,
        sorted: &Sorted,
        cache: &mut Cache<T, G>,
    )
        requires setting { IsSetting (stationed K.meaning fork.now.graph fork.now.generation station) }
        requires target { IsTarget (kind_at fork.now.graph node) }
        requires steady { IsSteady (stationed K.meaning fork.now.graph fork.now.generation station) node self.old (hand_of sorted.now) }
        requires takes { TakesAll (stationed K.meaning fork.now.graph fork.now.generation station) node self.old (hand_of sorted.now) cache.old }
        ensures { IsPutAway (stationed K.meaning fork.now.graph fork.now.generation station) node self.old cache.old (hand_of sorted.now) self.new cache.new (without_drops sorted.now) }
    {
        let mut going = sorted.next.runs();
        'next: while let Some((slot, run)) = going.next() {
            self.pending.put_each(fork.arc(node, slot), run);
        }
        'sent: for entry in sorted.tx.as_slice() {
            let (index, interface) = *entry;
            self.finish(index, End::Tx { interface }, cache);
        }
        'dropped: for entry in sorted.drops.as_slice() {
            let (index, error) = *entry;
            self.finish(index, End::Dropped { node, error }, cache);
        }
    }

    // Drops a packet that a full queue refused, of which it had accepted so many frames.
    fn refuse<T: Ledger, G: Ledger>(
        &mut self,
        buffer: Buffer,
        node: u16,
        accepted: u64,
        cache: &mut Cache<T, G>,
    )
        requires { CanRefuse node buffer self.old cache.old }
        ensures refused { Refuses node accepted buffer self.old self.new }
        ensures cache { cache.new ≡ record cache.old { len = cache.old.len + buffer.pieces; freed = cache.old.freed + buffer.pieces } }
    {
        let error = DropError::Congestion;
        self.log(
            buffer.number(),
            buffer.legs(),
            Some(accepted),
            End::Dropped { node, error },
        );
        cache.free(buffer);
    }

    // How many legs the packet of an index has.
    fn count_legs(&mut self, index: u32) -> usize
        requires { IsLive self.old.memory index }
        ensures legs { result ≡ length (contents_at self.old.memory index).legs }
        ensures same { self.new ≡ self.old }
    {
        self.memory.get_mut(index).legs().len()
    }

    // Sorts packets that a node hands over: those for this worker go on with it, those in their fourth leg are dropped, and any
    // other goes into the group of its worker.
    fn group<K: KindSet, T: Ledger, G: Ledger>(
        &mut self,
        fork: &Fork,
        station: Station,
        node: u16,
        hands: &[(u32, u32)],
        groups: &mut [Frame],
        cache: &mut Cache<T, G>,
    )
        requires setting { IsSetting (stationed K.meaning fork.now.graph fork.now.generation station) }
        requires target { IsTarget (kind_at fork.now.graph node) }
        requires station { station.worker < station.workers }
        requires empty { groups.old ≡ replicate station.workers [] }
        requires few { length hands.now ≤ 256 }
        requires steady { IsSteady (stationed K.meaning fork.now.graph fork.now.generation station) node self.old (map hand_step hands.now) }
        requires takes { TakesAll (stationed K.meaning fork.now.graph fork.now.generation station) node self.old (map hand_step hands.now) cache.old }
        ensures { IsGrouped (stationed K.meaning fork.now.graph fork.now.generation station) node self.old cache.old hands.now self.new cache.new groups.new }
    {
        'hands: for entry in hands {
            let (index, hash) = *entry;
            let to = hash % u32::from(station.workers);
            if to == u32::from(station.worker) {
                self.pending.put(fork.arc(node, FIRST_SLOT), index);
                continue;
            }
            if self.count_legs(index) == MOST_LEGS {
                let error = DropError::HandoffLimit;
                let limit = End::Dropped { node, error };
                self.finish(index, limit, cache);
                continue;
            }
            groups[to as usize].push(index);
        }
    }

    // Hands the packets of these indexes over to a worker, in one frame. Where its queue is full, each of them is dropped.
    fn hand_over<K: KindSet, H: Handoff<HandFrame>, T: Ledger, G: Ledger>(
        &mut self,
        fork: &Fork,
        station: Station,
        node: u16,
        to: u8,
        indexes: &Frame,
        output: &mut H,
        cache: &mut Cache<T, G>,
    )
        requires setting { IsSetting (stationed K.meaning fork.now.graph fork.now.generation station) }
        requires target { IsTarget (kind_at fork.now.graph node) }
        requires other { (to < station.workers) × (to ≢ station.worker) }
        requires some { 1 ≤ length indexes.now }
        requires hand { (rest : List (ℕ × Step)) × IsSteady (stationed K.meaning fork.now.graph fork.now.generation station) node self.old (handed_to to indexes.now ++ rest)
            × TakesAll (stationed K.meaning fork.now.graph fork.now.generation station) node self.old (handed_to to indexes.now ++ rest) cache.old }
        requires few { AllByRecursion (HasFewLegs self.old.memory) indexes.now }
        requires room { length indexes.now ≤ H.free_room output.old }
        requires count { length (H.accepted output.old) < 2 ^ 62 }
        ensures handed { (rest : List (ℕ × Step)) → IsSteady (stationed K.meaning fork.now.graph fork.now.generation station) node self.old (handed_to to indexes.now ++ rest)
            → TakesAll (stationed K.meaning fork.now.graph fork.now.generation station) node self.old (handed_to to indexes.now ++ rest) cache.old
            → HandsOver (stationed K.meaning fork.now.graph fork.now.generation station) node to (H.slots output.old) H.LOSSLESS self.old cache.old (H.accepted output.old) (handed_to to indexes.now ++ rest)
            self.new cache.new (H.accepted output.new) rest }
        ensures ring { H.ring output.new ≡ H.ring output.old }
        ensures slots { H.slots output.new ≡ H.slots output.old }
        ensures room { H.free_room output.old ≤ H.free_room output.new + length indexes.now }
        ensures pushed { (push : Push) × ArePushes (H.slots output.old) H.LOSSLESS (H.accepted output.old) (outlet_of H.end H.refusals H.waiting H.free_room H.closes (most_in_round station.workers) output.old) (push ∷ [])
            (H.accepted output.new) (outlet_of H.end H.refusals H.waiting H.free_room H.closes (most_in_round station.workers) output.new) × (self.new.fates.items ≡ self.old.fates.items ++ dropped_by push) }
    {
        let mut packets = HandPackets::new();
        'lifted: for index in indexes.as_slice() {
            packets.push(self.memory.lift(*index));
        }
        let frame = HandFrame::new(node, fork.generation(), packets);
        if let Err(full) = output.push(frame) {
            let accepted = full.accepted;
            let mut refused = full.item.into_packets().unpack();
            'refused: while let Some(buffer) = refused.take_first() {
                self.refuse(buffer, node, accepted, cache);
            }
        }
    }

    // Hands each group over to its worker, in one frame, and empties it.
    fn hand_groups<K: KindSet, H: Handoff<HandFrame>, T: Ledger, G: Ledger>(
        &mut self,
        fork: &Fork,
        station: Station,
        node: u16,
        groups: &mut [Frame],
        outputs: &mut [H],
        cache: &mut Cache<T, G>,
    )
        requires setting { IsSetting (stationed K.meaning fork.now.graph fork.now.generation station) }
        requires target { IsTarget (kind_at fork.now.graph node) }
        requires can { CanHand station (count self.old.memory) (map H.accepted outputs.old) (map H.slots outputs.old) (map H.free_room outputs.old) }
        requires groups { AreGroups (stationed K.meaning fork.now.graph fork.now.generation station) self.old groups.old }
        requires steady { IsSteady (stationed K.meaning fork.now.graph fork.now.generation station) node self.old (grouped 0 groups.old) }
        requires takes { TakesAll (stationed K.meaning fork.now.graph fork.now.generation station) node self.old (grouped 0 groups.old) cache.old }
        ensures away { PutsAway (stationed K.meaning fork.now.graph fork.now.generation station) node station.slots H.LOSSLESS
            (PushesOver station H.LOSSLESS H.accepted (outlet_of H.end H.refusals H.waiting H.free_room H.closes (most_in_round station.workers)) outputs.old self.old.fates.items outputs.new self.new.fates.items)
            self.old cache.old (by_worker station.worker [] (map H.accepted outputs.old)) (grouped 0 groups.old)
            self.new cache.new (by_worker station.worker [] (map H.accepted outputs.new)) [] }
        ensures empty { groups.new ≡ replicate station.workers [] }
        ensures can { CanHand station (count self.new.memory) (map H.accepted outputs.new) (map H.slots outputs.new) (map H.free_room outputs.new) }
        ensures rings { map H.ring outputs.new ≡ map H.ring outputs.old }
    {
        'to: for to in 0..station.workers {
            if to == station.worker {
                continue;
            }
            if groups[to as usize].len() == 0 {
                continue;
            }
            let group = mem::replace(&mut groups[to as usize], Frame::new());
            let output = &mut outputs[place_of(station.worker, to)];
            self.hand_over::<K, H, T, G>(fork, station, node, to, &group, output, cache);
        }
    }

    // Puts the packets away that the visits of `K` at a node have sorted: those that go on wait for the next node, those whose legs are
    // over are taken out, and those for other workers are handed over.
    fn put_away<K: KindSet, H: Handoff<HandFrame>, T: Ledger, G: Ledger>(
        &mut self,
        fork: &Fork,
        station: Station,
        node: u16,
        sorted: &Sorted,
        groups: &mut [Frame],
        outputs: &mut [H],
        cache: &mut Cache<T, G>,
    )
        requires setting { IsSetting (stationed K.meaning fork.now.graph fork.now.generation station) }
        requires target { IsTarget (kind_at fork.now.graph node) }
        requires can { CanHand station (count self.old.memory) (map H.accepted outputs.old) (map H.slots outputs.old) (map H.free_room outputs.old) }
        requires empty { groups.old ≡ replicate station.workers [] }
        requires steady { IsSteady (stationed K.meaning fork.now.graph fork.now.generation station) node self.old (hand_of sorted.now) }
        requires takes { TakesAll (stationed K.meaning fork.now.graph fork.now.generation station) node self.old (hand_of sorted.now) cache.old }
        ensures away { PutsAway (stationed K.meaning fork.now.graph fork.now.generation station) node station.slots H.LOSSLESS
            (PushesOver station H.LOSSLESS H.accepted (outlet_of H.end H.refusals H.waiting H.free_room H.closes (most_in_round station.workers)) outputs.old self.old.fates.items outputs.new self.new.fates.items)
            self.old cache.old (by_worker station.worker [] (map H.accepted outputs.old)) (hand_of sorted.now)
            self.new cache.new (by_worker station.worker [] (map H.accepted outputs.new)) [] }
        ensures empty { groups.new ≡ replicate station.workers [] }
        ensures can { CanHand station (count self.new.memory) (map H.accepted outputs.new) (map H.slots outputs.new) (map H.free_room outputs.new) }
        ensures rings { map H.ring outputs.new ≡ map H.ring outputs.old }
    {
        self.put_apart::<K, T, G>(fork, station, node, sorted, cache);
        let hands = sorted.hands.as_slice();
        self.group::<K, T, G>(fork, station, node, hands, groups, cache);
        self.hand_groups::<K, H, T, G>(fork, station, node, groups, outputs, cache);
    }

    // Notes the visits of a frame's packets at a node, where any packets are traced.
    fn note_frame(&mut self, node: u16, frame: &Frame)
        requires live { AllByRecursion (IsLive self.old.memory) frame.now }
        requires legs { AllByRecursion (λ index. (1 ≤ length (contents_at self.old.memory index).legs) × (length (contents_at self.old.memory index).legs ≤ 4)) frame.now }
        ensures { self.new ≡ record self.old { trace = noted_frame self.old.memory node frame.now self.old.trace } }
    {
        if self.trace.packets() > 0 {
            for index in frame.as_slice() {
                let packet = self.memory.get_mut(*index);
                self.trace
                    .note(packet.number(), packet.legs().len() as u8, node);
            }
        }
    }

    // Dispatches the next frame, and puts its packets away; `false` where none is pending.
    fn dispatch_next<K: KindSet, H: Handoff<HandFrame>, T: Ledger, G: Ledger>(
        &mut self,
        kinds: &K,
        fork: &Fork,
        station: Station,
        sorted: &mut Sorted,
        groups: &mut [Frame],
        outputs: &mut [H],
        cache: &mut Cache<T, G>,
    ) -> bool
        requires setting { IsSetting (stationed K.meaning fork.now.graph fork.now.generation station) }
        requires can { CanHand station (count self.old.memory) (map H.accepted outputs.old) (map H.slots outputs.old) (map H.free_room outputs.old) }
        requires empty { (sorted.old ≡ nothing_sorted) × (groups.old ≡ replicate station.workers []) }
        requires steady { IsSteady (stationed K.meaning fork.now.graph fork.now.generation station) 0 self.old [] }
        requires takes { TakesAll (stationed K.meaning fork.now.graph fork.now.generation station) 0 self.old [] cache.old }
        ensures empty { (sorted.new ≡ nothing_sorted) × (groups.new ≡ replicate station.workers []) }
        ensures dispatched { IsDispatched (stationed K.meaning fork.now.graph fork.now.generation station) station.slots H.LOSSLESS
            (PushesOver station H.LOSSLESS H.accepted (outlet_of H.end H.refusals H.waiting H.free_room H.closes (most_in_round station.workers)) outputs.old self.old.fates.items outputs.new self.new.fates.items)
            self.old cache.old (by_worker station.worker [] (map H.accepted outputs.old)) self.new cache.new (by_worker station.worker [] (map H.accepted outputs.new)) }
        ensures can { CanHand station (count self.new.memory) (map H.accepted outputs.new) (map H.slots outputs.new) (map H.free_room outputs.new) }
        ensures rings { map H.ring outputs.new ≡ map H.ring outputs.old }
        ensures some { MatchBool result (visits_left (stationed K.meaning fork.now.graph fork.now.generation station) self.new < visits_left (stationed K.meaning fork.now.graph fork.now.generation station) self.old) (IsNothingPending self.new.pending) }
    {
        let Some((node, frame)) = self.pending.next_frame() else {
            return false;
        };
        self.counts.visit(node, frame.len() as u64);
        self.note_frame(node, &frame);
        dispatch_frame(kinds, fork, node, frame, &mut self.memory, sorted);
        self.put_away::<K, H, T, G>(fork, station, node, sorted, groups, outputs, cache);
        sorted.clear();
        true
    }

    /// Dispatches frames until none is pending.
    pub fn dispatch_all<K: KindSet, H: Handoff<HandFrame>, T: Ledger, G: Ledger>(
        &mut self,
        kinds: &K,
        fork: &Fork,
        station: Station,
        sorted: &mut Sorted,
        groups: &mut [Frame],
        outputs: &mut [H],
        cache: &mut Cache<T, G>,
    )
        requires setting { IsSetting (stationed K.meaning fork.now.graph fork.now.generation station) }
        requires can { CanHand station (count self.old.memory) (map H.accepted outputs.old) (map H.slots outputs.old) (map H.free_room outputs.old) }
        requires empty { (sorted.old ≡ nothing_sorted) × (groups.old ≡ replicate station.workers []) }
        requires steady { IsSteady (stationed K.meaning fork.now.graph fork.now.generation station) 0 self.old [] }
        requires takes { TakesAll (stationed K.meaning fork.now.graph fork.now.generation station) 0 self.old [] cache.old }
        ensures empty { (sorted.new ≡ nothing_sorted) × (groups.new ≡ replicate station.workers []) }
        ensures dispatched { IsDispatched (stationed K.meaning fork.now.graph fork.now.generation station) station.slots H.LOSSLESS
            (PushesOver station H.LOSSLESS H.accepted (outlet_of H.end H.refusals H.waiting H.free_room H.closes (most_in_round station.workers)) outputs.old self.old.fates.items outputs.new self.new.fates.items)
            self.old cache.old (by_worker station.worker [] (map H.accepted outputs.old)) self.new cache.new (by_worker station.worker [] (map H.accepted outputs.new)) }
        ensures can { CanHand station (count self.new.memory) (map H.accepted outputs.new) (map H.slots outputs.new) (map H.free_room outputs.new) }
        ensures rings { map H.ring outputs.new ≡ map H.ring outputs.old }
        ensures none { IsNothingPending self.new.pending }
    {
        'frames: while self.dispatch_next::<K, H, T, G>(
            kinds, fork, station, sorted, groups, outputs, cache,
        ) {}
    }

    // Draws a packet, which was put into this chain: it waits for the node that the packet source leads to, or is dropped there where it
    // is too long.
    fn draw<T: Ledger, G: Ledger>(
        &mut self,
        fork: &Fork,
        leg: Leg,
        number: u32,
        bytes: &[u8],
        mut buffer: Buffer,
        cache: &mut Cache<T, G>,
    )
        requires valid { IsValid fork.now.graph }
        requires few { length fork.now.graph.nodes ≤ length self.old.pending }
        requires chain { IsChainOf (length bytes.now) buffer.pieces }
        requires filled { buffer ≡ received buffer.pieces number bytes.now }
        requires can { CanDraw buffer.pieces self.old cache.old }
        ensures bytes { AreBytes bytes.now }
        ensures long { LONGEST_PACKET < length bytes.now → DrawsLong leg number self.old self.new cache.old cache.new }
        ensures short { length bytes.now ≤ LONGEST_PACKET → DrawsShort fork.now.graph leg number bytes.now self.old self.new cache.old cache.new }
    {
        self.counts.visit(PG_INPUT, 1);
        self.trace.note(number, 1, PG_INPUT);
        if bytes.len() > LONGEST_PACKET {
            let error = DropError::TooLong;
            self.log(
                number,
                &[leg],
                None,
                End::Dropped {
                    node: PG_INPUT,
                    error,
                },
            );
            cache.free(buffer);
        } else {
            buffer.add_leg(leg);
            let index = self.memory.place(buffer);
            self.pending.put(fork.arc(PG_INPUT, FIRST_SLOT), index);
        }
    }

    // Takes a packet that a node of another worker handed over: it gets this leg, is placed in a buffer and waits for the node to
    // which the first slot of its handoff node leads.
    fn take(&mut self, fork: &Fork, leg: Leg, node: u16, mut buffer: Buffer)
        requires valid { IsValid fork.now.graph }
        requires few { length fork.now.graph.nodes ≤ length self.old.pending }
        requires from { IsHandoff fork.now.graph node }
        requires legs { length buffer.legs ≤ 3 }
        requires can { CanEnter handoff_dequeue self.old }
        ensures sound { AreContents buffer }
        ensures enters { Enters fork.now.graph handoff_dequeue node (record buffer { legs = buffer.legs ++ leg ∷ [] }) self.old self.new }
    {
        know_contents(&buffer);
        buffer.add_leg(leg);
        self.counts.visit(HANDOFF_DEQUEUE, 1);
        self.trace.note(buffer.number(), buffer.legs().len() as u8, HANDOFF_DEQUEUE);
        let index = self.memory.place(buffer);
        self.pending.put(fork.arc(node, FIRST_SLOT), index);
    }

    // Takes a frame that another worker handed over.
    pub(crate) fn take_frame<K: KindSet>(
        &mut self,
        fork: &Fork,
        station: Station,
        leg: Leg,
        frame: HandFrame,
    )
        requires setting { IsSetting (stationed K.meaning fork.now.graph fork.now.generation station) }
        requires leg { leg ≡ leg_here (stationed K.meaning fork.now.graph fork.now.generation station) }
        requires from { IsHandoff fork.now.graph frame.node }
        requires underway { (cache : CacheBook) × IsUnderway (stationed K.meaning fork.now.graph fork.now.generation station) (frame_arrivals station.worker frame) self.old cache }
        ensures taken { (cache : CacheBook) (from : IsUnderway (stationed K.meaning fork.now.graph fork.now.generation station) (frame_arrivals station.worker frame) self.old cache)
            → IsEntered (stationed K.meaning fork.now.graph fork.now.generation station) (from.before ++ frame_arrivals station.worker frame) from.start from.start_cache self.new cache }
    {
        let node = frame.node();
        let mut packets = frame.into_packets().unpack();
        'packets: while let Some(buffer) = packets.take_first() {
            self.take(fork, leg, node, buffer);
        }
    }

    /// Draws the worker's next packets, from this number on: those below the limit, each as many numbers behind the one before as there
    /// are workers, and at most so many. It stops where the cache has fewer buffers than the next one takes.
    pub fn draw_own<K: KindSet, T: Ledger, G: Ledger>(
        &mut self,
        fork: &Fork,
        station: Station,
        leg: Leg,
        mark: u64,
        limit: u32,
        most: u32,
        packets: &Packets,
        cache: &mut Cache<T, G>,
    ) -> Drew
        requires setting { IsSetting (stationed K.meaning fork.now.graph fork.now.generation station) }
        requires leg { leg ≡ leg_here (stationed K.meaning fork.now.graph fork.now.generation station) }
        requires workers { 0 < station.workers }
        requires limit { limit ≤ length packets.now }
        requires few { length packets.now ≤ 65536 }
        requires mark { mark < 2 ^ 32 }
        requires bytes { captured_extent packets.now < 2 ^ 64 }
        requires can { CanDrawOwn (stationed K.meaning fork.now.graph fork.now.generation station) mark limit most packets.now self.old cache.old }
        ensures drawn { (from : CanDrawOwn (stationed K.meaning fork.now.graph fork.now.generation station) mark limit most packets.now self.old cache.old)
            → IsEntered (stationed K.meaning fork.now.graph fork.now.generation station) (from.before ++ next_draws station.workers mark result.count (frames_of packets.now))
            from.start from.start_cache self.new cache.new }
        ensures most { result.count ≤ most }
        ensures mark { result.mark ≡ mark_behind station.workers mark result.count }
        ensures below { AreBelow station.workers mark limit result.count }
        ensures chained { AreChained station.workers mark result.count (frames_of packets.now) cache.old.len cache.new.len }
        ensures all { result.count < most → (limit ≤ result.mark) ⊎ LacksBuffers (frames_of packets.now) result.mark cache.new.len }
        ensures own { own_from station.workers result.mark packets.now ≡ drop result.count (own_from station.workers mark packets.now) }
        ensures bytes { result.bytes ≡ captured_extent (take result.count (own_from station.workers mark packets.now)) }
    {
        let mut drew = Drew {
            count: 0,
            bytes: 0,
            mark,
        };
        'draws: while drew.count < most && drew.mark < u64::from(limit) {
            let number = drew.mark as u32;
            let bytes = packets.bytes(drew.mark as usize);
            let Some(buffer) = cache.receive(number, bytes) else {
                break;
            };
            self.draw(fork, leg, number, bytes, buffer, cache);
            drew.count += 1;
            drew.bytes += bytes.len() + FIRST_ROOM;
            drew.mark += u64::from(station.workers);
        }
        drew
    }
}

// What holds of every buffer.
fn know_contents(buffer: &Buffer)
    ensures { AreContents buffer.now }
{
    let _head = buffer.head();
}
