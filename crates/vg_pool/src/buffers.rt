//! Buffers: one packet each, with its metadata, over one to five buffers of 2,048 bytes.
ghost use Rattle.std.specs.Prelude.{◌≡◌, ◌+◌, ◌*◌, ◌<◌, ◌≤◌, true, false, Some, [], ◌∷◌, ◌++◌, length, min, vec_len, vec_capacity};
ghost use Rattle.std.specs.Bool.{MatchBool};
ghost use Rattle.vg_model.specs.Packet.{first_room, longest_packet};
ghost use Rattle.vg_model.specs.Tag as tags;
ghost use Rattle.vg_model.specs.Valid.{most_room, most_extent};
ghost use Rattle.vg_pool.specs.Contents.{AreContents, kept_of};

use crate::areas::{AREA_SIZE, Area};
use crate::parts::Parts;
use crate::spares::Spare;
use crate::stacks::BufferStack;
use std::marker::Model;
use std::mem;
use vg_model::limits::{FIRST_ROOM, LONGEST_PACKET};
use vg_model::lists::know_bytes;
use vg_model::{Leg, Legs};

// The type that begins a tag.
const TAG_TYPE: u16 = 0x8100;

// The memory of a buffer. The metadata stands in front, next to the packet's first bytes; behind the first block of a chain
// it has no meaning.
#[cycle(stack)]
#[derive(Drop)]
pub(crate) struct Block {
    // The buffers below this one where it is in a stack; else none.
    pub(crate) below: BufferStack,
    // The buffers behind this one in its chain.
    pub(crate) rest: Parts,
    pub(crate) number: u32,
    pub(crate) checked: bool,
    pub(crate) adjacency: Option<u16>,
    pub(crate) interface: Option<u16>,
    pub(crate) legs: Legs,
    // How many bytes the buffers behind have.
    pub(crate) behind: usize,
    pub(crate) area: Area,
}

/// A chain of one to five buffers: a packet of at most [`LONGEST_PACKET`] bytes as it was received, its number, the mark `checked`,
/// an adjacency and an interface to transmit on, where they are chosen, and the legs that it has done so far, at most four. A packet
/// has room to get longer: [`FIRST_ROOM`] bytes as it is received.
///
/// It is one pointer to the block of its first buffer. A packet with the mark is one whose IPv4 header passes the checks just as its
/// bytes stand. A chain must be freed to come back to its pool: the buffers of one that is dropped never do.
#[derive(Drop)]
pub struct Buffer {
    pub(crate) block: Box<Block>,
}

impl Model for Buffer {
    ghost use Rattle.vg_pool.specs.Contents.{Contents};
    ghost use Rattle.vg_pool.specs.Blocks.{contents, IsAlone};

    ghost Value = { Contents };

    ghost view = { λ b. contents b.block.value };

    ghost invariant = { λ b. IsAlone b.block.value };
}

impl Buffer {
    ghost use Rattle.vg_model.specs.KindWord.{least_vlan, most_vlan};
    ghost use Rattle.vg_model.specs.PoolBook.{buffer_size, most_pieces, pieces_of};
    ghost use Rattle.vg_pool.specs.Contents.{received, laid, nothing, written, head_of, least_head, part, Passes, AreContents};

    /// Makes it the packet of this number and these bytes, as it is received: with no mark, no adjacency, no interface and no legs. A
    /// packet of more than [`LONGEST_PACKET`] bytes keeps its number alone.
    #[inline(always)]
    pub fn fill(&mut self, number: u32, bytes: &[u8])
        requires { length bytes.now ≤ longest_packet → pieces_of (length bytes.now) ≤ self.old.pieces }
        ensures { self.new ≡ received self.old.pieces number bytes.now }
    {
        let bytes = kept(bytes);
        self.lay(number, FIRST_ROOM as u32, bytes);
    }

    /// Makes it the packet of this number, this room and these bytes, of a packet that lay in a chain before and was kept elsewhere: with no
    /// mark, no adjacency, no interface and no legs.
    #[inline(always)]
    pub fn lay(&mut self, number: u32, room: u32, bytes: &[u8])
        requires room { room ≤ most_room }
        requires len { length bytes.now + room ≤ most_extent }
        requires fits { length bytes.now + room ≤ first_room + buffer_size * self.old.pieces }
        ensures { self.new ≡ laid self.old.pieces number room bytes.now }
    {
        know_bytes(bytes);
        let room = room as usize;
        let block = &mut *self.block;
        block.number = number;
        block.checked = false;
        block.adjacency = None;
        block.interface = None;
        block.legs = Legs::new();
        let first = bytes.len().min(AREA_SIZE - room);
        block.area.fill(room, &bytes[..first]);
        block.behind = bytes.len() - first;
        block.rest.fill(&bytes[first..]);
    }

    /// The packet's number in the capture, from 0.
    pub fn number(&self) -> u32
        ensures { result ≡ self.now.packet.number }
    {
        self.block.number
    }

    /// How many bytes the packet has.
    pub fn len(&self) -> u32
        ensures { result ≡ length self.now.packet.bytes }
    {
        let block = &*self.block;
        (block.area.len() + block.behind) as u32
    }

    /// How many bytes may still be put in front of the packet where it lies (VLIB: the headroom of its buffer).
    pub fn room(&self) -> u32
        ensures room { result ≡ self.now.packet.room }
        ensures few { result ≤ most_room }
    {
        self.block.area.room() as u32
    }

    /// How many buffers the chain has.
    pub fn pieces(&self) -> u32
        ensures pieces { result ≡ self.now.pieces }
        ensures bounds { (1 ≤ result) × (result ≤ most_pieces) }
    {
        self.block.rest.len() + 1
    }

    /// The part of the packet in buffer `k` of the chain: the first part is its [`head`](Buffer::head), and those of all buffers
    /// joined in order are the packet's bytes.
    pub fn piece(&self, k: u32) -> &[u8]
        requires { k < self.now.pieces }
        ensures { result.now ≡ part self.now.packet k }
    {
        let block = &*self.block;
        if k == 0 {
            block.area.bytes()
        } else {
            block.rest.part(k - 1)
        }
    }

    /// The first bytes of the packet, all that are in the first buffer: at least 1,984, or as many as it has.
    #[inline]
    pub fn head(&self) -> &[u8]
        ensures head { result.now ≡ head_of self.now.packet }
        ensures long { min (length self.now.packet.bytes) least_head ≤ length result.now }
        ensures kept { AreContents self.now }
    {
        let head = self.block.area.bytes();
        know_bytes(head);
        head
    }

    /// Puts the packet's bytes behind a list that has room for them, and takes no memory.
    #[inline(always)]
    pub fn copy_into(&self, list: &mut Vec<u8>)
        requires { vec_len list.old + length self.now.packet.bytes ≤ vec_capacity list.old }
        ensures bytes { list.new.items ≡ list.old.items ++ self.now.packet.bytes }
        ensures room { vec_capacity list.old ≤ vec_capacity list.new }
    {
        if self.is_single() {
            append(list, self.head());
        } else {
            self.copy_pieces(list);
        }
    }

    // Whether the chain has one buffer.
    #[inline]
    fn is_single(&self) -> bool
        ensures { MatchBool result (self.now.pieces ≡ 1) (1 < self.now.pieces) }
    {
        self.block.rest.is_empty()
    }

    // The same as `copy_into`, buffer by buffer. It stands apart, so that the copy of a packet in one buffer is short.
    #[inline(never)]
    fn copy_pieces(&self, list: &mut Vec<u8>)
        requires { vec_len list.old + length self.now.packet.bytes ≤ vec_capacity list.old }
        ensures bytes { list.new.items ≡ list.old.items ++ self.now.packet.bytes }
        ensures room { vec_capacity list.old ≤ vec_capacity list.new }
    {
        know_contents(self);
        append(list, self.piece(0));
        for k in 1..self.pieces() {
            append(list, self.piece(k));
        }
    }

    /// Whether the packet has the mark: the checks of its IPv4 header would pass as it is.
    pub fn checked(&self) -> bool
        ensures { result ≡ self.now.packet.checked }
    {
        self.block.checked
    }

    /// The number of the adjacency that was chosen, if one was.
    pub fn adjacency(&self) -> Option<u16>
        ensures { result ≡ self.now.packet.adjacency }
    {
        self.block.adjacency
    }

    /// The number of the interface to transmit on, if one was chosen.
    pub fn interface(&self) -> Option<u16>
        ensures { result ≡ self.now.packet.interface }
    {
        self.block.interface
    }

    /// The legs that the packet has done so far, in order.
    pub fn legs(&self) -> &[Leg]
        ensures legs { result.now ≡ self.now.legs }
        ensures few { length result.now ≤ 4 }
    {
        self.block.legs.as_slice()
    }

    /// Puts these bytes in place of those that stand from `at` on, all of them in the packet's head.
    pub fn write(&mut self, at: u32, bytes: &[u8])
        requires within { at + length bytes.now ≤ length (head_of self.old.packet) }
        // a packet with the mark would still pass the checks
        requires sound { self.old.packet.checked ≡ true → Passes (written self.old.packet at bytes.now) }
        ensures { self.new ≡ record self.old { packet = written self.old.packet at bytes.now } }
    {
        self.block.area.write(at as usize, bytes);
    }

    /// Sets the mark.
    pub fn mark(&mut self)
        requires { Passes self.old.packet }
        ensures { self.new ≡ record self.old { packet = record self.old.packet { checked = true } } }
    {
        self.block.checked = true;
    }

    /// Takes the mark away.
    pub fn unmark(&mut self)
        ensures { self.new ≡ record self.old { packet = record self.old.packet { checked = false } } }
    {
        self.block.checked = false;
    }

    /// Sets the number of the adjacency.
    pub fn set_adjacency(&mut self, adjacency: u16)
        ensures { self.new ≡ record self.old { packet = record self.old.packet { adjacency = Some adjacency } } }
    {
        self.block.adjacency = Some(adjacency);
    }

    /// Sets the number of the interface to transmit on.
    pub fn set_interface(&mut self, interface: u16)
        ensures { self.new ≡ record self.old { packet = record self.old.packet { interface = Some interface } } }
    {
        self.block.interface = Some(interface);
    }

    /// Adds a leg behind the others.
    pub fn add_leg(&mut self, leg: Leg)
        requires { length self.old.legs < 4 }
        ensures { self.new ≡ record self.old { legs = self.old.legs ++ leg ∷ [] } }
    {
        self.block.legs.push(leg);
    }

    /// Removes the four bytes of the packet's tag, and takes the mark away. The packet then has as much more room. At most twelve bytes
    /// move.
    pub fn cut(&mut self)
        requires tagged { tags.is_tagged self.old.packet ≡ true }
        requires room { self.old.packet.room + tags.tag_len ≤ most_room }
        ensures { self.new ≡ record self.old { packet = tags.cut self.old.packet } }
    {
        know_tagged(self);
        self.unmark();
        self.block.area.cut();
    }

    /// Puts a tag of this id in before byte 12, of priority 0 and not eligible to be dropped first, and takes the mark away. The packet
    /// then has as much less room. At most twelve bytes move.
    pub fn tag(&mut self, id: u16)
        requires long { 14 ≤ length self.old.packet.bytes }
        requires room { tags.tag_len ≤ self.old.packet.room }
        requires id { (least_vlan ≤ id) × (id ≤ most_vlan) }
        ensures { self.new ≡ record self.old { packet = tags.tagged id self.old.packet } }
    {
        let [type_high, type_low] = TAG_TYPE.to_be_bytes();
        let [high, low] = id.to_be_bytes();
        let first = &mut *self.block;
        first.area.put_in([type_high, type_low, high, low]);
        first.checked = false;
    }

    // One more buffer in the chain, which has no packet.
    #[inline(never)]
    pub(crate) fn lengthen(&mut self, spare: Spare)
        requires few { self.old.pieces < most_pieces }
        requires empty { self.old ≡ nothing self.old.pieces }
        ensures { self.new ≡ nothing (self.old.pieces + 1) }
    {
        self.block.rest.push(spare);
    }

    // The first buffer, and those behind it.
    pub(crate) fn apart(self) -> (Spare, Parts)
        ensures { self.pieces ≡ length result.1 + 1 }
    {
        let Buffer { mut block } = self;
        let rest = mem::replace(&mut block.rest, Parts::new());
        (Spare::new(block), rest)
    }
}

/// Nothing happens. Its contract says what the type of a buffer keeps of what it carries.
#[inline]
pub fn know_contents(buffer: &Buffer)
    ensures { AreContents buffer.now }
{
    let _head = buffer.head();
}

// Puts bytes behind those of a list that has room for them.
#[inline]
fn append(list: &mut Vec<u8>, bytes: &[u8])
    requires { vec_len list.old + length bytes.now ≤ vec_capacity list.old }
    ensures items { list.new.items ≡ list.old.items ++ bytes.now }
    ensures len { vec_len list.new ≡ vec_len list.old + length bytes.now }
    ensures room { vec_capacity list.old ≤ vec_capacity list.new }
{
    let Ok(()) = list.extend_from_slice(bytes) else {
        unreachable!()
    };
}

// A frame with a tag has at least 18 bytes.
#[inline]
fn know_tagged(buffer: &Buffer)
    requires { tags.is_tagged buffer.now.packet ≡ true }
    ensures { 18 ≤ length buffer.now.packet.bytes }
{
    let _ = buffer;
}

// The bytes that are kept of a packet: none of one that is too long.
#[inline]
fn kept(bytes: &[u8]) -> &[u8]
    ensures { result.now ≡ kept_of bytes.now }
{
    if bytes.len() > LONGEST_PACKET {
        return &[];
    }
    bytes
}
