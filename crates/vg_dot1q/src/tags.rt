//! The tag of a packet in its buffer (IEEE 802.1Q): all that is read of it stands in the packet's head.
ghost use Rattle.std.specs.Prelude.{◌≡◌, ◌≤◌, ◌<◌, ◌+◌, ◌*◌, ◌/◌, true, length};
ghost use Rattle.std.specs.Int.{w16, to_be_bytes};
ghost use Rattle.vg_model.specs.Bytes.{number16_at};
ghost use Rattle.vg_model.specs.Tag as spec;
ghost use Rattle.vg_pool.specs.Contents.{head_of};

use vg_nodes::parts::type_of;
use vg_packet::u16_at;
use vg_pool::{Buffer, know_contents};

/// The type that begins a tag.
const TAG_TYPE: u16 = 0x8100;

/// The length of a frame that ends behind the type that follows a tag.
const TAG_END: u32 = 18;

/// Where priority, mark and id stand.
pub(crate) const CONTROL: usize = 14;

/// How many numbers the twelve bits of an id have.
const IDS: u16 = 4096;

/// Whether the packet has a whole tag and the type behind it.
#[inline]
pub(crate) fn is_tagged(buffer: &Buffer) -> bool
    ensures { result ≡ spec.is_tagged buffer.now.packet }
{
    buffer.len() >= TAG_END && type_of(buffer) == TAG_TYPE
}

// The two bytes with the priority, the mark and the id.
#[inline]
fn control_of(buffer: &Buffer) -> u16
    requires { spec.is_tagged buffer.now.packet ≡ true }
    ensures { result ≡ number16_at buffer.now.packet.bytes spec.control_at }
{
    u16_at(buffer.head(), CONTROL)
}

/// The VLAN id of a tagged packet.
#[inline]
pub(crate) fn vlan_id_of(buffer: &Buffer) -> u16
    requires { spec.is_tagged buffer.now.packet ≡ true }
    ensures { result ≡ spec.vlan_id buffer.now.packet }
{
    control_of(buffer) % IDS
}

/// The two bytes of a tagged packet with another id.
#[inline]
pub(crate) fn renumbered(buffer: &Buffer, id: u16) -> [u8; 2]
    requires tagged { spec.is_tagged buffer.now.packet ≡ true }
    requires id { id < spec.vlan_ids }
    ensures { result ≡ to_be_bytes w16 (number16_at buffer.now.packet.bytes spec.control_at / spec.vlan_ids * spec.vlan_ids + id) }
{
    with_id(control_of(buffer), id)
}

/// Nothing happens. The head of a tagged packet has the tag and the type behind it.
#[inline]
pub(crate) fn know_tag(buffer: &Buffer)
    requires { spec.is_tagged buffer.now.packet ≡ true }
    ensures { 18 ≤ length (head_of buffer.now.packet) }
{
    know_contents(buffer);
}

// These two bytes with another id: priority and mark stay.
fn with_id(control: u16, id: u16) -> [u8; 2]
    requires { id < spec.vlan_ids }
    ensures { result ≡ to_be_bytes w16 (control / spec.vlan_ids * spec.vlan_ids + id) }
{
    (control / IDS * IDS + id).to_be_bytes()
}
