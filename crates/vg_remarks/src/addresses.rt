//! IPv4 addresses that a router does not forward to (RFC 1812, RFC 2644).
ghost use Rattle.std.specs.Prelude.{◌≡◌, ◌==◌, ◌&&◌, ◌||◌, ◌/◌, ◌^◌, ℕ, true, List, IfOk, OnOk, filter, is_some};
ghost use Rattle.vg_model.specs.declared.routes.Prefix.{Prefix as PrefixValue};
ghost use Rattle.vg_remarks.specs.Addresses.{class_of, destination as destination_of, has_group, is_directed as directed, is_led, is_multicast as multicast};
ghost use Rattle.vg_remarks.specs.Addresses.{is_network as network, is_special as special, last_of, may_be_special as may_cover_special, special_class as class_everywhere, IsKnown, IsSetOf};
ghost use Rattle.vg_remarks.specs.Lasts.{has};

use crate::lasts::LastAddresses;
use crate::prefixes::{AddressSet, last_address};
use std::alloc::{AllocError, Global};
use vg_model::Prefix;
use vg_packet::{u16_at, u32_at};

/// A class of IPv4 addresses that a router does not forward to.
#[derive(Clone, Copy, Debug, PartialEq, Eq)]
pub enum Class {
    /// 255.255.255.255 (RFC 1812, section 5.3.5.1).
    LimitedBroadcast,
    /// One of 0.0.0.0/8 (section 5.3.7).
    ThisNetwork,
    /// One of 127.0.0.0/8 (section 5.3.7).
    Loopback,
    /// Another of 240.0.0.0/4, which is class E (section 5.3.7).
    Reserved,
    /// One of 224.0.0.0/4, a group for which no route of its own stands in the script (section 5.3.10).
    Multicast,
    /// The last address of a prefix that a route leads to neighbors (RFC 2644, which changes the default of RFC 1812, section 5.3.5.2).
    DirectedBroadcast,
}

/// What is known of the prefixes that routes lead to neighbors.
#[derive(Drop)]
pub struct Known {
    // The last address of each that may be a network's.
    lasts: LastAddresses,
    // The addresses of those that may cover one which is of a class wherever it occurs.
    special: AddressSet,
    // The addresses of those of multicast addresses alone.
    groups: AddressSet,
}

// Whether a prefix may be that of a network: 1 to 30 bits.
fn is_network(prefix: &Prefix) -> bool
    ensures { result ≡ network prefix.now }
{
    1 <= prefix.len && prefix.len <= 30
}

// Whether a prefix is one of multicast addresses alone.
fn is_multicast(prefix: &Prefix) -> bool
    ensures { result ≡ multicast prefix.now }
{
    4 <= prefix.len && prefix.addr >> 28 == 14
}

// Puts the last address of a prefix to others, where it may be a network's.
#[tactic(auto, using(crate::proofs::LastLemmas::has_push))]
fn add_last(lasts: &mut Vec<u32>, prefix: &Prefix) -> Result<(), AllocError>
    ensures { OnOk result ((address : ℕ) → has lasts.new.items address ≡ (has lasts.old.items address || (network prefix.now && last_of prefix.now == address))) }
{
    if is_network(prefix) {
        lasts.push(last_address(prefix))?;
    }
    Ok(())
}

// The last addresses of the prefixes that may be networks'.
fn last_addresses(alloc: Global, led: &[Prefix]) -> Result<Vec<u32>, AllocError>
    ensures { IfOk result (λ lasts. (address : ℕ) → has lasts.items address ≡ directed led.now address) }
{
    let mut lasts = Vec::new(alloc);
    for prefix in led {
        add_last(&mut lasts, prefix)?;
    }
    Ok(lasts)
}

// Whether the first byte of an address is that of addresses which are of a class wherever they occur.
#[inline]
fn is_special(byte: u32) -> bool
    ensures { result ≡ special byte }
{
    byte == 0 || byte == 127 || byte >= 224
}

// Whether a prefix may cover an address that is of a class wherever it occurs.
fn may_be_special(prefix: &Prefix) -> bool
    ensures { result ≡ may_cover_special prefix.now }
{
    prefix.len < 8 || is_special(prefix.addr >> 24)
}

// The addresses of the prefixes that may cover one which is of a class wherever it occurs.
fn special_addresses(alloc: Global, led: &[Prefix]) -> Result<AddressSet, AllocError>
    ensures { IfOk result (IsSetOf (filter may_cover_special led.now)) }
{
    let prefixes = led.iter().copied().filter(may_be_special).collect(alloc)?;
    AddressSet::of(alloc, prefixes)
}

// The addresses of the prefixes of multicast addresses alone.
fn group_addresses(alloc: Global, led: &[Prefix]) -> Result<AddressSet, AllocError>
    ensures { IfOk result (IsSetOf (filter multicast led.now)) }
{
    let prefixes = led.iter().copied().filter(is_multicast).collect(alloc)?;
    AddressSet::of(alloc, prefixes)
}

// The class of an address whose first byte is one of those.
fn special_class(address: u32) -> Class
    ensures { result ≡ class_everywhere address }
{
    if address == u32::MAX {
        return Class::LimitedBroadcast;
    }
    match address >> 24 {
        0 => Class::ThisNetwork,
        127 => Class::Loopback,
        byte if byte >= 240 => Class::Reserved,
        _ => Class::Multicast,
    }
}

impl Known {
    /// What is known of these prefixes.
    ///
    /// # Errors
    ///
    /// [`AllocError`] where memory runs out.
    pub fn of(alloc: Global, led: &[Prefix]) -> Result<Known, AllocError>
        ensures { IfOk result (IsKnown led.now) }
    {
        let addresses = last_addresses(alloc, led)?;
        Ok(Known {
            lasts: LastAddresses::of(alloc, addresses)?,
            special: special_addresses(alloc, led)?,
            groups: group_addresses(alloc, led)?,
        })
    }

    // Whether an address is the last one of a prefix that may be a network's.
    #[inline]
    fn is_directed(&self, address: u32) -> bool
        ensures { (led : List PrefixValue) → IsKnown led self.now → result ≡ directed led address }
    {
        self.lasts.contains(address)
    }

    // Whether one of the prefixes covers this address, which is of a class wherever it occurs.
    fn leads(&self, address: u32) -> bool
        requires { special (address / 2 ^ 24) ≡ true }
        ensures { (led : List PrefixValue) → IsKnown led self.now → result ≡ is_led led address }
    {
        self.special.contains(address)
    }

    // Whether one of the prefixes, of multicast addresses alone, covers this address.
    fn has_group_for(&self, address: u32) -> bool
        ensures { (led : List PrefixValue) → IsKnown led self.now → result ≡ has_group led address }
    {
        self.groups.contains(address)
    }

    /// Of which class an address is that a router does not forward to, though routes lead it to neighbors.
    #[inline(never)]
    pub fn class(&self, address: u32) -> Option<Class>
        ensures { (led : List PrefixValue) → IsKnown led self.now → result ≡ class_of led address }
    {
        if !is_special(address >> 24) {
            return if self.is_directed(address) {
                Some(Class::DirectedBroadcast)
            } else {
                None
            };
        }
        if self.leads(address) && !self.has_group_for(address) {
            Some(special_class(address))
        } else {
            None
        }
    }

    // Whether an address is of such a class. Of most its first byte and one bit say that it isn't.
    #[inline]
    pub(crate) fn has_class(&self, address: u32) -> bool
        ensures { (led : List PrefixValue) → IsKnown led self.now → result ≡ is_some (class_of led address) }
    {
        if is_special(address >> 24) {
            return self.class(address).is_some();
        }
        self.is_directed(address)
    }
}

/// The destination of a frame that has an IPv4 header, behind its type or behind one VLAN tag more.
#[inline]
pub fn destination(frame: &[u8]) -> Option<u32>
    ensures { result ≡ destination_of frame.now }
{
    if frame.len() < 34 {
        return None;
    }
    if u16_at(frame, 12) == 0x0800 {
        return Some(u32_at(frame, 30));
    }
    if frame.len() < 38 {
        return None;
    }
    if u16_at(frame, 12) == 0x8100 && u16_at(frame, 16) == 0x0800 {
        return Some(u32_at(frame, 34));
    }
    None
}
