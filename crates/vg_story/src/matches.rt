//! The longest prefix that covers an IPv4 address (RFC 1812, section 5.2.4.3), among prefixes with the lines that set them.
//!
//! A look-up finds the last prefix that begins no later than the address by a binary search, and goes from each that doesn't cover it to
//! the one around that. A prefix of so many bits has at most as many around it.
ghost use Rattle.std.specs.Prelude.{◌≡◌, IfOk, length};
ghost use Rattle.vg_model.specs.Route.{covers as covers_address, ip4};
ghost use Rattle.vg_story.specs.Matches.{matched_in, AreAround, AreByRank, HasOneLineEach, IsBegun, IsNearest, IsSearched};

use std::alloc::{AllocError, Global};
use std::marker::Model;
use vg_model::Prefix;

/// The prefixes of IPv4 routes in the order of their table, each with the line that set it, and in a form that is searched. It is seen as
/// the list of them.
#[derive(Drop)]
pub struct RouteIndex {
    listed: Vec<(Prefix, u32)>,
    // The same by their addresses, and of one address by their lengths: a prefix stands behind those that it lies in.
    sorted: Vec<(Prefix, u32)>,
    // Of each sorted one, the number of the last before it whose prefix covers its address, counted from 1; 0 where none does.
    around: Vec<usize>,
}

impl Model for RouteIndex {
    ghost use Rattle.std.specs.Prelude.{ℕ, List};
    ghost use Rattle.vg_model.specs.declared.routes.Prefix.{Prefix};
    ghost use Rattle.vg_model.specs.Route.{ip4};
    ghost use Rattle.vg_story.specs.Matches.{AreIndexed};

    ghost Value = { List (Prefix × ℕ) };

    ghost view = { λ index. index.listed.items };

    ghost invariant = { λ index. AreIndexed ip4 index.listed.items index.sorted.items index.around.items };
}

impl RouteIndex {
    /// These routes, in this order.
    ///
    /// # Errors
    ///
    /// [`AllocError`] where memory runs out.
    pub fn of(alloc: Global, listed: Vec<(Prefix, u32)>) -> Result<RouteIndex, AllocError>
        requires { HasOneLineEach ip4 listed.items }
        ensures { IfOk result (λ index. index ≡ listed.items) }
    {
        let mut sorted = Vec::from_slice(alloc, listed.as_slice())?;
        sorted.sort_unstable_by_key(|route| (route.0.addr, route.0.len));
        let around = around4(alloc, sorted.as_slice())?;
        Ok(RouteIndex {
            listed,
            sorted,
            around,
        })
    }

    /// The routes in the order of their table.
    pub fn as_slice(&self) -> &[(Prefix, u32)]
        ensures { result.now ≡ self.now }
    {
        self.listed.as_slice()
    }

    // The longest prefix that covers an address, with its line.
    fn longest(&self, address: u32) -> Option<(Prefix, u32)>
        ensures { result ≡ matched_in self.now address }
    {
        let sorted = self.sorted.as_slice();
        let begun = begun4(sorted, address);
        match nearest4(sorted, self.around.as_slice(), begun, address) {
            0 => None,
            number => Some(sorted[number - 1]),
        }
    }
}

/// The longest of these IPv4 prefixes that covers an address, with its line.
pub fn matched4(routes: &RouteIndex, address: u32) -> Option<(Prefix, u32)>
    ensures { result ≡ matched_in routes.now address }
{
    routes.longest(address)
}

// How many of these routes begin no later than an address.
fn begun4(sorted: &[(Prefix, u32)], address: u32) -> usize
    requires { AreByRank ip4 sorted.now }
    ensures { IsBegun ip4 sorted.now address result }
{
    sorted.partition_point(|route| route.0.addr <= address)
}

// Of each of these routes, the number of the last before it whose prefix covers its address.
fn around4(alloc: Global, sorted: &[(Prefix, u32)]) -> Result<Vec<usize>, AllocError>
    requires { AreByRank ip4 sorted.now }
    ensures around { IfOk result (λ around. AreAround ip4 sorted.now around.items) }
    ensures all { IfOk result (λ around. length around.items ≡ length sorted.now) }
{
    let mut around = Vec::with_capacity(alloc, sorted.len())?;
    for route in sorted {
        let number = nearest4(sorted, around.as_slice(), around.len(), route.0.addr);
        around.push(number)?;
    }
    Ok(around)
}

// The number of the last of the first so many routes whose prefix covers an address; none of them begins behind it.
fn nearest4(sorted: &[(Prefix, u32)], around: &[usize], begun: usize, address: u32) -> usize
    requires { IsSearched ip4 sorted.now around.now begun address }
    ensures { IsNearest ip4 sorted.now address begun result }
{
    let mut number = begun;
    while number > 0 {
        if covers4(sorted[number - 1].0, address) {
            return number;
        }
        number = around[number - 1];
    }
    0
}

// Whether the bits of a prefix are the first bits of an address. They are shifted as 64 bits, since a prefix of no bits leaves 32 host bits.
fn covers4(prefix: Prefix, address: u32) -> bool
    ensures { result ≡ covers_address 32 prefix.addr prefix.len address }
{
    let host_bits = 32 - prefix.len;
    u64::from(prefix.addr) >> host_bits == u64::from(address) >> host_bits
}
