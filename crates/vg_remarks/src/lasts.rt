//! The last addresses of networks, as a set that is asked for many addresses which are not in it.
ghost use Rattle.std.specs.Prelude.{◌≡◌, IfOk, length};
ghost use Rattle.std.specs.List.Sorted.{IsPermutation};
ghost use Rattle.vg_remarks.specs.Lasts.{has, is_marked as is_marked_in, AreMarked, IsMarkedBesides};

use std::alloc::{AllocError, Global};
use std::marker::Model;

// How many words of 64 bits have a bit for each number of 16 bits.
const WORDS: usize = 1024;

/// The last addresses of networks. They are seen as a list.
#[derive(Drop)]
pub struct LastAddresses {
    // None is above a later one.
    addresses: Vec<u32>,
    // A bit for each number of 16 bits. Where it isn't set, no address has these low bits.
    marks: Vec<u64>,
}

impl Model for LastAddresses {
    ghost use Rattle.std.specs.Prelude.{List, ℕ};
    ghost use Rattle.std.specs.List.Sorted.{IsNonDecreasing};
    ghost use Rattle.vg_remarks.specs.Lasts.{AreMarked};

    ghost Value = { List ℕ };

    ghost view = { λ l. l.addresses.items };

    ghost invariant = { λ l. IsNonDecreasing l.addresses.items × AreMarked l.addresses.items l.marks.items };
}

// So many words without a bit.
fn words(alloc: Global, count: usize) -> Result<Vec<u64>, AllocError>
    ensures { IfOk result (λ words. length words.items ≡ count) }
{
    vec![in alloc; 0; count]
}

// Sets the bit of an address's low 16 bits.
fn mark(marks: &mut [u64], address: u32)
    requires { length marks.old ≡ 1024 }
    ensures { IsMarkedBesides address marks.old marks.new }
{
    let word = (address / 64 % 1024) as usize;
    marks[word] |= 1 << (address % 64);
}

// Whether the bit of an address's low 16 bits is set.
#[inline]
fn is_marked(marks: &[u64], address: u32) -> bool
    requires { length marks.now ≡ 1024 }
    ensures { result ≡ is_marked_in marks.now address }
{
    let word = (address / 64 % 1024) as usize;
    marks[word] >> (address % 64) & 1 == 1
}

// A bit for the low 16 bits of each address.
fn marks_of(alloc: Global, addresses: &[u32]) -> Result<Vec<u64>, AllocError>
    ensures { IfOk result (λ marks. AreMarked addresses.now marks.items) }
{
    let mut marks = words(alloc, WORDS)?;
    for address in addresses {
        mark(marks.as_mut_slice(), *address);
    }
    Ok(marks)
}

impl LastAddresses {
    /// These addresses.
    ///
    /// # Errors
    ///
    /// [`AllocError`] where memory runs out.
    pub fn of(alloc: Global, mut addresses: Vec<u32>) -> Result<LastAddresses, AllocError>
        ensures { IfOk result (IsPermutation addresses.items) }
    {
        addresses.sort_unstable();
        let marks = marks_of(alloc, addresses.as_slice())?;
        Ok(LastAddresses { addresses, marks })
    }

    /// Whether an address is one of them. Most of those that aren't are told by one bit, and no search.
    #[inline]
    pub fn contains(&self, address: u32) -> bool
        ensures { result ≡ has self.now address }
    {
        is_marked(self.marks.as_slice(), address) && self.is_found(address)
    }

    // The same by a binary search alone.
    #[inline(never)]
    fn is_found(&self, address: u32) -> bool
        ensures { result ≡ has self.now address }
    {
        self.addresses.binary_search(&address).is_ok()
    }
}
