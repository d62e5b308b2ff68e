//! Prefixes, and the addresses that they cover.
ghost use Rattle.std.specs.Prelude.{◌≡◌, ◌≤◌, ◌++◌, ◌∷◌, [], ℕ, List, All, IfOk, OnOk};
ghost use Rattle.std.specs.Option.{option_copied};
ghost use Rattle.vg_model.specs.declared.routes.Prefix.{Prefix as PrefixValue};
ghost use Rattle.vg_model.specs.Route.{covers_of, ip4};
ghost use Rattle.vg_remarks.specs.Addresses.{is_led, last_of, ends_behind as ends_behind_last, IsCover, IsSetOf};

use std::alloc::{AllocError, Global};
use vg_model::Prefix;

/// The addresses that some prefixes cover.
#[derive(Drop)]
pub struct AddressSet {
    // Prefixes that cover them. Of two of them the later one begins no earlier, and ends no earlier.
    prefixes: Vec<Prefix>,
}

/// The last address of a prefix.
pub fn last_address(prefix: &Prefix) -> u32
    ensures { result ≡ last_of prefix.now }
{
    let count = 1u64 << (32 - prefix.len);
    (u64::from(prefix.addr) + (count - 1)) as u32
}

// Whether a prefix covers an address.
fn covers(prefix: &Prefix, address: u32) -> bool
    ensures { result ≡ covers_of ip4 prefix.now address }
{
    let behind = 32 - u64::from(prefix.len);
    u64::from(prefix.addr) >> behind == u64::from(address) >> behind
}

// Whether a prefix ends behind the last of others, or there are none.
fn ends_behind(prefix: &Prefix, last: Option<&Prefix>) -> bool
    ensures { result ≡ ends_behind_last prefix.now (option_copied last.entry) }
{
    match last {
        Some(last) => last_address(last) < last_address(prefix),
        None => true,
    }
}

// Keeps a prefix behind those that are kept and begin no later, but where the last of these covers its addresses.
fn keep(kept: &mut Vec<Prefix>, prefix: &Prefix) -> Result<(), AllocError>
    requires { All (λ p. p.addr ≤ prefix.now.addr) kept.old.items }
    ensures cover { OnOk result ((prefixes : List PrefixValue) → IsCover prefixes kept.old.items → IsCover (prefixes ++ prefix.now ∷ []) kept.new.items) }
    ensures begun { OnOk result (All (λ p. p.addr ≤ prefix.now.addr) kept.new.items) }
{
    if ends_behind(prefix, kept.last()) {
        kept.push(*prefix)?;
    }
    Ok(())
}

impl AddressSet {
    /// The addresses that these prefixes cover.
    ///
    /// # Errors
    ///
    /// [`AllocError`] where memory runs out.
    pub fn of(alloc: Global, mut prefixes: Vec<Prefix>) -> Result<AddressSet, AllocError>
        ensures { IfOk result (IsSetOf prefixes.items) }
    {
        prefixes.sort_unstable_by_key(|prefix| prefix.addr);
        let mut kept = Vec::new(alloc);
        for prefix in &prefixes {
            keep(&mut kept, prefix)?;
        }
        Ok(AddressSet { prefixes: kept })
    }

    /// Whether an address is one of them. Of the prefixes that begin no later, the last one covers it where any does, and is found by a binary
    /// search.
    pub fn contains(&self, address: u32) -> bool
        ensures { (prefixes : List PrefixValue) → IsSetOf prefixes self.now → result ≡ is_led prefixes address }
    {
        let begun = self
            .prefixes
            .partition_point(|prefix| prefix.addr <= address);
        begun > 0 && covers(&self.prefixes[begun - 1], address)
    }
}
