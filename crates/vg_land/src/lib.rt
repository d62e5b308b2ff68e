//! Memory for bytes, not written yet, that is cut into parts with an owner each.
//!
//! [`cut_plots`] takes the memory for one long list, and cuts it into [`Plot`]s: lists of bytes, none of which grows or frees its part.
//!
//! On the way the room of the long list is taken out of it, as a `Land`, and what is left is its `Deed`, the right to give the memory
//! back. An `Estate` has the deed and lends the room until it goes. The loan is a `Part`, which is cut into smaller ones. Each plot holds
//! the estate through an `Arc`: it takes its part out of the loan, as a `Land` again, and keeps a `Tether`, by which it puts the part back.
//! The bytes of a plot are a list over its land, made by `house` and undone by `vacate`. The last owner of the estate ends the loan, puts
//! the room back into the long list, and so gives the memory back.
#![tactic(auto)]

ghost use Rattle.std.specs.Prelude.{◌≡◌, ℕ, ◌-◌, ◌^◌, ◌<◌, ◌≤◌, [], ◌∷◌};
ghost use base.Fml.{ftrue, fex, fwand, fsep, feq, fbor, flft};
ghost use denote.RawPtr.{Ptr, InBlock, ◌+ₚ◌};
ghost use denote.Sharing.{one};
ghost use Rattle.vg_land.specs.Ownership.{Extent, extent_code, Lease, lease_code, land_owns, estate_owns, lease_owns};

mod plots;

pub use plots::{Plot, cut_plots};
use std::alloc::Allocator;
use std::marker::{Model, Move, Owns};
use std::sync::Arc;
use std_alloc::vec::{Lodged, lodge};

/// The right to room for bytes, which nothing else can reach. Where that room is its contracts alone know.
pub(crate) struct Land {
    ghost ptr: { Ptr },
    ghost len: { ℕ },
}

impl Model for Land {
    ghost also_owns = { λ l. land_owns l.ptr l.len };
}

/// A list with no elements whose room is out as a [`Land`]. It has the right to give the memory back.
pub(crate) struct Deed<A: Allocator> {
    vec: Vec<u8, A>,
}

impl<A: Allocator> Owns for Deed<A> {
    ghost Value = { Extent };

    ghost coded = { extent_code };

    ghost shr_at = { λ _ _ _. ftrue };
}

impl<A: Allocator> Move for Deed<A> {
    ghost own_val = { λ e vs. fex Inside (λ v. fsep (feq ℕ v.vec.cap e.len) (fwand (land_owns e.ptr e.len) (Fields.own_val (record { vec = v.vec }) vs))) };
}

/// Takes the room out of a list with no elements.
pub(crate) fn detach<A: Allocator>(vec: Vec<u8, A>) -> (Land, Deed<A>)
    requires { (vec.len ≡ 0) × (0 < vec.cap) }
    ensures { (result.0.ptr ≡ vec.ptr) × (result.0.len ≡ vec.cap) × (result.1.ptr ≡ vec.ptr) × (result.1.len ≡ vec.cap) × InBlock vec.ptr }
{
    (Land {}, Deed { vec })
}

/// The list again.
pub(crate) fn attach<A: Allocator>(land: Land, deed: Deed<A>) -> Vec<u8, A>
    requires { (land.ptr ≡ deed.ptr) × (land.len ≡ deed.len) }
    ensures { result.cap ≡ deed.len }
{
    let Land {} = land;
    let Deed { vec } = deed;
    vec
}

/// A list with no elements over the land, which neither grows nor frees it.
pub(crate) fn house(ptr: *mut u8, cap: usize, land: Land) -> Vec<u8, Lodged>
    requires { (land.ptr ≡ ptr) × (land.len ≡ cap) × (0 < cap) × (cap < 2 ^ 63) }
    ensures { (result.items ≡ []) × (result.len ≡ 0) × (result.cap ≡ cap) × (result.ptr ≡ ptr) }
{
    let Land {} = land;
    // The land is room for `cap` bytes at `ptr`, and nothing else can reach it.
    unsafe { lodge(ptr, 0, cap) }
}

/// The land under a list. What its elements were is lost.
pub(crate) fn vacate(vec: Vec<u8, Lodged>) -> Land
    requires { 0 < vec.cap }
    ensures { (result.ptr ≡ vec.ptr) × (result.len ≡ vec.cap) }
{
    let _len = vec.dislodge();
    Land {}
}

/// A list whose room is lent until the lifetime `life` ends. A `&` to it shows that `life` lasts.
pub(crate) struct Estate<A: Allocator> {
    deed: Deed<A>,
    ghost life: { ℕ },
}

impl<A: Allocator> Model for Estate<A> {
    ghost also_owns = { λ e. estate_owns e.life e.deed.ptr e.deed.len };

    ghost also_shares = { λ e _. one (λ q. flft (e.life ∷ []) q) };
}

/// The loan of room for bytes.
#[derive(Drop)]
pub(crate) struct Part {
    ghost life: { ℕ },
    ghost ptr: { Ptr },
    ghost len: { ℕ },
}

impl Model for Part {
    ghost also_owns = { λ p. fbor (p.life ∷ []) (land_owns p.ptr p.len) };
}

/// An owner of an estate whose part is out as a [`Land`]. The estate can't go until that is back.
pub(crate) struct Tether<A: Allocator> {
    estate: Arc<Estate<A>, A>,
}

impl<A: Allocator> Owns for Tether<A> {
    ghost Value = { Lease };

    ghost coded = { lease_code };

    ghost shr_at = { λ _ _ _. ftrue };
}

impl<A: Allocator> Move for Tether<A> {
    ghost own_val = { λ t vs. lease_owns t Inside (λ i. i.estate.value.life ≡ t.life) (λ i. Fields.own_val i vs) };
}

// It owns its list's memory, which any thread may give back.
unsafe impl<A: Allocator + Send> Send for Deed<A> {}

// A `&` to it reaches nothing.
unsafe impl<A: Allocator> Sync for Deed<A> {}

// It owns a lifetime's token and the room that comes back with it, which belong to no thread.
unsafe impl<A: Allocator + Send> Send for Estate<A> {}

// A `&` to it shows only that a lifetime lasts.
unsafe impl<A: Allocator> Sync for Estate<A> {}

// It goes with its owner of the estate, an `Arc`, which asks for `Sync` of the allocator.
unsafe impl<A: Allocator + Send + Sync> Send for Tether<A> {}

// A `&` to it reaches nothing.
unsafe impl<A: Allocator> Sync for Tether<A> {}

impl<A: Allocator> Estate<A> {
    /// Lends all the room.
    pub(crate) fn lend(land: Land, deed: Deed<A>) -> (Estate<A>, Part)
        requires { (land.ptr ≡ deed.ptr) × (land.len ≡ deed.len) }
        ensures { (result.1.life ≡ result.0.life) × (result.1.ptr ≡ land.ptr) × (result.1.len ≡ land.len) }
    {
        let Land {} = land;
        (Estate { deed }, Part {})
    }

    /// Ends the loan.
    pub(crate) fn end(self) -> (Land, Deed<A>)
        ensures { (result.0.ptr ≡ result.1.ptr) × (result.0.len ≡ result.1.len) }
    {
        let Estate { deed } = self;
        (Land {}, deed)
    }

    /// The two parts on both sides of a place.
    pub(crate) fn cut(self, part: Part, at: usize) -> (Estate<A>, Part, Part)
        requires { (part.life ≡ self.life) × (at ≤ part.len) }
        ensures { (result.0.life ≡ self.life) × (result.1.life ≡ self.life) × (result.1.ptr ≡ part.ptr) × (result.1.len ≡ at)
            × (result.2.life ≡ self.life) × (result.2.ptr ≡ part.ptr +ₚ at) × (result.2.len ≡ part.len - at) }
    {
        let Part {} = part;
        (self, Part {}, Part {})
    }
}

impl<A: Allocator> Drop for Estate<A> {
    fn drop(self) {
        let (land, deed) = self.end();
        drop(attach(land, deed));
    }
}

impl<A: Allocator> Tether<A> {
    /// Takes the room out of its loan.
    pub(crate) fn open(estate: Arc<Estate<A>, A>, part: Part) -> (Land, Tether<A>)
        requires { part.life ≡ estate.value.life }
        ensures { (result.0.ptr ≡ part.ptr) × (result.0.len ≡ part.len) × (result.1 ≡ record { life = part.life; ptr = part.ptr; len = part.len }) }
    {
        let Part {} = part;
        (Land {}, Tether { estate })
    }

    /// Puts it back.
    pub(crate) fn close(self, land: Land) -> (Arc<Estate<A>, A>, Part)
        requires { (land.ptr ≡ self.ptr) × (land.len ≡ self.len) }
        ensures { (result.0.value.life ≡ self.life) × (result.1.life ≡ self.life) × (result.1.ptr ≡ self.ptr) × (result.1.len ≡ self.len) }
    {
        let Land {} = land;
        let Tether { estate } = self;
        (estate, Part {})
    }
}
