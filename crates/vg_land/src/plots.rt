//! Lists of bytes that lie in one block, with an owner each.
ghost use Rattle.std.specs.Prelude.{◌≡◌, ◌+◌, ◌-◌, ◌*◌, ◌^◌, ◌<◌, ◌≤◌, [], ◌++◌, length, take, drop, replicate, IfOk};
ghost use denote.RawPtr.{InBlock};
ghost use Rattle.vg_land.specs.Ground.{Ground, Loan, laid_at};

use crate::{Estate, Part, Tether, detach, house, vacate};
use std::alloc::{AllocError, Global};
use std::marker::Model;
use std::sync::Arc;
use std_alloc::vec::Lodged;

/// A list of bytes with room for so many, in a block that has many owners. The block is given back as the last of them goes.
pub struct Plot {
    bytes: Vec<u8, Lodged>,
    tether: Tether<Global>,
}

// Its bytes, and for how many it has room.
impl Model for Plot {
    ghost use Rattle.std.specs.Prelude.{◌≡◌, ◌<◌};
    ghost use Rattle.vg_land.specs.Ground.{Ground};

    ghost Value = { Ground };

    ghost view = { λ p. record { items = p.bytes.items; cap = p.bytes.cap } };

    ghost invariant = { λ p. (0 < p.bytes.cap) × (p.tether.ptr ≡ p.bytes.ptr) × (p.tether.len ≡ p.bytes.cap) };
}

impl Drop for Plot {
    fn drop(self) {
        let Plot { bytes, tether } = self;
        drop(tether.close(vacate(bytes)));
    }
}

impl Plot {
    /// Its bytes.
    #[inline]
    pub fn as_slice(&self) -> &[u8]
        ensures { result.now ≡ self.now.items }
    {
        self.bytes.as_slice()
    }

    /// Puts these bytes in place of those from `at` on.
    #[inline]
    pub fn write(&mut self, at: usize, bytes: &[u8])
        requires { at + length bytes.now ≤ length self.old.items }
        ensures bytes { self.new ≡ record self.old { items = take at self.old.items ++ (bytes.now ++ drop (at + length bytes.now) self.old.items) } }
        ensures len { length self.new.items ≡ length self.old.items }
    {
        self.bytes.as_mut_slice()[at..at + bytes.len()].copy_from_slice(bytes);
    }

    /// Puts these bytes in from `at` on. The list then ends behind them, or is as long as it was; where it ended before `at`, zeros stand
    /// in between.
    #[inline]
    pub fn lay(&mut self, at: usize, bytes: &[u8])
        requires { at + length bytes.now ≤ self.old.cap }
        ensures bytes { self.new ≡ record self.old { items = laid_at self.old.items at bytes.now } }
        ensures len { at + length bytes.now ≤ length self.new.items }
    {
        if self.bytes.len() < at + bytes.len() {
            return self.lay_beyond(at, bytes);
        }
        self.write(at, bytes);
    }

    // The same for bytes that reach beyond the end of the list. Those beyond it are written once, as they are appended.
    #[cold]
    #[inline(never)]
    fn lay_beyond(&mut self, at: usize, bytes: &[u8])
        requires room { at + length bytes.now ≤ self.old.cap }
        requires beyond { length self.old.items < at + length bytes.now }
        ensures bytes { self.new ≡ record self.old { items = laid_at self.old.items at bytes.now } }
        ensures len { at + length bytes.now ≤ length self.new.items }
    {
        self.reach(at);
        let within = self.as_slice().len() - at;
        let (first, rest) = bytes.split_at(within);
        self.write(at, first);
        self.append(rest);
    }

    // Appends zeros, up to so many bytes; none where it has as many.
    fn reach(&mut self, len: usize)
        requires { len ≤ self.old.cap }
        ensures bytes { self.new ≡ record self.old { items = self.old.items ++ replicate (len - length self.old.items) 0 } }
        ensures len { len ≤ length self.new.items }
    {
        for _ in self.bytes.len()..len {
            self.bytes.push_reserved(0);
        }
    }

    // Appends these bytes.
    fn append(&mut self, bytes: &[u8])
        requires { length self.old.items + length bytes.now ≤ self.old.cap }
        ensures { self.new ≡ record self.old { items = self.old.items ++ bytes.now } }
    {
        for byte in bytes {
            self.bytes.push_reserved(*byte);
        }
    }
}

// The loan of one part, and where it lies.
#[derive(Drop)]
struct Strip {
    part: Part,
    ptr: *mut u8,
    len: usize,
}

impl Model for Strip {
    ghost use Rattle.std.specs.Prelude.{◌≡◌, ◌^◌, ◌<◌};
    ghost use Rattle.vg_land.specs.Ground.{Loan};

    ghost Value = { Loan };

    ghost view = { λ s. record { life = s.part.life; len = s.len } };

    ghost invariant = { λ s. (s.part.ptr ≡ s.ptr) × (s.part.len ≡ s.len) × (0 < s.len) × (s.len < 2 ^ 63) };
}

impl Strip {
    // The list over this part, which takes an owner of the estate.
    fn into_plot(self, owner: Arc<Estate<Global>, Global>) -> Plot
        requires { self.life ≡ owner.value.life }
        ensures { result ≡ record { items = []; cap = self.len } }
    {
        let Strip { part, ptr, len } = self;
        let (land, tether) = Tether::open(owner, part);
        Plot {
            bytes: house(ptr, len, land),
            tether,
        }
    }
}

/// So many lists with room for so many bytes each, all empty, in one block that is not written yet.
///
/// # Errors
///
/// [`AllocError`] where memory runs out.
pub fn cut_plots(alloc: Global, count: u32, size: u32) -> Result<Vec<Plot>, AllocError>
    requires { (0 < count) × (0 < size) }
    ensures { IfOk result (λ list. list.items ≡ replicate count (record { items = []; cap = size })) }
{
    let (count, size) = (count as usize, size as usize);
    let mut whole: Vec<u8> = Vec::with_capacity(alloc, count * size)?;
    let base = whole.as_mut_ptr();
    let (land, deed) = detach(whole);
    let (estate, rest) = Estate::lend(land, deed);
    let (estate, strips) = cut_strips(alloc, estate, rest, base, count, size)?;
    let Ok(owner) = Arc::new(alloc, estate) else {
        return Err(AllocError);
    };
    let mut list = Vec::with_capacity(alloc, count)?;
    for strip in strips {
        let owner = Arc::try_clone(&owner)?;
        list.push(strip.into_plot(owner))?;
    }
    Ok(list)
}

// The loans of so many parts of one size.
fn cut_strips(
    alloc: Global,
    estate: Estate<Global>,
    part: Part,
    base: *mut u8,
    count: usize,
    size: usize,
) -> Result<(Estate<Global>, Vec<Strip>), AllocError>
    requires part { (part.life ≡ estate.life) × (part.ptr ≡ base) × (part.len ≡ count * size) × InBlock base }
    requires size { (0 < size) × (size < 2 ^ 32) × (count < 2 ^ 32) }
    ensures { IfOk result (λ made. made.1.items ≡ replicate count (record { life = made.0.life; len = size })) }
{
    let mut list = Vec::with_capacity(alloc, count)?;
    let (mut estate, mut part, mut ptr) = (estate, part, base);
    for _ in 0..count {
        let (whole, first, rest) = estate.cut(part, size);
        list.push(Strip {
            part: first,
            ptr,
            len: size,
        })?;
        estate = whole;
        part = rest;
        // The place is within the block, or at its end: `count` parts of `size` lie in it.
        ptr = unsafe { ptr.byte_add(size) };
    }
    Ok((estate, list))
}
