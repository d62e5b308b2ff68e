//! Spans of IPv6 addresses, for look-ups in the packet path.
ghost use Rattle.std.specs.Prelude.{◌≡◌, ◌↔◌, IsTrue, ℕ, true, ◌+◌, ◌-◌, ◌<◌, ◌≤◌, ◌^◌, IfOk, IfSome, MatchOption, None, ◌∷◌, [], length, set};
ghost use Rattle.std.specs.Option.{option_copied};
ghost use Rattle.vg_model.specs.Route.{best_route6, ip6};
ghost use Rattle.vg_fib.specs.Numbers.{AreFirstOf, HasPrefix, IsHeir, changed_by, covers_at, length_at, length_of, longer_of, most_slots};
ghost use Rattle.vg_fib.specs.Trie.{IsRaised};
ghost use Rattle.vg_fib.specs.Spans.{AreRising, HasFirst6, IsCutAt, IsLast, IsSpans, IsSpread, IsSpreadAt, end_of, start_of};

use crate::numbers::{Change, MOST_REMOVED, MOST_SLOTS, add_slots};
use crate::table6::{Fib6, covers, know_few};
use std::alloc::{AllocError, Global};
use std::marker::Model;
use vg_model::{Memory, Prefix6, RouteTo};

// What stands at a place: a route, or nothing where it was removed.
type Slot = Option<(Prefix6, RouteTo)>;

// Spans of addresses, side by side: all addresses of a span have the same best route.
#[derive(Drop)]
struct Spans {
    // Where each span begins, from address 0 on.
    starts: Vec<u128>,
    // The number of each span's route, and 0 where it has none.
    numbers: Vec<u16>,
}

impl Spans {
    // No memory.
    fn bare(alloc: Global) -> Spans {
        Spans {
            starts: Vec::new(alloc),
            numbers: Vec::new(alloc),
        }
    }

    // One span, of all addresses, with no route. The memory stays.
    fn emptied(self) -> Result<Spans, AllocError>
        ensures starts { IfOk result (λ spans. spans.starts.items ≡ 0 ∷ []) }
        ensures numbers { IfOk result (λ spans. spans.numbers.items ≡ 0 ∷ []) }
    {
        let Spans {
            mut starts,
            mut numbers,
        } = self;
        starts.clear();
        numbers.clear();
        starts.push(0)?;
        numbers.push(0)?;
        Ok(Spans { starts, numbers })
    }

    // Puts the routes of a table from this place on in, which stand in the last slots; those before are in. They are put in the order
    // of their prefixes, so that few spans lie behind one that is cut.
    fn put_from(&mut self, slots: &[Slot], fib: &Fib6, known: usize) -> Result<(), AllocError>
        requires few { length slots.now ≤ most_slots }
        requires all { length fib.now ≤ length slots.now }
        requires has { HasFirst6 slots.now (length slots.now - length fib.now + known) self.old }
        ensures { IfOk result (λ _. HasFirst6 slots.now (length slots.now) self.new) }
    {
        let empty = slots.len() - fib.routes().len();
        for place in fib.order() {
            let place = usize::from(*place);
            if place >= known {
                self.put_at(slots, empty + place)?;
            }
        }
        Ok(())
    }

    // Puts the route of a slot in, if there is one.
    fn put_at(&mut self, slots: &[Slot], place: usize) -> Result<(), AllocError>
        requires few { length slots.now ≤ most_slots }
        requires place { place < length slots.now }
        requires shape { IsSpans self.old }
        ensures { IfOk result (λ _. IsSpreadAt slots.now place self.old self.new) }
    {
        if let Some(route) = slots[place] {
            self.put(slots, route.0, Change::Comes(place as u16 + 1))?;
        }
        Ok(())
    }

    // Makes the slots those of the first routes of a table, as many as they are: a route that the table doesn't have at its turn is
    // taken out, and the others get the table's targets. `None` where too many would have to be taken out.
    fn follow(
        &mut self,
        slots: &mut Vec<Slot>,
        routes: &[(Prefix6, RouteTo)],
    ) -> Result<Option<usize>, AllocError>
        requires few { length slots.old.items ≤ most_slots }
        requires has { HasFirst6 slots.old.items (length slots.old.items) self.old }
        ensures first { IfOk result (λ answer. IfSome answer (λ known. AreFirstOf routes.now known slots.new.items)) }
        ensures has { IfOk result (λ answer. IfSome answer (λ _. HasFirst6 slots.new.items (length slots.new.items) self.new)) }
    {
        let mut known = 0;
        let mut removed = 0;
        for place in 0..slots.len() {
            if let Some((prefix, _)) = slots[place] {
                if let Some(route) = routes.get(known)
                    && route.0 == prefix
                {
                    slots[place] = Some(*route);
                    known += 1;
                } else if removed < MOST_REMOVED {
                    self.take_out(slots, place, prefix)?;
                    removed += 1;
                } else {
                    return Ok(None);
                }
            }
        }
        Ok(Some(known))
    }

    // Takes a route out: its slot is empty, and the next shorter prefix takes its addresses over.
    fn take_out(
        &mut self,
        slots: &mut Vec<Slot>,
        place: usize,
        prefix: Prefix6,
    ) -> Result<(), AllocError>
        requires few { length slots.old.items ≤ most_slots }
        requires stands { HasPrefix slots.old.items place prefix }
        requires has { HasFirst6 slots.old.items (length slots.old.items) self.old }
        ensures empty { IfOk result (λ _. slots.new.items ≡ set slots.old.items place None) }
        ensures has { IfOk result (λ _. HasFirst6 slots.new.items (length slots.new.items) self.new) }
    {
        slots[place] = None;
        let gone = place as u16 + 1;
        let heir = heir(slots.as_slice(), prefix);
        self.put(slots.as_slice(), prefix, Change::Goes { gone, heir })?;
        Ok(())
    }

    // The place of the span in which an address lies. Places are looked at 512 apart, then 32 apart between two of them, then
    // 2 apart. In a search by halves each look would wait for the one before.
    fn place(&self, address: u128) -> usize
        requires { IsSpans self.now }
        ensures { IsLast self.now.starts.items 1 address result }
    {
        let starts = self.starts.as_slice();
        let far = last(starts, 0, 512, starts.len(), address);
        let near = last(starts, far, 32, far + 512, address);
        let nearer = last(starts, near, 2, near + 32, address);
        last(starts, nearer, 1, nearer + 2, address)
    }

    // The place of the span that begins at this address. One that is made has the number of the one that it is cut off.
    fn cut(&mut self, address: u128) -> Result<usize, AllocError>
        requires { IsSpans self.old }
        ensures { IfOk result (λ place. IsCutAt address place self.old self.new) }
    {
        let place = self.place(address);
        if self.starts[place] == address {
            return Ok(place);
        }
        let number = self.numbers[place];
        self.starts.insert(place + 1, address)?;
        self.numbers.insert(place + 1, number)?;
        Ok(place + 1)
    }

    // Changes the numbers of the addresses of a prefix.
    fn put(&mut self, slots: &[Slot], prefix: Prefix6, change: Change) -> Result<(), AllocError>
        requires { IsSpans self.old }
        ensures { IfOk result (λ _. IsSpread prefix (changed_by ip6 slots.now change) self.old self.new) }
    {
        let from = self.cut(prefix.addr)?;
        let to = match behind(prefix) {
            Some(address) => self.cut(address)?,
            None => self.starts.len(),
        };
        raise(&mut self.numbers, slots, change, from, to);
        Ok(())
    }
}

/// The routes of a table in a form that is looked up fast: spans of addresses, each with its best route. It is seen
/// as the list of its routes.
#[derive(Drop)]
pub struct Spans6 {
    spans: Spans,
    // The routes in the order of their table, with empty slots between them.
    slots: Vec<Slot>,
}

impl Model for Spans6 {
    ghost use Rattle.vg_fib.specs.Table.{Routes6};
    ghost use Rattle.vg_fib.specs.Numbers.{routes_in};
    ghost use Rattle.vg_fib.specs.Spans.{AreRoutesOf};

    ghost Value = { Routes6 };

    ghost view = { λ spans. routes_in spans.slots.items };

    ghost invariant = { λ spans. AreRoutesOf spans.slots.items spans.spans };
}

impl Spans6 {
    /// The spans of a table's routes: each address has the same best route in both.
    ///
    /// # Errors
    ///
    /// [`Memory`] where memory runs out.
    pub fn build(alloc: Global, fib: &Fib6) -> Result<Spans6, Memory>
        ensures routes { IfOk result (λ spans. spans ≡ fib.now) }
        ensures finds { IfOk result (λ spans. (address : ℕ) → best_route6 spans address ≡ best_route6 fib.now address) }
    {
        Spans6::anew(Spans::bare(alloc), Vec::new(alloc), fib).map_err(|_| Memory)
    }

    /// The same as [`Spans6::build`], in the memory of these spans as far as it is enough. Where few routes of these spans are
    /// removed from the table, these are taken out, and what is new is put in; else all is put in again.
    ///
    /// # Errors
    ///
    /// [`Memory`] where memory runs out.
    pub fn renewed(self, fib: &Fib6) -> Result<Spans6, Memory>
        ensures routes { IfOk result (λ spans. spans ≡ fib.now) }
        ensures finds { IfOk result (λ spans. (address : ℕ) → best_route6 spans address ≡ best_route6 fib.now address) }
    {
        self.brought_up(fib).map_err(|_| Memory)
    }

    // The same, with want of memory as it comes.
    fn brought_up(self, fib: &Fib6) -> Result<Spans6, AllocError>
        ensures { IfOk result (λ spans. spans ≡ fib.now) }
    {
        let Spans6 {
            mut spans,
            mut slots,
        } = self;
        if has_room(slots.len(), spans.starts.len(), 0)
            && let Some(known) = spans.follow(&mut slots, fib.routes())?
            && has_room(slots.len(), spans.starts.len(), fib.routes().len() - known)
        {
            return Spans6::grown(spans, slots, fib, known);
        }
        Spans6::anew(spans, slots, fib)
    }

    // The spans of a table, in this memory, whatever it says.
    fn anew(spans: Spans, mut slots: Vec<Slot>, fib: &Fib6) -> Result<Spans6, AllocError>
        ensures { IfOk result (λ spans. spans ≡ fib.now) }
    {
        slots.clear();
        know_few(fib);
        Spans6::grown(spans.emptied()?, slots, fib, 0)
    }

    // The spans of a table, of which so many routes, the first, are in these spans.
    fn grown(
        mut spans: Spans,
        mut slots: Vec<Slot>,
        fib: &Fib6,
        known: usize,
    ) -> Result<Spans6, AllocError>
        requires first { AreFirstOf fib.now known slots.items }
        requires few { length slots.items + (length fib.now - known) ≤ most_slots }
        requires has { HasFirst6 slots.items (length slots.items) spans }
        ensures { IfOk result (λ spans. spans ≡ fib.now) }
    {
        add_slots(&mut slots, &fib.routes()[known..])?;
        spans.put_from(slots.as_slice(), fib, known)?;
        Ok(Spans6 { spans, slots })
    }

    /// The target of the longest prefix that covers an address, which is in the host's order; `None`
    /// exactly where no prefix covers it. It takes no memory, and copies no list of adjacencies.
    pub fn target(&self, address: u128) -> Option<&RouteTo>
        ensures { option_copied result ≡ best_route6 self.now address }
    {
        let place = self.spans.place(address);
        match self.spans.numbers[place] {
            0 => None,
            number => match &self.slots[number as usize - 1] {
                Some(route) => Some(&route.1),
                None => None,
            },
        }
    }

    /// The same as [`Spans6::target`], as a value.
    pub fn find(&self, address: u128) -> Option<RouteTo>
        ensures { result ≡ best_route6 self.now address }
    {
        self.target(address).copied()
    }
}

// Whether so many routes can be put in behind so many slots, into so many spans. A route cuts at most two.
fn has_room(slots: usize, spans: usize, more: usize) -> bool
    requires few { more ≤ most_slots }
    requires slots { slots < 2 ^ 63 }
    requires spans { spans < 2 ^ 63 }
    ensures { result ≡ true → slots + more ≤ most_slots }
{
    slots + more <= MOST_SLOTS && spans + 2 * more <= 2 * MOST_SLOTS + 1
}

// Of the places from one on, each a step behind the one before and all before a bound, the last that doesn't begin
// behind an address.
#[inline(always)]
fn last(starts: &[u128], from: usize, step: usize, bound: usize, address: u128) -> usize
    requires rising { AreRising starts.now }
    requires few { length starts.now < 2 ^ 63 }
    requires some { 0 < step }
    requires small { step ≤ 512 }
    requires inside { from < length starts.now }
    requires not_behind { start_of starts.now from ≤ address }
    requires bound { bound < length starts.now → address < start_of starts.now bound }
    ensures { IsLast starts.now step address result }
{
    let end = bound.min(starts.len());
    let mut at = from;
    let mut next = from + step;
    while next < end {
        if starts[next] <= address {
            at = next;
        }
        next += step;
    }
    at
}

// The first address behind those of a prefix, where there is one.
fn behind(prefix: Prefix6) -> Option<u128>
    ensures { MatchOption result (2 ^ 128 ≤ end_of prefix) (λ address. address ≡ end_of prefix) }
{
    if prefix.len == 0 {
        return None;
    }
    let count = 1_u128 << (128 - prefix.len);
    if prefix.addr > u128::MAX - count {
        return None;
    }
    Some(prefix.addr + count)
}

// Changes the numbers of these spans.
fn raise(numbers: &mut Vec<u16>, slots: &[Slot], change: Change, from: usize, to: usize)
    requires order { from ≤ to }
    requires inside { to ≤ length numbers.old.items }
    ensures { IsRaised (changed_by ip6 slots.now change) from (to - from) numbers.old.items numbers.new.items }
{
    for place in from..to {
        numbers[place] = changed_by(slots, change, numbers[place]);
    }
}

// How many bits the prefix at a place has; 0 where no route stands.
fn length_at(slots: &[Slot], place: usize) -> u8
    ensures { result ≡ length_at ip6 slots.now place }
{
    match slots.get(place) {
        Some(Some(route)) => route.0.len,
        _ => 0,
    }
}

// Whether a route at a place covers the first address of a prefix, and isn't longer.
fn is_around(slots: &[Slot], place: usize, prefix: Prefix6) -> bool
    ensures { IsTrue result ↔ ((length_at ip6 slots.now place ≤ prefix.len) × (covers_at ip6 slots.now place prefix.addr ≡ true)) }
{
    match slots.get(place) {
        Some(Some(route)) => route.0.len <= prefix.len && covers(route.0, prefix.addr),
        _ => false,
    }
}

// How many bits the prefix of a number has; 0 where the number is no route's.
fn length_of(slots: &[Slot], number: u16) -> u8
    ensures { result ≡ length_of ip6 slots.now number }
{
    match number {
        0 => 0,
        _ => length_at(slots, usize::from(number) - 1),
    }
}

// Which of two numbers stands where both routes cover: the new one, unless the old one's prefix is longer.
fn longer_of(slots: &[Slot], number: u16, old: u16) -> u16
    ensures { result ≡ longer_of ip6 slots.now number old }
{
    if length_of(slots, number) < length_of(slots, old) {
        old
    } else {
        number
    }
}

// The number that stands after a change where this one stood.
fn changed_by(slots: &[Slot], change: Change, old: u16) -> u16
    ensures { result ≡ changed_by ip6 slots.now change old }
{
    match change {
        Change::Comes(number) => longer_of(slots, number, old),
        Change::Goes { gone, heir } if old == gone => heir,
        Change::Goes { .. } => old,
    }
}

// The number of the longest route around a prefix that has none itself; 0 where there is none.
fn heir(slots: &[Slot], prefix: Prefix6) -> u16
    requires { length slots.now ≤ most_slots }
    ensures { IsHeir ip6 slots.now prefix result }
{
    let mut heir = 0;
    for place in 0..slots.len() {
        if is_around(slots, place, prefix) {
            heir = longer_of(slots, place as u16 + 1, heir);
        }
    }
    heir
}
