//! The trie of IPv4 routes, for look-ups in the packet path.
ghost use Rattle.std.specs.Prelude.{◌≡◌, ◌↔◌, IsTrue, ℕ, true, ◌+◌, ◌*◌, ◌<◌, ◌≤◌, ◌^◌, ◌-◌, ◌/◌, ◌%◌, ◌++◌, IfOk, IfSome, None, [], length, replicate, set};
ghost use Rattle.std.specs.Option.{option_copied};
ghost use Rattle.vg_model.specs.Route.{best_route, ip4};
ghost use Rattle.vg_fib.specs.Numbers.{AreFirstOf, AreFrom, HasPrefix, IsHeir, changed_by, covers_at, length_at, length_of, longer_of, most_slots};
ghost use Rattle.vg_fib.specs.Entries.{FitsEntries};
ghost use Rattle.vg_fib.specs.Trie.{GivesFirstChild, GivesSecondChild, HasChildren, HasFirst, HasRoom, IsLevels, IsPut, IsPutAt, IsRaised, IsRaisedFirst, IsRaisedSecond, number_at, Spare};

use crate::entries::{Entry, Packed};
use crate::numbers::{Change, MOST_REMOVED, MOST_SLOTS, add_slots};
use crate::table::{Fib, covers, know_few};
use std::alloc::{AllocError, Global};
use std::marker::Model;
use vg_model::{Memory, Prefix, RouteTo};

// The entries of a child: it is the table of one byte of the address.
const CHILD: usize = 256;

// What stands at a place: a route, or nothing where it was removed.
type Slot = Option<(Prefix, RouteTo)>;

// The tables of the three levels. Child number k of a level has the entries from 256 * k on.
#[derive(Drop)]
struct Levels {
    // By the first 16 bits of an address.
    first: Vec<Packed>,
    // The children of the first level, by the next 8 bits.
    second: Vec<Packed>,
    // The children of the second level, by the last 8 bits: numbers of routes.
    third: Vec<u16>,
}

impl Levels {
    // No memory.
    fn bare(alloc: Global) -> Levels {
        Levels {
            first: Vec::new(alloc),
            second: Vec::new(alloc),
            third: Vec::new(alloc),
        }
    }

    // No address has a route. The memory stays.
    fn emptied(self) -> Result<Levels, AllocError>
        ensures shape { IfOk result (λ levels. IsLevels levels) }
        ensures no_route { IfOk result (λ levels. (address : ℕ) → number_at levels address ≡ 0) }
        ensures no_child { IfOk result (λ levels. (levels.second.items ≡ []) × (levels.third.items ≡ [])) }
    {
        let Levels {
            mut first,
            mut second,
            mut third,
        } = self;
        first.clear();
        second.clear();
        third.clear();
        add_leaves(&mut first, 65536 / CHILD)?;
        Ok(Levels {
            first,
            second,
            third,
        })
    }

    // Puts the routes of the slots from this place on in, where those before it are in. Prefixes of at most 16 bits are put first, then
    // those of at most 24, so that none goes through a child that another one makes.
    fn put_from(&mut self, alloc: Global, slots: &[Slot], known: usize) -> Result<(), AllocError>
        requires few { length slots.now ≤ most_slots }
        requires known { known ≤ length slots.now }
        requires room { HasRoom (length slots.now - known) self.old }
        requires has { HasFirst slots.now known self.old }
        ensures { IfOk result (λ _. HasFirst slots.now (length slots.now) self.new) }
    {
        let order = by_level(alloc, slots, known)?;
        for place in &order {
            self.put_at(slots, usize::from(*place))?;
        }
        Ok(())
    }

    // Puts the route of a slot in, if there is one.
    fn put_at(&mut self, slots: &[Slot], place: usize) -> Result<(), AllocError>
        requires few { length slots.now ≤ most_slots }
        requires place { place < length slots.now }
        requires shape { IsLevels self.old }
        requires room { Spare self.old }
        ensures { IfOk result (λ _. IsPutAt slots.now place self.old self.new) }
    {
        if let Some(route) = slots[place] {
            self.put(slots, route.0, Change::Comes(place as u16 + 1))?;
        }
        Ok(())
    }

    // Makes the slots those of the first routes of a table, as many as they are: a route that the table doesn't have at its turn is
    // taken out, and the others get the table's targets. `None` where too many would have to be taken out.
    fn follow(
        &mut self,
        slots: &mut Vec<Slot>,
        routes: &[(Prefix, RouteTo)],
    ) -> Result<Option<usize>, AllocError>
        requires few { length slots.old.items ≤ most_slots }
        requires room { HasRoom MOST_REMOVED self.old }
        requires has { HasFirst slots.old.items (length slots.old.items) self.old }
        ensures first { IfOk result (λ answer. IfSome answer (λ known. AreFirstOf routes.now known slots.new.items)) }
        ensures has { IfOk result (λ answer. IfSome answer (λ _. HasFirst slots.new.items (length slots.new.items) self.new)) }
    {
        let mut known = 0;
        let mut removed = 0;
        for place in 0..slots.len() {
            if let Some((prefix, _)) = slots[place] {
                if let Some(route) = routes.get(known)
                    && route.0 == prefix
                {
                    slots[place] = Some(*route);
                    known += 1;
                } else if removed < MOST_REMOVED {
                    self.take_out(slots, place, prefix)?;
                    removed += 1;
                } else {
                    return Ok(None);
                }
            }
        }
        Ok(Some(known))
    }

    // Takes a route out: its slot is empty, and the next shorter prefix takes its addresses over.
    fn take_out(
        &mut self,
        slots: &mut Vec<Slot>,
        place: usize,
        prefix: Prefix,
    ) -> Result<(), AllocError>
        requires few { length slots.old.items ≤ most_slots }
        requires room { HasRoom 1 self.old }
        requires stands { HasPrefix slots.old.items place prefix }
        requires has { HasFirst slots.old.items (length slots.old.items) self.old }
        ensures empty { IfOk result (λ _. slots.new.items ≡ set slots.old.items place None) }
        ensures has { IfOk result (λ _. HasFirst slots.new.items (length slots.new.items) self.new) }
        ensures second { IfOk result (λ _. length self.new.second.items ≤ length self.old.second.items + 256) }
        ensures third { IfOk result (λ _. length self.new.third.items ≤ length self.old.third.items + 256) }
    {
        slots[place] = None;
        let gone = place as u16 + 1;
        let heir = heir(slots.as_slice(), prefix);
        self.put(slots.as_slice(), prefix, Change::Goes { gone, heir })?;
        Ok(())
    }

    // Whether so many routes can be put in behind so many slots.
    fn has_room(&self, slots: usize, more: usize) -> bool
        requires few { more ≤ most_slots }
        requires slots { slots < 2 ^ 63 }
        ensures slots { result ≡ true → slots + more ≤ most_slots }
        ensures room { result ≡ true → HasRoom more self.now }
        ensures removals { result ≡ true → HasRoom MOST_REMOVED self.now }
    {
        let most = CHILD * MOST_SLOTS;
        let more_entries = CHILD * more;
        slots + more <= MOST_SLOTS
            && self.second.len() + more_entries <= most
            && self.third.len() + more_entries <= most
    }

    // The number of an address's route: 0 where it has none.
    fn number(&self, address: u32) -> u16
        requires { IsLevels self.now }
        ensures { result ≡ number_at self.now address }
    {
        let address = address as usize;
        match self.first[address >> 16].entry() {
            Entry::Leaf(number) => number,
            Entry::Child(child) => {
                match self.second[CHILD * child as usize + (address >> 8) % CHILD].entry() {
                    Entry::Leaf(number) => number,
                    Entry::Child(child) => self.third[CHILD * child as usize + address % CHILD],
                }
            }
        }
    }

    // Changes the numbers of the addresses of a prefix.
    fn put(&mut self, slots: &[Slot], prefix: Prefix, change: Change) -> Result<(), AllocError>
        requires shape { IsLevels self.old }
        requires room { Spare self.old }
        requires fits { FitsEntries change }
        ensures { IfOk result (λ _. IsPut prefix (changed_by ip4 slots.now change) self.old self.new) }
    {
        if prefix.len <= 16 {
            self.put_short(slots, prefix, change);
            Ok(())
        } else if prefix.len <= 24 {
            self.put_middle(slots, prefix, change)
        } else {
            self.put_long(slots, prefix, change)
        }
    }

    // The same for a prefix of at most 16 bits.
    fn put_short(&mut self, slots: &[Slot], prefix: Prefix, change: Change)
        requires shape { IsLevels self.old }
        requires short { prefix.len ≤ 16 }
        requires fits { FitsEntries change }
        ensures { IsPut prefix (changed_by ip4 slots.now change) self.old self.new }
    {
        let from = prefix.addr as usize >> 16;
        let count = 1 << (16 - prefix.len);
        self.raise_first(slots, change, from, count);
    }

    // The same for a prefix of 17 to 24 bits.
    fn put_middle(
        &mut self,
        slots: &[Slot],
        prefix: Prefix,
        change: Change,
    ) -> Result<(), AllocError>
        requires shape { IsLevels self.old }
        requires room { Spare self.old }
        requires longer { 16 < prefix.len }
        requires middle { prefix.len ≤ 24 }
        requires fits { FitsEntries change }
        ensures { IfOk result (λ _. IsPut prefix (changed_by ip4 slots.now change) self.old self.new) }
    {
        let address = prefix.addr as usize;
        let child = self.first_child(address >> 16)?;
        let from = CHILD * child + (address >> 8) % CHILD;
        let count = 1 << (24 - prefix.len);
        raise_second(
            &mut self.second,
            &mut self.third,
            slots,
            change,
            from,
            count,
        );
        Ok(())
    }

    // The same for a prefix of 25 to 32 bits.
    fn put_long(&mut self, slots: &[Slot], prefix: Prefix, change: Change) -> Result<(), AllocError>
        requires shape { IsLevels self.old }
        requires room { Spare self.old }
        requires longer { 24 < prefix.len }
        ensures { IfOk result (λ _. IsPut prefix (changed_by ip4 slots.now change) self.old self.new) }
    {
        let address = prefix.addr as usize;
        let parent = self.first_child(address >> 16)?;
        let child = self.second_child(CHILD * parent + (address >> 8) % CHILD)?;
        let from = CHILD * child + address % CHILD;
        let count = 1 << (32 - prefix.len);
        raise_third(&mut self.third, slots, change, from, count);
        Ok(())
    }

    // Changes the numbers of all addresses under so many places of the first level.
    fn raise_first(&mut self, slots: &[Slot], change: Change, from: usize, count: usize)
        requires shape { IsLevels self.old }
        requires places { from + count ≤ 65536 }
        requires fits { FitsEntries change }
        ensures { IsRaisedFirst (changed_by ip4 slots.now change) from count self.old self.new }
    {
        let mut last = Became::of(slots, change, 0);
        for place in from..from + count {
            match self.first[place].entry() {
                Entry::Leaf(old) => {
                    last = last.next(slots, change, old);
                    self.first[place] = Packed::leaf(last.after);
                }
                Entry::Child(child) => raise_second(
                    &mut self.second,
                    &mut self.third,
                    slots,
                    change,
                    CHILD * child as usize,
                    CHILD,
                ),
            }
        }
    }

    // The child of a place of the first level. One that is made says what its parent's entry said.
    fn first_child(&mut self, place: usize) -> Result<usize, AllocError>
        requires shape { IsLevels self.old }
        requires room { Spare self.old }
        requires place { place < 65536 }
        ensures { IfOk result (λ child. GivesFirstChild place child self.old self.new) }
    {
        match self.first[place].entry() {
            Entry::Child(child) => Ok(child as usize),
            Entry::Leaf(number) => {
                let child = self.second.len() / CHILD;
                self.second
                    .extend_from_slice(&[Packed::leaf(number); CHILD])?;
                self.first[place] = Packed::child(child as u16);
                Ok(child)
            }
        }
    }

    // The child of a place of the second level. One that is made says what its parent's entry said.
    fn second_child(&mut self, place: usize) -> Result<usize, AllocError>
        requires shape { IsLevels self.old }
        requires room { length self.old.third.items < 32768 * 256 }
        requires place { place < length self.old.second.items }
        ensures { IfOk result (λ child. GivesSecondChild place child self.old self.new) }
    {
        match self.second[place].entry() {
            Entry::Child(child) => Ok(child as usize),
            Entry::Leaf(number) => {
                let child = self.third.len() / CHILD;
                self.third.extend_from_slice(&[number; CHILD])?;
                self.second[place] = Packed::child(child as u16);
                Ok(child)
            }
        }
    }
}

/// The routes of a table in a form that is looked up fast: a trie with strides of 16, 8 and 8 bits. It is seen
/// as the list of its routes.
#[derive(Drop)]
pub struct Mtrie {
    levels: Levels,
    // The routes in the order of their table, with empty slots between them.
    slots: Vec<Slot>,
}

impl Model for Mtrie {
    ghost use Rattle.vg_fib.specs.Table.{Routes};
    ghost use Rattle.vg_fib.specs.Numbers.{routes_in};
    ghost use Rattle.vg_fib.specs.Trie.{IsTrie};

    ghost Value = { Routes };

    ghost view = { λ trie. routes_in trie.slots.items };

    ghost invariant = { λ trie. IsTrie trie.slots.items trie.levels };
}

impl Mtrie {
    /// The trie of a table's routes: each address has the same best route in both.
    ///
    /// # Errors
    ///
    /// [`Memory`] where memory runs out.
    pub fn build(alloc: Global, fib: &Fib) -> Result<Mtrie, Memory>
        ensures routes { IfOk result (λ trie. trie ≡ fib.now) }
        ensures finds { IfOk result (λ trie. (address : ℕ) → best_route trie address ≡ best_route fib.now address) }
    {
        Mtrie::anew(Levels::bare(alloc), Vec::new(alloc), alloc, fib)
    }

    /// The same as [`Mtrie::build`], in the memory of this trie as far as it is enough. Where few routes of this trie are
    /// removed from the table, these are taken out, and what is new is put in; else all is put in again.
    ///
    /// # Errors
    ///
    /// [`Memory`] where memory runs out.
    pub fn renewed(self, alloc: Global, fib: &Fib) -> Result<Mtrie, Memory>
        ensures routes { IfOk result (λ trie. trie ≡ fib.now) }
        ensures finds { IfOk result (λ trie. (address : ℕ) → best_route trie address ≡ best_route fib.now address) }
    {
        let Mtrie {
            mut levels,
            mut slots,
        } = self;
        if levels.has_room(slots.len(), 0)
            && let Some(known) = levels.follow(&mut slots, fib.routes())?
            && levels.has_room(slots.len(), fib.routes().len() - known)
        {
            return Mtrie::grown(levels, slots, alloc, fib, known);
        }
        Mtrie::anew(levels, slots, alloc, fib)
    }

    // The trie of a table, in this memory, whatever it says.
    fn anew(levels: Levels, mut slots: Vec<Slot>, alloc: Global, fib: &Fib) -> Result<Mtrie, Memory>
        ensures { IfOk result (λ trie. trie ≡ fib.now) }
    {
        slots.clear();
        know_few(fib);
        Mtrie::grown(levels.emptied()?, slots, alloc, fib, 0)
    }

    // The trie of a table, of which so many routes, the first, are in these levels.
    fn grown(
        mut levels: Levels,
        mut slots: Vec<Slot>,
        alloc: Global,
        fib: &Fib,
        known: usize,
    ) -> Result<Mtrie, Memory>
        requires first { AreFirstOf fib.now known slots.items }
        requires few { length slots.items + (length fib.now - known) ≤ most_slots }
        requires room { HasRoom (length fib.now - known) levels }
        requires has { HasFirst slots.items (length slots.items) levels }
        ensures { IfOk result (λ trie. trie ≡ fib.now) }
    {
        let first = slots.len();
        add_slots(&mut slots, &fib.routes()[known..])?;
        levels.put_from(alloc, slots.as_slice(), first)?;
        Ok(Mtrie { levels, slots })
    }

    /// The target of the longest prefix that covers an address, which is in the host's order; `None`
    /// exactly where no prefix covers it. It takes no memory, and copies no list of adjacencies.
    pub fn target(&self, address: u32) -> Option<&RouteTo>
        ensures { option_copied result ≡ best_route self.now address }
    {
        match self.levels.number(address) {
            0 => None,
            number => match &self.slots[number as usize - 1] {
                Some(route) => Some(&route.1),
                None => None,
            },
        }
    }

    /// The same as [`Mtrie::target`], as a value.
    pub fn find(&self, address: u32) -> Option<RouteTo>
        ensures { result ≡ best_route self.now address }
    {
        self.target(address).copied()
    }
}

// The places from this one on: first those of prefixes of at most 16 bits, then those of at most 24.
fn by_level(alloc: Global, slots: &[Slot], known: usize) -> Result<Vec<u16>, AllocError>
    requires few { length slots.now ≤ most_slots }
    requires known { known ≤ length slots.now }
    ensures { IfOk result (λ order. AreFrom known (length slots.now) order.items) }
{
    let mut order = Vec::new(alloc);
    let mut middle = Vec::new(alloc);
    let mut long = Vec::new(alloc);
    for place in known..slots.len() {
        let bits = length_at(slots, place);
        if bits <= 16 {
            order.push(place as u16)?;
        } else if bits <= 24 {
            middle.push(place as u16)?;
        } else {
            long.push(place as u16)?;
        }
    }
    order.extend_from_slice(middle.as_slice())?;
    order.extend_from_slice(long.as_slice())?;
    Ok(order)
}

// How many bits the prefix at a place has; 0 where no route stands.
fn length_at(slots: &[Slot], place: usize) -> u8
    ensures { result ≡ length_at ip4 slots.now place }
{
    match slots.get(place) {
        Some(Some(route)) => route.0.len,
        _ => 0,
    }
}

// Whether a route at a place covers the first address of a prefix, and isn't longer.
fn is_around(slots: &[Slot], place: usize, prefix: Prefix) -> bool
    ensures { IsTrue result ↔ ((length_at ip4 slots.now place ≤ prefix.len) × (covers_at ip4 slots.now place prefix.addr ≡ true)) }
{
    match slots.get(place) {
        Some(Some(route)) => route.0.len <= prefix.len && covers(route.0, prefix.addr),
        _ => false,
    }
}

// How many bits the prefix of a number has; 0 where the number is no route's.
fn length_of(slots: &[Slot], number: u16) -> u8
    ensures { result ≡ length_of ip4 slots.now number }
{
    match number {
        0 => 0,
        _ => length_at(slots, usize::from(number) - 1),
    }
}

// Which of two numbers stands where both routes cover: the new one, unless the old one's prefix is longer.
fn longer_of(slots: &[Slot], number: u16, old: u16) -> u16
    ensures { result ≡ longer_of ip4 slots.now number old }
{
    if length_of(slots, number) < length_of(slots, old) {
        old
    } else {
        number
    }
}

// The number that stands after a change where this one stood.
fn changed_by(slots: &[Slot], change: Change, old: u16) -> u16
    ensures { result ≡ changed_by ip4 slots.now change old }
{
    match change {
        Change::Comes(number) => longer_of(slots, number, old),
        Change::Goes { gone, heir } if old == gone => heir,
        Change::Goes { .. } => old,
    }
}

// What became of a number. Side by side most addresses have the same one, of which this is worked out once.
#[derive(Clone, Copy)]
struct Became {
    number: u16,
    after: u16,
}

impl Became {
    // What becomes of a number.
    fn of(slots: &[Slot], change: Change, number: u16) -> Became
        ensures number { result.number ≡ number }
        ensures after { result.after ≡ changed_by ip4 slots.now change number }
    {
        let after = changed_by(slots, change, number);
        Became { number, after }
    }

    // What becomes of the number at the next place.
    fn next(self, slots: &[Slot], change: Change, number: u16) -> Became
        requires { self.after ≡ changed_by ip4 slots.now change self.number }
        ensures number { result.number ≡ number }
        ensures after { result.after ≡ changed_by ip4 slots.now change number }
    {
        if number == self.number {
            return self;
        }
        Became::of(slots, change, number)
    }
}

// The number of the longest route around a prefix that has none itself; 0 where there is none.
fn heir(slots: &[Slot], prefix: Prefix) -> u16
    requires { length slots.now ≤ most_slots }
    ensures { IsHeir ip4 slots.now prefix result }
{
    let mut heir = 0;
    for place in 0..slots.len() {
        if is_around(slots, place, prefix) {
            heir = longer_of(slots, place as u16 + 1, heir);
        }
    }
    heir
}

// Changes the numbers of all addresses under so many places of the second level.
fn raise_second(
    second: &mut Vec<Packed>,
    third: &mut Vec<u16>,
    slots: &[Slot],
    change: Change,
    from: usize,
    count: usize,
)
    requires places { from + count ≤ length second.old.items }
    requires children { HasChildren second.old.items (length third.old.items) }
    requires fits { FitsEntries change }
    ensures { IsRaisedSecond (changed_by ip4 slots.now change) from count second.old.items third.old.items second.new.items third.new.items }
{
    let mut last = Became::of(slots, change, 0);
    for place in from..from + count {
        match second[place].entry() {
            Entry::Leaf(old) => {
                last = last.next(slots, change, old);
                second[place] = Packed::leaf(last.after);
            }
            Entry::Child(child) => {
                raise_third(third, slots, change, CHILD * child as usize, CHILD)
            }
        }
    }
}

// Changes the numbers at so many places of the third level.
fn raise_third(third: &mut Vec<u16>, slots: &[Slot], change: Change, from: usize, count: usize)
    requires { from + count ≤ length third.old.items }
    ensures { IsRaised (changed_by ip4 slots.now change) from count third.old.items third.new.items }
{
    let mut last = Became::of(slots, change, 0);
    for place in from..from + count {
        last = last.next(slots, change, third[place]);
        third[place] = last.after;
    }
}

// Adds the entries of so many children, a child at a time: no address there has a route.
fn add_leaves(entries: &mut Vec<Packed>, children: usize) -> Result<(), AllocError>
    requires { children ≤ 256 }
    ensures { IfOk result (λ _. entries.new.items ≡ entries.old.items ++ replicate (256 * children) (Entry.Leaf 0)) }
{
    entries.reserve(CHILD * children)?;
    for _ in 0..children {
        entries.extend_from_slice(&[Packed::leaf(0); CHILD])?;
    }
    Ok(())
}
