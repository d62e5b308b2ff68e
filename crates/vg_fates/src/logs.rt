//! What became of packets, as workers log it.
ghost use Rattle.std.specs.Prelude.{◌≡◌, ◌+◌, ◌<◌, ◌≤◌, ◌^◌, ◌++◌, ◌∷◌, [], ℕ, List, IfOk, IfSome, flat_map, length, map, All, Some, slice_get};
ghost use Rattle.std.specs.Bool.{OnTrue};
ghost use Rattle.std.specs.List.{AllByRecursion, HoldsAt, SameBelow};
ghost use Rattle.std.specs.List.Sorted.{IsPermutation, IsNonDecreasingBy};
ghost use Rattle.vg_model.specs.declared.fates.Fate.{Fate};
ghost use Rattle.vg_fates.specs.Logs.{fate_in, fates_in, IsLogged, AreLogged, CanMove, moved_behind};
ghost use Rattle.vg_fates.specs.Seen.{fate_seen};

use std::alloc::Global;
use std::marker::Model;
use vg_model::{End, Fate, Leg, Legs, Memory};

/// A fate as it is logged: in itself where the packet had one leg and no queue refused it, and else the place of the fate among the
/// others of its log.
#[derive(Clone, Copy)]
pub enum LogEntry {
    Plain {
        worker: u8,
        end: End,
        number: u32,
        generation: u32,
    },
    Other {
        place: u32,
    },
}

/// A fate of a list, where the list keeps it.
#[derive(Clone, Copy)]
pub enum FateRef<'a> {
    /// That of a packet with one leg that no queue refused.
    Plain { number: u32, leg: Leg, end: End },
    /// Any other.
    Other(&'a Fate),
}

/// The fates that a worker logs: those so far, and for how many there is room.
#[derive(Drop)]
pub struct FateLog {
    entries: Vec<LogEntry>,
    others: Vec<Fate>,
    room: usize,
}

impl Model for FateLog {
    ghost use Rattle.std.specs.Prelude.{◌≤◌, length, vec_capacity};
    ghost use Rattle.vg_fates.specs.Logs.{LogBook, fates_in, AreLogged};

    ghost Value = { LogBook };

    ghost view = { λ l. record { items = fates_in l.others.items l.entries.items; room = l.room } };

    ghost invariant = { λ l. AreLogged l.others.items l.entries.items × (length l.others.items ≤ length l.entries.items)
        × (l.room ≤ 65536) × (l.room ≤ vec_capacity l.entries) × (l.room ≤ vec_capacity l.others) };
}

/// What became of packets. It is seen as the list of their fates.
#[derive(Drop)]
pub struct FateList {
    entries: Vec<LogEntry>,
    others: Vec<Fate>,
}

impl Model for FateList {
    ghost use Rattle.std.specs.Prelude.{List};
    ghost use Rattle.vg_model.specs.declared.fates.Fate.{Fate};
    ghost use Rattle.vg_fates.specs.Logs.{fates_in, AreLogged};

    ghost Value = { List Fate };

    ghost view = { λ l. fates_in l.others.items l.entries.items };

    ghost invariant = { λ l. AreLogged l.others.items l.entries.items };
}

// A fate as it is logged in itself, where it can be.
#[inline]
fn plain(number: u32, legs: &[Leg], congested: Option<u64>, end: End) -> Option<LogEntry>
    ensures { IfSome result (λ entry. (others : List Fate) → IsLogged (length others) entry
        × (fate_in others entry ≡ record { number = number; legs = legs.now; congested = congested; end = end })) }
{
    if congested.is_some() || legs.len() != 1 {
        return None;
    }
    let Leg { worker, generation } = legs[0];
    Some(LogEntry::Plain {
        worker,
        end,
        number,
        generation,
    })
}

impl FateLog {
    /// No fates, and room for so many.
    ///
    /// # Errors
    ///
    /// [`Memory`] where memory runs out.
    pub fn new(alloc: Global, room: usize) -> Result<FateLog, Memory>
        requires { room ≤ 65536 }
        ensures { IfOk result (λ log. log ≡ record { items = []; room = room }) }
    {
        let entries = Vec::with_capacity(alloc, room)?;
        let others = Vec::with_capacity(alloc, room)?;
        Ok(FateLog {
            entries,
            others,
            room,
        })
    }

    /// How many fates were logged.
    pub fn len(&self) -> usize
        ensures { result ≡ length self.now.items }
    {
        self.entries.len()
    }

    /// Logs what became of the packet with this number. It takes no memory, and copies the legs only where there are several or a
    /// queue refused the packet.
    #[inline]
    pub fn push(&mut self, number: u32, legs: &[Leg], congested: Option<u64>, end: End)
        requires room { length self.old.items < self.old.room }
        requires legs { length legs.now ≤ 4 }
        ensures { self.new ≡ record self.old { items = self.old.items ++ (record { number = number; legs = legs.now; congested = congested; end = end }) ∷ [] } }
    {
        match plain(number, legs, congested, end) {
            Some(entry) => self.entries.push_reserved(entry),
            None => {
                let place = self.others.len() as u32;
                self.others.push_reserved(Fate {
                    number,
                    legs: legs_of(legs),
                    congested,
                    end,
                });
                self.entries.push_reserved(LogEntry::Other { place });
            }
        }
    }

    /// The fates that were logged.
    pub fn into_list(self) -> FateList
        ensures { result ≡ self.items }
    {
        let FateLog {
            entries,
            others,
            room: _,
        } = self;
        FateList { entries, others }
    }
}

// The number of a logged packet.
#[inline]
fn number_of(others: &[Fate], entry: LogEntry) -> u32
    ensures { result ≡ (fate_in others.now entry).number }
{
    match entry {
        LogEntry::Plain { number, .. } => number,
        LogEntry::Other { place } => match others.get(place as usize) {
            Some(fate) => fate.number,
            None => 0,
        },
    }
}

// Whether the entries stand in the order of their numbers.
fn are_in_order(entries: &[LogEntry], others: &[Fate]) -> bool
    ensures { OnTrue result (IsNonDecreasingBy (λ entry. (fate_in others.now entry).number) entries.now) }
{
    let mut least = 0;
    for entry in entries {
        let number = number_of(others, *entry);
        if number < least {
            return false;
        }
        least = number;
    }
    true
}

// Fills a place with the entry of its number. The entry that stands there goes to the place of its own number, the one that stood
// there to the next, and so on, until one of this place comes. Answers whether one came.
fn fill_place(entries: &mut [LogEntry], others: &[Fate], place: usize) -> bool
    requires { place < length entries.old }
    ensures same { IsPermutation entries.old entries.new }
    ensures front { SameBelow entries.old entries.new place }
    ensures there { OnTrue result (HoldsAt (λ entry. (fate_in others.now entry).number ≡ place) entries.new place) }
{
    let mut moving = entries[place];
    // At most as many entries as there are go to their places. Two with one number would take each other's place without end.
    for _step in 0..entries.len() {
        let number = number_of(others, moving) as usize;
        if number <= place || number >= entries.len() {
            entries[place] = moving;
            return number == place;
        }
        let there = entries[number];
        entries[number] = moving;
        moving = there;
    }
    entries[place] = moving;
    false
}

// Puts each fate at the place of its number. Answers whether all stand there: they do where their numbers are those of the places.
fn put_in_place(entries: &mut [LogEntry], others: &[Fate]) -> bool
    ensures same { IsPermutation entries.old entries.new }
    ensures rising { OnTrue result (IsNonDecreasingBy (λ entry. (fate_in others.now entry).number) entries.new) }
{
    for place in 0..entries.len() {
        let number = number_of(others, entries[place]) as usize;
        if number == place {
            continue;
        }
        if !fill_place(entries, others, place) {
            return false;
        }
    }
    true
}

// The legs of a packet once more.
fn legs_of(legs: &[Leg]) -> Legs
    requires { length legs.now ≤ 4 }
    ensures { result ≡ legs.now }
{
    let mut copy = Legs::new();
    for leg in legs {
        copy.push(*leg);
    }
    copy
}

// A fate of a log.
fn fate_of(others: &[Fate], entry: LogEntry) -> Fate
    requires { IsLogged (length others.now) entry }
    ensures { result ≡ fate_in others.now entry }
{
    match entry {
        LogEntry::Plain {
            worker,
            end,
            number,
            generation,
        } => {
            let mut legs = Legs::new();
            legs.push(Leg { worker, generation });
            Fate {
                number,
                legs,
                congested: None,
                end,
            }
        }
        LogEntry::Other { place } => {
            let fate = &others[place as usize];
            Fate {
                number: fate.number,
                legs: legs_of(fate.legs.as_slice()),
                congested: fate.congested,
                end: fate.end,
            }
        }
    }
}

// An entry where so many others of another log stand in front of those of its own.
fn moved(entry: LogEntry, places: u32) -> LogEntry
    requires { CanMove places entry }
    ensures { result ≡ moved_behind places entry }
{
    match entry {
        LogEntry::Other { place } => LogEntry::Other {
            place: place + places,
        },
        plain => plain,
    }
}

// All entries of a log, so moved.
fn all_moved(mut entries: Vec<LogEntry>, places: u32) -> Vec<LogEntry>
    requires { AllByRecursion (CanMove places) entries.items }
    ensures { result.items ≡ map (moved_behind places) entries.items }
{
    for entry in entries.iter_mut() {
        *entry = moved(*entry, places);
    }
    entries
}

impl FateList {
    /// No fates.
    pub fn new(alloc: Global) -> FateList
        ensures { result ≡ [] }
    {
        FateList {
            entries: Vec::new(alloc),
            others: Vec::new(alloc),
        }
    }

    /// The fates of all these lists, in the order of their numbers.
    ///
    /// # Errors
    ///
    /// [`Memory`] where memory runs out, or there are 2^32 fates or more. It takes none where there is one list.
    pub fn by_number(alloc: Global, lists: Vec<FateList>) -> Result<FateList, Memory>
        ensures same { IfOk result (λ fates. IsPermutation (flat_map (λ (list : List Fate). list) lists.items) fates) }
        ensures rising { IfOk result (λ fates. IsNonDecreasingBy (λ fate. fate.number) fates) }
    {
        let mut fates = FateList::joined(alloc, lists)?;
        if fates.is_in_order() {
            return Ok(fates);
        }
        fates.sort();
        Ok(fates)
    }

    // The fates of all these lists, one list behind the other.
    fn joined(alloc: Global, lists: Vec<FateList>) -> Result<FateList, Memory>
        ensures { IfOk result (λ fates. fates ≡ flat_map (λ (list : List Fate). list) lists.items) }
    {
        let mut lists = lists.into_iter();
        let Some(mut fates) = lists.next() else {
            return Ok(FateList::new(alloc));
        };
        for list in lists {
            fates = fates.with(list)?;
        }
        Ok(fates)
    }

    // Its fates, and behind them those of another list.
    fn with(self, other: FateList) -> Result<FateList, Memory>
        ensures { IfOk result (λ fates. fates ≡ self ++ other) }
    {
        let FateList {
            mut entries,
            mut others,
        } = self;
        let FateList {
            entries: more,
            others: mut more_others,
        } = other;
        let Ok(places) = u32::try_from(others.len()) else {
            return Err(Memory);
        };
        if more_others.len() > (u32::MAX - places) as usize {
            return Err(Memory);
        }
        others.append(&mut more_others)?;
        let mut more = all_moved(more, places);
        entries.append(&mut more)?;
        Ok(FateList { entries, others })
    }

    /// How many fates there are.
    pub fn len(&self) -> usize
        ensures count { result ≡ length self.now }
        ensures few { result < 2 ^ 63 }
    {
        self.entries.len()
    }

    /// One of them, by its place in the list.
    pub fn get(&self, k: usize) -> Fate
        requires { k < length self.now }
        ensures { slice_get self.now k ≡ Some result }
    {
        fate_of(self.others.as_slice(), self.entries[k])
    }

    /// One of them, by its place in the list, where it is kept: nothing is copied but the fate of a packet with one leg.
    #[inline]
    pub fn view(&self, k: usize) -> FateRef<'_>
        requires { k < length self.now }
        ensures { slice_get self.now k ≡ Some (fate_seen result) }
    {
        match self.entries[k] {
            LogEntry::Plain {
                worker,
                end,
                number,
                generation,
            } => FateRef::Plain {
                number,
                leg: Leg { worker, generation },
                end,
            },
            LogEntry::Other { place } => FateRef::Other(&self.others[place as usize]),
        }
    }

    // Whether the fates stand in the order of their numbers.
    fn is_in_order(&self) -> bool
        ensures { OnTrue result (IsNonDecreasingBy (λ fate. fate.number) self.now) }
    {
        are_in_order(self.entries.as_slice(), self.others.as_slice())
    }

    // Puts the fates in the order of their numbers. Those of all packets of a capture aren't sorted: each goes to its place.
    fn sort(&mut self)
        ensures same { IsPermutation self.old self.new }
        ensures rising { IsNonDecreasingBy (λ fate. fate.number) self.new }
    {
        if put_in_place(self.entries.as_mut_slice(), self.others.as_slice()) {
            return;
        }
        let others = self.others.as_slice();
        self.entries
            .sort_unstable_by_key(|entry| number_of(others, *entry));
    }
}
