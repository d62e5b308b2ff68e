//! Tests of the steps, over two small protocols: words without a rule, and a box that one seat may hold.
ghost use Rattle.std.specs.Prelude.{◌≡◌, ◌<◌, ◌+◌, ℕ, true, false, Bool, Option, None, [], ◌∷◌};
ghost use mathlib.Core.Option.{some};
ghost use lib.ListN.{get_elem?};
ghost use Rattle.vg_steps.specs.Trails.{found};
ghost use Rattle.vg_steps.specs.Tables.{place};
ghost use Rattle.vg_steps.specs.Seats.{table_of, id_of, me_of, trail_of, IsSameSeat, Finds};

use crate::checks::same;
use std::alloc::Global;
use vg_steps::{Join, Play, Seat, Split, Table, TableRule};

// Words without a rule. What a seat knows is a number that no step changes.
struct Free;

impl TableRule<u64, u64, ()> for Free {
    ghost holds = { λ key s. Unit {0} };

    ghost first = { λ key. 1 };
}

type Plain = Table<u64, u64, (), Free, Global>;

struct Look;

impl Play<u64, u64> for Look {
    ghost then = { λ st before n after. after ≡ before };
}

struct Halves;

impl Split<u64> for Halves {
    ghost left = { λ v. v };

    ghost right = { λ v. 2 };
}

struct Sum;

impl Join<u64> for Sum {
    ghost both = { λ v w. v + w };

    ghost spent = { 0 };
}

fn load(table: &Plain, seat: &mut Seat<u64, u64>, word: usize) -> u64
    requires { (table_of seat.old ≡ place table.now) × (word < (place table.now).words) }
    ensures seat { IsSameSeat seat.old seat.new }
    ensures found { Finds seat.old word result seat.new }
{
    table.load::<Look>(seat, word)
}

fn store(table: &Plain, seat: &mut Seat<u64, u64>, word: usize, new: u64)
    requires { (table_of seat.old ≡ place table.now) × (word < (place table.now).words) }
    ensures seat { IsSameSeat seat.old seat.new }
    ensures found { Finds seat.old word new seat.new }
{
    table.store::<Look>(seat, word, new);
}

fn add(table: &Plain, seat: &mut Seat<u64, u64>, word: usize, k: u64) -> u64
    requires { (table_of seat.old ≡ place table.now) × (word < (place table.now).words) }
    ensures seat { IsSameSeat seat.old seat.new }
    ensures held { (me_of seat.new).1 ≡ (me_of seat.old).1 }
    ensures found { Finds seat.old word result seat.new }
{
    table.fetch_add::<Look>(seat, word, k)
}

fn take_off(table: &Plain, seat: &mut Seat<u64, u64>, word: usize, k: u64) -> u64
    requires { (table_of seat.old ≡ place table.now) × (word < (place table.now).words) }
    ensures seat { IsSameSeat seat.old seat.new }
    ensures found { Finds seat.old word result seat.new }
{
    table.fetch_sub::<Look>(seat, word, k)
}

// A new seat, which has made no step.
fn split(table: &Plain, seat: &mut Seat<u64, u64>) -> Seat<u64, u64>
    requires { (table_of seat.old ≡ place table.now) × (0 < (place table.now).words) }
    ensures seat { IsSameSeat seat.old seat.new × (trail_of seat.new ≡ trail_of seat.old) }
    ensures new { (table_of result ≡ table_of seat.old) × (me_of result ≡ (2, [])) × (trail_of result ≡ []) }
{
    table.split_seat::<Halves>(seat)
}

fn join(table: &Plain, seat: &mut Seat<u64, u64>, other: Seat<u64, u64>)
    requires { (table_of seat.old ≡ place table.now) × (table_of other ≡ place table.now) × ((me_of other).1 ≡ []) × (0 < (place table.now).words) }
    ensures seat { IsSameSeat seat.old seat.new × (trail_of seat.new ≡ trail_of seat.old) }
{
    table.join_seat::<Sum>(seat, other);
}

// Counts in the first word, and then loads the second.
fn count_and_look(table: &Plain, seat: &mut Seat<u64, u64>) -> (u64, u64)
    requires { (table_of seat.old ≡ place table.now) × (1 < (place table.now).words) }
    ensures seat { IsSameSeat seat.old seat.new }
    ensures trail { trail_of seat.new ≡ found 1 result.1 ∷ found 0 result.0 ∷ trail_of seat.old }
{
    let count = add(table, seat, 0, 1);
    let other = load(table, seat, 1);
    (count, other)
}

#[test]
fn each_step_finds_what_stood_there(rt: HostRuntime) {
    let slots: Vec<u64> = Vec::new(rt.alloc());
    let Ok((table, mut seat)) = Table::new(rt.alloc(), &[7, 8], slots, &()) else {
        panic!(rt; "no memory")
    };
    let table: Plain = table;
    same(&rt, load(&table, &mut seat, 1), 8);
    store(&table, &mut seat, 1, 20);
    same(&rt, add(&table, &mut seat, 1, 5), 20);
    same(&rt, take_off(&table, &mut seat, 1, 1), 25);
    let mut other = split(&table, &mut seat);
    same(&rt, add(&table, &mut other, 0, 1), 7);
    join(&table, &mut seat, other);
    let (count, last) = count_and_look(&table, &mut seat);
    same(&rt, count, 8);
    same(&rt, last, 24);
    let closed = table.close_with(seat);
    same(&rt, closed.word(0), 9);
    same(&rt, closed.word(1), 24);
    closed.free();
}

// While the first seat doesn't hold it, the box is at home.
struct OneBox;

impl TableRule<Option<u64>, bool, ()> for OneBox {
    ghost holds = { λ key s. (v : Bool) → get_elem? s.views 0 ≡ some v → v ≡ false → (x : Option ℕ) × (get_elem? s.homes 0 ≡ some (some x)) };

    ghost first = { λ key. false };
}

type Boxed = Table<Option<u64>, bool, (), OneBox, Global>;

type Holder = Seat<Option<u64>, bool>;

struct Open;

impl Play<Option<u64>, bool> for Open {
    ghost then = { λ st before n after. (x : Option ℕ) × (after ≡ (true, (0, x) ∷ [])) };
}

struct Shut;

impl Play<Option<u64>, bool> for Shut {
    ghost then = { λ st before n after. after ≡ (false, []) };
}

// Takes the box by a load of the first word, puts this into it, gives it back by a store of the same number, and answers what
// was in it.
fn swap(table: &Boxed, seat: &mut Holder, new: u64) -> Option<u64>
    requires table { (table_of seat.old ≡ place table.now) × (0 < (place table.now).words) × (0 < (place table.now).slots) }
    requires seat { (id_of seat.old ≡ 0) × (me_of seat.old ≡ (false, [])) }
    ensures seat { IsSameSeat seat.old seat.new × (me_of seat.new ≡ (false, [])) }
    ensures trail { (n : ℕ) × (trail_of seat.new ≡ found 0 n ∷ found 0 n ∷ trail_of seat.old) }
{
    let number = table.load::<Open>(seat, 0);
    let old = table.exchange(seat, 0, Some(new));
    table.store::<Shut>(seat, 0, number);
    old
}

#[test]
fn a_slot_keeps_what_was_put_into_it(rt: HostRuntime) {
    let Ok((table, mut seat)) = Table::vacant(rt.alloc(), &[3], 1, &()) else {
        panic!(rt; "no memory")
    };
    let table: Boxed = table;
    same(&rt, swap(&table, &mut seat, 5), None);
    same(&rt, swap(&table, &mut seat, 6), Some(5));
}
