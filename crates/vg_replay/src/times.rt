//! Whether packets' generations are those of their times.
ghost use Rattle.std.specs.Prelude.{◌≡◌, ◌↔◌, ◌<◌, ◌≤◌, length, map, IsTrue};
ghost use Rattle.vg_model.specs.Lawful.{NeverFall, StartsAt};
ghost use Rattle.vg_plan.specs.Plan.{first_generation, windows};

use crate::inputs::Input;
use vg_model::Leg;
use vg_plan::Book;

// Whether a generation is that of the time of a packet.
fn is_first(input: &Input<'_>, book: &Book, number: u32, generation: u32) -> bool
    requires book { book.now ≡ windows input.now.plan.now input.now.capture.now }
    requires number { number < length input.now.capture.now.packets }
    requires generation { generation < length book.now }
    ensures { IsTrue result ↔ (generation ≡ first_generation input.now.plan.now.script input.now.capture.now number) }
{
    let _plan = input.plan;
    number < book.limit(generation) && (generation == 0 || book.limit(generation - 1) <= number)
}

// Whether the generations of legs never fall, from this one on, and are all below so many.
fn never_fall(count: u32, least: u32, legs: &[Leg]) -> bool
    ensures { IsTrue result ↔ NeverFall count least (map (λ leg. leg.generation) legs.now) }
{
    let mut lowest = least;
    for leg in legs {
        if leg.generation < lowest {
            return false;
        }
        if leg.generation >= count {
            return false;
        }
        lowest = leg.generation;
    }
    true
}

/// Whether the generations of a packet's legs begin with that of its time, never fall and are all there.
pub(crate) fn starts_at(input: &Input<'_>, book: &Book, number: u32, legs: &[Leg]) -> bool
    requires book { book.now ≡ windows input.now.plan.now input.now.capture.now }
    requires number { number < length input.now.capture.now.packets }
    ensures { IsTrue result ↔ StartsAt (length book.now) (first_generation input.now.plan.now.script input.now.capture.now number) (map (λ leg. leg.generation) legs.now) }
{
    let Some(first) = legs.first() else {
        return false;
    };
    let generation = first.generation;
    generation < book.generations()
        && is_first(input, book, number, generation)
        && never_fall(book.generations(), generation, legs)
}
