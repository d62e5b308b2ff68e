//! The drawings of a plan's generations.
ghost use Rattle.std.specs.Prelude.{◌≡◌, ◌<◌, ◌++◌, IfOk, OnOk, drop, length, map};
ghost use Rattle.vg_script.specs.Events.{events};
ghost use Rattle.vg_plan.specs.Run.{seen as seen_events};
ghost use Rattle.vg_draw.specs.Drawing.{numbered, all_of};
ghost use Rattle.vg_draw.specs.Prefixes.{seen, tables_of};
ghost use Rattle.vg_drawing.specs.Drawn.{IsWithin, begin_of as begin_of_events, first_tables, first_drawing, generation_drawing, drawing_at, drawings};

use crate::words::Which;
use std::alloc::Global;
use vg_draw::{Routes, draw};
use vg_model::{Bytes, Memory};
use vg_plan::events::{Run, in_order};
use vg_plan::{Generations, Master, Plan};
use vg_report::Report;

// When a generation begins: the first at 0, and each other at the time of the event that makes it.
fn begin_of(runs: &[Run<'_>], number: u32) -> u64
    ensures { result ≡ begin_of_events (map seen_events runs.now) number }
{
    if number == 0 {
        return 0;
    }
    match runs.get(number as usize - 1) {
        Some(run) => run.time,
        None => 0,
    }
}

// The routes of a graph.
fn routes_of(master: &Master) -> Routes<'_>
    ensures { seen result ≡ tables_of master.now }
{
    Routes {
        ip4: master.fib().routes(),
        ip6: master.fib6().routes(),
    }
}

// Appends the drawing of the first of these generations, under this number, from this time on and behind the routes of the first of earlier
// ones.
fn put_first(
    out: &mut Vec<u8>,
    report: &Option<Report>,
    number: u32,
    from: u64,
    earlier: &Generations<'_>,
    generations: &Generations<'_>,
) -> Result<(), Memory>
    ensures { OnOk result (out.new.items ≡ out.old.items ++ first_drawing report.now number from (first_tables earlier.now) generations.now) }
{
    let master = generations.master();
    let before = routes_of(earlier.master());
    let routes = routes_of(master);
    match draw(out, report, number, from, before, master.graph(), routes) {
        Ok(()) => Ok(()),
        Err(_) => Err(Memory),
    }
}

// The generations of a plan from one on.
fn from_one_on(alloc: Global, plan: &Plan, number: u32) -> Result<Generations<'_>, Memory>
    requires { number < length plan.now.graphs }
    ensures { IfOk result (λ generations. generations ≡ drop number plan.now.graphs) }
{
    let mut generations = Generations::of(alloc, plan)?;
    for made in 0..number {
        generations = generations.advance()?;
    }
    Ok(generations)
}

// The drawing of one generation.
fn one(alloc: Global, plan: &Plan, report: &Option<Report>, number: u32) -> Result<Vec<u8>, Memory>
    requires { number < length plan.now.graphs }
    ensures { IfOk result (λ text. text.items ≡ drawing_at report.now plan.now number) }
{
    let runs = in_order(alloc, plan.script())?;
    let from = begin_of(runs.as_slice(), number);
    let earlier = from_one_on(alloc, plan, number.saturating_sub(1))?;
    let generations = from_one_on(alloc, plan, number)?;
    let mut out = Vec::new(alloc);
    put_first(&mut out, report, number, from, &earlier, &generations)?;
    Ok(out)
}

// The drawings of all generations, one behind the other.
fn all(alloc: Global, plan: &Plan, report: &Option<Report>) -> Result<Vec<u8>, Memory>
    ensures { IfOk result (λ text. text.items ≡ all_of (numbered (generation_drawing report.now plan.now) 0 plan.now.graphs)) }
{
    let runs = in_order(alloc, plan.script())?;
    let mut earlier = Generations::of(alloc, plan)?;
    let mut generations = Generations::of(alloc, plan)?;
    let mut out = Vec::new(alloc);
    put_first(&mut out, report, 0, 0, &earlier, &generations)?;
    for number in 1..plan.generations() {
        generations = generations.advance()?;
        let from = begin_of(runs.as_slice(), number);
        put_first(&mut out, report, number, from, &earlier, &generations)?;
        earlier = earlier.advance()?;
    }
    Ok(out)
}

/// The drawings of the generations that are asked for, one behind the other. The only error is want of memory.
pub fn draw_generations(
    alloc: Global,
    plan: &Plan,
    report: &Option<Report>,
    which: Which,
) -> Result<Bytes, Memory>
    requires { IsWithin (length plan.now.graphs) which }
    ensures { IfOk result (λ text. text ≡ drawings which report.now plan.now) }
{
    let text = match which {
        Which::One(number) => one(alloc, plan, report, number)?,
        Which::All => all(alloc, plan, report)?,
    };
    Ok(Bytes::from_vec(text))
}
