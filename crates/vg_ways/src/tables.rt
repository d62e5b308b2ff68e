//! The table of counts as text. Each function appends to one growing buffer; where memory runs out it stops.
ghost use Rattle.std.specs.Prelude.{◌≡◌, ◌<◌, ◌++◌, ◌^◌, codes, flat_map, length, map, slice_get, IsSome, OnOk};
ghost use Rattle.vg_ways.specs.Counts as tables;
ghost use Rattle.vg_ways.specs.Stages.{kept_at, IsStageOf};
ghost use Rattle.vg_ways.specs.Tallies.{tally_in};
ghost use Rattle.vg_ways.specs.Ways.{numbered_if};

use crate::entries::Entry;
use crate::logs::log_of;
use crate::stages::Stages;
use crate::tallies::Tally;
use std::alloc::{AllocError, Global};
use vg_fork::Fork;
use vg_graph::Graph;
use vg_model::{DropError, Memory, Prefix, Prefix6};
use vg_story::{Stage, Value, put, put_decimal, put_interface, put_node, put_value};

/// How many neighbors, interfaces and nodes there are.
#[derive(Clone, Copy)]
pub(crate) struct Size {
    pub neighbors: u16,
    pub interfaces: u16,
    pub nodes: u16,
}

// Appends a word, a number, and the end of the line.
fn put_last(out: &mut Vec<u8>, word: &[u8], count: usize) -> Result<(), AllocError>
    ensures { OnOk result (out.new.items ≡ out.old.items ++ tables.last_count word.now count) }
{
    put(out, word)?;
    put_decimal(out, count as u64)?;
    put(out, b"\n")
}

// Appends the line of the script that set a route, where there is one.
fn put_set(out: &mut Vec<u8>, line: u32) -> Result<(), AllocError>
    ensures { OnOk result (out.new.items ≡ out.old.items ++ tables.set_text line) }
{
    if line == 0 {
        return Ok(());
    }
    put(out, b" line ")?;
    put_decimal(out, u64::from(line))
}

// Appends the line of a route.
fn put_route(
    out: &mut Vec<u8>,
    names: &Graph,
    prefix: Value,
    line: u32,
    count: usize,
) -> Result<(), AllocError>
    ensures { OnOk result (out.new.items ≡ out.old.items ++ tables.route_text names.now prefix line count) }
{
    put(out, b"  route ")?;
    put_value(out, names, prefix)?;
    put_set(out, line)?;
    put_last(out, b" matched ", count)
}

// Appends the lines of routes.
fn put_routes(
    out: &mut Vec<u8>,
    names: &Graph,
    tally: &Tally,
    routes: &[(Prefix, u32)],
) -> Result<(), AllocError>
    ensures { OnOk result (out.new.items ≡ out.old.items ++ tables.routes_text names.now (tally_in tally.now).matched routes.now) }
{
    for route in routes {
        let count = tally.matched(route.0);
        put_route(out, names, Value::Prefix(route.0), route.1, count)?;
    }
    Ok(())
}

// The same for IPv6.
fn put_routes6(
    out: &mut Vec<u8>,
    names: &Graph,
    tally: &Tally,
    routes: &[(Prefix6, u32)],
) -> Result<(), AllocError>
    ensures { OnOk result (out.new.items ≡ out.old.items ++ tables.routes6_text names.now (tally_in tally.now).matched6 routes.now) }
{
    for route in routes {
        let count = tally.matched6(route.0);
        put_route(out, names, Value::Prefix6(route.0), route.1, count)?;
    }
    Ok(())
}

// Appends the line of a neighbor.
fn put_neighbor(
    out: &mut Vec<u8>,
    names: &Graph,
    tally: &Tally,
    number: u16,
) -> Result<(), AllocError>
    ensures { OnOk result (out.new.items ≡ out.old.items ++ tables.neighbor_text names.now (tally_in tally.now).left number) }
{
    let count = tally.left(number);
    put(out, b"  neighbor ")?;
    put_value(out, names, Value::Neighbor(number))?;
    put_last(out, b" left ", count)
}

// Appends the lines of the first so many neighbors.
#[tactic(auto, using(crate::proofs::TableLemmas::texts_below_more, std::proofs::lemmas::Grind::common_steps))]
fn put_neighbors(
    out: &mut Vec<u8>,
    names: &Graph,
    tally: &Tally,
    count: u16,
) -> Result<(), AllocError>
    ensures { OnOk result (out.new.items ≡ out.old.items ++ tables.texts_below (tables.neighbor_text names.now (tally_in tally.now).left) count) }
{
    for number in 0..count {
        put_neighbor(out, names, tally, number)?;
    }
    Ok(())
}

// Appends the line of the packets that were transmitted to no neighbor, where there are some.
fn put_alone(out: &mut Vec<u8>, count: usize) -> Result<(), AllocError>
    ensures { OnOk result (out.new.items ≡ out.old.items ++ tables.alone_text count) }
{
    if count == 0 {
        return Ok(());
    }
    put_last(out, b"  no-neighbor left ", count)
}

// Appends the line of an interface.
fn put_tx(out: &mut Vec<u8>, names: &Graph, tally: &Tally, number: u16) -> Result<(), AllocError>
    ensures { OnOk result (out.new.items ≡ out.old.items ++ tables.interface_text names.now (tally_in tally.now).sent number) }
{
    let count = tally.sent(number);
    put(out, b"  interface ")?;
    put_interface(out, names, number)?;
    put_last(out, b" tx ", count)
}

// Appends the lines of the first so many interfaces.
#[tactic(auto, using(crate::proofs::TableLemmas::texts_below_more, std::proofs::lemmas::Grind::common_steps))]
fn put_interfaces(
    out: &mut Vec<u8>,
    names: &Graph,
    tally: &Tally,
    count: u16,
) -> Result<(), AllocError>
    ensures { OnOk result (out.new.items ≡ out.old.items ++ tables.texts_below (tables.interface_text names.now (tally_in tally.now).sent) count) }
{
    for number in 0..count {
        put_tx(out, names, tally, number)?;
    }
    Ok(())
}

// Appends the line of a node's drops with an error, where there are some.
fn put_drop(
    out: &mut Vec<u8>,
    names: &Graph,
    node: u16,
    error: DropError,
    count: usize,
) -> Result<(), AllocError>
    ensures { OnOk result (out.new.items ≡ out.old.items ++ tables.drop_line names.now node error count) }
{
    if count == 0 {
        return Ok(());
    }
    put(out, b"  drop ")?;
    put_node(out, names, node)?;
    put(out, b" ")?;
    put(out, error.word().as_bytes())?;
    put_last(out, b" ", count)
}

// Appends the line of a node's drops with an error, as they were counted.
fn put_error(
    out: &mut Vec<u8>,
    names: &Graph,
    tally: &Tally,
    node: u16,
    error: DropError,
) -> Result<(), AllocError>
    ensures { OnOk result (out.new.items ≡ out.old.items
        ++ tables.drop_line names.now node error ((tally_in tally.now).dropped node error)) }
{
    put_drop(out, names, node, error, tally.dropped(node, error))
}

// Appends the lines of a node's drops with these errors.
fn put_drops_with(
    out: &mut Vec<u8>,
    names: &Graph,
    tally: &Tally,
    node: u16,
    errors: &[DropError],
) -> Result<(), AllocError>
    ensures { OnOk result (out.new.items ≡ out.old.items
        ++ flat_map (λ error. tables.drop_line names.now node error ((tally_in tally.now).dropped node error)) errors.now) }
{
    for error in errors {
        put_error(out, names, tally, node, *error)?;
    }
    Ok(())
}

// Appends the lines of a node's drops.
fn put_node_drops(
    out: &mut Vec<u8>,
    names: &Graph,
    tally: &Tally,
    node: u16,
) -> Result<(), AllocError>
    ensures { OnOk result (out.new.items ≡ out.old.items ++ tables.node_text names.now (tally_in tally.now).dropped node) }
{
    put_drops_with(out, names, tally, node, &DropError::ALL)
}

// Appends the lines of the drops of the first so many nodes.
fn put_drops(out: &mut Vec<u8>, names: &Graph, tally: &Tally, count: u16) -> Result<(), AllocError>
    ensures { OnOk result (out.new.items ≡ out.old.items ++ tables.texts_below (tables.node_text names.now (tally_in tally.now).dropped) count) }
{
    for node in 0..count {
        put_node_drops(out, names, tally, node)?;
    }
    Ok(())
}

// Appends the lines of neighbors, interfaces and drops.
fn put_ends(out: &mut Vec<u8>, names: &Graph, size: Size, tally: &Tally) -> Result<(), AllocError>
    ensures { OnOk result (out.new.items ≡ out.old.items ++ tables.ends_text names.now size (tally_in tally.now)) }
{
    put_neighbors(out, names, tally, size.neighbors)?;
    put_alone(out, tally.alone())?;
    put_interfaces(out, names, tally, size.interfaces)?;
    put_drops(out, names, tally, size.nodes)
}

// Appends the line of the script where a generation begins.
fn put_line(out: &mut Vec<u8>, line: Option<u32>) -> Result<(), AllocError>
    ensures { OnOk result (out.new.items ≡ out.old.items ++ numbered_if (codes " line ") line) }
{
    match line {
        Some(line) => {
            put(out, b" line ")?;
            put_decimal(out, u64::from(line))
        }
        None => Ok(()),
    }
}

// Appends the line that begins the table of a generation.
fn put_head(
    out: &mut Vec<u8>,
    stages: &Stages<'_>,
    generation: u32,
    packets: usize,
) -> Result<(), AllocError>
    ensures { OnOk result (out.new.items ≡ out.old.items ++ tables.head_text stages.now.plan.script generation packets) }
{
    put(out, b"generation ")?;
    put_decimal(out, u64::from(generation))?;
    put(out, b" time ")?;
    put_decimal(out, stages.time(generation))?;
    put_line(out, stages.line(generation))?;
    put_last(out, b" packets ", packets)
}

// The size of a generation's graph.
fn size_of(fork: &Fork) -> Size
    ensures { result ≡ tables.size_of fork.now.graph }
{
    Size {
        neighbors: fork.adjacencies(),
        interfaces: fork.interfaces(),
        nodes: fork.nodes(),
    }
}

// Appends the table of a generation.
fn put_stage(
    out: &mut Vec<u8>,
    stages: &Stages<'_>,
    names: &Graph,
    generation: u32,
    stage: &Stage,
    tally: &Tally,
) -> Result<(), AllocError>
    requires { IsStageOf stages.now.plan generation stage.now }
    ensures { OnOk result (out.new.items ≡ out.old.items ++ tables.table_text stages.now.plan.script names.now generation stage.now.fork.graph (tally_in tally.now)) }
{
    put_head(out, stages, generation, tally.began())?;
    put_routes(out, names, tally, stage.routes.as_slice())?;
    put_routes6(out, names, tally, stage.routes6.as_slice())?;
    put_ends(out, names, size_of(&stage.fork), tally)
}

// Appends the table of a generation that is kept.
fn put_kept(
    out: &mut Vec<u8>,
    stages: &Stages<'_>,
    names: &Graph,
    generation: u32,
    tally: &Tally,
) -> Result<(), AllocError>
    requires { IsSome (kept_at stages.now generation) }
    ensures { OnOk result (out.new.items ≡ out.old.items
        ++ tables.table_at stages.now.plan names.now generation (tally_in tally.now) (slice_get stages.now.plan.graphs generation)) }
{
    match stages.get(generation) {
        Some(stage) => put_stage(out, stages, names, generation, stage, tally),
        None => unreachable!(),
    }
}

// Appends the table of the generation of a number.
fn put_generation(
    out: &mut Vec<u8>,
    stages: &mut Stages<'_>,
    names: &Graph,
    generation: u32,
    tally: &Tally,
) -> Result<(), Memory>
    requires { generation < length stages.old.plan.graphs }
    ensures plan { stages.new.plan ≡ stages.old.plan }
    ensures text { OnOk result (out.new.items ≡ out.old.items
        ++ tables.table_at stages.old.plan names.now generation (tally_in tally.now) (slice_get stages.old.plan.graphs generation)) }
{
    stages.advance_to(generation)?;
    put_kept(out, stages, names, generation, tally)?;
    Ok(())
}

// Appends the tables of all generations.
fn put_generations(
    out: &mut Vec<u8>,
    stages: &mut Stages<'_>,
    names: &Graph,
    tallies: &[Tally],
) -> Result<(), Memory>
    requires { length tallies.now ≡ length stages.old.plan.graphs }
    ensures plan { stages.new.plan ≡ stages.old.plan }
    ensures text { OnOk result (out.new.items ≡ out.old.items ++ tables.tables_text stages.old.plan names.now (map tally_in tallies.now)) }
{
    for generation in 0..stages.generations() {
        put_generation(
            out,
            stages,
            names,
            generation,
            &tallies[generation as usize],
        )?;
    }
    Ok(())
}

// The size of the last graph.
fn last_size(names: &Graph) -> Size
    ensures { result ≡ tables.size_of names.now }
{
    Size {
        neighbors: names.adjacencies(),
        interfaces: names.interfaces(),
        nodes: names.nodes(),
    }
}

// Appends the table of all packets.
fn put_all(
    out: &mut Vec<u8>,
    alloc: Global,
    stages: &Stages<'_>,
    names: &Graph,
    tally: &Tally,
) -> Result<(), AllocError>
    ensures { OnOk result (out.new.items ≡ out.old.items ++ tables.all_text stages.now.plan names.now (tally_in tally.now)) }
{
    let known = stages.prefixes(alloc)?;
    put_last(out, b"all packets ", tally.began())?;
    put_routes(out, names, tally, known.prefixes.as_slice())?;
    put_routes6(out, names, tally, known.prefixes6.as_slice())?;
    put_ends(out, names, last_size(names), tally)
}

/// Appends the table of counts of these entries: that of each generation, that of all packets, and a last line. The names are those of the last
/// graph.
///
/// # Errors
///
/// [`Memory`] where memory runs out.
pub fn put_counts(
    out: &mut Vec<u8>,
    alloc: Global,
    stages: &mut Stages<'_>,
    names: &Graph,
    entries: &[(u32, Entry)],
) -> Result<(), Memory>
    requires { length stages.old.plan.graphs < 2 ^ 32 }
    ensures { OnOk result (out.new.items ≡ out.old.items ++ tables.counts_text stages.old.plan names.now entries.now) }
{
    let log = log_of(alloc, stages.generations(), entries)?;
    put_generations(out, stages, names, log.tallies.as_slice())?;
    put_all(out, alloc, stages, names, &log.all)?;
    put(out, b"end\n")?;
    Ok(())
}
