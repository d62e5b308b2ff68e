//! The forks of a generation.
ghost use Rattle.std.specs.Prelude.{◌≡◌, ◌≤◌, IfOk, length};
ghost use Rattle.std.specs.List.{AllByRecursion};

use std::alloc::Global;
use vg_fork::Fork;
use vg_model::Memory;
use vg_plan::Master;

// The fork of main's graph under a generation, in the memory of a fork that no worker has any more where there is one.
fn fork_of(
    alloc: Global,
    master: &Master,
    generation: u32,
    spare: Option<Fork>,
) -> Result<Fork, Memory>
    ensures { IfOk result (λ fork. fork ≡ record { graph = master.now; generation = generation }) }
{
    let graph = master.graph();
    let (fib, fib6) = (master.fib(), master.fib6());
    match spare {
        Some(fork) => fork.renewed(alloc, graph, fib, fib6, generation),
        None => Fork::of(alloc, graph, fib, fib6, generation),
    }
}

/// A fork of main's graph for each worker, under one generation. Their trie and spans are made once, in the memory of a fork that no
/// worker has any more where there is one, and shared.
///
/// # Errors
///
/// [`Memory`] where memory runs out.
pub fn forks_of(
    alloc: Global,
    master: &Master,
    generation: u32,
    workers: usize,
    spare: Option<Fork>,
) -> Result<Vec<Fork>, Memory>
    requires { 1 ≤ workers }
    ensures count { IfOk result (λ forks. length forks.items ≡ workers) }
    ensures each { IfOk result (λ forks. AllByRecursion (λ f. f ≡ record { graph = master.now; generation = generation }) forks.items) }
{
    let mut forks = Vec::with_capacity(alloc, workers)?;
    let last = fork_of(alloc, master, generation, spare)?;
    for _other in 1..workers {
        forks.push_reserved(last.shared(alloc)?);
    }
    forks.push_reserved(last);
    Ok(forks)
}
