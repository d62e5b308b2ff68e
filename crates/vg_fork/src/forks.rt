//! Forks.
ghost use Rattle.std.specs.Prelude.{◌≡◌, ◌<◌, Some, IfOk, IfSome, length, slice_get};
ghost use Rattle.std.specs.Option.{option_copied};
ghost use Rattle.vg_model.specs.Graph.{kind_at, slots, arc as arc_of};
ghost use Rattle.vg_model.specs.Route.{best_route, best_route6};
ghost use Rattle.vg_graph.specs.View.{IsKept};
ghost use Rattle.vg_fork.specs.Forked.{forked, IsForked};

use std::alloc::Global;
use std::marker::Model;
use std::sync::Arc;
use vg_fib::{Fib, Fib6, Mtrie, Spans6};
use vg_graph::Graph;
use vg_model::{Adjacency, Interface, Kind, Memory, RouteTo};

/// One generation of the whole graph: its nodes, interfaces and adjacencies by number, its IPv4 routes in a trie, and its IPv6
/// routes in spans.
///
/// Forks of one generation can share trie and spans ([`Fork::shared`]), which are not changed while more than one fork has them.
#[derive(Drop)]
pub struct Fork {
    graph: Graph,
    trie: Arc<Mtrie, Global>,
    spans: Arc<Spans6, Global>,
    generation: u32,
}

impl Model for Fork {
    ghost use Rattle.vg_fork.specs.Forked.{Forked};

    ghost Value = { Forked };

    ghost use Rattle.vg_fork.specs.View.{view_of, IsFork};

    ghost view = { view_of };

    ghost invariant = { IsFork };
}

impl Fork {
    /// The fork of this graph with the routes of these tables, under this generation.
    ///
    /// # Errors
    ///
    /// [`Memory`] where memory runs out.
    pub fn of(
        alloc: Global,
        graph: &Graph,
        fib: &Fib,
        fib6: &Fib6,
        generation: u32,
    ) -> Result<Fork, Memory>
        ensures { IfOk result (λ fork. fork ≡ forked graph.now fib.now fib6.now generation) }
    {
        let trie = Mtrie::build(alloc, fib)?;
        let spans = Spans6::build(alloc, fib6)?;
        Fork::over(alloc, graph, trie, spans, generation)
    }

    /// The same as [`Fork::of`]. Where no other fork shares this fork's trie, that is brought up to date in place; else it stays as
    /// it is, and a new one is built. So it is with the spans. The graph is copied anew.
    ///
    /// # Errors
    ///
    /// [`Memory`] where memory runs out.
    pub fn renewed(
        self,
        alloc: Global,
        graph: &Graph,
        fib: &Fib,
        fib6: &Fib6,
        generation: u32,
    ) -> Result<Fork, Memory>
        ensures { IfOk result (λ fork. fork ≡ forked graph.now fib.now fib6.now generation) }
    {
        let Fork { trie, spans, .. } = self;
        let trie = match Arc::try_unwrap(trie) {
            Ok(trie) => trie.renewed(alloc, fib)?,
            Err(_) => Mtrie::build(alloc, fib)?,
        };
        let spans = match Arc::try_unwrap(spans) {
            Ok(spans) => spans.renewed(fib6)?,
            Err(_) => Spans6::build(alloc, fib6)?,
        };
        Fork::over(alloc, graph, trie, spans, generation)
    }

    /// An equal fork, for another worker: it shares trie and spans.
    ///
    /// # Errors
    ///
    /// [`Memory`] where memory runs out.
    pub fn shared(&self, alloc: Global) -> Result<Fork, Memory>
        ensures { IfOk result (λ fork. fork ≡ self.now) }
    {
        let trie = Arc::try_clone(&self.trie)?;
        let spans = Arc::try_clone(&self.spans)?;
        Ok(Fork {
            graph: self.graph.copy(alloc)?,
            trie,
            spans,
            generation: self.generation,
        })
    }

    // The fork of this graph with the routes of this trie and of these spans.
    fn over(
        alloc: Global,
        graph: &Graph,
        trie: Mtrie,
        spans: Spans6,
        generation: u32,
    ) -> Result<Fork, Memory>
        ensures { IfOk result (λ fork. fork ≡ forked graph.now trie spans generation) }
    {
        know_kept(graph);
        let trie = Arc::new(alloc, trie)?;
        let spans = Arc::new(alloc, spans)?;
        Ok(Fork {
            graph: graph.copy(alloc)?,
            trie,
            spans,
            generation,
        })
    }

    /// The generation.
    pub fn generation(&self) -> u32
        ensures { result ≡ self.now.generation }
    {
        self.generation
    }

    /// How many nodes there are.
    pub fn nodes(&self) -> u16
        ensures count { result ≡ length self.now.graph.nodes }
        ensures kept { IsForked self.now }
    {
        self.graph.nodes()
    }

    /// How many interfaces there are.
    pub fn interfaces(&self) -> u16
        ensures count { result ≡ length self.now.graph.interfaces }
        ensures kept { IsForked self.now }
    {
        self.graph.interfaces()
    }

    /// How many adjacencies there are.
    pub fn adjacencies(&self) -> u16
        ensures count { result ≡ length self.now.graph.adjacencies }
        ensures kept { IsForked self.now }
    {
        self.graph.adjacencies()
    }

    /// The kind of a node.
    pub fn kind(&self, n: u16) -> Kind
        requires { n < length self.now.graph.nodes }
        ensures kind { kind_at self.now.graph n ≡ Some result }
        ensures kept { IsForked self.now }
    {
        self.graph.kind(n)
    }

    /// The node that a slot of a node leads to.
    pub fn arc(&self, n: u16, slot: u8) -> u16
        requires node { n < length self.now.graph.nodes }
        requires slot { IfSome (kind_at self.now.graph n) (λ kind. slot < length (slots kind)) }
        ensures { arc_of self.now.graph n slot ≡ Some result }
    {
        self.graph.arc(n, slot)
    }

    /// An interface.
    pub fn interface(&self, n: u16) -> &Interface
        requires { n < length self.now.graph.interfaces }
        ensures interface { slice_get self.now.graph.interfaces n ≡ Some result.now }
        ensures kept { IsForked self.now }
    {
        self.graph.interface_at(n)
    }

    /// An adjacency.
    pub fn adjacency(&self, n: u16) -> &Adjacency
        requires { n < length self.now.graph.adjacencies }
        ensures adjacency { slice_get self.now.graph.adjacencies n ≡ Some result.now }
        ensures kept { IsForked self.now }
    {
        self.graph.adjacency_at(n)
    }

    /// The target of the longest IPv4 prefix that covers an address, which is in the host's order; `None` exactly where no
    /// prefix covers it.
    pub fn target(&self, address: u32) -> Option<&RouteTo>
        ensures { option_copied result ≡ best_route self.now.graph.routes address }
    {
        self.trie.target(address)
    }

    /// The same as [`Fork::target`], as a value.
    pub fn find(&self, address: u32) -> Option<RouteTo>
        ensures { result ≡ best_route self.now.graph.routes address }
    {
        self.trie.find(address)
    }

    /// The target of the longest IPv6 prefix that covers an address, which is in the host's order; `None` exactly where no
    /// prefix covers it.
    pub fn target6(&self, address: u128) -> Option<&RouteTo>
        ensures { option_copied result ≡ best_route6 self.now.graph.routes6 address }
    {
        self.spans.target(address)
    }

    /// The same as [`Fork::target6`], as a value.
    pub fn find6(&self, address: u128) -> Option<RouteTo>
        ensures { result ≡ best_route6 self.now.graph.routes6 address }
    {
        self.spans.find(address)
    }
}

// Every graph is valid and keeps the limits.
fn know_kept(graph: &Graph)
    ensures { IsKept graph.now }
{
    let _ = graph.nodes();
}
