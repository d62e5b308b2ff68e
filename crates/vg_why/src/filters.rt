//! Which packets are printed.
ghost use Rattle.std.specs.Prelude.{◌≡◌};
ghost use Rattle.std.specs.List.{list_any};
ghost use Rattle.vg_why.specs.Asked.{filter_shown, asked_shown};
ghost use Rattle.vg_why.specs.Filters as specs;

use crate::asks::Asked;
use crate::routes::Route;
use vg_graph::Graph;
use vg_model::{DropError, End};
use vg_story::{Fact, Piece, Value, Word};

/// Which packets are printed: all that meet each condition that is there.
#[derive(Clone, Copy, Debug)]
pub struct Filter<'a> {
    /// Those that were dropped with this error.
    pub drop: Option<DropError>,
    /// Those for which a look-up chose the neighbor of this name, or a rewrite was.
    pub via: Option<&'a str>,
    /// Those for which a look-up matched this route.
    pub route: Option<Route>,
    /// Those that visited the node of this name.
    pub node: Option<&'a str>,
    /// Those from this number on.
    pub from: u32,
    /// Those up to this number.
    pub to: u32,
}

// Whether a packet was dropped with an error.
fn ends_with(error: DropError, end: End) -> bool
    ensures { result ≡ specs.ends_with error end }
{
    match end {
        End::Dropped { error: other, .. } => other.number() == error.number(),
        End::Tx { .. } => false,
    }
}

// Whether a piece is a visit of the node of this name.
fn is_visit(graph: &Graph, name: &str, piece: Piece) -> bool
    ensures { result ≡ specs.is_visit graph.now name.now piece }
{
    match piece {
        Piece::Visit { node } if node < graph.nodes() => {
            graph.node_name(node).bytes() == name.as_bytes()
        }
        _ => false,
    }
}

// Whether a fact names the neighbor of this name.
fn names_neighbor(graph: &Graph, name: &str, fact: Fact) -> bool
    ensures { result ≡ specs.names_neighbor graph.now name.now fact.word fact.value }
{
    match (fact.word, fact.value) {
        (Word::Via, Value::Neighbor(number)) if number < graph.adjacencies() => {
            graph.adjacency_at(number).name.bytes() == name.as_bytes()
        }
        _ => false,
    }
}

// Whether a piece names the neighbor of this name.
fn is_via(graph: &Graph, name: &str, piece: Piece) -> bool
    ensures { result ≡ specs.is_via graph.now name.now piece }
{
    match piece {
        Piece::Because(fact) => names_neighbor(graph, name, fact),
        _ => false,
    }
}

// Whether a fact names this route.
fn names_route(route: Route, fact: Fact) -> bool
    ensures { result ≡ specs.names_route route fact.word fact.value }
{
    match fact.word {
        Word::Route => route.is_of(fact.value),
        _ => false,
    }
}

// Whether a piece names this route.
fn is_route(route: Route, piece: Piece) -> bool
    ensures { result ≡ specs.is_route route piece }
{
    match piece {
        Piece::Because(fact) => names_route(route, fact),
        _ => false,
    }
}

// Whether a packet met the condition on its error, if there is one.
fn meets_drop(filter: &Filter<'_>, end: End) -> bool
    ensures { result ≡ specs.where_given (λ error. specs.ends_with error end) filter.now.drop }
{
    match filter.drop {
        Some(error) => ends_with(error, end),
        None => true,
    }
}

// Whether one of the pieces is a visit of the node of this name.
fn has_visit(graph: &Graph, name: &str, pieces: &[Piece]) -> bool
    ensures { result ≡ list_any (specs.is_visit graph.now name.now) pieces.now }
{
    pieces.iter().any(|piece| is_visit(graph, name, *piece))
}

// Whether one of the pieces names the neighbor of this name.
fn has_via(graph: &Graph, name: &str, pieces: &[Piece]) -> bool
    ensures { result ≡ list_any (specs.is_via graph.now name.now) pieces.now }
{
    pieces.iter().any(|piece| is_via(graph, name, *piece))
}

// Whether one of the pieces names this route.
fn has_route(route: Route, pieces: &[Piece]) -> bool
    ensures { result ≡ list_any (specs.is_route route) pieces.now }
{
    pieces.iter().any(|piece| is_route(route, *piece))
}

// The same of the node that it visited.
fn meets_node(filter: &Filter<'_>, graph: &Graph, pieces: &[Piece]) -> bool
    ensures { result ≡ specs.where_given (λ name. list_any (specs.is_visit graph.now name) pieces.now) (filter_shown filter.now).node }
{
    match filter.node {
        Some(name) => has_visit(graph, name, pieces),
        None => true,
    }
}

// The same of its neighbor.
fn meets_via(filter: &Filter<'_>, graph: &Graph, pieces: &[Piece]) -> bool
    ensures { result ≡ specs.where_given (λ name. list_any (specs.is_via graph.now name) pieces.now) (filter_shown filter.now).via }
{
    match filter.via {
        Some(name) => has_via(graph, name, pieces),
        None => true,
    }
}

// The same of its route.
fn meets_route(filter: &Filter<'_>, pieces: &[Piece]) -> bool
    ensures { result ≡ specs.where_given (λ route. list_any (specs.is_route route) pieces.now) filter.now.route }
{
    match filter.route {
        Some(route) => has_route(route, pieces),
        None => true,
    }
}

// Whether a packet that ended so, whose way these pieces show, passes the filter, but for its number.
fn passes(filter: &Filter<'_>, graph: &Graph, end: End, pieces: &[Piece]) -> bool
    ensures { result ≡ specs.passes graph.now (filter_shown filter.now) end pieces.now }
{
    meets_drop(filter, end)
        && meets_node(filter, graph, pieces)
        && meets_via(filter, graph, pieces)
        && meets_route(filter, pieces)
}

/// Whether a packet that ended so, whose way these pieces show, meets what is asked for, but for its number.
pub(crate) fn meets(asked: &Asked<'_>, graph: &Graph, end: End, pieces: &[Piece]) -> bool
    ensures { result ≡ specs.meets graph.now (asked_shown asked.now) end pieces.now }
{
    match asked {
        Asked::Packets(_) => true,
        Asked::All(filter) => passes(filter, graph, end, pieces),
        Asked::Counts => false,
    }
}
