//! A packet that is taken through the nodes that it visits.
ghost use Rattle.std.specs.Prelude.{◌≡◌, ◌++◌, ◌<◌, OnOk, IfSome};
ghost use Rattle.vg_model.specs.Graph.{kind_at};
ghost use Rattle.vg_model.specs.Valid.{IsTarget};
ghost use Rattle.vg_story.specs.Visits as told;

use crate::chains::Chain;
use crate::changes::put_changes;
use crate::fronts::Front;
use crate::pieces::Piece;
use crate::reasons::put_reasons;
use crate::stages::Stage;
use std::alloc::AllocError;
use vg_fork::Fork;
use vg_model::Kind;
use vg_nodes::KindSet;

// The kind by which a packet is visited at a node: none where no arc may lead, since packets come in there.
fn visited_kind(fork: &Fork, node: u16) -> Option<Kind>
    ensures kind { result ≡ told.visited_kind (kind_at fork.now.graph node) }
    ensures target { IfSome result (λ kind. IsTarget (kind_at fork.now.graph node)) }
{
    if node >= fork.nodes() {
        return None;
    }
    let kind = fork.kind(node);
    if kind.is_source() { None } else { Some(kind) }
}

// Takes a packet through a visit of a node, and adds what it decided by and what it changed.
fn put_visit<K: KindSet>(
    pieces: &mut Vec<Piece>,
    kinds: &K,
    stage: &Stage,
    workers: u8,
    node: u16,
    chain: &mut Chain,
) -> Result<(), AllocError>
    requires { 0 < workers }
    ensures pieces { OnOk result (pieces.new.items ≡ pieces.old.items ++ told.told_visit K.meaning stage.now workers node chain.old) }
    ensures packet { OnOk result (chain.new ≡ told.after_visit K.meaning stage.now.fork.graph node chain.old) }
{
    pieces.push(Piece::Visit { node })?;
    let Some(kind) = visited_kind(&stage.fork, node) else {
        return Ok(());
    };
    let before = Front::of(chain.as_buffer());
    let step = chain.visit(kinds, &stage.fork, node);
    let buffer = chain.as_buffer();
    put_reasons(pieces, stage, workers, kind, &before, step, buffer)?;
    put_changes(pieces, &before, &Front::of(buffer))
}

/// Takes the packet of a chain through visits of these nodes of a generation, one after the other, and adds what each decided by and what
/// it changed. Nodes that the graph doesn't have, and those where packets come in, leave the packet as it is.
///
/// # Errors
///
/// [`AllocError`] where memory runs out.
pub fn put_visits<K: KindSet>(
    pieces: &mut Vec<Piece>,
    kinds: &K,
    stage: &Stage,
    workers: u8,
    nodes: &[u16],
    chain: &mut Chain,
) -> Result<(), AllocError>
    requires { 0 < workers }
    ensures pieces { OnOk result (pieces.new.items ≡ pieces.old.items ++ told.told_visits K.meaning stage.now workers nodes.now chain.old) }
    ensures packet { OnOk result (chain.new ≡ told.after_visits K.meaning stage.now.fork.graph nodes.now chain.old) }
{
    for node in nodes {
        put_visit(pieces, kinds, stage, workers, *node, chain)?;
    }
    Ok(())
}
