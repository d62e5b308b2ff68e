//! Why an edit of the graph is refused.

/// The first check of an edit that fails, or want of memory.
#[derive(Clone, Copy, Debug, PartialEq, Eq)]
pub enum GraphError {
    /// A node of this name is there.
    DoubleName,
    /// No node has this name.
    UnknownNode,
    /// The node's kind has no slot of this name.
    UnknownSlot,
    /// Packets come into the target by no arc: it is of kind `PgInput` or `HandoffDequeue`.
    BadTarget,
    /// From the target one comes back to the node over arcs, or the two are one.
    Cycle,
    /// 64 nodes, 16 interfaces or 256 adjacencies are there.
    TooMany,
    /// No interface has this name.
    UnknownInterface,
    /// Memory ran out.
    Memory,
}
