//! Sets of nodes.
ghost use Rattle.std.specs.Prelude.{◌≡◌, ℕ, ◌<◌, MatchOption};
ghost use Rattle.std.specs.Int.{bit_at};
ghost use Rattle.vg_frame.specs.NodeSet.{SetsBit, IsLowest};

/// A set of nodes whose numbers are below 64.
#[derive(Clone, Copy)]
pub struct NodeSet {
    // A bit for each node.
    pub bits: u64,
}

impl NodeSet {
    /// The set of no node.
    pub fn new() -> NodeSet
        ensures { result.bits ≡ 0 }
    {
        NodeSet { bits: 0 }
    }

    /// The lowest node; `None` where the set has none.
    pub fn lowest(&self) -> Option<u16>
        ensures { MatchOption result (self.now.bits ≡ 0) (IsLowest self.now.bits) }
    {
        if self.bits == 0 {
            return None;
        }
        Some(self.bits.trailing_zeros() as u16)
    }

    /// The node is in the set.
    pub fn insert(&mut self, node: u16)
        requires { node < 64 }
        ensures { SetsBit self.old.bits self.new.bits node 1 }
    {
        self.bits |= 1 << node;
    }

    /// The node isn't in the set.
    pub fn remove(&mut self, node: u16)
        requires { node < 64 }
        ensures { SetsBit self.old.bits self.new.bits node 0 }
    {
        self.bits &= !(1 << node);
    }
}
