//! A depth-first search over arcs, with a mark for each node that is reached.
ghost use Rattle.std.specs.Prelude.{◌≡◌, ◌<◌, ◌∷◌, [], ◌++◌, length, slice_get, Some, IfNone, option_to_list};
ghost use Rattle.std.specs.List.{AllByRecursion};
ghost use Rattle.vg_graph.specs.Reach.{HasRoom, Reaches, IsFirst};

use arrayvec::ArrayVec;
use vg_model::limits::MOST_NODES;

/// The nodes reached so far, of at most [`MOST_NODES`], and those of them whose arcs are still to be followed.
#[derive(Drop)]
pub struct Search {
    pub reached: [bool; MOST_NODES],
    pub waiting: ArrayVec<u16, MOST_NODES>,
}

impl Search {
    /// A search that has reached this node alone.
    pub fn from(node: u16) -> Search
        requires { node < 64 }
        ensures first { IsFirst result node }
    {
        let mut search = Search {
            reached: [false; MOST_NODES],
            waiting: ArrayVec::new(),
        };
        search.reach(node);
        search
    }

    /// Whether the node is reached.
    pub fn has_reached(&self, node: u16) -> bool
        requires { node < length self.now.reached }
        ensures { slice_get self.now.reached node ≡ Some result }
    {
        self.reached[node as usize]
    }

    /// A reached node whose arcs are still to be followed; `None` where there is none.
    pub fn next(&mut self) -> Option<u16>
        ensures reached { self.new.reached ≡ self.old.reached }
        ensures waiting { self.old.waiting.items ≡ self.new.waiting.items ++ option_to_list result }
        ensures last { IfNone result (self.old.waiting.items ≡ []) }
    {
        self.waiting.pop()
    }

    /// The node is reached.
    fn reach(&mut self, node: u16)
        requires small { node < 64 }
        requires room { HasRoom self.old }
        ensures { Reaches self.old self.new (node ∷ []) 1 }
    {
        if !self.reached[node as usize] {
            self.reached[node as usize] = true;
            self.waiting.push(node);
        }
    }

    /// All of these nodes are reached.
    pub fn reach_all(&mut self, nodes: &[u16])
        requires small { AllByRecursion (λ node. node < 64) nodes.now }
        requires room { HasRoom self.old }
        ensures { Reaches self.old self.new nodes.now (length nodes.now) }
    {
        for node in nodes {
            self.reach(*node);
        }
    }
}
