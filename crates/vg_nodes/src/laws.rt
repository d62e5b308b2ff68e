//! A law of sorted frames: a function whose contract is the law.
ghost use Rattle.vg_nodes.specs.Laws.{EachIndexIsInOneList};

/// Each index of a frame stands in exactly one list, with what its packet's step says: whatever is counted of indexes and their
/// steps, it is the same over the frame and over the four lists together.
pub fn each_index_is_in_one_list()
    ensures { EachIndexIsInOneList }
{}
