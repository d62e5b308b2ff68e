//! The lists of a script.
ghost use Rattle.std.specs.Prelude.{◌≡◌};

use crate::scripts::Block;
use std::marker::Model;
use vg_model::Edits;

/// Groups of edits.
#[derive(Drop)]
pub struct Groups(Vec<Edits>);

impl Model for Groups {
    ghost use Rattle.std.specs.Prelude.{List};
    ghost use Rattle.vg_model.specs.declared.edits.EditLine.{EditLine};

    ghost Value = { List (List EditLine) };

    ghost view = { λ g. g.0.items };
}

impl Groups {
    /// The list of these groups.
    pub fn from_vec(groups: Vec<Edits>) -> Groups
        ensures { result ≡ groups.items }
    {
        Groups(groups)
    }

    /// The groups as a slice.
    pub fn as_slice(&self) -> &[Edits]
        ensures { result.now ≡ self.now }
    {
        self.0.as_slice()
    }

    /// The groups as a vector.
    pub fn into_vec(self) -> Vec<Edits>
        ensures { result.items ≡ self }
    {
        self.0
    }
}

/// The blocks of a script.
#[derive(Drop)]
pub struct Blocks(Vec<Block>);

impl Model for Blocks {
    ghost use Rattle.std.specs.Prelude.{List};
    ghost use Rattle.vg_script.specs.declared.scripts.Block.{Block};

    ghost Value = { List Block };

    ghost view = { λ b. b.0.items };
}

impl Blocks {
    /// The list of these blocks.
    pub fn from_vec(blocks: Vec<Block>) -> Blocks
        ensures { result ≡ blocks.items }
    {
        Blocks(blocks)
    }

    /// The blocks as a slice.
    pub fn as_slice(&self) -> &[Block]
        ensures { result.now ≡ self.now }
    {
        self.0.as_slice()
    }

    /// The blocks as a vector.
    pub fn into_vec(self) -> Vec<Block>
        ensures { result.items ≡ self }
    {
        self.0
    }
}
