// The DPFS tree of a partition: which copy of a block is live, and the staged copies beside it.
#![tactic(auto)]

ghost use Rattle.std.specs.Prelude.{length};
ghost use Rattle.dpfs.specs.Rules.{WellPlaced};

use number::{Level, Range};

pub mod bits;
pub mod reading;

// The three levels of a partition's DPFS, each a pair of halves: its place in the image, the size of one half, the logarithm of its block
// size. Level 1 has no blocks: its logarithm is not used. `live` is the half of level 1 that the active table's selector names.
#[derive(Clone, Copy)]
pub struct Tree {
    pub level1: Level,
    pub level2: Level,
    pub level3: Level,
    pub live: bool,
}

// Which copies of a tree's blocks are read: those that its bits name, seen from one half of level 1 (`half` says which), in the image that the tree
// is of, in which it lies as the rules say.
#[derive(Clone, Copy)]
pub struct Selection<'a> {
    pub tree: Tree,
    pub image: &'a [u8],
    pub half: bool,
    pub ghost placed: { ∥ WellPlaced tree (length image.now) ∥₁ },
}

// What a session may store to, beside an external level 4: free places of the inactive table and of the trees of partition A and, where there is one,
// of B.
#[derive(Clone, Copy)]
pub struct Space {
    pub table: Range,
    pub a: Tree,
    pub b: Option<Tree>,
}
