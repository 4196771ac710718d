// The hash tree of a partition: which blocks are verified, and the bytes of a level.
#![tactic(auto)]

ghost use Rattle.std.specs.Prelude.{length};
ghost use Rattle.ivfc.specs.Rules.{ViewRules};

use dpfs::Tree;
use number::{Level, Range};

// The size of an entry, which is a digest.
pub const ENTRY: u64 = 32;

pub mod gathering;
pub mod hashing;
pub mod matching;
pub mod verifying;

// A view of a partition. `tree` is its DPFS, `half` the half of DPFS level 1 that the view goes by, `master` where its master hash stands
// in the image. Levels 1 to 4 lie in DPFS level 3, but for an external level 4, which starts at `outside` of the image.
#[derive(Clone, Copy)]
pub struct View {
    pub tree: Tree,
    pub half: bool,
    pub master: Range,
    pub level1: Level,
    pub level2: Level,
    pub level3: Level,
    pub level4: Level,
    pub external: bool,
    pub outside: u64,
}

// A view that is read: with the image that it is of, in which it lies as the rules say.
#[derive(Clone, Copy)]
pub struct Reader<'a> {
    pub view: View,
    pub image: &'a [u8],
    pub ghost rules: { ∥ ViewRules view (length image.now) ∥₁ },
}

// The digests of blocks in a row: so many of 32 bytes each, at the front of `bytes`. (A count beside room for eight: there is no heap.)
#[derive(Clone, Copy)]
pub struct Digests {
    pub count: u64,
    pub bytes: [u8; 256],
}

// How blocks in a row compare with their entries: how many were hashed, how many match before the first that does not, how many match, and
// which, at the front of `each`. (A count beside room for eight: there is no heap.)
#[derive(Clone, Copy)]
pub struct Compared {
    pub hashed: u64,
    pub before: u64,
    pub matching: u64,
    pub each: [bool; 8],
}

// What is remembered of a level: its blocks from `first` on are verified up to `end`, which is not, or is past the last that is asked for.
#[derive(Clone, Copy)]
pub struct Seen {
    pub first: u64,
    pub end: u64,
}

// Whether each of two blocks is verified.
#[derive(Clone, Copy)]
pub struct Two {
    pub first: bool,
    pub second: bool,
}
