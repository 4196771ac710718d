// Reading level 3 through a half of level 1, in runs that stand in one piece of the image.
ghost use Rattle.std.specs.Prelude.{◌≡◌, cond, ◌+◌, ◌-◌, ◌≤◌, ◌<◌, length, take, drop};
ghost use Rattle.number.specs.Bytes.{bytes};
ghost use Rattle.number.specs.Blocks.{block_of};
ghost use Rattle.dpfs.specs.Tree.{select3, content};
ghost use Rattle.dpfs.specs.Rules.{OneCopy, block_rest};

use super::{Selection, Tree};
use number::blocks::{block_of, block_size};

// The live copy of a block is handed back as a part of whichever of two lent halves the bit names.
pub fn live_part<'a>(
    first: &'a [u8],
    second: &'a [u8],
    bit: bool,
    from: usize,
    to: usize,
) -> &'a [u8]
    requires { (from ≤ to) × (to ≤ length first.now) × (to ≤ length second.now) }
    ensures { result.now ≡ take (to - from) (drop from (cond bit second.now first.now)) }
{
    let half = if bit { second } else { first };
    &half[from..to]
}

// Where the bytes of level 3 from x on end that lie in x's block, and come before end.
pub fn block_end(tree: Tree, x: u64, end: u64) -> u64
    requires { (x ≤ end) × (end ≤ tree.level3.size) × (tree.level3.log ≤ 16) × (tree.level3.size ≤ 0x4000000) }
    ensures { result ≡ x + block_rest tree x end }
{
    let l = tree.level3;
    end.min((block_of(l, x) + 1) * block_size(l))
}

impl<'a> Selection<'a> {
    // Where the bytes of level 3 from x on end that stand in one piece of the image, in the copy that `second` names, and come before end: with
    // the last block in a row that is read in that copy.
    fn run_end(self, second: bool, x: u64, end: u64) -> u64
        requires { (x < end) × (end ≤ self.tree.level3.size) × (second ≡ select3 self.tree self.image.now self.half (block_of self.tree.level3 x)) }
        ensures { (x < result) × (result ≤ end) × (OneCopy self.entry.tree self.entry.image.now self.entry.half second x result) }
    {
        let l = self.tree.level3;
        let first = block_of(l, x);
        let last = block_of(l, end - 1);
        for b in first + 1..=last {
            if self.copy3(b) != second {
                return b * block_size(l);
            }
        }
        end
    }

    // The bytes of level 3 from x on, as far as they stand in one piece and no further than end.
    pub fn run(self, x: u64, end: u64) -> &'a [u8]
        requires { (x < end) × (end ≤ self.tree.level3.size) }
        ensures { (result.now ≡ bytes (content self.entry.tree self.entry.image.now self.entry.half) x (length result.now)) × (0 < length result.now) × (length result.now ≤ end - x) }
    {
        let l = self.tree.level3;
        let image = self.image;
        let second = self.copy3(block_of(l, x));
        let from = x as usize;
        let to = self.run_end(second, x, end) as usize;
        let start = l.offset as usize;
        let middle = start + l.size as usize;
        let stop = middle + l.size as usize;
        live_part(
            &image[start..middle],
            &image[middle..stop],
            second,
            from,
            to,
        )
    }
}
