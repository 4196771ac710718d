// Judging blocks against the hash tree, level by level from the master hash down.
ghost use Rattle.std.specs.Prelude.{◌≡◌, ℕ, suc, ◌+◌, ◌-◌, ◌*◌, ◌^◌, ◌≤◌, ◌<◌, min, max};
ghost use Rattle.number.specs.Blocks.{blocks};
ghost use Rattle.ivfc.specs.Blocks.{parent, child};
ghost use Rattle.ivfc.specs.Verified.{first_not, count_of};
ghost use Rattle.ivfc.specs.Views.{level_of, matches, verified};
ghost use Rattle.ivfc.specs.Rules.{Remembers, first_unverified};

use super::gathering::level_of;
use super::{ENTRY, Reader, Seen, Two};
use number::Level;
use number::blocks::{block_count, block_of, block_size};

// The block of a hash level that holds entry b.
pub fn parent_of(level: Level, b: u64) -> u64
    requires { (level.log < 64) × (32 * b < 2 ^ 64) }
    ensures { result ≡ parent level b }
{
    block_of(level, ENTRY * b)
}

// Of the blocks first to last, the first whose entry stands in block p of the hash level above or in a later one, else the one past last.
pub fn first_under(level: Level, first: u64, last: u64, p: u64) -> u64
    requires { (level.log ≤ 16) × (last < 2 ^ 32) × (p < 2 ^ 32) }
    ensures { result ≡ min (suc last) (max first (child level p)) }
{
    (last + 1).min(first.max(p * block_size(level) / ENTRY))
}

impl Reader<'_> {
    // A block is verified when its entry matches and the block that holds that entry is verified too, one level higher each time; the master
    // hash needs no entry.
    pub fn block_verified(self, i: u64, b: u64) -> bool
        requires { (i ≤ 4) × (b < blocks (level_of self.view i)) }
        ensures { result ≡ verified self.entry.view self.entry.image.now i b }
    {
        if i == 0 {
            return true;
        }
        if !self.block_matches(i, b) {
            return false;
        }
        let upper = level_of(self.view, i - 1);
        self.block_verified(i - 1, parent_of(upper, b))
    }

    // Of the blocks first to last of level i, the first that is not verified, else last + 1, where `above` is the same of the blocks that hold
    // their entries: below one that is not verified nothing is hashed.
    fn judge_below(self, i: u64, first: u64, last: u64, above: u64) -> u64
        requires within { (1 ≤ i) × (i ≤ 4) × (first ≤ last) × (last < blocks (level_of self.view i)) }
        requires above_value { above ≡ first_unverified self.view self.image.now (i - 1) (parent (level_of self.view (i - 1)) first) (parent (level_of self.view (i - 1)) last) }
        ensures { result ≡ first_unverified self.entry.view self.entry.image.now i first last }
    {
        let end = first_under(level_of(self.view, i - 1), first, last, above);
        self.first_mismatch(i, first, end)
    }

    // The first of the blocks first to last of level i that is not verified, else last + 1. The blocks that hold their entries are judged before
    // them; what the memory knows of the levels 1 to 4, so that no hash block is hashed again for the next blocks below it, is not hashed again.
    pub fn judge(self, i: u64, first: u64, last: u64, memory: &mut [Option<Seen>; 4]) -> u64
        requires { (i ≤ 4) × (first ≤ last) × (last < blocks (level_of self.view i)) × (Remembers self.view self.image.now i last memory.old) }
        ensures { (result ≡ first_unverified self.entry.view self.entry.image.now i first last) × (Remembers self.entry.view self.entry.image.now i last memory.new) }
    {
        if i == 0 {
            return last + 1;
        }
        let at = (i - 1) as usize;
        if let Some(seen) = memory[at] {
            if (seen.first <= first) & (first <= seen.end) {
                return seen.end;
            }
        }
        let upper = level_of(self.view, i - 1);
        let above = self.judge(
            i - 1,
            parent_of(upper, first),
            parent_of(upper, last),
            memory,
        );
        let end = self.judge_below(i, first, last, above);
        memory[at] = Some(Seen { first, end });
        end
    }

    // The first of the blocks first to last of level i that is not verified, else last + 1.
    pub fn first_unverified(self, i: u64, first: u64, last: u64) -> u64
        requires { (i ≤ 4) × (first ≤ last) × (last < blocks (level_of self.view i)) }
        ensures { result ≡ first_not (verified self.entry.view self.entry.image.now i) first (suc last - first) }
    {
        let mut memory = [None; 4];
        self.judge(i, first, last, &mut memory)
    }

    // Whether block b of level i is verified, where `above` tells it of the block that holds its entry: below one that is not nothing is hashed.
    fn verified_under(self, i: u64, b: u64, above: bool) -> bool
        requires within { (1 ≤ i) × (i ≤ 4) × (b < blocks (level_of self.view i)) }
        requires above_value { above ≡ verified self.view self.image.now (i - 1) (parent (level_of self.view (i - 1)) b) }
        ensures { result ≡ verified self.entry.view self.entry.image.now i b }
    {
        above && self.block_matches(i, b)
    }

    // Whether blocks a and b of level i are verified. A hash block above both is hashed once.
    pub fn judge_two(self, i: u64, a: u64, b: u64) -> Two
        requires { (i ≤ 4) × (a < blocks (level_of self.view i)) × (b < blocks (level_of self.view i)) }
        ensures { (result.first ≡ verified self.entry.view self.entry.image.now i a) × (result.second ≡ verified self.entry.view self.entry.image.now i b) }
    {
        if i == 0 {
            return Two {
                first: true,
                second: true,
            };
        }
        let upper = level_of(self.view, i - 1);
        let above = self.judge_two(i - 1, parent_of(upper, a), parent_of(upper, b));
        let first = self.verified_under(i, a, above.first);
        if a == b {
            return Two {
                first,
                second: first,
            };
        }
        let second = self.verified_under(i, b, above.second);
        Two { first, second }
    }

    // How many blocks of level 4 match whose entries stand in the blocks p to end - 1 of level 3.
    fn count_under(self, p: u64, end: u64) -> u64
        requires { (0 < blocks (level_of self.view 4)) × (p ≤ end) × (end ≤ blocks (level_of self.view 3)) }
        ensures { result ≡ count_of (λ (j : ℕ). matches self.entry.view self.entry.image.now 4 (min (blocks (level_of self.entry.view 4)) (child (level_of self.entry.view 3) p) + j)) (min (blocks (level_of self.entry.view 4)) (child (level_of self.entry.view 3) end) - min (blocks (level_of self.entry.view 4)) (child (level_of self.entry.view 3) p)) }
    {
        let hash = level_of(self.view, 3);
        let last = block_count(level_of(self.view, 4)) - 1;
        self.count_matching(
            4,
            first_under(hash, 0, last, p),
            first_under(hash, 0, last, end),
        )
    }

    // How many blocks of level 4 are verified: those that match below each row of verified blocks of level 3.
    pub fn count_verified(self) -> u64
        ensures { result ≡ count_of (verified self.entry.view self.entry.image.now 4) (blocks (level_of self.entry.view 4)) }
    {
        let n = block_count(level_of(self.view, 4));
        if n == 0 {
            return 0;
        }
        let last = parent_of(level_of(self.view, 3), n - 1);
        let mut memory = [None; 4];
        let mut count = 0;
        let mut p = 0;
        // A `while`: each turn goes on behind the row of verified blocks that it found.
        while p <= last {
            let end = self.judge(3, p, last, &mut memory);
            count += self.count_under(p, end);
            p = end + 1;
        }
        count
    }
}
