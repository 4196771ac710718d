// Judging all blocks, each once: one that is verified gets a mark, and below one that is not nothing is hashed. The blocks are numbered in the list's
// order.
ghost use Rattle.std.specs.Prelude.{◌≡◌, ℕ, ◌+◌, ◌-◌, ◌*◌, ◌≤◌, ◌<◌, length, Ok};
ghost use Rattle.number.specs.Blocks.{blocks};
ghost use Rattle.layout.specs.Opening.{opened};
ghost use Rattle.ivfc.specs.Blocks.{parent};
ghost use Rattle.ivfc.specs.Rules.{TreeRules};
ghost use Rattle.ivfc.specs.Verified.{first_not};
ghost use Rattle.ivfc.specs.Views.{level_of, matches, verified};
ghost use Rattle.views.specs.Places.{partitions, committed_view};
ghost use Rattle.views.specs.Rules.{PlacesFit};
ghost use Rattle.faults.specs.Marking.{blocks_before, most_blocks, Free, Sets, upper_marked, Awaits, Judges, Marked};

use super::LAST;
use super::marking::{first_unmarked, mark_row};
use ivfc::gathering::level_of;
use ivfc::verifying::{first_under, parent_of};
use ivfc::{Reader, View};
use layout::Container;
use number::blocks::block_count;
use views::places::committed_view;

// The bytes that hold a mark for each block of an image: half of the largest image has room for 0x100000 entries of 32 bytes, and two master
// hashes for 64 each.
pub const MARKS: usize = 0x20010;

// The view that is judged: the list is that of the committed one.
pub fn view_of(c: Container, q: u64) -> View
    requires { PlacesFit c q }
    ensures { result ≡ committed_view c q }
{
    committed_view(c, q)
}

// The first of the blocks of level i from b on, of n, that stands below one without a mark, else n. `above` is the number of the first block of
// the level above.
fn end_under(view: View, i: u64, b: u64, n: u64, marks: &[u8], above: u64) -> u64
    requires { (TreeRules (level_of view)) × (1 ≤ i) × (i ≤ 4) × (b < n) × (n ≤ most_blocks) × (above ≤ most_blocks) }
    ensures { result ≡ first_not (λ (x : ℕ). upper_marked marks.now i above (parent (level_of view (i - 1)) x)) b (n - b) }
{
    if i == 1 {
        return n;
    }
    let upper = level_of(view, i - 1);
    let first = parent_of(upper, b);
    let last = parent_of(upper, n - 1);
    let found = first_unmarked(marks, above + first, above + last + 1);
    first_under(upper, b, n - 1, found - above)
}

// Hashes the blocks from `first` on, before end, of level i, and marks those that match their entries. `start` is the number of the level's first
// block.
fn mark_matching(reader: Reader<'_>, i: u64, first: u64, end: u64, marks: &mut [u8], start: u64)
    requires within { (1 ≤ i) × (i ≤ 4) × (first ≤ end) × (end ≤ blocks (level_of reader.view i)) }
    requires free { (Free marks.old (start + first)) × (start + end ≤ most_blocks) × (most_blocks ≤ 8 * length marks.old) }
    ensures { Sets marks.old (start + first) (end - first) (λ (j : ℕ). matches reader.entry.view reader.entry.image.now i (first + j)) marks.new }
{
    let mut b = first;
    // A `while`: each turn goes on by as many blocks as were hashed together.
    while b < end {
        let compared = reader.compare_from(i, b, end);
        let each = compared.each;
        mark_row(marks, start + b, &each[..compared.hashed as usize]);
        b += compared.hashed;
    }
}

// Judges level i: marks its verified blocks. `above` and `start` are the numbers of the first blocks of the level above and of its own.
fn mark_level(reader: Reader<'_>, i: u64, above: u64, start: u64, marks: &mut [u8])
    requires within { (1 ≤ i) × (i ≤ 4) × (Awaits reader.view reader.image.now marks.old i above start) }
    requires above_le_start { (above ≤ start) × (start + blocks (level_of reader.view i) ≤ most_blocks) × (most_blocks ≤ 8 * length marks.old) }
    ensures { Sets marks.old start (blocks (level_of reader.entry.view i)) (verified reader.entry.view reader.entry.image.now i) marks.new }
{
    let n = block_count(level_of(reader.view, i));
    let mut b = 0;
    // A `while`: each turn goes on by a run of blocks whose upper blocks are verified.
    while b < n {
        let end = end_under(reader.view, i, b, n, marks, above);
        mark_matching(reader, i, b, end, marks, start);
        // the block at `end`, if there is one, stands below one that is not verified
        b = end + (end < n) as u64;
    }
}

// Judges a view, level by level from the master hash down. `start` is the number of its first block; the answer is the number past its last.
fn mark_view(reader: Reader<'_>, start: u64, marks: &mut [u8]) -> u64
    requires { (Free marks.old start) × (start + blocks_before reader.view 5 ≤ most_blocks) × (most_blocks ≤ 8 * length marks.old) }
    ensures { (result ≡ start + blocks_before reader.entry.view 5) × (Judges reader.entry.view reader.entry.image.now marks.old start 5 marks.new) }
{
    let mut above = start;
    let mut at = start;
    for i in 1..=LAST {
        mark_level(reader, i, above, at, marks);
        above = at;
        at += block_count(level_of(reader.view, i));
    }
    at
}

// Judges all partitions. The marks are lent, and not handed up: there are so many that a copy of them would be most of the stack that a call takes.
pub fn mark_all(c: Container, image: &[u8], marks: &mut [u8])
    requires { (opened image.now ≡ Ok c) × (Free marks.old 0) × (most_blocks ≤ 8 * length marks.old) }
    ensures { Marked c image.now marks.new (partitions c) }
{
    let mut number = 0;
    for q in 0..c.header.count as u64 {
        let view = view_of(c, q);
        number = mark_view(Reader { view, image }, number, marks);
    }
}
