// The list: each next block without a mark is found, level by level, put into the row and counted. Nothing is hashed here.
ghost use Rattle.std.specs.Prelude.{MatchOption, ◌≡◌, ℕ, ◌+◌, ◌-◌, ◌<◌, ◌≤◌, length, slice_set};
ghost use Rattle.number.specs.Marks.{marked};
ghost use Rattle.layout.specs.Refusals.{Answers, count_says};
ghost use Rattle.ivfc.specs.Verified.{first_not};
ghost use Rattle.views.specs.Places.{partitions};
ghost use Rattle.views.specs.Rules.{PlacesFit};
ghost use Rattle.faults.specs.Faults.{blocks_from, levels_from, all_blocks, kept, faults, count_faults, row_after};
ghost use Rattle.faults.specs.Marking.{blocks_in, most_blocks, is_unmarked, Searchable};
ghost use Rattle.faults.specs.Listing.{Lists, Reaches};

use super::judging::{MARKS, mark_all, view_of};
use super::marking::first_unmarked;
use super::{Fault, LAST, Listed};
use ivfc::gathering::level_of;
use layout::opening::open;
use layout::{Container, Refusal};
use number::blocks::block_count;
use steps::answers::refusal_of;

// The partition and the level that come first.
const A: u64 = 0;

const FIRST: u64 = 1;

// How many blocks level i of partition q has.
fn blocks_of(c: Container, q: u64, i: u64) -> u64
    requires { PlacesFit c q }
    ensures { result ≡ blocks_in c q i }
{
    block_count(level_of(view_of(c, q), i))
}

// The next fault of level i of partition q from block b on, of the level's n blocks: the first that has no mark. `start` is the number of the level's
// first block.
fn next_fault(marks: &[u8], q: u64, i: u64, start: u64, b: u64, n: u64) -> Option<Fault>
    requires { (b ≤ n) × (start + n ≤ most_blocks) }
    ensures { let first = first_not (λ (x : ℕ). marked marks.now (start + x)) b (n - b) in MatchOption result (first ≡ n) (λ fault. (fault.partition ≡ q) × (fault.level ≡ i) × (fault.block ≡ first) × (b ≤ first) × (first < n)) }
{
    let block = first_unmarked(marks, start + b, start + n) - start;
    if block < n {
        return Some(Fault {
            partition: q,
            level: i,
            block,
        });
    }
    None
}

// Puts a fault into the record after those of the faults before it, if the row has one, and counts it in any case.
fn report(row: &mut [Fault], faults: usize, fault: Fault) -> usize
    requires { faults < most_blocks }
    ensures { (row.new ≡ slice_set row.old faults fault) × (result ≡ faults + 1) }
{
    if faults < row.len() {
        row[faults] = fault;
    }
    faults + 1
}

// Lists the blocks of a level that have no mark.
fn list_level(
    c: Container,
    q: u64,
    i: u64,
    marks: &[u8],
    row: &mut [Fault],
    before: Listed,
) -> Listed
    requires { (Searchable c) × (q < partitions c) × (1 ≤ i) × (i ≤ 4) × (Reaches c q i before) }
    ensures lists { Lists c marks.now row.old before.faults (blocks_from q i 0 (blocks_in c q i)) row.new result.faults }
    ensures reaches { Reaches c q (i + 1) result }
{
    let n = blocks_of(c, q, i);
    let mut faults = before.faults;
    let mut b = 0;
    // A `while`: each turn goes on behind the fault that was found.
    while let Some(fault) = next_fault(marks, q, i, before.blocks, b, n) {
        faults = report(row, faults, fault);
        b = fault.block + 1;
    }
    Listed {
        blocks: before.blocks + n,
        faults,
    }
}

// Lists those of a partition.
fn list_partition(c: Container, q: u64, marks: &[u8], row: &mut [Fault], before: Listed) -> Listed
    requires { (Searchable c) × (q < partitions c) × (Reaches c q 1 before) }
    ensures lists { Lists c marks.now row.old before.faults (levels_from c q 1 4) row.new result.faults }
    ensures reaches { Reaches c (q + 1) 1 result }
{
    let mut listed = before;
    for i in FIRST..=LAST {
        listed = list_level(c, q, i, marks, row, listed);
    }
    listed
}

// Fills a row with the first blocks that have no mark, as far as it goes, and counts them all.
pub fn fill(c: Container, marks: &[u8], row: &mut [Fault]) -> usize
    requires { Searchable c }
    ensures { (result ≡ length (kept (is_unmarked c marks.now) (all_blocks c))) × (row.new ≡ row_after (kept (is_unmarked c marks.now) (all_blocks c)) row.old) }
{
    let mut listed = Listed {
        blocks: 0,
        faults: 0,
    };
    for q in A..c.header.count as u64 {
        listed = list_partition(c, q, marks, row, listed);
    }
    listed.faults
}

// Fills a row with the first faults, as far as it goes, and counts them all. The image is opened once, and each block is judged once before the row
// is filled.
pub fn list(image: &[u8], row: &mut [Fault]) -> Result<u64, Refusal>
    ensures { (Answers count_says result (count_faults image.now)) × (row.new ≡ row_after (faults image.now) row.old) }
{
    let answer = open(image);
    let Ok(c) = answer else {
        return Err(refusal_of(answer));
    };
    let mut marks = [0u8; MARKS];
    mark_all(c, image, &mut marks);
    let count = fill(c, &marks, row);
    Ok(count as u64)
}
