// Marks in a row: the first number that has none, and several set at once.
ghost use Rattle.std.specs.Prelude.{◌≡◌, false, ℕ, ◌+◌, ◌-◌, ◌*◌, ◌≤◌, length, get_or};
ghost use Rattle.number.specs.Marks.{marked};
ghost use Rattle.ivfc.specs.Verified.{first_not};
ghost use Rattle.faults.specs.Marking.{most_blocks, Free, Sets};

use number::marks::{is_marked, set_mark};

// The first number from `first` on, before end, that has no mark, else end.
pub fn first_unmarked(marks: &[u8], first: u64, end: u64) -> u64
    requires { first ≤ end }
    ensures { result ≡ first_not (marked marks.now) first (end - first) }
{
    for x in first..end {
        if !is_marked(marks, x) {
            return x;
        }
    }
    end
}

// Marks those of some numbers in a row that are good.
pub fn mark_row(marks: &mut [u8], number: u64, each: &[bool])
    requires { (Free marks.old number) × (number + length each.now ≤ most_blocks) × (most_blocks ≤ 8 * length marks.old) }
    ensures { Sets marks.old number (length each.now) (λ (j : ℕ). get_or each.now j false) marks.new }
{
    for (j, good) in each.iter().enumerate() {
        if *good {
            set_mark(marks, number + j as u64);
        }
    }
}
