// Which blocks are known to be verified, so that none is hashed again for the next entry that stands in it.
ghost use Rattle.std.specs.Prelude.{◌≡◌, ◌≤◌, ◌<◌};
ghost use Rattle.number.specs.Blocks.{blocks};
ghost use Rattle.ivfc.specs.Views.{level_of, verified};
ghost use Rattle.entries.specs.Known.{mark_of, Adds, Knows};

use ivfc::Reader;
use ivfc::gathering::level_of;
use ivfc::verifying::parent_of;
use number::marks::{is_marked, set_mark};

// The mark of a block of a level.
fn mark_of(i: u64, b: u64) -> u64
    requires { (i ≤ 4) × (b < 0x4000000) }
    ensures { result ≡ mark_of i b }
{
    if i == 4 { 2 * b } else { 6 * b + 2 * i + 1 }
}

// Adds a mark, where there is room for it.
fn add_mark(known: &mut [u8], mark: u64)
    ensures { Adds known.old mark known.new }
{
    let at = (mark / 8) as usize;
    if at < known.len() && !is_marked(known, mark) {
        set_mark(known, mark);
    }
}

// Whether a block of a level is verified, by ivfc's own recursion. What is known to be verified is not hashed again, and what is found to be is known
// from then on.
pub fn vouched(reader: Reader<'_>, known: &mut [u8], i: u64, b: u64) -> bool
    requires { (Knows reader.view reader.image.now known.old) × (i ≤ 4) × (b < blocks (level_of reader.view i)) }
    ensures { (result ≡ verified reader.entry.view reader.entry.image.now i b) × (Knows reader.entry.view reader.entry.image.now known.new) }
{
    if i == 0 {
        return true;
    }
    let mark = mark_of(i, b);
    if is_marked(known, mark) {
        return true;
    }
    if !reader.block_matches(i, b) {
        return false;
    }
    let upper = parent_of(level_of(reader.view, i - 1), b);
    if !vouched(reader, known, i - 1, upper) {
        return false;
    }
    add_mark(known, mark);
    true
}
