// Whether a finished write holds a digest that is all zero.
ghost use Rattle.std.specs.Prelude.{◌≡◌, suc, ◌-◌, ◌≤◌, ◌<◌};
ghost use Rattle.number.specs.Blocks.{blocks};
ghost use Rattle.ivfc.specs.Views.{level_of, content_of};
ghost use Rattle.update.specs.Writing.{zero_among, zero_held};

use ivfc::gathering::level_of;
use ivfc::matching::zero_entry;
use ivfc::verifying::parent_of;
use ivfc::{ENTRY, Reader};

// One of the entries, in level i, of the blocks first to last is all zero.
fn zero_among(reader: Reader<'_>, i: u64, first: u64, last: u64) -> bool
    requires { (i < 4) × (first ≤ last) × (last < blocks (level_of reader.view (suc i))) }
    ensures { result ≡ zero_among (content_of reader.entry.view reader.entry.image.now i) first (suc last - first) }
{
    let mut entry = [0u8; ENTRY as usize];
    for b in first..last + 1 {
        reader.gather(i, ENTRY * b, &mut entry);
        if zero_entry(&entry) {
            return true;
        }
    }
    false
}

// An entry of the blocks first to last of level i, or of a hash block above them, is all zero.
pub fn zero_held(reader: Reader<'_>, i: u64, first: u64, last: u64) -> bool
    requires { (i ≤ 4) × (first ≤ last) × (last < blocks (level_of reader.view i)) }
    ensures { result ≡ zero_held (level_of reader.entry.view) (content_of reader.entry.view reader.entry.image.now) i first last }
{
    if i == 0 {
        return false;
    }
    if zero_among(reader, i - 1, first, last) {
        return true;
    }
    let upper = level_of(reader.view, i - 1);
    zero_held(
        reader,
        i - 1,
        parent_of(upper, first),
        parent_of(upper, last),
    )
}
