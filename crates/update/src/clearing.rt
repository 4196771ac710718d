// Emptying the hash blocks above a write that are not verified, before anything of it is stored. Each of them is hashed once to judge it, and
// none whose answer is known.
ghost use Rattle.std.specs.Prelude.{◌≡◌, true, ◌+◌, ◌-◌, ◌*◌, ◌^◌, ◌≤◌, ◌<◌, replicate};
ghost use Rattle.number.specs.Blocks.{blocks, block_size, block_length};
ghost use Rattle.ivfc.specs.Views.{level_of, content_of, matches, verified};
ghost use Rattle.update.specs.Covering.{covered};
ghost use Rattle.update.specs.Writing.{emptied, cleared};
ghost use Rattle.update.specs.Staged.{put_level};
ghost use Rattle.update.specs.Rules.{StagedIn, EndsRules};

use super::put_level;
use dpfs::Space;
use ivfc::gathering::level_of;
use ivfc::verifying::parent_of;
use ivfc::{Reader, View};
use number::Level;
use number::blocks::{block_length, block_size};

// How many zeros are put at once.
const ZEROS: u64 = 64;

// Puts n zeros into a level of the staged view from x on.
fn put_zeros(space: Space, view: View, image: &mut [u8], i: u64, x: u64, n: u64)
    requires { (StagedIn space view image.old) × (i ≤ 4) × (x + n ≤ (level_of view i).size) }
    ensures { image.new ≡ put_level view i x (replicate n 0) image.old }
{
    let zeros = [0u8; ZEROS as usize];
    for done in (0..n).step_by(ZEROS as usize) {
        let piece = ZEROS.min(n - done) as usize;
        put_level(space, view, image, i, x + done, &zeros[..piece]);
    }
}

// Empties block b of hash level i: every entry zero.
fn empty_block(space: Space, view: View, image: &mut [u8], i: u64, b: u64)
    requires { (StagedIn space view image.old) × (i ≤ 4) × (b < blocks (level_of view i)) }
    ensures { image.new ≡ put_level view i (b * block_size (level_of view i)) (replicate (block_length (level_of view i) b) 0) image.old }
{
    let level = level_of(view, i);
    let start = b * block_size(level);
    put_zeros(space, view, image, i, start, block_length(level, b));
}

// Empties block b if its entry does not match.
fn empty_one(space: Space, view: View, image: &mut [u8], i: u64, b: u64)
    requires { (StagedIn space view image.old) × (1 ≤ i) × (i ≤ 4) × (b < blocks (level_of view i)) }
    ensures { image.new ≡ emptied (level_of view) (content_of view) (put_level view) (matches view image.old i) i b 1 image.old }
{
    let reader = Reader { view, image };
    if !reader.block_matches(i, b) {
        empty_block(space, view, image, i, b);
    }
}

// The same for each of the blocks from `from` on, before end.
fn empty_level(space: Space, view: View, image: &mut [u8], i: u64, from: u64, end: u64)
    requires { (StagedIn space view image.old) × (1 ≤ i) × (i ≤ 4) × (end ≤ blocks (level_of view i)) }
    ensures { image.new ≡ emptied (level_of view) (content_of view) (put_level view) (matches view image.old i) i from (end - from) image.old }
{
    for b in from..end {
        empty_one(space, view, image, i, b);
    }
}

// Empties, of the hash blocks above the blocks first to last of level i, those that are not verified, from the master hash down: so an entry's
// match decides. Those above a block that is known to be verified are not hashed.
pub fn clear_above(
    space: Space,
    view: View,
    image: &mut [u8],
    i: u64,
    first: u64,
    last: u64,
    front: bool,
    back: bool,
)
    requires staged_in { (StagedIn space view image.old) × (i ≤ 4) × (first ≤ last) × (last < blocks (level_of view i)) }
    requires first_value { (front ≡ true → verified view image.old i first ≡ true) × (back ≡ true → verified view image.old i last ≡ true) }
    ensures { image.new ≡ cleared (level_of view) (content_of view) (put_level view) (verified view image.old) i first last image.old }
{
    if 1 < i {
        let upper = level_of(view, i - 1);
        let p = parent_of(upper, first);
        let q = parent_of(upper, last);
        clear_above(space, view, image, i - 1, p, q, front, back);
        empty_level(
            space,
            view,
            image,
            i - 1,
            p + front as u64,
            q + 1 - back as u64,
        );
    }
}

// A block of level 4 is covered in full if all its bytes below the level's size are written.
pub fn covers(level: Level, place: u64, n: u64, b: u64) -> bool
    requires { (level.log ≤ 16) × (level.size ≤ 0x4000000) × (b < blocks level) × (place + n < 2 ^ 64) }
    ensures { result ≡ covered level place n b }
{
    let start = b * block_size(level);
    (place <= start) & (start + block_length(level, b) <= place + n)
}

// The same for a write of n bytes to level 4 whose blocks at both ends are covered in full or verified.
pub fn clear_for(space: Space, view: View, image: &mut [u8], x: u64, n: u64, first: u64, last: u64)
    requires { EndsRules space view image.old x n first last }
    ensures { image.new ≡ cleared (level_of view) (content_of view) (put_level view) (verified view image.old) 4 first last image.old }
{
    let level = level_of(view, 4);
    let front = !covers(level, x, n, first);
    let back = !covers(level, x, n, last);
    clear_above(space, view, image, 4, first, last, front, back);
}
