// The stores of a write: hash blocks above it that are not verified are emptied, then come the data, then the entries above it, level by level
// up to the master hash.
#![tactic(auto)]

use clearing::clear_for;
use dpfs::Space;
use ivfc::gathering::level_of;
use ivfc::verifying::parent_of;
use ivfc::{ENTRY, Reader, View};
use number::blocks::block_of;
use stores::staging::{put_bytes, store_bytes};
use zeros::zero_held;

pub mod clearing;
pub mod zeros;

ghost use Rattle.std.specs.Prelude.{◌≡◌, suc, ◌+◌, ◌-◌, ◌*◌, ◌≤◌, ◌<◌, true, length, set};
ghost use Rattle.std.proofs.lemmas.List.Edits.{sets};
ghost use Rattle.number.specs.Blocks.{blocks};
ghost use Rattle.ivfc.specs.Views.{level_of, content_of};
ghost use Rattle.update.specs.Writing.{entered, rehashed};
ghost use Rattle.update.specs.Staged.{put_level, written_to, holds_zero};
ghost use Rattle.update.specs.Rules.{OwnView, StagedIn, WriteRules, EndsRules, InPlace};

// The one store to an external level 4 of the container that the image opens as: in place, in the range that is written.
fn store_outside(view: View, image: &mut [u8], x: u64, n: u64, i: u64, value: u8)
    requires { (OwnView view image.old) × (x + n ≤ view.level4.size) × (InPlace view x n i) × (i < length image.old) }
    ensures { image.new ≡ set image.old i value }
{
    let at = i as usize;
    image[at] = value;
}

// Writes bytes to an external level 4 from x on.
fn put_outside(view: View, image: &mut [u8], x: u64, values: &[u8])
    requires { (OwnView view image.old) × (view.external ≡ true) × (x + length values.now ≤ view.level4.size) }
    ensures { image.new ≡ sets image.old (view.outside + x) values.now }
{
    let n = values.len() as u64;
    for (i, value) in values.iter().enumerate() {
        store_outside(view, image, x, n, view.outside + x + i as u64, *value);
    }
}

// Puts bytes into a level of the staged view: into the master hash at its place of the inactive table, into an external level 4 in place, else into
// the staged DPFS level 3.
fn put_level(space: Space, view: View, image: &mut [u8], i: u64, x: u64, values: &[u8])
    requires { (StagedIn space view image.old) × (i ≤ 4) × (x + length values.now ≤ (level_of view i).size) }
    ensures { image.new ≡ put_level view i x values.now image.old }
{
    if i == 0 {
        store_bytes(space, image, view.master.offset + x, values);
    } else if (i == 4) & view.external {
        put_outside(view, image, x, values);
    } else {
        put_bytes(
            space,
            view.tree,
            image,
            level_of(view, i).offset + x,
            values,
        );
    }
}

// Brings the entries, in level i, of some blocks from b on, before end, up to date, and says of how many.
fn enter_some(space: Space, view: View, image: &mut [u8], i: u64, b: u64, end: u64) -> u64
    requires { (StagedIn space view image.old) × (i < 4) × (b < end) × (end ≤ blocks (level_of view (suc i))) }
    ensures { (0 < result) × (b + result ≤ end) × (image.new ≡ entered (level_of view) (content_of view) (put_level view) i b result image.old) }
{
    let reader = Reader { view, image };
    let digests = reader.digests_from(i + 1, b, end);
    let n = digests.count;
    let size = (ENTRY * n) as usize;
    let hashes = digests.bytes;
    put_level(space, view, image, i, ENTRY * b, &hashes[..size]);
    n
}

// The same for the blocks first to last, each of which is hashed once.
fn enter(space: Space, view: View, image: &mut [u8], i: u64, first: u64, last: u64)
    requires { (StagedIn space view image.old) × (i < 4) × (first ≤ last) × (last < blocks (level_of view (suc i))) }
    ensures { image.new ≡ entered (level_of view) (content_of view) (put_level view) i first (suc last - first) image.old }
{
    let mut b = first;
    // A `while`: each turn goes on by as many blocks as were hashed at once.
    while b <= last {
        let n = enter_some(space, view, image, i, b, last + 1);
        b += n;
    }
}

// The same for the blocks first to last of level i, then for the blocks that hold their entries, and so on up to the master hash.
fn rehash(space: Space, view: View, image: &mut [u8], i: u64, first: u64, last: u64)
    requires { (StagedIn space view image.old) × (i ≤ 4) × (first ≤ last) × (last < blocks (level_of view i)) }
    ensures { image.new ≡ rehashed (level_of view) (content_of view) (put_level view) i first last image.old }
{
    if i > 0 {
        let upper = level_of(view, i - 1);
        enter(space, view, image, i - 1, first, last);
        rehash(
            space,
            view,
            image,
            i - 1,
            parent_of(upper, first),
            parent_of(upper, last),
        );
    }
}

// Writes some bytes to level 4 of the staged view from x on, where `first` and `last` are the blocks of the first and the last of them, and
// says whether a digest that the finished write holds is all zero.
fn write_blocks(
    space: Space,
    view: View,
    image: &mut [u8],
    x: u64,
    values: &[u8],
    first: u64,
    last: u64,
) -> bool
    requires { EndsRules space view image.old x (length values.now) first last }
    ensures { (image.new ≡ written_to view x values.now image.old) × (result ≡ holds_zero view x values.now image.new) }
{
    let n = values.len() as u64;
    clear_for(space, view, image, x, n, first, last);
    put_level(space, view, image, 4, x, values);
    rehash(space, view, image, 4, first, last);
    zero_held(Reader { view, image }, 4, first, last)
}

// Writes bytes to level 4 of the staged view from x on, and says whether a digest that the finished write holds is all zero. Of no bytes
// nothing changes.
pub fn write_level4(space: Space, view: View, image: &mut [u8], x: u64, values: &[u8]) -> bool
    requires { WriteRules space view image.old x values.now }
    ensures { (image.new ≡ written_to view x values.now image.old) × (result ≡ holds_zero view x values.now image.new) }
{
    if values.len() == 0 {
        return false;
    }
    let level = level_of(view, 4);
    let end = x + values.len() as u64;
    write_blocks(
        space,
        view,
        image,
        x,
        values,
        block_of(level, x),
        block_of(level, end - 1),
    )
}
