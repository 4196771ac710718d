// The stores of begin and write. `store` is the only function that stores a byte of an image before a commit, but for those of an external level 4
// that are written in place (update's `store_outside`); its `requires` says that the space is that of the container that the image opens as, and the
// place free in it, so that nothing which the committed view rests on is ever stored to, not even for a moment.
ghost use Rattle.std.specs.Prelude.{◌≡◌, cond, ℕ, ◌+◌, ◌≤◌, ◌<◌, length, get_or, set};
ghost use Rattle.std.proofs.lemmas.List.Edits.{sets};
ghost use Rattle.number.specs.Blocks.{blocks, block_of};
ghost use Rattle.number.specs.Bytes.{copied};
ghost use Rattle.dpfs.specs.Bits.{bit_byte, bit_place, flip_bit};
ghost use Rattle.dpfs.specs.Free.{Free};
ghost use Rattle.dpfs.specs.Staging.{OffLive2, same, block_copied, moved2, moved3alone, moved3, put, begun};
ghost use Rattle.dpfs.specs.Rules.{Among, block_rest};
ghost use Rattle.stores.specs.Rules.{OwnSpace, CopyRules, BlockRules};

use dpfs::bits::{byte_of_bit, flipped, place_of};
use dpfs::reading::block_end;
use dpfs::{Selection, Space, Tree};
use number::Level;
use number::blocks::{block_length, block_of, block_size};

// The one store beside what is committed: at a free place of the image's own space.
pub fn store(space: Space, image: &mut [u8], i: u64, value: u8)
    requires { (OwnSpace space image.old) × (Free space image.old i) × (i < length image.old) }
    ensures { image.new ≡ set image.old i value }
{
    let at = i as usize;
    image[at] = value;
}

// Space, tree and image are passed one by one, here and in update: tests/stores lets no reference to a space or a tree be, and a struct that lends the
// image was tried; `OwnSpace` is no proposition, so that no ghost field can say it.

// Copies n bytes within the image, to free places.
pub fn copy_within(space: Space, image: &mut [u8], source: u64, target: u64, n: u64)
    requires { CopyRules space image.old source target n }
    ensures { image.new ≡ copied image.old source target n }
{
    for i in 0..n {
        let at = (source + i) as usize;
        let value = image[at];
        store(space, image, target + i, value);
    }
}

// Stores bytes from x on, at free places.
pub fn store_bytes(space: Space, image: &mut [u8], x: u64, values: &[u8])
    requires { (OwnSpace space image.old) × (x + length values.now ≤ length image.old) × ((m : ℕ) → m < length values.now → Free space image.old (x + m)) }
    ensures { image.new ≡ sets image.old x values.now }
{
    for (i, value) in values.iter().enumerate() {
        store(space, image, x + i as u64, *value);
    }
}

// Begin: the other half of level 1 becomes a copy of the live half.
pub fn begin_tree(space: Space, tree: Tree, image: &mut [u8])
    requires { (OwnSpace space image.old) × (Among tree space) }
    ensures { image.new ≡ begun tree image.old }
{
    let l = tree.level1;
    let source = place_of(l, tree.live, 0);
    let target = place_of(l, !tree.live, 0);
    copy_within(space, image, source, target, l.size);
}

// Flips bit n of a bit array, in the byte for it, which stands at a free place.
fn flip_bit(space: Space, image: &mut [u8], at: u64, n: u64)
    requires { (OwnSpace space image.old) × (Free space image.old at) × (at < length image.old) }
    ensures { image.new ≡ set image.old at (flip_bit (get_or image.old at 0) (bit_place n)) }
{
    let i = at as usize;
    let value = image[i];
    store(space, image, at, flipped(value, n));
}

// Copies block b of a level whole, from one half to the other, whose copy is free.
fn copy_block(space: Space, image: &mut [u8], l: Level, second: bool, b: u64)
    requires { BlockRules space image.old l second b }
    ensures { image.new ≡ block_copied l second b image.old }
{
    let y = b * block_size(l);
    let source = place_of(l, second, y);
    let target = place_of(l, !second, y);
    copy_within(space, image, source, target, block_length(l, b));
}

// Moves the staged copy of block b off the live one: copied whole, and its bit, whose byte stands at a place of the level above, flipped. A
// block where they name different copies is left alone: copying it again would lose what was written to it.
fn move_block(space: Space, image: &mut [u8], l: Level, live: bool, staged: bool, at: u64, b: u64)
    requires { (BlockRules space image.old l live b) × (Free space image.old at) × (at < length image.old) }
    ensures { image.new ≡ cond (same live staged) (set (block_copied l live b image.old) at (flip_bit (get_or (block_copied l live b image.old) at 0) (bit_place b))) image.old }
{
    if live == staged {
        copy_block(space, image, l, live, b);
        flip_bit(space, image, at, b);
    }
}

// Moves block j of level 2.
fn move2(space: Space, tree: Tree, image: &mut [u8], j: u64)
    requires { (OwnSpace space image.old) × (Among tree space) × (j < blocks tree.level2) }
    ensures { image.new ≡ moved2 tree j image.old }
{
    let l = tree.level1;
    let live_half = Selection {
        tree,
        image,
        half: tree.live,
    };
    let other_half = Selection {
        tree,
        image,
        half: !tree.live,
    };
    let live = live_half.copy2(j);
    let staged = other_half.copy2(j);
    let at = place_of(l, !tree.live, byte_of_bit(j));
    move_block(space, image, tree.level2, live, staged, at, j);
}

// Moves block b of level 3, where the block of level 2 that holds its bit is moved.
fn move3_alone(space: Space, tree: Tree, image: &mut [u8], b: u64)
    requires own_space { (OwnSpace space image.old) × (Among tree space) × (b < blocks tree.level3) }
    requires off_live2 { OffLive2 tree image.old (block_of tree.level2 (bit_byte b)) }
    ensures { image.new ≡ moved3alone tree b image.old }
{
    let live_half = Selection {
        tree,
        image,
        half: tree.live,
    };
    let other_half = Selection {
        tree,
        image,
        half: !tree.live,
    };
    let live = live_half.copy3(b);
    let staged = other_half.copy3(b);
    let at = other_half.bit_place(b);
    move_block(space, image, tree.level3, live, staged, at, b);
}

// Moves block b of level 3, and first the block of level 2 that holds its bit.
fn move3(space: Space, tree: Tree, image: &mut [u8], b: u64)
    requires { (OwnSpace space image.old) × (Among tree space) × (b < blocks tree.level3) }
    ensures { image.new ≡ moved3 tree b image.old }
{
    let l = tree.level2;
    let j = block_of(l, byte_of_bit(b));
    move2(space, tree, image, j);
    move3_alone(space, tree, image, b);
}

// Puts bytes that lie in one block: one move, then plain stores.
fn put_run(space: Space, tree: Tree, image: &mut [u8], x: u64, values: &[u8])
    requires { (OwnSpace space image.old) × (Among tree space) × (0 < length values.now) × (length values.now ≤ block_rest tree x tree.level3.size) }
    ensures { image.new ≡ put tree x values.now image.old }
{
    let l = tree.level3;
    let b = block_of(l, x);
    move3(space, tree, image, b);
    let half = !tree.live;
    let other_half = Selection { tree, image, half };
    let second = other_half.copy3(b);
    store_bytes(space, image, place_of(l, second, x), values);
}

// Puts bytes into the staged level 3 from x on, run by run.
pub fn put_bytes(space: Space, tree: Tree, image: &mut [u8], x: u64, values: &[u8])
    requires { (OwnSpace space image.old) × (Among tree space) × (x + length values.now ≤ tree.level3.size) }
    ensures { image.new ≡ put tree x values.now image.old }
{
    let end = x + values.len() as u64;
    let mut i = 0;
    // A `while`: each turn goes on by as many bytes as its block has left.
    while i < values.len() {
        let z = x + i as u64;
        let next = (block_end(tree, z, end) - x) as usize;
        put_run(space, tree, image, z, &values[i..next]);
        i = next;
    }
}
