// Bits of a half of level 1 or 2, fetched by the one byte that holds each. Where a bit stands is known here and nowhere else.
ghost use Rattle.std.specs.Prelude.{◌≡◌, ℕ, ◌+◌, ◌*◌, ◌<◌, ◌≤◌, length, get_or, take, drop};
ghost use Rattle.number.specs.Blocks.{block_of};
ghost use Rattle.dpfs.specs.Bits.{bit_byte, bit_place, bit_of, flip_bit};
ghost use Rattle.dpfs.specs.Tree.{place, select2, select3};

use super::Selection;
use number::Level;
use number::blocks::block_of;

// The byte that holds bit n.
pub fn byte_of_bit(n: u64) -> u64
    ensures { result ≡ bit_byte n }
{
    4 * (n / 32) + (3 - n % 32 / 8)
}

// Where byte y of a level's first or second half stands in the image.
pub fn place_of(l: Level, second: bool, y: u64) -> u64
    requires { l.offset + 2 * l.size + y < 18446744073709551616 }
    ensures { result ≡ place l second y }
{
    let skipped = if second { l.size } else { 0 };
    l.offset + skipped + y
}

// Bit n of a half, fetched by the one byte that holds it: the half may end with that byte.
pub fn bit_in(half: &[u8], n: u64) -> bool
    requires { bit_byte n < length half.now }
    ensures { result ≡ bit_of (λ (y : ℕ). get_or half.now y 0) n }
{
    let at = byte_of_bit(n) as usize;
    let k = 7 - n % 8;
    let value = half[at];
    (value >> k) % 2 == 1
}

// The byte that holds bit n, with that bit flipped.
pub fn flipped(value: u8, n: u64) -> u8
    ensures { result ≡ flip_bit value (bit_place n) }
{
    let k = 7 - n % 8;
    value ^ (1u8 << k)
}

// A level's first or second half, as that part of the image.
fn half_of(image: &[u8], l: Level, second: bool) -> &[u8]
    requires { (l.offset + 2 * l.size ≤ length image.now) × (length image.now ≤ 0x4000000) }
    ensures { result.now ≡ take l.size (drop (place l second 0) image.now) }
{
    let start = place_of(l, second, 0) as usize;
    let end = start + l.size as usize;
    &image[start..end]
}

impl Selection<'_> {
    // Which copy of level 2's block j the half of level 1 names.
    pub fn copy2(self, j: u64) -> bool
        requires { bit_byte j < self.tree.level1.size }
        ensures { result ≡ select2 self.entry.tree self.entry.image.now self.entry.half j }
    {
        bit_in(half_of(self.image, self.tree.level1, self.half), j)
    }

    // Where the byte of level 2 stands that holds bit k.
    pub fn bit_place(self, k: u64) -> u64
        requires { bit_byte k < self.tree.level2.size }
        ensures { result ≡ place self.entry.tree.level2 (select2 self.entry.tree self.entry.image.now self.entry.half (block_of self.entry.tree.level2 (bit_byte k))) (bit_byte k) }
    {
        let l = self.tree.level2;
        let y = byte_of_bit(k);
        let second = self.copy2(block_of(l, y));
        place_of(l, second, y)
    }

    // Which copy of level 3's block k level 2 names.
    pub fn copy3(self, k: u64) -> bool
        requires { bit_byte k < self.tree.level2.size }
        ensures { result ≡ select3 self.entry.tree self.entry.image.now self.entry.half k }
    {
        let l = self.tree.level2;
        let second = self.copy2(block_of(l, byte_of_bit(k)));
        bit_in(half_of(self.image, l, second), k)
    }
}
