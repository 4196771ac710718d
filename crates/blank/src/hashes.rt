// The hash levels: digests of the blocks of a level that stands in one piece of the image.
ghost use Rattle.std.specs.Prelude.{◌≡◌, true, ◌++◌, ◌+◌, ◌-◌, ◌*◌, ◌≤◌, ◌<◌, length};
ghost use Rattle.std.proofs.lemmas.List.Edits.{sets};
ghost use Rattle.number.specs.Blocks.{blocks};
ghost use Rattle.sha256.specs.Sha256.{sha256};
ghost use Rattle.ivfc.specs.Blocks.{block};
ghost use Rattle.ivfc.specs.Rows.{digests};
ghost use Rattle.blank.specs.Rules.{bytes_from};
ghost use Rattle.blank.specs.Sizes as spec;
ghost use Rattle.blank.specs.Image.{byte4, hashes3, hashed, half_place, zeros};
ghost use Rattle.blank.specs.Making.{some_zero, zero_hashes};

use super::sizes::{hash1, hash2, hash3};
use ivfc::matching::zero_entry;
use number::Level;
use number::blocks::{block_count, block_length, block_size};
use number::runs::{copy_into, same_bytes};
use sha256::digest;

// The size of a block of levels 3 and 4, the largest.
const LARGEST: usize = 0x1000;

// The digest of some bytes, followed by zeros up to the block size.
fn digest_padded(bytes: &[u8], unit: usize) -> [u8; 32]
    requires { (length bytes.now ≤ unit) × (unit ≤ 0x1000) }
    ensures { result ≡ sha256 (bytes.now ++ zeros (unit - length bytes.now)) }
{
    let mut block = [0u8; LARGEST];
    copy_into(&mut block, 0, bytes);
    digest(&block[..unit])
}

// The digest of block b of the level whose first byte stands at `from`.
pub fn digest_at(image: &[u8], from: u64, l: Level, b: u64) -> [u8; 32]
    requires { (from + l.size ≤ length image.now) × (l.log ≤ 12) × (b < blocks l) × (length image.now ≤ 0x4000000) }
    ensures { result ≡ sha256 (block l (bytes_from image.now from) b) }
{
    let unit = block_size(l);
    let start = (from + b * unit) as usize;
    let end = start + block_length(l, b) as usize;
    digest_padded(&image[start..end], unit as usize)
}

// Block b, from 1 on, is whole and has the bytes of the block before it.
fn repeats(image: &[u8], from: u64, l: Level, b: u64) -> bool
    requires { (from + l.size ≤ length image.now) × (l.log ≤ 12) × (b < blocks l) × (length image.now ≤ 0x4000000) × (1 ≤ b) }
    ensures { result ≡ true → block l (bytes_from image.now from) b ≡ block l (bytes_from image.now from) (b - 1) }
{
    let unit = block_size(l);
    if block_length(l, b) != unit {
        return false;
    }
    let size = unit as usize;
    let start = (from + b * unit) as usize;
    same_bytes(&image[start - size..start], &image[start..start + size])
}

// The digest of block b, where that of the block before it is at hand: an equal block is not hashed again. In a blank image all blocks of a hash
// level are equal but the last.
fn digest_next(image: &[u8], from: u64, l: Level, b: u64, last: [u8; 32]) -> [u8; 32]
    requires { (from + l.size ≤ length image.now) × (l.log ≤ 12) × (b < blocks l) × (length image.now ≤ 0x4000000) × (1 ≤ b → last ≡ sha256 (block l (bytes_from image.now from) (b - 1))) }
    ensures { result ≡ sha256 (block l (bytes_from image.now from) b) }
{
    if 1 <= b && repeats(image, from, l, b) {
        return last;
    }
    digest_at(image, from, l, b)
}

// Stores the digests of a level's blocks, one after another, at `to`, before the level. Is one of them all zero?
fn enter_digests(image: &mut [u8], from: u64, l: Level, to: u64) -> bool
    requires { (from + l.size ≤ length image.old) × (l.log ≤ 12) × (to + 32 * blocks l ≤ from) × (length image.old ≤ 0x4000000) }
    ensures image_after { image.new ≡ sets image.old to (digests l (bytes_from image.old from) 0 (blocks l)) }
    ensures value { result ≡ some_zero l (bytes_from image.old from) (blocks l) }
{
    let count = block_count(l);
    let mut zero = false;
    let mut d = [0u8; 32];
    for b in 0..count {
        d = digest_next(image, from, l, b, d);
        copy_into(image, (to + 32 * b) as usize, &d);
        zero = zero | zero_entry(&d);
    }
    zero
}

// Stores the digest of a block of zeros n times. Is it all zero?
fn enter_zeros(image: &mut [u8], to: u64, n: u64) -> bool
    requires { (to + 32 * n ≤ length image.old) × (1 ≤ n) × (n ≤ 4096) }
    ensures image_after { image.new ≡ sets image.old to (hashes3 n) }
    ensures value { result ≡ some_zero (spec.ivfc4 n) byte4 (blocks (spec.ivfc4 n)) }
{
    let d = digest(&[0u8; LARGEST]);
    for k in 0..n {
        copy_into(image, (to + 32 * k) as usize, &d);
    }
    zero_entry(&d)
}

// Stores levels 3, 2 and 1 into an image of zeros, from the start of DPFS level 3 on. Is a digest all zero?
pub fn enter_hashes(image: &mut [u8], half: u64, n: u64) -> bool
    requires { (image.old ≡ zeros (spec.image_size n)) × (half ≡ half_place n) × (1 ≤ n) × (n ≤ 4096) }
    ensures image_after { image.new ≡ hashed n }
    ensures value { result ≡ zero_hashes n }
{
    let a = hash1(n);
    let b = hash2(n);
    let c = hash3(n);
    let from3 = half + (a + b);
    let from2 = half + a;
    let first = enter_zeros(image, from3, n);
    let level3 = Level {
        offset: a + b,
        size: c,
        log: 12,
    };
    let second = enter_digests(image, from3, level3, from2);
    let level2 = Level {
        offset: a,
        size: b,
        log: 9,
    };
    let third = enter_digests(image, from2, level2, half);
    first | second | third
}
