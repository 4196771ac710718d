// Filling an image of zeros: the hash levels, then the table and the header over them.
ghost use Rattle.std.specs.Prelude.{◌≡◌, ◌≤◌};
ghost use Rattle.blank.specs.Sizes.{image_size};
ghost use Rattle.blank.specs.Image as spec;
ghost use Rattle.blank.specs.Making.{zero_table, zero_digest};

use super::hashes::{digest_at, enter_hashes};
use super::header::put_header;
use super::sizes::{dpfs3_place, hash1};
use super::table::put_table;
use super::{PARTITION, PRIMARY, TABLE};
use ivfc::matching::zero_entry;
use layout::{HEADER, Kind};
use number::Level;
use sha256::digest;

// The active table.
const START: usize = PRIMARY as usize;

const END: usize = START + TABLE as usize;

// Stores the table and the header over the hash levels. Is the master hash all zero, or the table's digest?
fn enter_table(image: &mut [u8], half: u64, kind: Kind, n: u64) -> bool
    requires { (image.old ≡ spec.hashed n) × (half ≡ spec.half_place n) × (1 ≤ n) × (n ≤ 4096) }
    ensures image_after { image.new ≡ spec.image kind n }
    ensures value { result ≡ zero_table n }
{
    let level1 = Level {
        offset: 0,
        size: hash1(n),
        log: 9,
    };
    let master = digest_at(image, half, level1, 0);
    put_table(image, START, n, master);
    let hash = digest(&image[START..END]);
    put_header(image, HEADER, kind, n, hash);
    zero_entry(&master) | zero_entry(&hash)
}

// Makes an image of zeros a blank one. Is a digest all zero?
pub fn fill(image: &mut [u8], kind: Kind, n: u64) -> bool
    requires { (image.old ≡ spec.zeros (image_size n)) × (1 ≤ n) × (n ≤ 4096) }
    ensures image_after { image.new ≡ spec.image kind n }
    ensures value { result ≡ zero_digest n }
{
    let half = PARTITION + dpfs3_place(n);
    let hashes = enter_hashes(image, half, n);
    let table = enter_table(image, half, kind, n);
    hashes | table
}
