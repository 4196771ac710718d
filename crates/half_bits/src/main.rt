// Looks up every bit of a short and of a long half, each on a slice that ends with the byte which holds it, and prints a mark of all of them. What it
// must print is in ../stdout, which tests/make_half_bits.py makes from the paper's words: bit 31 - n mod 32 of the 32-bit word n / 32.
#![tactic(auto)]

ghost use Rattle.std.specs.Prelude.{◌*◌, ◌%◌, ◌<◌, ◌≤◌, ◌≡◌, length};

use dpfs::bits::bit_in;
use std::{array, io};

// The shortest half, and the longest of level 2 of which every bit can name a block.
const SHORTEST: usize = 4;

const LONGEST: usize = 0x20000;

// A prime, so that every bit counts in a mark.
const PRIME: u64 = 4_294_967_291;

// Byte y of the half is 7 y + y / 256, modulo 256.
fn ruled() -> [u8; LONGEST] {
    array::from_fn(|y| ((y * 7 + y / 256) % 256) as u8)
}

// Bit n as a number, looked up on a slice that ends with the byte which holds it.
fn bit_number(half: &[u8], n: u64) -> u64
    requires { (length half.now % 4 ≡ 0) × (length half.now ≤ 0x20000) × (n < 8 * length half.now) }
    ensures { result ≤ 1 }
{
    let end = (4 * (n / 32) + (3 - n % 32 / 8) + 1) as usize;
    u64::from(bit_in(&half[..end], n))
}

// The bits of a half as one number, the first the highest, modulo the prime.
fn mark(half: &[u8]) -> u64
    requires { (length half.now % 4 ≡ 0) × (length half.now ≤ 0x20000) }
{
    let bits = 8 * half.len() as u64;
    let mut mark = 1;
    for n in 0..bits {
        mark = (mark * 2 + bit_number(half, n)) % PRIME;
    }
    mark
}

// The mark of a half's first bytes.
fn print_mark(rt: &impl Print, half: &[u8], size: usize) -> io::Result<()>
    requires { (size % 4 ≡ 0) × (size ≤ 0x20000) × (size ≤ length half.now) }
{
    println!(rt; "{size} bytes {}", mark(&half[..size]))
}

fn main(rt: HostRuntime) -> io::Result<()> {
    let half = ruled();
    print_mark(&rt, &half, SHORTEST)?;
    print_mark(&rt, &half, LONGEST)
}
