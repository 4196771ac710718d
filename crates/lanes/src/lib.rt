// SHA-256 of eight messages of one length, side by side.
//
// The messages are the lanes. Item t of lane l stands at place t * 8 + l of a flat array, so that one loop over the places does the work of
// all lanes, and the compiler does several places at once.
#![tactic(auto)]

ghost use Rattle.std.specs.Prelude.{◌≡◌, ◌*◌, ◌%◌, ◌^◌, ◌<◌, length};
ghost use Rattle.lanes.specs.Digests.{digests};

use blocks::fill;
use constants::spread;
use hashes::{digests_of, start};
use rounds::compress;

mod blocks;
mod constants;
mod hashes;
mod rounds;

// The digests of eight messages of n bytes each, whole blocks of SHA-256, that stand one after another. The arrays are made once, and the loop
// has the only call of `compress`: so the compiler puts it into the loop, and knows that the arrays are apart and that nothing else reaches
// them. Both is needed for several places at once.
pub fn digest_eight(messages: &[u8], n: usize) -> [u8; 256]
    requires { (length messages.now ≡ 8 * n) × (n % 64 ≡ 0) × (n < 2 ^ 29) }
    ensures { result ≡ digests messages.now n 8 }
{
    let constants = spread();
    let mut words = [0u32; 512];
    let mut a = [0u32; 544];
    let mut e = [0u32; 544];
    let mut changes = [0u32; 544];
    start(&mut a, 3);
    start(&mut e, 7);
    for b in 0..n / 64 + 1 {
        fill(messages, n, b, &mut words);
        compress(&constants, &mut words, &mut a, &mut e, &mut changes);
    }
    digests_of(&a, &e)
}
