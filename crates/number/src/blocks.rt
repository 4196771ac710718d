// A level's blocks: how many there are, how large they are, and in which one a byte lies.
ghost use Rattle.std.specs.Prelude.{◌≡◌, ◌*◌, ◌<◌, ◌≤◌};
ghost use Rattle.number.specs.Blocks.{block_size, blocks, block_of, block_length};

use super::Level;

pub fn block_size(l: Level) -> u64
    requires { l.log < 64 }
    ensures { (result ≡ block_size l) × (0 < result) }
{
    let k = l.log;
    1 << k
}

// S / 2^k, rounded up, without the sum that might not fit.
pub fn block_count(l: Level) -> u64
    ensures { result ≡ blocks l }
{
    if 64 <= l.log {
        return (l.size != 0) as u64;
    }
    let unit = block_size(l);
    l.size.div_ceil(unit)
}

// The block that the byte at a place of the level lies in.
pub fn block_of(l: Level, place: u64) -> u64
    requires { l.log < 64 }
    ensures { result ≡ block_of l place }
{
    let k = l.log;
    place >> k
}

// How many bytes of the level block b has: the last may be short.
pub fn block_length(l: Level, b: u64) -> u64
    requires { (l.log < 64) × (b * block_size l ≤ l.size) }
    ensures { result ≡ block_length l b }
{
    let unit = block_size(l);
    unit.min(l.size - b * unit)
}
