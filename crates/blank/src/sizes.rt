// The sizes and places of a blank image for n blocks.
ghost use Rattle.std.specs.Prelude.{◌≡◌, ◌+◌, ◌*◌, ◌<◌, ◌≤◌, ◌^◌};
ghost use Rattle.blank.specs.Sizes.{blocks_allowed, up, next, bits_for, h1, h2, h3, place4, size1, size2, size3, place2, place3, partition_size, image_size};

use super::PARTITION;

// n is from 1 to 4096.
pub fn blocks_allowed(n: u64) -> bool
    ensures { result ≡ blocks_allowed n }
{
    (1 <= n) & (n <= 4096)
}

// x / unit, rounded up.
fn rounded_up(x: u64, unit: u64) -> u64
    requires { (0 < unit) × (x + unit < 2 ^ 64) }
    ensures { (result ≡ up x unit) × (unit * result < x + unit) }
{
    x.div_ceil(unit)
}

// The next multiple of the unit at or after x.
fn next_multiple(x: u64, unit: u64) -> u64
    requires { (0 < unit) × (x + unit < 2 ^ 64) }
    ensures { (result ≡ next x unit) × (result < x + unit) }
{
    x.next_multiple_of(unit)
}

// The least multiple of the unit that has so many bits.
fn bits_for(count: u64, unit: u64) -> u64
    requires { (0 < unit) × (unit ≤ 0x80) × (count ≤ 0x10000) }
    ensures { (result ≡ bits_for count unit) × (8 * result < count + 8 * unit) }
{
    unit * rounded_up(count, 8 * unit)
}

// The sizes of the hash levels.
pub fn hash3(n: u64) -> u64
    requires { n ≤ 4096 }
    ensures { (result ≡ h3 n) × (result ≤ 0x20000) }
{
    32 * n
}

pub fn hash2(n: u64) -> u64
    requires { n ≤ 4096 }
    ensures { (result ≡ h2 n) × (result ≤ 0x400) }
{
    32 * rounded_up(hash3(n), 0x1000)
}

pub fn hash1(n: u64) -> u64
    requires { n ≤ 4096 }
    ensures { (result ≡ h1 n) × (result ≤ 0x40) }
{
    32 * rounded_up(hash2(n), 0x200)
}

// Where level 4 starts in DPFS level 3.
pub fn level4_place(n: u64) -> u64
    requires { n ≤ 4096 }
    ensures { (result ≡ place4 n) × (result ≤ 0x22000) }
{
    next_multiple(hash1(n) + hash2(n) + hash3(n), 0x1000)
}

// The size of one half of each DPFS level.
pub fn dpfs3_size(n: u64) -> u64
    requires { n ≤ 4096 }
    ensures { (result ≡ size3 n) × (result ≤ 0x1022000) }
{
    level4_place(n) + 0x1000 * n
}

pub fn dpfs2_size(n: u64) -> u64
    requires { n ≤ 4096 }
    ensures { (result ≡ size2 n) × (result ≤ 0x290) }
{
    bits_for(rounded_up(dpfs3_size(n), 0x1000), 0x80)
}

pub fn dpfs1_size(n: u64) -> u64
    requires { n ≤ 4096 }
    ensures { (result ≡ size1 n) × (result ≤ 4) }
{
    bits_for(rounded_up(dpfs2_size(n), 0x80), 4)
}

// Where DPFS levels 2 and 3 start in the partition.
pub fn dpfs2_place(n: u64) -> u64
    requires { n ≤ 4096 }
    ensures { (result ≡ place2 n) × (result ≤ 8) }
{
    2 * dpfs1_size(n)
}

pub fn dpfs3_place(n: u64) -> u64
    requires { n ≤ 4096 }
    ensures { (result ≡ place3 n) × (result ≤ 0x2000) }
{
    next_multiple(dpfs2_place(n) + 2 * dpfs2_size(n), 0x1000)
}

pub fn partition_size(n: u64) -> u64
    requires { n ≤ 4096 }
    ensures { (result ≡ partition_size n) × (result ≤ 0x2046000) }
{
    dpfs3_place(n) + 2 * dpfs3_size(n)
}

pub fn image_size(n: u64) -> u64
    requires { n ≤ 4096 }
    ensures { (result ≡ image_size n) × (result ≤ 0x2047000) }
{
    PARTITION + partition_size(n)
}
