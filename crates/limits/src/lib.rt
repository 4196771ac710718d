// Numbers an image must keep to, and the rules on them: each on plain numbers, whatever it is that has them.
#![tactic(auto)]

ghost use Rattle.std.specs.Prelude.{◌≡◌, ◌+◌, ◌<◌, ◌^◌};
ghost use Rattle.limits.specs.Limits.{length_allowed, count_allowed, flag_allowed, zeros, table_allowed, size_allowed, master_allowed, log_at, level_allowed};

use number::fields::field4;
use number::{Level, Range};

const SHORTEST_IMAGE: u64 = 0x200;

const LONGEST_IMAGE: u64 = 0x400_0000;

const TABLE_LIMIT: u64 = 0x2000;

pub const ENTRY_SIZE: u64 = 32;

const MOST_ENTRIES: u64 = 64;

const MOST_LOG: u64 = 16;

// 1: both limits are allowed lengths.
pub fn length_allowed(n: u64) -> bool
    ensures { result ≡ length_allowed n }
{
    (SHORTEST_IMAGE <= n) & (n <= LONGEST_IMAGE)
}

// 3: the partition count.
pub fn count_allowed(count: u32) -> bool
    ensures { result ≡ count_allowed count }
{
    (count == 1) | (count == 2)
}

// 3: the active flag.
pub fn flag_allowed(flag: u32) -> bool
    ensures { result ≡ flag_allowed flag }
{
    flag <= 1
}

// 3: no field of two ranges is set.
pub fn are_zero(a: Range, b: Range) -> bool
    ensures { result ≡ zeros a b }
{
    (a.offset == 0) & (a.size == 0) & (b.offset == 0) & (b.size == 0)
}

// 4: a table's size.
pub fn table_allowed(size: u64) -> bool
    ensures { result ≡ table_allowed size }
{
    size <= TABLE_LIMIT
}

// A level's size: at least 1, and a multiple of the unit.
pub fn size_allowed(unit: u64, size: u64) -> bool
    requires { 0 < unit }
    ensures { result ≡ size_allowed unit size }
{
    (1 <= size) & (size % unit == 0)
}

// A master hash has 1 to 64 entries.
pub fn master_allowed(size: u64) -> bool
    ensures { result ≡ master_allowed size }
{
    size_allowed(ENTRY_SIZE, size) & (size <= MOST_ENTRIES * ENTRY_SIZE)
}

// A block-size logarithm: four bytes. The four after them are padding.
pub fn log_at(s: &[u8], at: usize) -> u64
    requires { at + 8 < 2 ^ 64 }
    ensures { result ≡ log_at s.now at }
{
    field4(s, at) as u64
}

// A level's size and its logarithm.
pub fn level_allowed(unit: u64, least: u64, l: Level) -> bool
    requires { 0 < unit }
    ensures { result ≡ level_allowed unit least l }
{
    size_allowed(unit, l.size) & (least <= l.log) & (l.log <= MOST_LOG)
}
