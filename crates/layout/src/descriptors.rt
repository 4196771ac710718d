// A partition's descriptor: its fields and the rules on them, refusals 6 and 7.
ghost use Rattle.std.specs.Prelude.{◌≡◌, true, false, cond, ◌&&◌, [], ◌∷◌, ◌+◌, ◌<◌, ◌^◌};
ghost use Rattle.number.specs.Fields.{le64};
ghost use Rattle.number.specs.Ranges.{fits, placed, level_range, twice};
ghost use Rattle.layout.specs.Descriptors.{level_at, difi_fields, ivfc_fields, dpfs_fields, partition_fields, difi_allowed, ivfc_allowed, dpfs_allowed, form_allowed, pieces_placed, levels_placed, enough_bits, enough_entries, all_enough, places_allowed, judged_partition};

use super::headers::range_at;
use super::magic::opens_with;
use super::{Difi, Dpfs, Ivfc, Partition, Refusal, SELECTOR};
use limits::{ENTRY_SIZE, level_allowed, log_at, master_allowed, size_allowed};
use number::blocks::block_count;
use number::fields::{byte, field8};
use number::ranges::{are_placed, lies_inside, pair_fits, pair_of, part_of};
use number::{Level, Range};

const DIFI_SIZE: u64 = 0x44;

const IVFC_SIZE: u64 = 0x78;

const DPFS_SIZE: u64 = 0x50;

const LEAST_LOG: u64 = 5;

const LEAST_BITS_LOG: u64 = 2;

const WORD_SIZE: u64 = 4;

// A size below this has fewer than 2^64 bits.
const COUNTABLE: u64 = 0x2000_0000_0000_0000;

// Offset, size and logarithm of a level.
fn level_at(s: &[u8], at: usize) -> Level
    requires { at + 24 < 2 ^ 64 }
    ensures { result ≡ level_at s.now at }
{
    Level {
        offset: field8(s, at),
        size: field8(s, at + 8),
        log: log_at(s, at + 16),
    }
}

// A field that is read only if there is one.
fn field8_if(there: bool, s: &[u8], at: usize) -> u64
    requires { at + 8 < 2 ^ 64 }
    ensures { result ≡ cond there (le64 s.now at) 0 }
{
    if there { field8(s, at) } else { 0 }
}

fn read_difi(d: &[u8]) -> Difi
    ensures { result ≡ difi_fields d.now }
{
    let external = byte(d, 0x38) != 0;
    Difi {
        ivfc: range_at(d, 0x08),
        dpfs: range_at(d, 0x18),
        master: range_at(d, 0x28),
        external,
        selector: byte(d, SELECTOR),
        outside: field8_if(external, d, 0x3C),
    }
}

fn read_ivfc(external: bool, s: &[u8]) -> Ivfc
    ensures { result ≡ ivfc_fields external s.now }
{
    Ivfc {
        level1: level_at(s, 0x10),
        level2: level_at(s, 0x28),
        level3: level_at(s, 0x40),
        level4: Level {
            offset: field8_if(!external, s, 0x58),
            size: field8(s, 0x60),
            log: log_at(s, 0x68),
        },
    }
}

fn read_dpfs(s: &[u8]) -> Dpfs
    ensures { result ≡ dpfs_fields s.now }
{
    Dpfs {
        level1: range_at(s, 0x08),
        level2: level_at(s, 0x20),
        level3: level_at(s, 0x38),
    }
}

fn read_partition(d: &[u8]) -> Partition
    ensures { result ≡ partition_fields d.now }
{
    let difi = read_difi(d);
    let ivfc = read_ivfc(difi.external, part_of(d, difi.ivfc));
    let dpfs = read_dpfs(part_of(d, difi.dpfs));
    Partition { difi, ivfc, dpfs }
}

fn difi_allowed(d: &[u8], difi: Difi) -> bool
    ensures { result ≡ difi_allowed d.now difi }
{
    opens_with(d, b"DIFI\0\0\x01\0")
        & (difi.ivfc.size == IVFC_SIZE)
        & (difi.dpfs.size == DPFS_SIZE)
        & master_allowed(difi.master.size)
        & (difi.selector <= 1)
}

fn ivfc_allowed(s: &[u8], master: u64, ivfc: Ivfc) -> bool
    ensures { result ≡ ivfc_allowed s.now master ivfc }
{
    opens_with(s, b"IVFC\0\0\x02\0")
        & (field8(s, 0x08) == master)
        & level_allowed(ENTRY_SIZE, LEAST_LOG, ivfc.level1)
        & level_allowed(ENTRY_SIZE, LEAST_LOG, ivfc.level2)
        & level_allowed(ENTRY_SIZE, LEAST_LOG, ivfc.level3)
        & level_allowed(1, LEAST_LOG, ivfc.level4)
}

fn dpfs_allowed(s: &[u8], dpfs: Dpfs) -> bool
    ensures { result ≡ dpfs_allowed s.now dpfs }
{
    opens_with(s, b"DPFS\0\0\x01\0")
        & size_allowed(WORD_SIZE, dpfs.level1.size)
        & level_allowed(WORD_SIZE, LEAST_BITS_LOG, dpfs.level2)
        & level_allowed(1, LEAST_LOG, dpfs.level3)
}

// 6. A piece outside its descriptor is not read, so its contents are not judged.
fn form_allowed(d: &[u8], p: Partition) -> bool
    ensures { result ≡ form_allowed d.now p }
{
    let length = d.len() as u64;
    let difi = p.difi;
    let ivfc = difi.ivfc;
    let dpfs = difi.dpfs;
    difi_allowed(d, difi)
        & (!lies_inside(ivfc.offset, ivfc.size, length)
            | ivfc_allowed(part_of(d, ivfc), difi.master.size, p.ivfc))
        & (!lies_inside(dpfs.offset, dpfs.size, length) | dpfs_allowed(part_of(d, dpfs), p.dpfs))
}

fn pieces_placed(length: u64, difi: Difi) -> bool
    ensures { result ≡ pieces_placed length difi }
{
    let first = Range {
        offset: 0,
        size: DIFI_SIZE,
    };
    are_placed(length, &[first, difi.ivfc, difi.dpfs, difi.master])
}

fn level_range(l: Level) -> Range
    ensures { result ≡ level_range l }
{
    Range {
        offset: l.offset,
        size: l.size,
    }
}

// Three pairs of halves, by the first half of each, fit in a partition of that size: so they can be doubled.
fn pairs_fit(whole: u64, a: Range, b: Range, c: Range) -> bool
    ensures { result ≡ (fits whole (twice a) && fits whole (twice b) && fits whole (twice c)) }
{
    pair_fits(whole, a) & pair_fits(whole, b) & pair_fits(whole, c)
}

// They are placed in it.
fn pairs_placed(whole: u64, a: Range, b: Range, c: Range) -> bool
    ensures { result ≡ placed whole (twice a ∷ twice b ∷ twice c ∷ []) }
{
    if !pairs_fit(whole, a, b, c) {
        return false;
    }
    are_placed(whole, &[pair_of(a), pair_of(b), pair_of(c)])
}

// The same with an external level 4.
fn pairs_and_one_placed(whole: u64, a: Range, b: Range, c: Range, d: Range) -> bool
    ensures { result ≡ placed whole (twice a ∷ twice b ∷ twice c ∷ d ∷ []) }
{
    if !pairs_fit(whole, a, b, c) {
        return false;
    }
    are_placed(whole, &[pair_of(a), pair_of(b), pair_of(c), d])
}

// The pairs and an external level 4 in the partition, the other IVFC levels in DPFS level 3.
fn levels_placed(size: u64, p: Partition) -> bool
    ensures { result ≡ levels_placed size p }
{
    let ivfc = p.ivfc;
    let dpfs = p.dpfs;
    let level1 = level_range(ivfc.level1);
    let level2 = level_range(ivfc.level2);
    let level3 = level_range(ivfc.level3);
    let level4 = level_range(ivfc.level4);
    let pair1 = dpfs.level1;
    let pair2 = level_range(dpfs.level2);
    let pair3 = level_range(dpfs.level3);
    let room = pair3.size;
    if p.difi.external {
        let outside = Range {
            offset: p.difi.outside,
            size: level4.size,
        };
        pairs_and_one_placed(size, pair1, pair2, pair3, outside)
            & are_placed(room, &[level1, level2, level3])
    } else {
        pairs_placed(size, pair1, pair2, pair3)
            & are_placed(room, &[level1, level2, level3, level4])
    }
}

// A DPFS level of that size has a bit for each block of the next level.
fn enough_bits(next: Level, size: u64) -> bool
    ensures { result ≡ enough_bits next size }
{
    let n = block_count(next);
    if size < COUNTABLE {
        n <= 8 * size
    } else {
        true
    }
}

// A hash level of that size has an entry for each block of the next level.
fn enough_entries(next: Level, size: u64) -> bool
    ensures { result ≡ enough_entries next size }
{
    block_count(next) <= size / ENTRY_SIZE
}

fn all_enough(p: Partition) -> bool
    ensures { result ≡ all_enough p }
{
    let ivfc = p.ivfc;
    let dpfs = p.dpfs;
    enough_bits(dpfs.level2, dpfs.level1.size)
        & enough_bits(dpfs.level3, dpfs.level2.size)
        & enough_entries(ivfc.level1, p.difi.master.size)
        & enough_entries(ivfc.level2, ivfc.level1.size)
        & enough_entries(ivfc.level3, ivfc.level2.size)
        & enough_entries(ivfc.level4, ivfc.level3.size)
}

// 7, of the partition's size and the descriptor's length.
fn places_allowed(size: u64, length: u64, p: Partition) -> bool
    ensures { result ≡ places_allowed size length p }
{
    pieces_placed(length, p.difi) & levels_placed(size, p) & all_enough(p)
}

// 6, then 7, of the partition's size and its descriptor's bytes. A descriptor with no room for DIFI is not read.
pub(crate) fn judge_partition(size: u64, d: &[u8]) -> Result<Partition, Refusal>
    ensures { result ≡ judged_partition size d.now }
{
    let length = d.len() as u64;
    if length < DIFI_SIZE {
        return Err(Refusal::Placement);
    }
    let p = read_partition(d);
    if !form_allowed(d, p) {
        return Err(Refusal::Descriptor);
    }
    if !places_allowed(size, length, p) {
        return Err(Refusal::Placement);
    }
    Ok(p)
}
