// The two tables: which is active, and whether its hash is the header's.
ghost use Rattle.std.specs.Prelude.{◌≡◌, true, length};
ghost use Rattle.number.specs.Ranges.{part};
ghost use Rattle.layout.specs.Headers.{flag_offset, hash_range, geometry_allowed};
ghost use Rattle.layout.specs.Tables.{active, inactive, table_matches};

use super::headers::{DIFF_FLAG, DISA_FLAG};
use super::{Header, Kind};
use number::Range;
use number::ranges::part_of;
use number::runs::same_bytes;
use sha256::digest;

// Flag 0 is the primary table, 1 the secondary.
pub fn active_range(h: Header) -> Range
    ensures { result ≡ active h }
{
    let primary = h.primary;
    let secondary = h.secondary;
    if h.flag == 0 { primary } else { secondary }
}

// The other one.
pub fn inactive_range(h: Header) -> Range
    ensures { result ≡ inactive h }
{
    let primary = h.primary;
    let secondary = h.secondary;
    if h.flag == 0 { secondary } else { primary }
}

// The active table, as that part of the caller's own image.
pub fn active_table(image: &[u8], header: Header) -> &[u8]
    requires { geometry_allowed (length image.now) header ≡ true }
    ensures { (result.now ≡ part image.now (active header)) × (length result.now ≡ (active header).size) }
{
    part_of(image, active_range(header))
}

// Where the active flag is in a header: its one byte, or the lowest of its four.
pub fn flag_offset(kind: Kind) -> usize
    ensures { result ≡ flag_offset kind }
{
    match kind {
        Kind::Disa => DISA_FLAG,
        Kind::Diff => DIFF_FLAG,
    }
}

// Where the active table's hash is.
pub fn hash_range(kind: Kind) -> Range
    ensures { result ≡ hash_range kind }
{
    match kind {
        Kind::Disa => Range {
            offset: 0x6C,
            size: 32,
        },
        Kind::Diff => Range {
            offset: 0x34,
            size: 32,
        },
    }
}

// 5: the header's 32 hash bytes are the SHA-256 of the active table.
pub(crate) fn table_matches(kind: Kind, head: &[u8], table: &[u8]) -> bool
    ensures { result ≡ table_matches kind head.now table.now }
{
    let hash = digest(table);
    same_bytes(part_of(head, hash_range(kind)), &hash)
}
