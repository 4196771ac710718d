// The header's fields and the rules on them: refusals 2 to 4.
ghost use Rattle.std.specs.Prelude.{◌≡◌, ◌+◌, ◌<◌, ◌≤◌, ◌^◌, length};
ghost use Rattle.layout.specs.Headers.{header_bytes, range_at, no_slot, disa_header, diff_header, selection_allowed, geometry_allowed, judged_fields, judged_header};

use super::magic::opens_as;
use super::{FRONT, HEADER, Header, Kind, Refusal, Slot};
use limits::{are_zero, count_allowed, flag_allowed, table_allowed};
use number::Range;
use number::fields::{byte, field4, field8};
use number::ranges::{are_placed, fits_in};
use number::runs::copy_into;

// Where the active flag stands in a header of either kind.
pub(crate) const DISA_FLAG: usize = 0x68;

pub(crate) const DIFF_FLAG: usize = 0x30;

// The header's bytes.
pub fn header_of(image: &[u8]) -> [u8; 256]
    requires { 0x200 ≤ length image.now }
    ensures { result ≡ header_bytes image.now }
{
    let mut header = [0u8; 256];
    copy_into(&mut header, 0, &image[HEADER..FRONT]);
    header
}

// An offset and a size, one after the other.
pub(crate) fn range_at(s: &[u8], at: usize) -> Range
    requires { at + 16 < 2 ^ 64 }
    ensures { result ≡ range_at s.now at }
{
    Range {
        offset: field8(s, at),
        size: field8(s, at + 8),
    }
}

fn no_slot() -> Slot
    ensures { result ≡ no_slot }
{
    Slot {
        descriptor: Range { offset: 0, size: 0 },
        partition: Range { offset: 0, size: 0 },
    }
}

fn disa_header(head: &[u8]) -> Header
    ensures { result ≡ disa_header head.now }
{
    let count = field4(head, 0x08);
    let size = field8(head, 0x20);
    Header {
        kind: Kind::Disa,
        count,
        flag: byte(head, DISA_FLAG) as u32,
        secondary: Range {
            offset: field8(head, 0x10),
            size,
        },
        primary: Range {
            offset: field8(head, 0x18),
            size,
        },
        a: Slot {
            descriptor: range_at(head, 0x28),
            partition: range_at(head, 0x48),
        },
        b: Slot {
            descriptor: range_at(head, 0x38),
            partition: range_at(head, 0x58),
        },
    }
}

fn diff_header(head: &[u8]) -> Header
    ensures { result ≡ diff_header head.now }
{
    let size = field8(head, 0x18);
    let own = Slot {
        descriptor: Range { offset: 0, size },
        partition: range_at(head, 0x20),
    };
    let none = no_slot();
    Header {
        kind: Kind::Diff,
        count: 1,
        flag: field4(head, DIFF_FLAG),
        secondary: Range {
            offset: field8(head, 0x08),
            size,
        },
        primary: Range {
            offset: field8(head, 0x10),
            size,
        },
        a: own,
        b: none,
    }
}

// 3: the partition count, the flag, and fields of a B that is not there.
fn selection_allowed(h: Header) -> bool
    ensures { result ≡ selection_allowed h }
{
    let b = h.b;
    let unused = are_zero(b.descriptor, b.partition);
    count_allowed(h.count) & flag_allowed(h.flag) & ((h.count == 2) | unused)
}

// 4: the first 0x200 bytes, both tables and the partitions in the image, the descriptors in the table.
fn geometry_allowed(length: u64, h: Header) -> bool
    ensures { result ≡ geometry_allowed length h }
{
    let front = Range {
        offset: 0,
        size: FRONT as u64,
    };
    let secondary = h.secondary;
    let primary = h.primary;
    let a = h.a;
    let b = h.b;
    let small = table_allowed(primary.size);
    if h.count == 2 {
        small
            & are_placed(
                length,
                &[front, secondary, primary, a.partition, b.partition],
            )
            & are_placed(primary.size, &[a.descriptor, b.descriptor])
    } else {
        small
            & are_placed(length, &[front, secondary, primary, a.partition])
            & fits_in(primary.size, a.descriptor)
    }
}

// 3, then 4.
fn judge_fields(length: u64, h: Header) -> Result<Header, Refusal>
    ensures { result ≡ judged_fields length h }
{
    if !selection_allowed(h) {
        return Err(Refusal::Selection);
    }
    if !geometry_allowed(length, h) {
        return Err(Refusal::Geometry);
    }
    Ok(h)
}

// 2, then 3 and 4, of an image's length and the header's 256 bytes.
pub(crate) fn judge_header(length: u64, head: &[u8]) -> Result<Header, Refusal>
    ensures { result ≡ judged_header length head.now }
{
    if opens_as(head, Kind::Disa) {
        judge_fields(length, disa_header(head))
    } else if opens_as(head, Kind::Diff) {
        judge_fields(length, diff_header(head))
    } else {
        Err(Refusal::Format)
    }
}
