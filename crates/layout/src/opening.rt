// Opening: the checks in their order; the first that fails decides the answer.
ghost use Rattle.std.specs.Prelude.{◌≡◌, Ok};
ghost use Rattle.layout.specs.Opening.{judged_slot, after_a, after_table, opened, opened_under};

use super::descriptors::judge_partition;
use super::headers::judge_header;
use super::tables::{active_table, table_matches};
use super::{Container, FRONT, HEADER, Header, Partition, Refusal, Slot};
use limits::length_allowed;
use number::ranges::part_of;

// A partition, judged by its descriptor in the active table.
fn judge_slot(table: &[u8], slot: Slot) -> Result<Partition, Refusal>
    ensures { result ≡ judged_slot table.now slot }
{
    judge_partition(slot.partition.size, part_of(table, slot.descriptor))
}

// A is good: B's 6 then 7, where there is a B.
fn open_second(h: Header, a: Partition, table: &[u8]) -> Result<Container, Refusal>
    ensures { result ≡ after_a h table.now (Ok a) }
{
    let b = if h.count == 2 {
        Some(judge_slot(table, h.b)?)
    } else {
        None
    };
    Ok(Container { header: h, a, b })
}

// 5, then A's 6 and 7.
fn open_table(h: Header, head: &[u8], table: &[u8]) -> Result<Container, Refusal>
    ensures { result ≡ after_table h head.now table.now }
{
    let kind = h.kind;
    if !table_matches(kind, head, table) {
        return Err(Refusal::TableHash);
    }
    let a = judge_slot(table, h.a)?;
    open_second(h, a, table)
}

// What an image is under a header: every field that opening reads, or the first refusal of 1 to 7 that applies.
pub fn open_under(image: &[u8], head: &[u8]) -> Result<Container, Refusal>
    ensures { result ≡ opened_under head.now image.now }
{
    let length = image.len() as u64;
    if !length_allowed(length) {
        return Err(Refusal::Length);
    }
    let h = judge_header(length, head)?;
    open_table(h, head, active_table(image, h))
}

// What an image is under its own header. One of a length that is refused may have none.
pub fn open(image: &[u8]) -> Result<Container, Refusal>
    ensures { result ≡ opened image.now }
{
    if !length_allowed(image.len() as u64) {
        return Err(Refusal::Length);
    }
    open_under(image, &image[HEADER..FRONT])
}
