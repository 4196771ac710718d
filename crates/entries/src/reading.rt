// Reading level 4 of a view: the blocks that some bytes touch are judged, and words are taken.
ghost use Rattle.std.specs.Prelude.{MatchOption, ◌≡◌, ◌++◌, suc, ◌+◌, ◌-◌, ◌≤◌, ◌<◌, get_or};
ghost use Rattle.number.specs.Blocks.{blocks};
ghost use Rattle.number.specs.Bytes.{bytes};
ghost use Rattle.number.specs.Fields.{le32};
ghost use Rattle.ivfc.specs.Verified.{first_not};
ghost use Rattle.ivfc.specs.Views as ivfc;
ghost use Rattle.views.specs.Versions.{version_of};
ghost use Rattle.names.specs.Entries.{read_at};
ghost use Rattle.names.specs.Records.{head, put_record};
ghost use Rattle.entries.specs.Known.{Knows};

use super::knowing::vouched;
use ivfc::Reader;
use names::EntryError;
use names::records::{has_room, put_record};
use number::blocks::block_of;

// The first of the blocks first to last of level 4 that is not verified, or none.
fn first_unknown(reader: Reader<'_>, known: &mut [u8], first: u64, last: u64) -> Option<u64>
    requires { (Knows reader.view reader.image.now known.old) × (first ≤ last) × (last < blocks reader.view.level4) }
    ensures first { MatchOption result (last < first_not (ivfc.verified reader.entry.view reader.entry.image.now 4) first (suc last - first)) (λ b. (b ≡ first_not (ivfc.verified reader.entry.view reader.entry.image.now 4) first (suc last - first)) × (b ≤ last)) }
    ensures knows { Knows reader.entry.view reader.entry.image.now known.new }
{
    for b in first..=last {
        if !vouched(reader, known, 4, b) {
            return Some(b);
        }
    }
    None
}

// The n bytes at a place are read whole: the blocks that they touch are judged.
pub fn read_at(reader: Reader<'_>, known: &mut [u8], at: u64, n: u64) -> Result<u64, EntryError>
    requires { (Knows reader.view reader.image.now known.old) × (1 ≤ n) × (at + n ≤ reader.view.level4.size) }
    ensures { (result ≡ read_at (version_of reader.entry.view reader.entry.image.now).verified reader.entry.view.level4.log at n) × (Knows reader.entry.view reader.entry.image.now known.new) }
{
    let last = block_of(reader.view.level4, at + (n - 1));
    match first_unknown(reader, known, block_of(reader.view.level4, at), last) {
        None => Ok(at),
        Some(b) => Err(EntryError::Unverified(b)),
    }
}

// The four bytes at a place.
pub fn word_at(reader: Reader<'_>, at: u64) -> u64
    requires { at + 4 ≤ reader.view.level4.size }
    ensures { result ≡ le32 (version_of reader.entry.view reader.entry.image.now).bytes at }
{
    let mut word = [0u8; 4];
    reader.gather(4, at, &mut word);
    u32::from_le_bytes(word) as u64
}

// Puts record n into the row, if the row has room for it: kind, entry number, and the 16 name bytes at a place.
pub fn store_name(reader: Reader<'_>, row: &mut [u8], n: u64, kind: u8, e: u64, at: u64)
    requires { at + 16 ≤ reader.view.level4.size }
    ensures { row.new ≡ put_record row.old n (head kind e ++ bytes (λ y. get_or (version_of reader.entry.view reader.entry.image.now).bytes y 0) at 16) }
{
    if has_room(row, n) {
        let mut name = [0u8; 16];
        reader.gather(4, at, &mut name);
        put_record(row, n, kind, e, &name);
    }
}
