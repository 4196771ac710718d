// Meeting an entry: its number is judged, then it is read whole, and it is marked and recorded.
ghost use Rattle.std.specs.Prelude.{◌≡◌, ◌+◌, ◌*◌, ◌^◌, ◌≤◌, ◌<◌, length};
ghost use Rattle.number.specs.Fields.{le32};
ghost use Rattle.views.specs.Versions.{version_of};
ghost use Rattle.number.specs.Marks.{marked};
ghost use Rattle.names.specs.Entries.{admit, place};
ghost use Rattle.names.specs.Walks.{met_by, leaves, unvisited};
ghost use Rattle.entries.specs.Known.{Knows};

use super::reading::{read_at, store_name, word_at};
use ivfc::Reader;
use names::places::NAME;
use names::{EntryError, Table};
use number::marks::{is_marked, set_mark};

fn place_of(t: Table, e: u64) -> u64
    requires { place t e < 2 ^ 64 }
    ensures { result ≡ place t e }
{
    t.place + t.size * e
}

// An entry is met, where `again` says that it was met before: its number is judged, then it is read whole.
pub fn reach(
    reader: Reader<'_>,
    known: &mut [u8],
    t: Table,
    again: bool,
    e: u64,
) -> Result<u64, EntryError>
    requires { (Knows reader.view reader.image.now known.old) × (1 ≤ t.size) × (t.place + t.size * t.max ≤ reader.view.level4.size) }
    ensures { (result ≡ admit (version_of reader.entry.view reader.entry.image.now).verified reader.entry.view.level4.log t again e) × (Knows reader.entry.view reader.entry.image.now known.new) }
{
    if again | ((t.count <= e) | (t.max <= e)) {
        return Err(EntryError::Invalid);
    }
    read_at(reader, known, place_of(t, e), t.size)
}

// Meets an entry: where it may be met it is marked, and its record put into the row.
pub fn meet(
    reader: Reader<'_>,
    known: &mut [u8],
    t: Table,
    kind: u8,
    marks: &mut [u8],
    row: &mut [u8],
    e: u64,
    n: u64,
) -> Result<u64, EntryError>
    requires { (Knows reader.view reader.image.now known.old) × (0x28 ≤ t.size) × (t.place + t.size * t.max ≤ reader.view.level4.size) × (t.max ≤ 8 * length marks.old) × (n + unvisited t marks.old < 2 ^ 64) }
    ensures answer { result ≡ met_by (admit (version_of reader.entry.view reader.entry.image.now).verified reader.entry.view.level4.log t (marked marks.old e) e) n }
    ensures state { leaves (admit (version_of reader.entry.view reader.entry.image.now).verified reader.entry.view.level4.log t (marked marks.old e) e) t kind e n (version_of reader.entry.view reader.entry.image.now).bytes marks.old row.old marks.new row.new }
    ensures knows { Knows reader.entry.view reader.entry.image.now known.new }
{
    let at = reach(reader, known, t, is_marked(marks, e), e)?;
    set_mark(marks, e);
    store_name(reader, row, n, kind, e, at + NAME);
    Ok(n + 1)
}

// The four bytes at an offset of an entry. A call of its own, also when it is optimised: in `list_folder` (walks), which calls itself a thousand deep, each
// copy of it would take as much stack as a reader and more.
#[inline(never)]
pub fn field_of(reader: Reader<'_>, t: Table, e: u64, offset: u64) -> u64
    requires { place t e + offset + 4 ≤ reader.view.level4.size }
    ensures { result ≡ le32 (version_of reader.entry.view reader.entry.image.now).bytes (place t e + offset) }
{
    word_at(reader, place_of(t, e) + offset)
}
