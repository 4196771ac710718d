// A file, by its folder's number and its name, along the chain of its bucket. No entry is marked: a chain that is longer than the table has
// entries meets one of them twice, and from then on none but those it met before.
ghost use Rattle.std.specs.Prelude.{◌≡◌, [], ◌+◌, ◌*◌, ◌≤◌, ◌<◌};
ghost use Rattle.views.specs.Versions.{version_of};
ghost use Rattle.names.specs.Entries.{place};
ghost use Rattle.names.specs.Searching.{named, chain, found};
ghost use Rattle.names.specs.Walks.{Searchable};
ghost use Rattle.entries.specs.Known.{Knows};

use entries::meeting::{field_of, reach};
use entries::reading::{read_at, word_at};
use ivfc::Reader;
use names::hashing::bucket_of;
use names::places::{NAME, NEXT_IN_BUCKET};
use names::{EntryError, Save};
use number::runs::same_bytes;

// The entry at a place is the file that is looked for.
fn is_named(s: Save, reader: Reader<'_>, f: u64, at: u64, parent: u64, name: &[u8]) -> bool
    requires { (at ≡ place s.files f) × (at + 0x30 ≤ reader.view.level4.size) }
    ensures { result ≡ named s (version_of reader.entry.view reader.entry.image.now).bytes parent name.now f }
{
    let mut own = [0u8; 16];
    reader.gather(4, at + NAME, &mut own);
    (word_at(reader, at) == parent) & same_bytes(&own, name)
}

// The chain from an entry on.
fn search_chain(
    s: Save,
    reader: Reader<'_>,
    known: &mut [u8],
    first: u64,
    parent: u64,
    name: &[u8],
) -> Result<Option<u64>, EntryError>
    requires { (Knows reader.view reader.image.now known.old) × (Searchable s reader.view.level4.log reader.view.level4.size) }
    ensures { result ≡ chain s (version_of reader.entry.view reader.entry.image.now).bytes (version_of reader.entry.view reader.entry.image.now).verified parent name.now first [] }
{
    let mut f = first;
    for _step in 0..s.files.max + 1 {
        if f == 0 {
            return Ok(None);
        }
        let at = reach(reader, known, s.files, false, f)?;
        if is_named(s, reader, f, at, parent, name) {
            return Ok(Some(f));
        }
        f = field_of(reader, s.files, f, NEXT_IN_BUCKET);
    }
    Err(EntryError::Invalid)
}

// The file with a name in a folder.
pub fn find(
    s: Save,
    reader: Reader<'_>,
    known: &mut [u8],
    parent: u64,
    name: &[u8],
) -> Result<Option<u64>, EntryError>
    requires { (Knows reader.view reader.image.now known.old) × (Searchable s reader.view.level4.log reader.view.level4.size) × (0 < s.buckets) × (s.hash + 4 * s.buckets ≤ reader.view.level4.size) }
    ensures { result ≡ found s (version_of reader.entry.view reader.entry.image.now).bytes (version_of reader.entry.view reader.entry.image.now).verified parent name.now }
{
    let at = s.hash + 4 * bucket_of(name, parent, s.buckets);
    read_at(reader, known, at, 4)?;
    let first = word_at(reader, at);
    search_chain(s, reader, known, first, parent, name)
}
