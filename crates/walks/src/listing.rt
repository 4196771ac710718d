// The listing: a folder's own entry, its files, then each subfolder, which is listed in the same way.
ghost use Rattle.std.specs.Prelude.{◌≡◌, List, ℕ, length};
ghost use Rattle.views.specs.Versions.{version_of};
ghost use Rattle.names.specs.Listing.{Entry, files, folders, folder_at, listing};
ghost use Rattle.names.specs.Walks.{Holds, Walks, Ready, Goes, Fewer, unvisited, answer_of, Listable, Lays};
ghost use Rattle.names.specs.Records.{row_after};
ghost use Rattle.entries.specs.Known.{Knows};

use entries::meeting::{field_of, meet};
use ivfc::Reader;
use names::places::{FIRST_FILE, FIRST_FOLDER, NEXT_SIBLING};
use names::records::{FILE, FOLDER};
use names::{EntryError, Save};

// The deepest folder is so many levels below the root.
const DEEPEST: u64 = 1000;

// The bytes that hold a mark for each entry that a table in a level 4 of 0x2000000 bytes can have: folders of 0x28 bytes, files of 0x30.
const FOLDER_MARKS: usize = 104_858;

const FILE_MARKS: usize = 87_382;

// The files from one on, in sibling order.
fn list_files(
    s: Save,
    reader: Reader<'_>,
    known: &mut [u8],
    folder_marks: &[u8],
    file_marks: &mut [u8],
    row: &mut [u8],
    first: u64,
    met: u64,
) -> Result<u64, EntryError>
    requires { (Knows reader.view reader.image.now known.old) × (Ready s reader.view.level4.log reader.view.level4.size folder_marks.now file_marks.old met) }
    ensures walks { (row₀ : List ℕ) (m : List Entry) → met ≡ length m → Holds s (version_of reader.entry.view reader.entry.image.now).bytes row₀ m folder_marks.now file_marks.old row.old → Walks s (version_of reader.entry.view reader.entry.image.now).bytes row₀ (files s (version_of reader.entry.view reader.entry.image.now).bytes (version_of reader.entry.view reader.entry.image.now).verified first m) result folder_marks.now file_marks.new row.new }
    ensures goes { Goes met (unvisited s.folders folder_marks.now) (unvisited s.files file_marks.old) result (unvisited s.folders folder_marks.now) (unvisited s.files file_marks.new) }
    ensures knows { Knows reader.entry.view reader.entry.image.now known.new }
{
    let mut f = first;
    let mut n = met;
    // A `while`: each entry says which one follows.
    while f != 0 {
        n = meet(reader, known, s.files, FILE, file_marks, row, f, n)?;
        f = field_of(reader, s.files, f, NEXT_SIBLING);
    }
    Ok(n)
}

// A folder: its own entry, its files, then its subfolders.
#[cycle(tree)]
fn list_folder(
    s: Save,
    reader: Reader<'_>,
    known: &mut [u8],
    folder_marks: &mut [u8],
    file_marks: &mut [u8],
    row: &mut [u8],
    e: u64,
    depth: u64,
    met: u64,
) -> Result<u64, EntryError>
    requires { (Knows reader.view reader.image.now known.old) × (Ready s reader.view.level4.log reader.view.level4.size folder_marks.old file_marks.old met) }
    ensures walks { (row₀ : List ℕ) (m : List Entry) → met ≡ length m → Holds s (version_of reader.entry.view reader.entry.image.now).bytes row₀ m folder_marks.old file_marks.old row.old → Walks s (version_of reader.entry.view reader.entry.image.now).bytes row₀ (folder_at s (version_of reader.entry.view reader.entry.image.now).bytes (version_of reader.entry.view reader.entry.image.now).verified depth e m) result folder_marks.new file_marks.new row.new }
    ensures goes { Goes met (unvisited s.folders folder_marks.old) (unvisited s.files file_marks.old) result (unvisited s.folders folder_marks.new) (unvisited s.files file_marks.new) }
    ensures fewer { Fewer s.folders e (unvisited s.folders folder_marks.old) result (unvisited s.folders folder_marks.new) }
    ensures knows { Knows reader.entry.view reader.entry.image.now known.new }
{
    if DEEPEST < depth {
        return Err(EntryError::Invalid);
    }
    let t = s.folders;
    let n = meet(reader, known, t, FOLDER, folder_marks, row, e, met)?;
    let f = field_of(reader, t, e, FIRST_FILE);
    let m = list_files(s, reader, known, folder_marks, file_marks, row, f, n)?;
    let below = field_of(reader, t, e, FIRST_FOLDER);
    list_folders(
        s,
        reader,
        known,
        folder_marks,
        file_marks,
        row,
        below,
        depth + 1,
        m,
    )
}

// The folders from one on, in sibling order, each with all that is below it.
#[cycle(tree)]
fn list_folders(
    s: Save,
    reader: Reader<'_>,
    known: &mut [u8],
    folder_marks: &mut [u8],
    file_marks: &mut [u8],
    row: &mut [u8],
    first: u64,
    depth: u64,
    met: u64,
) -> Result<u64, EntryError>
    requires { (Knows reader.view reader.image.now known.old) × (Ready s reader.view.level4.log reader.view.level4.size folder_marks.old file_marks.old met) }
    ensures walks { (row₀ : List ℕ) (m : List Entry) → met ≡ length m → Holds s (version_of reader.entry.view reader.entry.image.now).bytes row₀ m folder_marks.old file_marks.old row.old → Walks s (version_of reader.entry.view reader.entry.image.now).bytes row₀ (folders s (version_of reader.entry.view reader.entry.image.now).bytes (version_of reader.entry.view reader.entry.image.now).verified depth first m) result folder_marks.new file_marks.new row.new }
    ensures goes { Goes met (unvisited s.folders folder_marks.old) (unvisited s.files file_marks.old) result (unvisited s.folders folder_marks.new) (unvisited s.files file_marks.new) }
    ensures knows { Knows reader.entry.view reader.entry.image.now known.new }
{
    let mut e = first;
    let mut n = met;
    // A `while`: each entry says which one follows.
    while e != 0 {
        n = list_folder(s, reader, known, folder_marks, file_marks, row, e, depth, n)?;
        e = field_of(reader, s.folders, e, NEXT_SIBLING);
    }
    Ok(n)
}

// The walk from the root, with marks of its own.
fn walk_root(
    s: Save,
    reader: Reader<'_>,
    known: &mut [u8],
    row: &mut [u8],
) -> Result<u64, EntryError>
    requires { (Knows reader.view reader.image.now known.old) × (Listable s reader.view.level4.log reader.view.level4.size) }
    ensures answer { result ≡ answer_of (listing s (version_of reader.entry.view reader.entry.image.now).bytes (version_of reader.entry.view reader.entry.image.now).verified) }
    ensures state { Lays s (version_of reader.entry.view reader.entry.image.now).bytes row.old (listing s (version_of reader.entry.view reader.entry.image.now).bytes (version_of reader.entry.view reader.entry.image.now).verified) row.new }
    ensures knows { Knows reader.entry.view reader.entry.image.now known.new }
{
    let mut folder_marks = [0u8; FOLDER_MARKS];
    let mut file_marks = [0u8; FILE_MARKS];
    list_folder(
        s,
        reader,
        known,
        &mut folder_marks,
        &mut file_marks,
        row,
        1,
        0,
        0,
    )
}

// Lists the names into the row, as far as it has room, and answers how many there are. The walk is judged before anything is stored, so that a
// refusal leaves the row as it was; the second walk knows what the first found verified.
pub fn list_all(
    s: Save,
    reader: Reader<'_>,
    known: &mut [u8],
    row: &mut [u8],
) -> Result<u64, EntryError>
    requires { (Knows reader.view reader.image.now known.old) × (Listable s reader.view.level4.log reader.view.level4.size) }
    ensures answer { result ≡ answer_of (listing s (version_of reader.entry.view reader.entry.image.now).bytes (version_of reader.entry.view reader.entry.image.now).verified) }
    ensures names { row.new ≡ row_after s (version_of reader.entry.view reader.entry.image.now).bytes row.old (listing s (version_of reader.entry.view reader.entry.image.now).bytes (version_of reader.entry.view reader.entry.image.now).verified) }
{
    walk_root(s, reader, known, &mut row[..0])?;
    walk_root(s, reader, known, row)
}
