// The SAVE header and both tables' entry 0.
ghost use Rattle.std.specs.Prelude.{◌≡◌, true, ◌+◌, ◌≤◌};
ghost use Rattle.number.specs.Fields.{le32};
ghost use Rattle.views.specs.Versions.{version_of};
ghost use Rattle.names.specs.Opening.{table_place, save_of, well_formed, entries_read, judged_header, open_save};
ghost use Rattle.entries.specs.Known.{Knows};

use entries::reading::{read_at, word_at};
use ivfc::Reader;
use names::header::{table_place, well_formed};
use names::places::{
    FILE_BUCKETS, FILE_ENTRY, FILE_HASH, FILE_TABLE, FOLDER_ENTRY, FOLDER_TABLE, HEADER,
    MOST_FILES, MOST_FOLDERS,
};
use names::{Save, SaveError, Table};
use number::fields::{field4, field8};

// A table, with entry 0's current count.
fn table_of(reader: Reader<'_>, header: &[u8], field: usize, size: u64, max: u64) -> Table
    requires { (field ≤ 0x78) × (table_place header.now field + 4 ≤ reader.view.level4.size) }
    ensures { result ≡ record { place = table_place header.now field; size = size; count = le32 (version_of reader.entry.view reader.entry.image.now).bytes (table_place header.now field); max = max } }
{
    let place = table_place(header, field);
    Table {
        place,
        size,
        count: word_at(reader, place),
        max,
    }
}

// What a well-formed header and the entries 0 say.
fn save_of(reader: Reader<'_>, header: &[u8]) -> Save
    requires { well_formed header.now reader.view.level4.size ≡ true }
    ensures { result ≡ save_of header.now (version_of reader.entry.view reader.entry.image.now).bytes reader.entry.view.level4.log }
{
    let folders = table_of(
        reader,
        header,
        FOLDER_TABLE,
        FOLDER_ENTRY,
        field4(header, MOST_FOLDERS) as u64 + 2,
    );
    let files = table_of(
        reader,
        header,
        FILE_TABLE,
        FILE_ENTRY,
        field4(header, MOST_FILES) as u64 + 1,
    );
    Save {
        log: reader.view.level4.log,
        hash: field8(header, FILE_HASH),
        buckets: field4(header, FILE_BUCKETS) as u64,
        folders,
        files,
    }
}

// Both tables' entry 0, the folders' first.
fn read_entries(s: Save, reader: Reader<'_>, known: &mut [u8]) -> Result<Save, SaveError>
    requires { (Knows reader.view reader.image.now known.old) × (s.log ≡ reader.view.level4.log) × (s.folders.place + 0x28 ≤ reader.view.level4.size) × (s.files.place + 0x30 ≤ reader.view.level4.size) }
    ensures { (result ≡ entries_read (version_of reader.entry.view reader.entry.image.now).verified s) × (Knows reader.entry.view reader.entry.image.now known.new) }
{
    read_at(reader, known, s.folders.place, FOLDER_ENTRY)?;
    read_at(reader, known, s.files.place, FILE_ENTRY)?;
    Ok(s)
}

// A header that is verified: what it says, and both entries 0.
fn judge_header(reader: Reader<'_>, known: &mut [u8]) -> Result<Save, SaveError>
    requires { (Knows reader.view reader.image.now known.old) × (0x88 ≤ reader.view.level4.size) }
    ensures { (result ≡ judged_header (version_of reader.entry.view reader.entry.image.now).bytes (version_of reader.entry.view reader.entry.image.now).verified reader.entry.view.level4.log) × (Knows reader.entry.view reader.entry.image.now known.new) }
{
    let mut header = [0u8; HEADER];
    reader.gather(4, 0, &mut header);
    if well_formed(&header, reader.view.level4.size) {
        read_entries(save_of(reader, &header), reader, known)
    } else {
        Err(SaveError::NoSave)
    }
}

// The header, its places, and both entries 0.
pub fn open_save(reader: Reader<'_>, known: &mut [u8]) -> Result<Save, SaveError>
    requires { Knows reader.view reader.image.now known.old }
    ensures { (result ≡ open_save (version_of reader.entry.view reader.entry.image.now).bytes (version_of reader.entry.view reader.entry.image.now).verified reader.entry.view.level4.log) × (Knows reader.entry.view reader.entry.image.now known.new) }
{
    if reader.view.level4.size < HEADER as u64 {
        return Err(SaveError::NoSave);
    }
    read_at(reader, known, 0, HEADER as u64)?;
    judge_header(reader, known)
}
