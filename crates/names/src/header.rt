// The SAVE header: what it says of its tables, and whether they lie in level 4, which has `size` bytes.
ghost use Rattle.std.specs.Prelude.{◌≡◌, ◌&&◌, ◌+◌, ◌*◌, ◌≤◌, ◌<◌, ◌^◌, length, take};
ghost use Rattle.number.specs.Bytes.{same_bytes};
ghost use Rattle.number.specs.Fields.{le32, le64};
ghost use Rattle.names.specs.Opening.{magic, table_place, hash_inside, table_inside, well_formed};

use super::places::{
    BLOCK_SIZE, FILE_ENTRY, FILE_HASH, FILE_TABLE, FOLDER_ENTRY, FOLDER_HASH, FOLDER_TABLE,
    MOST_FILES, MOST_FOLDERS, REGION,
};
use number::fields::{field4, field8};
use number::ranges::lies_inside;
use number::runs::same_bytes;

fn starts_save(header: &[u8]) -> bool
    requires { 8 ≤ length header.now }
    ensures { result ≡ same_bytes (take 8 header.now) magic }
{
    same_bytes(&header[..8], b"SAVE\0\0\x04\0")
}

fn hash_inside(header: &[u8], size: u64, field: usize) -> bool
    requires { field ≤ 0x38 }
    ensures { result ≡ hash_inside header.now size field }
{
    let count = field4(header, field + 8) as u64;
    (count != 0) & lies_inside(field8(header, field), 4 * count, size)
}

// The start of a table within the data region: a starting block times the data block size.
fn skipped(header: &[u8], field: usize) -> u64
    requires { field ≤ 0x78 }
    ensures { table_place header.now field ≡ le64 header.now 0x58 + result }
{
    let start = field4(header, field) as u64;
    let block = field4(header, BLOCK_SIZE) as u64;
    start * block
}

// Where a table starts.
pub fn table_place(header: &[u8], field: usize) -> u64
    requires { (field ≤ 0x78) × (table_place header.now field < 2 ^ 64) }
    ensures { result ≡ table_place header.now field }
{
    field8(header, REGION) + skipped(header, field)
}

fn table_inside(header: &[u8], size: u64, field: usize, bytes: u64) -> bool
    requires { field ≤ 0x78 }
    ensures { result ≡ table_inside header.now size field bytes }
{
    let region = field8(header, REGION);
    let skip = skipped(header, field);
    if region <= size {
        lies_inside(skip, bytes, size - region)
    } else {
        false
    }
}

fn tables_inside(header: &[u8], size: u64) -> bool
    ensures { result ≡ (table_inside header.now size 0x68 (0x28 * (le32 header.now 0x70 + 2)) && table_inside header.now size 0x78 (0x30 * (le32 header.now 0x80 + 1))) }
{
    let folders = field4(header, MOST_FOLDERS) as u64 + 2;
    let files = field4(header, MOST_FILES) as u64 + 1;
    table_inside(header, size, FOLDER_TABLE, FOLDER_ENTRY * folders)
        & table_inside(header, size, FILE_TABLE, FILE_ENTRY * files)
}

// None of the header's grounds for 19.
pub fn well_formed(header: &[u8], size: u64) -> bool
    requires { 8 ≤ length header.now }
    ensures { result ≡ well_formed header.now size }
{
    (starts_save(header)
        & (hash_inside(header, size, FOLDER_HASH) & hash_inside(header, size, FILE_HASH)))
        & tables_inside(header, size)
}
