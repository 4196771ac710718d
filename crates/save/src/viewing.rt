// What the two calls are made of: which containers hold a save, and the names and files of a view's level 4.
ghost use Rattle.std.specs.Prelude.{◌≡◌, false};
ghost use Rattle.views.specs.Versions.{version_of};
ghost use Rattle.save.specs.Calls.{is_disa, holds_save, save_refusal, entry_refusal, names_of, file_of};

use ivfc::Reader;
use layout::{Container, Kind, Refusal};
use names::{EntryError, SaveError};
use walks::listing::list_all;
use walks::opening::open_save;
use walks::searching::find;

// A mark for each block of a level 4 of 0x2000000 bytes, in blocks of 32, and as many for the hash levels: it says that the block is known to be
// verified, so that none is hashed twice.
const MARKS: usize = 262_144;

fn is_disa(kind: Kind) -> bool
    ensures { result ≡ is_disa kind }
{
    kind == Kind::Disa
}

// A DISA of one partition with internal level 4.
pub fn holds_save(c: Container) -> bool
    ensures { result ≡ holds_save c }
{
    is_disa(c.header.kind) & ((c.header.count == 1) & !c.a.difi.external)
}

// Why a save is not opened, as a call refuses it.
fn save_refusal(e: SaveError) -> Refusal
    ensures { result ≡ save_refusal e }
{
    match e {
        SaveError::NoSave => Refusal::NoSave,
        SaveError::Unverified(b) => Refusal::Unverified(b),
    }
}

// Why an entry may not be met, as a call refuses it.
fn entry_refusal(e: EntryError) -> Refusal
    ensures { result ≡ entry_refusal e }
{
    match e {
        EntryError::Invalid => Refusal::InvalidEntry,
        EntryError::Unverified(b) => Refusal::Unverified(b),
    }
}

// The names of a view's level 4.
pub fn list_view(reader: Reader<'_>, row: &mut [u8]) -> Result<u64, Refusal>
    requires { reader.view.external ≡ false }
    ensures answer { result ≡ (names_of (version_of reader.entry.view reader.entry.image.now) row.old).answer }
    ensures names { row.new ≡ (names_of (version_of reader.entry.view reader.entry.image.now) row.old).row }
{
    let mut known = [0u8; MARKS];
    let s = open_save(reader, &mut known).map_err(save_refusal)?;
    list_all(s, reader, &mut known, row).map_err(entry_refusal)
}

// The file of a view's level 4.
pub fn find_in(reader: Reader<'_>, folder: u64, name: &[u8]) -> Result<Option<u64>, Refusal>
    ensures { result ≡ file_of (version_of reader.entry.view reader.entry.image.now) folder name.now }
{
    let mut known = [0u8; MARKS];
    let s = open_save(reader, &mut known).map_err(save_refusal)?;
    find(s, reader, &mut known, folder, name).map_err(entry_refusal)
}
