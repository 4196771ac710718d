// The folders and files of a SAVE image: what its tables say, which entries a walk has met, and the records of a listing. The container stands
// above this crate's definitions (crate save): here level 4 is its bytes and, for each of its blocks, whether it is verified.
#![tactic(auto)]

ghost use Rattle.std.specs.Prelude.{◌≡◌};
ghost use Rattle.names.specs.Laws.{NameLaws};
ghost use Rattle.names.specs.Opening.{save_error};

pub mod hashing;
pub mod header;
pub mod places;
pub mod records;

// An entry table: where it starts in level 4, the size of an entry, entry 0's current count, and the header's maximum of entries.
#[derive(Clone, Copy)]
pub struct Table {
    pub place: u64,
    pub size: u64,
    pub count: u64,
    pub max: u64,
}

// What the header and both tables' entry 0 say: the two entry tables, and where the file hash table starts and how many buckets it has.
// `log` is the logarithm of level 4's block size.
#[derive(Clone, Copy)]
pub struct Save {
    pub log: u64,
    pub hash: u64,
    pub buckets: u64,
    pub folders: Table,
    pub files: Table,
}

// Why a save is not opened: 19, or 10 with its block.
#[derive(Clone, Copy, PartialEq, Eq, Debug)]
pub enum SaveError {
    NoSave,
    Unverified(u64),
}

// Why an entry may not be met: 18, or 10 with the lowest block that is not verified.
#[derive(Clone, Copy, PartialEq, Eq, Debug)]
pub enum EntryError {
    Invalid,
    Unverified(u64),
}

// The header and the entries 0 are only read: what may not be read is 10 with its block.
impl From<EntryError> for SaveError {
    ghost from_gives = { λ e s. s ≡ save_error e };

    fn from(e: EntryError) -> SaveError {
        match e {
            EntryError::Invalid => SaveError::NoSave,
            EntryError::Unverified(b) => SaveError::Unverified(b),
        }
    }
}

// The laws of the listing and the search hold: the check of this crate asks for them by their statement.
pub fn laws()
    ensures { NameLaws }
{}
