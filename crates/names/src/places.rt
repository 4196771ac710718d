// Where the fields of a SAVE header and of the entries in its tables stand (document 004).

// How long the header is.
pub const HEADER: usize = 0x88;

// In the header: the size of a block of the data region, where each hash table starts, how many buckets that of files has, where the data region
// starts, in which of its blocks each entry table does, and how many folders and files there may be.
pub const BLOCK_SIZE: usize = 0x24;

pub const FOLDER_HASH: usize = 0x28;

pub const FILE_HASH: usize = 0x38;

pub const FILE_BUCKETS: usize = 0x40;

pub const REGION: usize = 0x58;

pub const FOLDER_TABLE: usize = 0x68;

pub const MOST_FOLDERS: usize = 0x70;

pub const FILE_TABLE: usize = 0x78;

pub const MOST_FILES: usize = 0x80;

// How long an entry is.
pub const FOLDER_ENTRY: u64 = 0x28;

pub const FILE_ENTRY: u64 = 0x30;

// In an entry: its name, the next folder or file of the same folder, a folder's first folder and first file, and the next file of the same bucket.
pub const NAME: u64 = 4;

pub const NEXT_SIBLING: u64 = 0x14;

pub const FIRST_FOLDER: u64 = 0x18;

pub const FIRST_FILE: u64 = 0x1C;

pub const NEXT_IN_BUCKET: u64 = 0x2C;
