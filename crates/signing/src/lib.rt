// The blocks whose SHA-256 is signed (document 000, "AES CMAC"), and a digest that its holder lends and that is brought forward in place.
#![tactic(auto)]

pub mod answers;
pub mod blocks;
pub mod digests;
pub mod shapes;

// Which file of an extdata image is signed: Quota.dat, or a device file by the ID in its name and the ID in its folder's name.
#[derive(Clone, Copy, PartialEq, Eq, Debug)]
pub enum ExtdataFile {
    Quota,
    Device(u32, u32),
}

// What an image is signed as: one variant for each type of block, with its fields.
#[derive(Clone, Copy, PartialEq, Eq, Debug)]
pub enum Signer {
    // CTR-NOR0: a game card's save.
    Card,
    // CTR-SIGN: a save on an SD card, by its title ID.
    Title(u64),
    // CTR-SYS0: a system save, by its save ID.
    System(u32),
    // CTR-EXT0: a file of extdata, by the extdata ID.
    Extdata(u64, ExtdataFile),
    // CTR-9DB0: a title database, by its ID.
    Database(u32),
}

// A field of a block: how many bytes it has, and its number.
#[derive(Clone, Copy, PartialEq, Eq, Debug)]
pub struct Field {
    pub size: u64,
    pub value: u64,
}

// What a type's block is made of: its eight letters, its fields, of which there are up to four, and whether its tail is the hash of the inner
// block, or the header itself.
#[derive(Clone, Copy, PartialEq, Eq, Debug)]
pub struct Shape {
    pub letters: [u8; 8],
    pub fields: [Option<Field>; 4],
    pub hashed: bool,
}
