// Opening a container image: its header, its two tables, and the descriptor of each partition, as the image's bytes say them.
#![tactic(auto)]

use number::{Level, Range};
use std::fmt;

// Where the header starts, and where the first 0x200 bytes end, with the header's end.
pub const HEADER: usize = 0x100;

pub const FRONT: usize = 0x200;

// Where the selector stands in a descriptor.
pub const SELECTOR: usize = 0x39;

mod descriptors;
pub mod headers;
pub mod magic;
pub mod opening;
pub mod refusals;
pub mod tables;

// Why a call is refused, in the order of their numbers (refusals::number_of).
#[derive(Clone, Copy, Debug, PartialEq, Eq)]
pub enum Refusal {
    // The image's length.
    Length,
    // The first eight header bytes are neither kind.
    Format,
    // The partition count, the active flag, or fields of a B that there is not.
    Selection,
    // A range, a size or a disjointness rule of the header.
    Geometry,
    // The active table's SHA-256 differs.
    TableHash,
    // A descriptor's opening bytes, piece sizes, selector, logarithms or level sizes.
    Descriptor,
    // A descriptor's places, disjointness or number of entries.
    Placement,
    // There is no such partition.
    NoPartition,
    // Past level 4's end.
    OutOfRange,
    // A block of level 4 that is not verified.
    Unverified(u64),
    // Idle where begun is needed, or begun where idle is.
    SessionState,
    // The header is not the one that the session remembers, or the inactive table is not the active one with its selectors flipped.
    Stale,
    // The container's kind doesn't fit the type of block that is to be signed.
    SignerKind,
    // The first 16 bytes are not the signature.
    Signature,
    // An entry of a save that the walk may not meet: no such number, met before, or too deep.
    InvalidEntry,
    // The image holds no save whose names can be listed.
    NoSave,
    // A blank image of no such number of blocks, or a lent image that is not just as long.
    BlankSize,
    // A revert where the session remembers no commit, the header is not the one after it, or the image does not open under the one before it.
    NothingToRevert,
    // A running digest whose total is, or would be, past the longest message.
    DigestTooLong,
}

#[derive(Clone, Copy, Debug, PartialEq, Eq)]
pub enum Kind {
    Disa,
    Diff,
}

// Its name: the letters that a header of this kind opens with.
impl fmt::Display for Kind {
    ghost use Rattle.std.specs.Prelude.{Some};
    ghost use Rattle.layout.specs.Headers.{kind_name};

    ghost output = { λ kind. Some (kind_name kind) };

    fn fmt<W: fmt::Write>(&self, f: &mut fmt::Formatter<W>) -> fmt::Result {
        match self {
            Kind::Disa => f.write_str("DISA"),
            Kind::Diff => f.write_str("DIFF"),
        }
    }
}

// A partition's fields in the header: its descriptor within the table, and the partition within the image.
#[derive(Clone, Copy)]
pub struct Slot {
    pub descriptor: Range,
    pub partition: Range,
}

#[derive(Clone, Copy)]
pub struct Header {
    pub kind: Kind,
    pub count: u32,
    pub flag: u32,
    pub secondary: Range,
    pub primary: Range,
    pub a: Slot,
    pub b: Slot,
}

// The pieces of a descriptor, and what else DIFI says: whether level 4 is external, the selector, and where an external level 4 is.
#[derive(Clone, Copy)]
pub struct Difi {
    pub ivfc: Range,
    pub dpfs: Range,
    pub master: Range,
    pub external: bool,
    pub selector: u8,
    pub outside: u64,
}

// The hash levels 1 to 3 and the data, level 4, within DPFS level 3; of an external level 4 the offset is not read.
#[derive(Clone, Copy)]
pub struct Ivfc {
    pub level1: Level,
    pub level2: Level,
    pub level3: Level,
    pub level4: Level,
}

// The levels of halves; each size is that of one half. Level 1's logarithm is not read.
#[derive(Clone, Copy)]
pub struct Dpfs {
    pub level1: Range,
    pub level2: Level,
    pub level3: Level,
}

#[derive(Clone, Copy)]
pub struct Partition {
    pub difi: Difi,
    pub ivfc: Ivfc,
    pub dpfs: Dpfs,
}

// Every field that opening reads; `b` is partition B, where there is one.
#[derive(Clone, Copy)]
pub struct Container {
    pub header: Header,
    pub a: Partition,
    pub b: Option<Partition>,
}
