// Numbers as the format has them: little-endian fields, ranges of bytes, and levels cut into blocks.
#![tactic(auto)]

pub mod blocks;
pub mod fields;
pub mod marks;
pub mod ranges;
pub mod runs;

// A range of bytes: where it starts, and how many it has.
#[derive(Clone, Copy, PartialEq, Eq, Debug)]
pub struct Range {
    pub offset: u64,
    pub size: u64,
}

// A level: where it starts, its size in bytes, and the logarithm of its block size.
#[derive(Clone, Copy, PartialEq, Eq, Debug)]
pub struct Level {
    pub offset: u64,
    pub size: u64,
    pub log: u64,
}
