// Blank images: a fresh image of one partition with internal level 4, all of whose blocks are zero and verified.
// The places of the two tables, the size of each, and the partition's place. The primary table is the active one.
#![tactic(auto)]

const SECONDARY: u64 = 0x200;

const PRIMARY: u64 = 0x330;

const TABLE: u64 = 0x12C;

const PARTITION: u64 = 0x1000;

mod fields;
mod filling;
mod hashes;
mod header;
pub mod making;
mod sizes;
mod table;
