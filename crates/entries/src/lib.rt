// Entries of a save's tables, read through a view of the container: which blocks are known to be verified, reading, and meeting an entry.
// Reader and marks are passed one by one: a struct that lends the marks would say in each contract that its reader stays the same.
#![tactic(auto)]

pub mod knowing;
pub mod meeting;
pub mod reading;
