// How answers, sessions, descriptions, kinds, signers and running digests pass the C boundary: as numbers and bytes.
#![tactic(auto)]

pub mod answers;
pub mod description;
pub mod digests;
pub mod kinds;
pub mod memory;
pub mod signers;
