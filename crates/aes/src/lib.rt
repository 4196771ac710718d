// AES with a key of 128 bits (FIPS 197): the encryption of one block, `cipher::encrypt`.
//
// No contract speaks of time, and the time of a call may depend on the key and on the block: the substitution looks into a table of 256 bytes at
// places that they decide, and some of these may be in the processor's cache and some not.
#![tactic(auto)]

pub mod cipher;
mod field;
mod key;
mod sbox;
pub mod state;
