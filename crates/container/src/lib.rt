// The public calls, and nothing else: none of them asks anything of its caller.
#![tactic(auto)]

pub mod blocks;
pub mod reading;
pub mod sessions;
