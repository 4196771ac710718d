// The names inside a save: the two public calls, which ask nothing of their caller, and what they are made of. They read the committed version of a
// SAVE image in a DISA of one partition with internal level 4.
#![tactic(auto)]

pub mod calls;
mod viewing;
