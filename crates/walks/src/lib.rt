// Walks over the entries of a save: opening its header, the listing, and the search along a chain.
#![tactic(auto)]

pub mod listing;
pub mod opening;
pub mod searching;
