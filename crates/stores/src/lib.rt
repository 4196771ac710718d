// The stores of begin and write.
#![tactic(auto)]

pub mod staging;
