// The partitions of an opened container at their places in the image: what the calls make of what opening reads.
#![tactic(auto)]

pub mod places;
