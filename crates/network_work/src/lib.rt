// What the entries of network.rs do behind 1, over both areas: the image of the passed network, and the mapping.
#![tactic(auto)]

pub mod cleaning;
pub mod duplicates;
pub mod sorting;
