// Closed lists with their tables: the makes of standards, steel grades and bolts.
#![tactic(auto)]

pub mod bolts;
pub mod listed;
pub mod makes;
pub mod steel;
