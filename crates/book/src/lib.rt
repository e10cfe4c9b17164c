// A book of joints, while it is drafted.
#![tactic(auto)]

pub mod drafting;
pub mod entered;
pub mod refusals;
pub mod tables;
