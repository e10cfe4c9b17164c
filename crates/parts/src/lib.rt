// The parts of a joint: the records of a book, and the entries as they come from a file, with their
// limits.
#![tactic(auto)]

pub mod annexes;
pub mod entries;
pub mod limits;
pub mod loads;
pub mod marks;
pub mod plates;
pub mod welds;
