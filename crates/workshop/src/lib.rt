// A workshop's file: its columns, its lines, the stages of its book, and the report.
#![tactic(auto)]

mod columns;
pub mod faults;
pub mod file;
mod line;
mod rows;
mod stages;
