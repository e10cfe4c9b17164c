// Bolt groups: their layout, and the entry as it comes from a file, with its limits.
#![tactic(auto)]

pub mod bolt_groups;
