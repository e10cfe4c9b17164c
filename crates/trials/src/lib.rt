// Tests of the library, apart from the crates that they test, so that those are not proved twice.
#![tactic(auto)]

#[cfg(test)]
mod gates;
#[cfg(test)]
mod limits;
