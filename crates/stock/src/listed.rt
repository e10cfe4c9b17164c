// A number that names nothing in a closed list. Each list has its numbers in a `match`, the table that a reader
// compares; a search of a list of all items would say no more.
#[derive(Clone, Copy, Debug, PartialEq, Eq)]
pub struct NotListed {
    pub number: i32,
}
