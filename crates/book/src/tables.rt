use bolting::bolt_groups::BoltGroup;
use parts::loads::Load;
use parts::plates::Plate;
use parts::welds::Weld;
use register::Register;

// Places for records of one kind, a fixed array since a book takes no heap: how many of them the book was
// given, and how many are in use.
#[derive(Clone, Copy)]
pub struct Table<R, const N: usize> {
    pub places: [R; N],
    pub given: usize,
    pub register: Register,
}

// How many places of each kind a book is to have; no more are given than the book has.
#[derive(Clone, Copy, Debug, PartialEq, Eq)]
pub struct Places {
    pub plates: usize,
    pub bolt_groups: usize,
    pub welds: usize,
    pub loads: usize,
}

// What a book holds.
#[derive(Drop)]
pub struct Tables {
    pub plates: Table<Plate, 50>,
    pub bolt_groups: Table<BoltGroup, 50>,
    pub welds: Table<Weld, 50>,
    pub loads: Table<Load, 200>,
}

mod gates;
mod lends;
