ghost use Rattle.std.specs.Prelude.{◌≡◌};
ghost use Rattle.bolting.specs.Groups.{group_mark, group_fields, group_checked, layout_checked};
ghost use Rattle.bolting.specs.Layouts.{bolt_count, other_direction, plate_width, spacing_in, single};

use parts::entries::Entry;
use parts::limits::{OutOfLimits, limited, pitch};
use parts::marks::ComponentMarks;
use register::Numbered;
use stock::bolts::{BoltClass, BoltSize};

// Equal bolts in rows and columns. In mm: end distance e1 and pitch p1 along the rows, edge distance
// e2 and spacing p2 across them. A pitch (spacing) without a second row (column) is 0.
#[derive(Clone, Copy, Debug, PartialEq, Eq)]
pub struct BoltLayout {
    pub size: BoltSize,
    pub class: BoltClass,
    pub rows: u8,
    pub columns: u8,
    pub e1: u16,
    pub p1: u16,
    pub e2: u16,
    pub p2: u16,
}

// The two directions of a layout: along it, from row to row; across it, from column to column.
#[derive(Clone, Copy, Debug, PartialEq, Eq)]
pub enum Direction {
    Along,
    Across,
}

impl Direction {
    // The direction across this one.
    pub fn other(self) -> Direction
        ensures { result ≡ other_direction self }
    {
        match self {
            Direction::Along => Direction::Across,
            Direction::Across => Direction::Along,
        }
    }
}

// A layout seen in one direction: how many lines of bolts come one behind the other, how far the
// outermost is from the end of the plate, and the pitch from each to the next.
#[derive(Clone, Copy, Debug, PartialEq, Eq)]
pub struct Spacing {
    pub lines: u8,
    pub end: u16,
    pub pitch: u16,
}

impl Spacing {
    // A line alone has no pitch.
    pub fn is_single(self) -> bool
        ensures { result ≡ single self }
    {
        self.lines <= 1
    }
}

impl BoltLayout {
    // The number of bolts.
    pub fn count(&self) -> u16
        ensures { result ≡ bolt_count self.now }
    {
        u16::from(self.rows) * u16::from(self.columns)
    }

    // The width of the plates that the columns cover, from edge to edge, in mm.
    pub fn width(&self) -> u32
        ensures { result ≡ plate_width self.now }
    {
        let gaps = self.columns.saturating_sub(1);
        2 * u32::from(self.e2) + u32::from(gaps) * u32::from(self.p2)
    }

    pub fn spacing(&self, direction: Direction) -> Spacing
        ensures { result ≡ spacing_in direction self.now }
    {
        match direction {
            Direction::Along => Spacing {
                lines: self.rows,
                end: self.e1,
                pitch: self.p1,
            },
            Direction::Across => Spacing {
                lines: self.columns,
                end: self.e2,
                pitch: self.p2,
            },
        }
    }
}

// Bolts that join two plates.
#[derive(Clone, Copy, Debug, PartialEq, Eq)]
pub struct BoltGroup {
    pub marks: ComponentMarks,
    pub layout: BoltLayout,
}

impl Numbered for BoltGroup {
    ghost numbered = { group_mark };

    fn number(&self) -> u16 {
        self.marks.mark
    }
}

// A bolt group as it comes from a file.
#[derive(Clone, Copy, Debug, PartialEq, Eq)]
pub struct BoltGroupEntry {
    pub mark: i32,
    pub plate_a: i32,
    pub plate_b: i32,
    pub size: i32,
    pub class: i32,
    pub rows: i32,
    pub columns: i32,
    pub e1: i32,
    pub p1: i32,
    pub e2: i32,
    pub p2: i32,
}

impl From<[i32; 11]> for BoltGroupEntry {
    ghost from_gives = { λ fields r. r ≡ group_fields fields };

    // The entry with these numbers, in the order of its fields.
    fn from(fields: [i32; 11]) -> BoltGroupEntry {
        let [
            mark,
            plate_a,
            plate_b,
            size,
            class,
            rows,
            columns,
            e1,
            p1,
            e2,
            p2,
        ] = fields;
        BoltGroupEntry {
            mark,
            plate_a,
            plate_b,
            size,
            class,
            rows,
            columns,
            e1,
            p1,
            e2,
            p2,
        }
    }
}

impl Entry for BoltGroupEntry {
    type Record = BoltGroup;

    ghost checked = { group_checked };

    fn checked(&self) -> Result<BoltGroup, OutOfLimits> {
        let marks = ComponentMarks::new(self.mark, self.plate_a, self.plate_b)?;
        let layout = self.checked_layout()?;
        Ok(BoltGroup { marks, layout })
    }
}

impl BoltGroupEntry {
    // The layout, or the first of its fields that is outside its limits.
    fn checked_layout(&self) -> Result<BoltLayout, OutOfLimits>
        ensures { result ≡ layout_checked self.now }
    {
        let size = BoltSize::try_from(self.size).map_err(|_| OutOfLimits { field: 4 })?;
        let class = BoltClass::try_from(self.class).map_err(|_| OutOfLimits { field: 5 })?;
        // `as u8` is proved to lose nothing.
        let rows = limited(self.rows, 1, 10).ok_or(OutOfLimits { field: 6 })? as u8;
        let columns = limited(self.columns, 1, 4).ok_or(OutOfLimits { field: 7 })? as u8;
        let e1 = limited(self.e1, 1, 400).ok_or(OutOfLimits { field: 8 })?;
        let p1 = pitch(self.p1, rows).ok_or(OutOfLimits { field: 9 })?;
        let e2 = limited(self.e2, 1, 400).ok_or(OutOfLimits { field: 10 })?;
        let p2 = pitch(self.p2, columns).ok_or(OutOfLimits { field: 11 })?;
        Ok(BoltLayout {
            size,
            class,
            rows,
            columns,
            e1,
            p1,
            e2,
            p2,
        })
    }
}
