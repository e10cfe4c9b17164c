ghost use Rattle.std.specs.Prelude.{◌≡◌};
ghost use Rattle.parts.specs.Entries.{weld_fields, weld_checked};
ghost use Rattle.parts.specs.Numbers.{weld_mark};

use crate::entries::Entry;
use crate::limits::{OutOfLimits, limited};
use crate::marks::ComponentMarks;
use register::Numbered;

// A pair of fillet welds that joins two plates; the throat in tenths of a mm, the effective length
// in mm.
#[derive(Clone, Copy, Debug, PartialEq, Eq)]
pub struct Weld {
    pub marks: ComponentMarks,
    pub throat: u16,
    pub length: u16,
}

impl Numbered for Weld {
    ghost numbered = { weld_mark };

    fn number(&self) -> u16 {
        self.marks.mark
    }
}

// A pair of welds as it comes from a file.
#[derive(Clone, Copy, Debug, PartialEq, Eq)]
pub struct WeldEntry {
    pub mark: i32,
    pub plate_a: i32,
    pub plate_b: i32,
    pub throat: i32,
    pub length: i32,
}

impl From<[i32; 5]> for WeldEntry {
    ghost from_gives = { λ fields r. r ≡ weld_fields fields };

    // The entry with these numbers, in the order of its fields.
    fn from(fields: [i32; 5]) -> WeldEntry {
        let [mark, plate_a, plate_b, throat, length] = fields;
        WeldEntry {
            mark,
            plate_a,
            plate_b,
            throat,
            length,
        }
    }
}

impl Entry for WeldEntry {
    type Record = Weld;

    ghost checked = { weld_checked };

    fn checked(&self) -> Result<Weld, OutOfLimits> {
        let marks = ComponentMarks::new(self.mark, self.plate_a, self.plate_b)?;
        let throat = limited(self.throat, 1, 400).ok_or(OutOfLimits { field: 4 })?;
        let length = limited(self.length, 1, 1000).ok_or(OutOfLimits { field: 5 })?;
        Ok(Weld {
            marks,
            throat,
            length,
        })
    }
}
