ghost use Rattle.std.specs.Prelude.{◌≡◌};
ghost use Rattle.parts.specs.Entries.{plate_fields, plate_checked};
ghost use Rattle.parts.specs.Numbers.{plate_mark};

use crate::entries::Entry;
use crate::limits::{OutOfLimits, limited, mark};
use register::Numbered;
use stock::steel::Grade;

// A plate; its thickness in mm.
#[derive(Clone, Copy, Debug, PartialEq, Eq)]
pub struct Plate {
    pub mark: u16,
    pub thickness: u8,
    pub grade: Grade,
}

impl Numbered for Plate {
    ghost numbered = { plate_mark };

    fn number(&self) -> u16 {
        self.mark
    }
}

// A plate as it comes from a file.
#[derive(Clone, Copy, Debug, PartialEq, Eq)]
pub struct PlateEntry {
    pub mark: i32,
    pub thickness: i32,
    pub grade: i32,
}

impl From<[i32; 3]> for PlateEntry {
    ghost from_gives = { λ fields r. r ≡ plate_fields fields };

    // The entry with these numbers, in the order of its fields.
    fn from(fields: [i32; 3]) -> PlateEntry {
        let [mark, thickness, grade] = fields;
        PlateEntry {
            mark,
            thickness,
            grade,
        }
    }
}

impl Entry for PlateEntry {
    type Record = Plate;

    ghost checked = { plate_checked };

    fn checked(&self) -> Result<Plate, OutOfLimits> {
        let mark = mark(self.mark).ok_or(OutOfLimits { field: 1 })?;
        // `as u8` is proved to lose nothing.
        let thickness = limited(self.thickness, 4, 40).ok_or(OutOfLimits { field: 2 })? as u8;
        let grade = Grade::try_from(self.grade).map_err(|_| OutOfLimits { field: 3 })?;
        Ok(Plate {
            mark,
            thickness,
            grade,
        })
    }
}
