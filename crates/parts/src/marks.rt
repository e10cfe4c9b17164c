ghost use Rattle.std.specs.Prelude.{◌≡◌};
ghost use Rattle.parts.specs.Entries.{marks_checked};

use crate::limits::{OutOfLimits, mark, second_plate};

// The mark of a component, and the marks of the plates that it joins.
#[derive(Clone, Copy, Debug, PartialEq, Eq)]
pub struct ComponentMarks {
    pub mark: u16,
    pub plate_a: u16,
    pub plate_b: u16,
}

impl ComponentMarks {
    // The component's own mark with those of its plates, or the first that is outside its limits: they are fields 1
    // to 3 of a component's entry.
    pub fn new(own: i32, plate_a: i32, plate_b: i32) -> Result<ComponentMarks, OutOfLimits>
        ensures { result ≡ marks_checked own plate_a plate_b }
    {
        let own = mark(own).ok_or(OutOfLimits { field: 1 })?;
        let plate_a = mark(plate_a).ok_or(OutOfLimits { field: 2 })?;
        let plate_b = second_plate(plate_b, plate_a).ok_or(OutOfLimits { field: 3 })?;
        Ok(ComponentMarks {
            mark: own,
            plate_a,
            plate_b,
        })
    }
}
