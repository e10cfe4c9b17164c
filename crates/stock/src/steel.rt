ghost use Rattle.std.specs.Prelude.{◌≡◌};
ghost use Rattle.stock.specs.Tables.{Names, grade_numbered, nominal_yield, yield_strength, ultimate_strength, weld_correlation};

use crate::listed::NotListed;
use crate::makes::Make;

// A structural steel by the number of its nominal yield strength.
#[derive(Clone, Copy, Debug, PartialEq, Eq)]
pub enum Grade {
    S235,
    S275,
    S355,
}

impl TryFrom<i32> for Grade {
    type Error = NotListed;

    ghost try_from_gives = { Names grade_numbered };

    // The grade that a file names by this number.
    fn try_from(number: i32) -> Result<Grade, NotListed> {
        match number {
            235 => Ok(Grade::S235),
            275 => Ok(Grade::S275),
            355 => Ok(Grade::S355),
            _ => Err(NotListed { number }),
        }
    }
}

impl Grade {
    // Nominal yield strength in N/mm².
    pub fn yield_strength(self) -> u16
        ensures { result ≡ nominal_yield self }
    {
        match self {
            Grade::S235 => 235,
            Grade::S275 => 275,
            Grade::S355 => 355,
        }
    }

    // Yield strength of a plate of that thickness in mm, in N/mm².
    pub fn yield_strength_by_thickness(self, make: Make, thickness: u8) -> u16
        ensures { result ≡ yield_strength make self thickness }
    {
        match (make, self) {
            (Make::SeA, Grade::S235) if thickness > 16 => 225,
            (Make::SeA, Grade::S275) if thickness > 16 => 265,
            (Make::SeA, Grade::S355) if thickness > 16 => 345,
            _ => self.yield_strength(),
        }
    }

    // Ultimate strength in N/mm².
    pub fn ultimate_strength(self, make: Make) -> u16
        ensures { result ≡ ultimate_strength make self }
    {
        match (make, self) {
            (_, Grade::S235) => 360,
            (Make::En, Grade::S275) => 430,
            (Make::En, Grade::S355) => 490,
            (Make::SeA, Grade::S275) => 410,
            (Make::SeA, Grade::S355) => 470,
        }
    }

    // Correlation factor of fillet welds in hundredths.
    pub fn correlation_factor(self) -> u8
        ensures { result ≡ weld_correlation self }
    {
        match self {
            Grade::S235 => 80,
            Grade::S275 => 85,
            Grade::S355 => 90,
        }
    }
}
