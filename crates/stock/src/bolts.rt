ghost use Rattle.std.specs.Prelude.{◌≡◌};
ghost use Rattle.stock.specs.Tables.{Names, size_numbered, bolt_diameter, hole_diameter, tensile_area, class_numbered, bolt_strength, shear_factor};

use crate::listed::NotListed;
use crate::makes::Make;

// A bolt by its nominal diameter.
#[derive(Clone, Copy, Debug, PartialEq, Eq)]
pub enum BoltSize {
    M16,
    M20,
    M24,
    M27,
    M30,
}

impl TryFrom<i32> for BoltSize {
    type Error = NotListed;

    ghost try_from_gives = { Names size_numbered };

    // The size that a file names by this number.
    fn try_from(number: i32) -> Result<BoltSize, NotListed> {
        match number {
            16 => Ok(BoltSize::M16),
            20 => Ok(BoltSize::M20),
            24 => Ok(BoltSize::M24),
            27 => Ok(BoltSize::M27),
            30 => Ok(BoltSize::M30),
            _ => Err(NotListed { number }),
        }
    }
}

impl BoltSize {
    // Nominal diameter d in mm.
    pub fn diameter(self) -> u8
        ensures { result ≡ bolt_diameter self }
    {
        match self {
            BoltSize::M16 => 16,
            BoltSize::M20 => 20,
            BoltSize::M24 => 24,
            BoltSize::M27 => 27,
            BoltSize::M30 => 30,
        }
    }

    // Diameter of its hole, d0, in mm.
    pub fn hole(self) -> u8
        ensures { result ≡ hole_diameter self }
    {
        match self {
            BoltSize::M16 => 18,
            BoltSize::M20 => 22,
            BoltSize::M24 => 26,
            BoltSize::M27 => 30,
            BoltSize::M30 => 33,
        }
    }

    // Tensile stress area in mm².
    pub fn stress_area(self) -> u16
        ensures { result ≡ tensile_area self }
    {
        match self {
            BoltSize::M16 => 157,
            BoltSize::M20 => 245,
            BoltSize::M24 => 353,
            BoltSize::M27 => 459,
            BoltSize::M30 => 561,
        }
    }
}

// A property class of bolts, 8.8 as `C88`.
#[derive(Clone, Copy, Debug, PartialEq, Eq)]
pub enum BoltClass {
    C46,
    C56,
    C68,
    C88,
    C109,
}

impl TryFrom<i32> for BoltClass {
    type Error = NotListed;

    ghost try_from_gives = { Names class_numbered };

    // The class that a file names by this number, the point left out.
    fn try_from(number: i32) -> Result<BoltClass, NotListed> {
        match number {
            46 => Ok(BoltClass::C46),
            56 => Ok(BoltClass::C56),
            68 => Ok(BoltClass::C68),
            88 => Ok(BoltClass::C88),
            109 => Ok(BoltClass::C109),
            _ => Err(NotListed { number }),
        }
    }
}

impl BoltClass {
    // Ultimate tensile strength in N/mm².
    pub fn ultimate_strength(self) -> u16
        ensures { result ≡ bolt_strength self }
    {
        match self {
            BoltClass::C46 => 400,
            BoltClass::C56 => 500,
            BoltClass::C68 => 600,
            BoltClass::C88 => 800,
            BoltClass::C109 => 1000,
        }
    }

    // The shear factor αv in tenths, threads in the shear plane.
    pub fn shear_factor(self, make: Make) -> u8
        ensures { result ≡ shear_factor make self }
    {
        match (make, self) {
            (Make::En, BoltClass::C46 | BoltClass::C56 | BoltClass::C88) => 6,
            (Make::En, BoltClass::C68 | BoltClass::C109) => 5,
            (Make::SeA, _) => 5,
        }
    }
}
