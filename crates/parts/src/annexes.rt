ghost use Rattle.std.specs.Prelude.{◌≡◌};
ghost use Rattle.parts.specs.Entries.{annex_fields, annex_checked, factors_checked};

use crate::entries::Entry;
use crate::limits::{OutOfLimits, limited};
use stock::makes::Make;

// Partial factors γM0 and γM2, in hundredths.
#[derive(Clone, Copy, Debug, PartialEq, Eq)]
pub struct Factors {
    pub gamma_m0: u8,
    pub gamma_m2: u8,
}

impl Factors {
    // The factors, or the first that is outside its limits: they are fields 2 and 3 of an annex's entry.
    pub fn new(gamma_m0: i32, gamma_m2: i32) -> Result<Factors, OutOfLimits>
        ensures { result ≡ factors_checked gamma_m0 gamma_m2 }
    {
        // `as u8` is proved to lose nothing.
        let gamma_m0 = limited(gamma_m0, 100, 200).ok_or(OutOfLimits { field: 2 })? as u8;
        let gamma_m2 = limited(gamma_m2, 100, 200).ok_or(OutOfLimits { field: 3 })? as u8;
        Ok(Factors { gamma_m0, gamma_m2 })
    }
}

// The rules that a book is judged by: a make with its partial factors.
#[derive(Clone, Copy, Debug, PartialEq, Eq)]
pub struct Rules {
    pub make: Make,
    pub factors: Factors,
}

// The choice of an annex as it comes from a file.
#[derive(Clone, Copy, Debug, PartialEq, Eq)]
pub struct AnnexEntry {
    pub make: i32,
    pub gamma_m0: i32,
    pub gamma_m2: i32,
}

impl From<[i32; 3]> for AnnexEntry {
    ghost from_gives = { λ fields r. r ≡ annex_fields fields };

    // The entry with these numbers, in the order of its fields.
    fn from(fields: [i32; 3]) -> AnnexEntry {
        let [make, gamma_m0, gamma_m2] = fields;
        AnnexEntry {
            make,
            gamma_m0,
            gamma_m2,
        }
    }
}

impl Entry for AnnexEntry {
    type Record = Rules;

    ghost checked = { annex_checked };

    fn checked(&self) -> Result<Rules, OutOfLimits> {
        let make = Make::try_from(self.make).map_err(|_| OutOfLimits { field: 1 })?;
        let factors = Factors::new(self.gamma_m0, self.gamma_m2)?;
        Ok(Rules { make, factors })
    }
}
