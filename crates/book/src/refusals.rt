ghost use Rattle.std.specs.Prelude.{◌≡◌};
ghost use Rattle.book.specs.Refusals.{refusal_number, refusal_details, of_limits, of_full};

use parts::limits::OutOfLimits;
use register::Full;

// Why an act on a book was refused. The fields of an entry are counted from 1.
#[derive(Clone, Copy, Debug, PartialEq, Eq)]
pub enum Refusal {
    // a field is outside its limits
    OutOfLimits(u8),
    // the number is in use in its kind
    InUse,
    // a field names a record that the book does not have
    Unknown(u8),
    // no place is free
    Full,
}

impl Refusal {
    // The number that the report gives it.
    pub fn number(self) -> u8
        ensures { result ≡ refusal_number self }
    {
        match self {
            Refusal::OutOfLimits(_) => 21,
            Refusal::InUse => 22,
            Refusal::Unknown(_) => 23,
            Refusal::Full => 25,
        }
    }

    // The details that the report gives with it.
    pub fn details(self) -> [u16; 3]
        ensures { result ≡ refusal_details self }
    {
        let first = match self {
            Refusal::OutOfLimits(field) | Refusal::Unknown(field) => u16::from(field),
            Refusal::InUse => 1,
            Refusal::Full => 0,
        };
        [first, 0, 0]
    }
}

impl From<OutOfLimits> for Refusal {
    ghost from_gives = { λ o r. r ≡ of_limits o };

    fn from(fault: OutOfLimits) -> Refusal {
        Refusal::OutOfLimits(fault.field)
    }
}

impl From<Full> for Refusal {
    ghost from_gives = { λ f r. r ≡ of_full f };

    fn from(_fault: Full) -> Refusal {
        Refusal::Full
    }
}
