ghost use Rattle.std.specs.Prelude.{◌≡◌};
ghost use Rattle.workshop.specs.Faults.{fault_number, fault_details, of_column, of_book, of_choice};

use crate::columns::IllFormed;
use book::refusals::Refusal;
use parts::limits::OutOfLimits;

// Why a file, a line or an act was refused.
#[derive(Clone, Copy, Debug, PartialEq, Eq)]
pub enum Fault {
    // the line is empty, or begins with no letter that is known
    NoLetter,
    // the line is too long or too short for its letter
    WrongLength,
    // the letter does nothing at this stage
    WrongStage,
    // a field, counted from 1, holds no number
    IllFormed(u8),
    // the file has more bytes than are read
    TooLong,
    // the file is empty, or its last line lacks the line feed
    Unfinished,
    // the book refused the act
    Refused(Refusal),
}

impl Fault {
    // The number that the report gives it.
    pub fn number(self) -> u8
        ensures { result ≡ fault_number self }
    {
        match self {
            Fault::NoLetter => 11,
            Fault::WrongLength => 12,
            Fault::WrongStage => 13,
            Fault::IllFormed(_) => 14,
            Fault::TooLong => 15,
            Fault::Unfinished => 16,
            Fault::Refused(refusal) => refusal.number(),
        }
    }

    // The details that the report gives with it.
    pub fn details(self) -> [u16; 3]
        ensures { result ≡ fault_details self }
    {
        match self {
            Fault::IllFormed(field) => [u16::from(field), 0, 0],
            Fault::Refused(refusal) => refusal.details(),
            _ => [0, 0, 0],
        }
    }
}

impl From<IllFormed> for Fault {
    ghost from_gives = { λ e r. r ≡ of_column e };

    fn from(fault: IllFormed) -> Fault {
        Fault::IllFormed(fault.field)
    }
}

impl From<Refusal> for Fault {
    ghost from_gives = { λ e r. r ≡ of_book e };

    fn from(cause: Refusal) -> Fault {
        Fault::Refused(cause)
    }
}

// An annex is chosen before there is a book to refuse it.
impl From<OutOfLimits> for Fault {
    ghost from_gives = { λ e r. r ≡ of_choice e };

    fn from(fault: OutOfLimits) -> Fault {
        Fault::Refused(Refusal::from(fault))
    }
}
