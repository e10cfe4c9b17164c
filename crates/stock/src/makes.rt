ghost use Rattle.std.specs.Prelude.{◌≡◌};
ghost use Rattle.stock.specs.Tables.{Names, make_numbered};

use crate::listed::NotListed;

// The standard that a joint is judged by: EN 1993-1-8 with its own values, or SE-A, the steel part of the
// Spanish building code.
#[derive(Clone, Copy, Debug, PartialEq, Eq)]
pub enum Make {
    En,
    SeA,
}

impl TryFrom<i32> for Make {
    type Error = NotListed;

    ghost try_from_gives = { Names make_numbered };

    // The make that a file names by this number.
    fn try_from(number: i32) -> Result<Make, NotListed> {
        match number {
            1 => Ok(Make::En),
            2 => Ok(Make::SeA),
            _ => Err(NotListed { number }),
        }
    }
}
