// A line taken apart: its letter and its fields.
ghost use Rattle.std.specs.Prelude.{◌≡◌, Ok, Err, MatchResult};
ghost use Rattle.workshop.specs.Letters.{asked, fields_read, line_read};

use crate::columns::{Field, WIDTH};
use crate::faults::Fault;

// What a line asks for, with the fields that it gives.
#[derive(Clone, Copy)]
pub enum Line<'a> {
    Annex(&'a [Field; 3]),
    Plate(&'a [Field; 3]),
    BoltGroup(&'a [Field; 11]),
    Weld(&'a [Field; 5]),
    Strike(&'a [Field; 1]),
    SetOut,
    Load(&'a [Field; 5]),
    Withdraw(&'a [Field; 1]),
    Verdict,
}

impl<'a> Line<'a> {
    // A known letter decides how many fields have to follow it. Letters as cases of a `match`, and the line taken apart
    // by a pattern, are a rule of the project.
    pub(crate) fn read(line: &'a [u8]) -> Result<Line<'a>, Fault>
        ensures { MatchResult result (λ l. line_read line.now ≡ Ok (asked l)) (λ f. line_read line.now ≡ Err f) }
    {
        let [letter, rest @ ..] = line else {
            return Err(Fault::NoLetter);
        };
        match char::from(*letter) {
            'A' => fields(rest).map(Line::Annex),
            'P' => fields(rest).map(Line::Plate),
            'B' => fields(rest).map(Line::BoltGroup),
            'W' => fields(rest).map(Line::Weld),
            'X' => fields(rest).map(Line::Strike),
            'S' => fields::<0>(rest).map(|_| Line::SetOut),
            'L' => fields(rest).map(Line::Load),
            'D' => fields(rest).map(Line::Withdraw),
            'V' => fields::<0>(rest).map(|_| Line::Verdict),
            _ => Err(Fault::NoLetter),
        }
    }
}

// The columns as N fields: their length is wrong where they are more or fewer.
fn fields<const N: usize>(columns: &[u8]) -> Result<&[Field; N], Fault>
    ensures { MatchResult result (λ f. fields_read N columns.now ≡ Ok f.now) (λ f. fields_read N columns.now ≡ Err f) }
{
    match columns.as_chunks::<WIDTH>() {
        (fields, []) => <&[Field; N]>::try_from(fields).map_err(|_| Fault::WrongLength),
        _ => Err(Fault::WrongLength),
    }
}
