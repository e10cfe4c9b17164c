ghost use Rattle.std.specs.Prelude.{◌≡◌};
ghost use Rattle.workshop.specs.Stages.{state_of, step};

use crate::columns::numbers;
use crate::faults::Fault;
use crate::line::Line;
use bolting::bolt_groups::BoltGroupEntry;
use book::drafting::Drafting;
use book::tables::Places;
use parts::annexes::{AnnexEntry, Rules};
use parts::entries::Entry;
use parts::plates::PlateEntry;
use parts::welds::WeldEntry;

// How far a file has come. No `Option` of a book: a stage has a name, by which it is matched with the letter.
#[derive(Drop)]
pub enum Stage {
    // no annex is chosen yet
    Start,
    Drafting(Drafting<Rules>),
}

// The program's books have all the places there are.
const ALL_PLACES: Places = Places {
    plates: 50,
    bolt_groups: 50,
    welds: 50,
    loads: 200,
};

impl Stage {
    // What a line does, and what is answered to it. A rule of the project: the stage and the letter are matched together.
    pub(crate) fn act(&mut self, line: &[u8]) -> Result<(), Fault>
        ensures { (state_of self.new, result) ≡ step (state_of self.old) line.now }
    {
        match (&mut *self, Line::read(line)?) {
            (Stage::Start, Line::Annex(fields)) => {
                let entry = AnnexEntry::from(numbers(fields)?);
                *self = Stage::Drafting(Drafting::begin(entry.checked()?, ALL_PLACES));
                Ok(())
            }
            (Stage::Drafting(book), Line::Plate(fields)) => {
                Ok(book.add(PlateEntry::from(numbers(fields)?))?)
            }
            (Stage::Drafting(book), Line::BoltGroup(fields)) => {
                Ok(book.add(BoltGroupEntry::from(numbers(fields)?))?)
            }
            (Stage::Drafting(book), Line::Weld(fields)) => {
                Ok(book.add(WeldEntry::from(numbers(fields)?))?)
            }
            (Stage::Drafting(book), Line::Strike(fields)) => {
                let [mark] = numbers(fields)?;
                Ok(book.strike(mark)?)
            }
            _ => Err(Fault::WrongStage),
        }
    }
}
