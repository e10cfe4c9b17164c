ghost use Rattle.std.specs.Prelude.{◌≡◌};
ghost use Rattle.book.specs.Tables.{empty_tables};
ghost use Rattle.book.specs.Drafts.{answer_to_entry, after_entry, strike_answer, struck_out};
ghost use Rattle.book.specs.Laws.{DraftingLaws};

use crate::drafting::Drafting;
use crate::entered::Entered;
use crate::entered::sealed::Sealed;
use crate::refusals::Refusal;
use crate::tables::{Places, Tables};
use parts::entries::Entry;
use parts::limits::{OutOfLimits, mark};

impl<A> Drafting<A> {
    // An empty book with so many places, to be judged by the annex; what holds of every book that is
    // drafted is shown here.
    #[tactic(auto, using(crate::proofs::Acts::drafting_laws))]
    pub fn begin(annex: A, places: Places) -> Drafting<A>
        ensures annex { result.annex ≡ annex }
        ensures tables { result.tables ≡ empty_tables places }
        ensures laws { DraftingLaws }
    {
        Drafting {
            annex,
            tables: Tables::empty(places),
        }
    }

    // Takes the record that the entry makes.
    pub fn add<E: Entry + Sealed + Drop>(&mut self, entry: E) -> Result<(), Refusal>
    where
        E::Record: Entered,
        ensures answer { result ≡ answer_to_entry E.Record.kind self.old.tables (E.checked entry) }
        ensures annex { self.new.annex ≡ self.old.annex }
        ensures tables { self.new.tables ≡ after_entry E.Record.kind self.old.tables (E.checked entry) }
    {
        entry.checked()?.enter(&mut self.tables)
    }

    // Strikes the component of that mark.
    pub fn strike(&mut self, component: i32) -> Result<(), Refusal>
        ensures answer { result ≡ strike_answer self.old.tables component }
        ensures annex { self.new.annex ≡ self.old.annex }
        ensures tables { self.new.tables ≡ struck_out self.old.tables component }
    {
        let mark = mark(component).ok_or(OutOfLimits { field: 1 })?;
        self.tables.strike_component(mark)
    }
}
