// Numbered records in places that are lent to each call: a register keeps only how many of the
// places are in use.
#![tactic(auto)]

ghost use Rattle.std.specs.Prelude.{◌≡◌, ℕ, ◌+◌, ◌-◌, ◌<◌, ◌≤◌, length, is_some, IfSome, Some, slice_set};
ghost use Rattle.register.specs.Held.{held, place_of, record_of, adding, count_added, places_added, struck, count_struck, places_struck};
ghost use Rattle.register.specs.Laws.{Added, AddedOrKept, RefusedWhenFull, StaysUnrepeated, Struck, StruckOrKept};

// A record that bears a number.
pub trait Numbered: Copy {
    ghost numbered: { Self → ℕ };

    fn number(&self) -> u16
        ensures { result ≡ numbered self.now };
}

// Why an add was refused: every place is taken.
#[derive(Clone, Copy, Debug, PartialEq, Eq)]
pub struct Full;

// How many of the places are in use: the first ones. A count alone, since a book takes no heap: whoever
// has the places lends them, and the same calls serve the records of any kind.
#[derive(Clone, Copy, Debug, PartialEq, Eq)]
pub struct Register {
    count: usize,
}

impl Register {
    pub fn empty() -> Register
        ensures { result.count ≡ 0 }
    {
        Register { count: 0 }
    }

    pub fn count(&self) -> usize
        ensures { result ≡ self.now.count }
    {
        self.count // only `add` and `strike` change it
    }

    // The record with the number, copied out.
    pub fn find<R: Numbered>(&self, places: &[R], number: u16) -> Option<R>
        ensures { result ≡ record_of R.numbered number (held self.now.count places.now) }
    {
        let records = self.in_use(places);
        records
            .iter()
            .copied()
            .find(|record| record.number() == number)
    }

    // Takes the record into the first free place.
    pub fn add<R: Numbered>(&mut self, places: &mut [R], item: R) -> Result<(), Full>
        ensures answer { result ≡ adding self.old.count places.old }
        ensures count { self.new.count ≡ count_added self.old.count places.old }
        ensures places { places.new ≡ places_added item self.old.count places.old }
        ensures full { RefusedWhenFull result self.old.count places.old }
        ensures found { AddedOrKept R.numbered item result self.old.count places.old self.new.count places.new }
        ensures unrepeated { StaysUnrepeated R.numbered item (held self.old.count places.old) (held self.new.count places.new) }
    {
        if self.count < places.len() {
            put(places, self.count, item);
            self.count += 1;
            Ok(())
        } else {
            Err(Full)
        }
    }

    // Takes the record with the number out; says whether there was one, as a set's `remove` does.
    #[tactic(auto, using(crate::proofs::Search::place_known))]
    pub fn strike<R: Numbered>(&mut self, places: &mut [R], number: u16) -> bool
        ensures answer { result ≡ is_some (record_of R.numbered number (held self.old.count places.old)) }
        ensures count { self.new.count ≡ count_struck R.numbered number self.old.count places.old }
        ensures places { places.new ≡ places_struck R.numbered number self.old.count places.old }
        ensures found { StruckOrKept R.numbered number result self.old.count places.old self.new.count places.new }
    {
        let Some(at) = self.place(places, number) else {
            return false;
        };
        let used = self.in_use(places).len();
        close_gap(places, at, used);
        self.count = used - 1;
        true
    }

    // The place of the first record with the number.
    fn place<R: Numbered>(&self, places: &[R], number: u16) -> Option<usize>
        ensures place { result ≡ place_of R.numbered number (held self.now.count places.now) }
        ensures within { IfSome result (λ at. at < length (held self.now.count places.now)) }
    {
        self.in_use(places)
            .iter()
            .position(|record| record.number() == number)
    }

    // The records in use; a count past the last place means all of them.
    fn in_use<'a, R>(&self, places: &'a [R]) -> &'a [R]
        ensures records { result.now ≡ held self.now.count places.now }
        ensures within { length result.now ≤ length places.now }
    {
        let used = self.count.min(places.len());
        &places[..used]
    }
}

// Writes the record behind the first `at` records.
#[tactic(auto, using(crate::proofs::Places::added_unrepeated))]
fn put<R: Numbered>(places: &mut [R], at: usize, item: R)
    requires { at < length places.old }
    ensures places { places.new ≡ slice_set places.old at item }
    ensures found { Added R.numbered item (held at places.old) (held (at + 1) places.new) }
    ensures unrepeated { StaysUnrepeated R.numbered item (held at places.old) (held (at + 1) places.new) }
{
    places[at] = item;
}

// Moves what stands behind `at` down one place, up to `end`.
#[tactic(auto, using(crate::proofs::Places::gap_closed))]
fn close_gap<R: Numbered>(places: &mut [R], at: usize, end: usize)
    requires before_end { at < end }
    requires end_within { end ≤ length places.old }
    ensures places { places.new ≡ struck at end places.old }
    ensures found { (n k : ℕ) → end ≡ length (held n places.old) → place_of R.numbered k (held n places.old) ≡ Some at → Struck R.numbered k (held n places.old) (held (end - 1) places.new) }
{
    places.copy_within(at + 1..end, at);
}
