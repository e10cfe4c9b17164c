ghost use Rattle.std.specs.Prelude.{◌≡◌, ◌≤◌, take, drop, is_some};
ghost use Rattle.register.specs.Held.{record_of};
ghost use Rattle.book.specs.Tabled.{empty_table, given_places, records_in, room_in, table_added, table_struck};
ghost use Rattle.book.specs.Tables.{empty_tables};

use crate::tables::{Places, Table, Tables};
use bolting::bolt_groups::{BoltGroup, BoltLayout};
use parts::loads::Load;
use parts::marks::ComponentMarks;
use parts::plates::Plate;
use parts::welds::Weld;
use register::{Full, Numbered, Register};
use stock::bolts::{BoltClass, BoltSize};
use stock::steel::Grade;

// What a place has before its first record, as memory is fixed. No `Default` on the records in its
// stead: a plate of mark 0 is no plate, and a place is read only once a record stands in it.
const BLANK_PLATE: Plate = Plate {
    mark: 0,
    thickness: 0,
    grade: Grade::S235,
};

const BLANK_MARKS: ComponentMarks = ComponentMarks {
    mark: 0,
    plate_a: 0,
    plate_b: 0,
};

const BLANK_GROUP: BoltGroup = BoltGroup {
    marks: BLANK_MARKS,
    layout: BoltLayout {
        size: BoltSize::M16,
        class: BoltClass::C46,
        rows: 0,
        columns: 0,
        e1: 0,
        p1: 0,
        e2: 0,
        p2: 0,
    },
};

const BLANK_WELD: Weld = Weld {
    marks: BLANK_MARKS,
    throat: 0,
    length: 0,
};

const BLANK_LOAD: Load = Load {
    number: 0,
    component: 0,
    force_1: 0,
    force_2: 0,
    force_3: 0,
};

impl<R: Numbered, const N: usize> Table<R, N> {
    // No record in use; each place has the blank one.
    fn empty(blank: R, given: usize) -> Table<R, N>
        ensures { result ≡ empty_table N blank given }
    {
        Table {
            places: [blank; N],
            given: given.min(N),
            register: Register::empty(),
        }
    }

    pub(crate) fn find(&self, number: u16) -> Option<R>
        ensures { result ≡ record_of R.numbered number (records_in self.now) }
    {
        self.register.find(&self.places[..self.lent()], number)
    }

    pub(crate) fn add(&mut self, item: R) -> Result<(), Full>
        ensures answer { result ≡ room_in self.old }
        ensures table { self.new ≡ table_added item self.old }
    {
        let lent = self.lent();
        self.register.add(&mut self.places[..lent], item)
    }

    // Says whether there was one, as a set's `remove` does.
    #[tactic(auto, using(crate::proofs::Lent::refilled_struck))]
    pub(crate) fn strike(&mut self, number: u16) -> bool
        ensures answer { result ≡ is_some (record_of R.numbered number (records_in self.old)) }
        ensures table { self.new ≡ table_struck R.numbered number self.old }
    {
        let lent = self.lent();
        self.register.strike(&mut self.places[..lent], number)
    }

    // How many of the places the register is lent. A ghost field `given ≤ N` would spare the minimum,
    // and ask a proof of each definition that makes a table.
    fn lent(&self) -> usize
        ensures part { take result self.now.places ≡ given_places self.now }
        ensures rest { drop result self.now.places ≡ drop self.now.given self.now.places }
        ensures within { result ≤ N }
    {
        self.given.min(N)
    }
}

impl Tables {
    pub(crate) fn empty(places: Places) -> Tables
        ensures { result ≡ empty_tables places }
    {
        Tables {
            plates: Table::empty(BLANK_PLATE, places.plates),
            bolt_groups: Table::empty(BLANK_GROUP, places.bolt_groups),
            welds: Table::empty(BLANK_WELD, places.welds),
            loads: Table::empty(BLANK_LOAD, places.loads),
        }
    }
}
