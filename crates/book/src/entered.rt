ghost use Rattle.std.specs.Prelude.{◌≡◌};
ghost use Rattle.book.specs.Drafts.{Kind, plate_kind, group_kind, weld_kind, gates, stored};

use crate::refusals::Refusal;
use crate::tables::Tables;
use bolting::bolt_groups::{BoltGroup, BoltGroupEntry};
use parts::plates::{Plate, PlateEntry};
use parts::welds::{Weld, WeldEntry};
use register::Numbered;

// Other crates add no kind of record, of which the laws of a book are not shown, and no entry, which might make a record
// outside the limits.
pub(crate) mod sealed {
    pub trait Sealed {}
}

impl sealed::Sealed for Plate {}

impl sealed::Sealed for BoltGroup {}

impl sealed::Sealed for Weld {}

impl sealed::Sealed for PlateEntry {}

impl sealed::Sealed for BoltGroupEntry {}

impl sealed::Sealed for WeldEntry {}

// A record that a book takes.
pub trait Entered: Numbered + sealed::Sealed {
    ghost kind: { Kind Self };

    // Takes the record into the table of its kind, unless a gate refuses it.
    fn enter(self, tables: &mut Tables) -> Result<(), Refusal>
        ensures answer { result ≡ gates kind tables.old self }
        ensures tables { tables.new ≡ stored kind tables.old self };
}

impl Entered for Plate {
    ghost kind = { plate_kind };

    fn enter(self, tables: &mut Tables) -> Result<(), Refusal> {
        if tables.plates.find(self.mark).is_some() {
            return Err(Refusal::InUse);
        }
        Ok(tables.plates.add(self)?)
    }
}

impl Entered for BoltGroup {
    ghost kind = { group_kind };

    fn enter(self, tables: &mut Tables) -> Result<(), Refusal> {
        tables.check_component(self.marks)?;
        Ok(tables.bolt_groups.add(self)?)
    }
}

// As above but for the table: one implementation for all components would meet that for plates.
impl Entered for Weld {
    ghost kind = { weld_kind };

    fn enter(self, tables: &mut Tables) -> Result<(), Refusal> {
        tables.check_component(self.marks)?;
        Ok(tables.welds.add(self)?)
    }
}
