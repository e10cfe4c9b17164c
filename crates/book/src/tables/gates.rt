ghost use Rattle.std.specs.Prelude.{◌≡◌};
ghost use Rattle.book.specs.Drafts.{component_gates, strike_gates, component_struck};

use crate::refusals::Refusal;
use crate::tables::Tables;
use parts::marks::ComponentMarks;

impl Tables {
    // May a component of these marks enter?
    pub(crate) fn check_component(&self, marks: ComponentMarks) -> Result<(), Refusal>
        ensures { result ≡ component_gates self.now marks }
    {
        if self.bolt_groups.find(marks.mark).is_some() || self.welds.find(marks.mark).is_some() {
            return Err(Refusal::InUse);
        }
        self.plates.find(marks.plate_a).ok_or(Refusal::Unknown(2))?;
        self.plates.find(marks.plate_b).ok_or(Refusal::Unknown(3))?;
        Ok(())
    }

    pub(crate) fn strike_component(&mut self, mark: u16) -> Result<(), Refusal>
        ensures answer { result ≡ strike_gates self.old mark }
        ensures tables { self.new ≡ component_struck self.old mark }
    {
        if self.bolt_groups.strike(mark) || self.welds.strike(mark) {
            Ok(())
        } else {
            Err(Refusal::Unknown(1))
        }
    }
}
