// The sections of a plate under force 1.
ghost use Rattle.std.specs.Prelude.{◌≡◌};
ghost use Rattle.strength.specs.Sections.{gross_met, holes_width, net_met};

use crate::loaded::Loaded;
use bolting::bolt_groups::BoltLayout;
use parts::annexes::Rules;
use parts::plates::Plate;

// The width of the holes of a row, in mm.
fn holes_width(layout: &BoltLayout) -> u32
    ensures { result ≡ holes_width layout.now }
{
    u32::from(layout.columns) * u32::from(layout.size.hole())
}

impl Loaded<'_, BoltLayout> {
    pub(crate) fn gross_met(&self, plate: Plate) -> bool
        ensures { result ≡ gross_met self.now.rules self.now.fastening.now plate self.now.forces.sizes }
    {
        let Rules { make, factors } = self.rules;
        let gamma_m0 = u32::from(factors.gamma_m0);
        let force = u64::from(gamma_m0) * u64::from(self.forces.sizes.s1);
        let yield_strength = plate
            .grade
            .yield_strength_by_thickness(make, plate.thickness);
        let strength = u64::from(plate.thickness) * u64::from(yield_strength);
        force <= u64::from(self.fastening.width()) * strength
    }

    pub(crate) fn net_met(&self, plate: Plate) -> bool
        ensures { result ≡ net_met self.now.rules self.now.fastening.now plate self.now.forces.sizes }
    {
        let weight = 10 * u64::from(self.rules.factors.gamma_m2);
        let force = weight * u64::from(self.forces.sizes.s1);
        let ultimate = u32::from(plate.grade.ultimate_strength(self.rules.make));
        let strength = 9 * u32::from(plate.thickness) * ultimate;
        let net_width = self
            .fastening
            .width()
            .checked_sub(holes_width(self.fastening));
        net_width.is_some_and(|width| force <= u64::from(width) * u64::from(strength))
    }
}
