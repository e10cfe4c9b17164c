// Shear and tension of the bolts.
ghost use Rattle.std.specs.Prelude.{◌≡◌};
ghost use Rattle.strength.specs.Bolts.{bolt_force, shear_met, tension_met, combined_met};

use crate::loaded::Loaded;
use crate::roots::root_within;
use bolting::bolt_groups::BoltLayout;

// The ultimate tensile force of a bolt, in N.
fn bolt_force(layout: &BoltLayout) -> u32
    ensures { result ≡ bolt_force layout.now }
{
    u32::from(layout.class.ultimate_strength()) * u32::from(layout.size.stress_area())
}

impl Loaded<'_, BoltLayout> {
    pub(crate) fn shear_met(&self) -> bool
        ensures { result ≡ shear_met self.now.rules self.now.fastening.now self.now.forces.sizes }
    {
        let weight = 10 * u32::from(self.rules.factors.gamma_m2);
        let factor = u32::from(self.fastening.class.shear_factor(self.rules.make));
        let weighted_count = u32::from(self.fastening.count()) * factor;
        let limit = u64::from(weighted_count) * u64::from(bolt_force(self.fastening));
        root_within(weight, self.forces.shear_square(), limit)
    }

    pub(crate) fn tension_met(&self) -> bool
        ensures { result ≡ tension_met self.now.rules self.now.fastening.now self.now.forces.sizes }
    {
        let weight = 10 * u64::from(self.rules.factors.gamma_m2);
        let limit = 9 * u64::from(self.fastening.count()) * u64::from(bolt_force(self.fastening));
        weight * u64::from(self.forces.sizes.s3) <= limit
    }

    // Shear and tension together.
    pub(crate) fn combined_met(&self) -> bool
        ensures { result ≡ combined_met self.now.rules self.now.fastening.now self.now.forces.sizes }
    {
        let gamma_m2 = u32::from(self.rules.factors.gamma_m2);
        let factor = u32::from(self.fastening.class.shear_factor(self.rules.make));
        let weighted_count = 63 * factor * u32::from(self.fastening.count());
        let limit = u64::from(weighted_count) * u64::from(bolt_force(self.fastening));
        let share = u64::from(50 * gamma_m2 * factor) * u64::from(self.forces.sizes.s3);
        let weight = 630 * gamma_m2;
        let square = self.forces.shear_square();
        limit
            .checked_sub(share)
            .is_some_and(|rest| root_within(weight, square, rest))
    }
}
