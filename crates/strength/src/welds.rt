// A pair of fillet welds.
ghost use Rattle.std.specs.Prelude.{◌≡◌};
ghost use Rattle.strength.specs.Welds.{weld_ultimate, weld_factor, combined_stress_met, normal_stress_met};

use crate::loaded::Loaded;
use crate::roots::root_within;
use components::Sizes;
use parts::welds::Weld;

impl Loaded<'_, Weld> {
    fn ultimate(&self) -> u16
        ensures { result ≡ weld_ultimate self.now.rules self.now.plates.now }
    {
        let grade = self.plates.weaker_grade(self.rules.make);
        grade.ultimate_strength(self.rules.make)
    }

    fn factor(&self) -> u8
        ensures { result ≡ weld_factor self.now.rules self.now.plates.now }
    {
        let grade = self.plates.weaker_grade(self.rules.make);
        grade.correlation_factor()
    }

    pub(crate) fn combined_stress_met(&self) -> bool
        ensures { result ≡ combined_stress_met self.now.rules self.now.fastening.now self.now.plates.now self.now.forces.sizes }
    {
        let Weld { throat, length, .. } = *self.fastening;
        let gamma_m2 = u32::from(self.rules.factors.gamma_m2);
        let weight = u32::from(self.factor()) * gamma_m2;
        let strength = u64::from(length) * u64::from(self.ultimate());
        let limit = 20 * u64::from(throat) * strength;
        root_within(weight, self.forces.stress_square(), limit)
    }

    pub(crate) fn normal_stress_met(&self) -> bool
        ensures { result ≡ normal_stress_met self.now.rules self.now.fastening.now self.now.plates.now self.now.forces.sizes }
    {
        let Weld { throat, length, .. } = *self.fastening;
        let Sizes { s1, s2, .. } = self.forces.sizes;
        let weight = 50 * u64::from(self.rules.factors.gamma_m2);
        let sum = u64::from(s1 + s2);
        let strength = u64::from(length) * u64::from(self.ultimate());
        let root = u128::from(9 * u64::from(throat) * strength);
        u128::from(weight * weight) * u128::from(sum * sum) <= 2 * (root * root)
    }
}
