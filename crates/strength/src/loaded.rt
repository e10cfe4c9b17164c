// What the strength clauses judge.
ghost use Rattle.std.specs.Prelude.{◌≡◌, ◌↔◌, false, IsNone, IfSome};
ghost use Rattle.strength.specs.Strength.{in_range};

use crate::forces::Forces;
use components::{Plates, Sizes};
use parts::annexes::Rules;

// Bolts or welds with the plates that they join, under forces that the rules cover.
#[derive(Clone, Copy)]
pub(crate) struct Loaded<'a, T> {
    pub(crate) rules: Rules,
    pub(crate) fastening: &'a T,
    pub(crate) plates: &'a Plates,
    pub(crate) forces: Forces,
}

impl<'a, T> Loaded<'a, T> {
    // None where the sizes are past the range of the rules.
    pub(crate) fn new(
        rules: Rules,
        fastening: &'a T,
        plates: &'a Plates,
        sizes: Sizes,
    ) -> Option<Loaded<'a, T>>
        ensures past { IsNone result ↔ (in_range sizes ≡ false) }
        ensures rules { IfSome result (λ loaded. loaded.rules ≡ rules) }
        ensures fastening { IfSome result (λ loaded. loaded.fastening.now ≡ fastening.now) }
        ensures plates { IfSome result (λ loaded. loaded.plates.now ≡ plates.now) }
        ensures sizes { IfSome result (λ loaded. loaded.forces.sizes ≡ sizes) }
    {
        let forces = Forces::new(sizes)?;
        Some(Loaded {
            rules,
            fastening,
            plates,
            forces,
        })
    }
}
