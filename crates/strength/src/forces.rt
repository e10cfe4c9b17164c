// Forces that the rules cover.
ghost use Rattle.std.specs.Prelude.{◌≡◌, ◌+◌, ◌*◌, true, false, MatchOption};
ghost use Rattle.strength.specs.Strength.{in_range};
ghost use Rattle.strength.specs.Bolts.{shear_square};
ghost use Rattle.strength.specs.Welds.{stress_square};

use components::Sizes;

// The sizes of three forces, each within the range of the rules.
#[derive(Clone, Copy)]
pub(crate) struct Forces {
    pub(crate) sizes: Sizes,
    ghost covered: { in_range sizes ≡ true },
}

// The rules cover forces of up to 2,000 kN.
fn in_range(sizes: Sizes) -> bool
    ensures { result ≡ in_range sizes }
{
    sizes.s1 <= 20_000 && sizes.s2 <= 20_000 && sizes.s3 <= 20_000
}

impl Forces {
    pub(crate) fn new(sizes: Sizes) -> Option<Forces>
        ensures { MatchOption result (in_range sizes ≡ false) (λ forces. forces.sizes ≡ sizes) }
    {
        if in_range(sizes) {
            Some(Forces { sizes })
        } else {
            None
        }
    }

    // The square of the resultant of forces 1 and 2.
    pub(crate) fn shear_square(self) -> u64
        ensures { result ≡ shear_square self.sizes }
    {
        let Sizes { s1, s2, .. } = self.sizes;
        u64::from(s1) * u64::from(s1) + u64::from(s2) * u64::from(s2)
    }

    // The square of the comparison stress in the bead that has more of it, times the square of both throat
    // areas together.
    pub(crate) fn stress_square(self) -> u64
        ensures { result ≡ stress_square self.sizes }
    {
        let Sizes { s1, s2, s3 } = self.sizes;
        let [s1, s2, s3] = [u64::from(s1), u64::from(s2), u64::from(s3)];
        2 * (s1 * s1 + s2 * s2 + s1 * s2) + 3 * (s3 * s3)
    }
}
