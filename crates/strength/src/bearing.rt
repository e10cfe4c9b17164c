// Bearing of the bolts on a plate.
ghost use Rattle.std.specs.Prelude.{◌≡◌, ◌*◌, pos, ◌-ℤ◌, ◌*ℤ◌, int_le};
ghost use Rattle.stock.specs.Tables.{hole_diameter};
ghost use Rattle.bolting.specs.Layouts.{spacing_in};
ghost use Rattle.strength.specs.Bearing.{least_with_pitch, end_ratio, bearing_stress, full_edge_ratio, en_edge_ratio, edge_ratio, bearing_weight, bearing_area, bearing_met};

use crate::loaded::Loaded;
use bolting::bolt_groups::{BoltLayout, Direction, Spacing};
use parts::annexes::Rules;
use parts::plates::Plate;
use stock::makes::Make;

// The holes of a layout in one direction: how they lie there, and how wide each is, in mm.
#[derive(Clone, Copy)]
struct Holes {
    spacing: Spacing,
    diameter: u8,
}

impl Holes {
    fn new(layout: &BoltLayout, direction: Direction) -> Holes
        ensures spacing { result.spacing ≡ spacing_in direction layout.now }
        ensures diameter { result.diameter ≡ hole_diameter layout.now.size }
    {
        Holes {
            spacing: layout.spacing(direction),
            diameter: layout.size.hole(),
        }
    }

    // The least of `x` and of the pitch's term, which a line alone does not have.
    fn least_with_pitch(self, term: i32, x: i32) -> i32
        ensures { result ≡ least_with_pitch self.spacing term x }
    {
        if self.spacing.is_single() {
            x
        } else {
            term.min(x)
        }
    }

    // The factor αb, but for the strength of the bolts, times 12·d0.
    fn end_ratio(self) -> i32
        ensures { result ≡ end_ratio self.spacing self.diameter }
    {
        let end = 4 * self.spacing.end.min(3 * u16::from(self.diameter));
        let pitch = 4 * i32::from(self.spacing.pitch) - 3 * i32::from(self.diameter);
        self.least_with_pitch(pitch, i32::from(end))
    }

    // The stress αb·fu times 12·d0.
    fn bearing_stress(self, bolt_strength: u16, strength: u16) -> i64
        ensures { result ≡ bearing_stress self.spacing self.diameter bolt_strength strength }
    {
        let plate = product_i64(u32::from(strength), self.end_ratio());
        let bolt = 12 * u32::from(self.diameter) * u32::from(bolt_strength);
        plate.min(i64::from(bolt))
    }

    // The greatest factor k1, 2.5, times 10·d0.
    fn full_edge_ratio(self) -> i32
        ensures { result ≡ full_edge_ratio self.diameter }
    {
        i32::from(25 * u16::from(self.diameter))
    }

    // A term of the factor k1 under EN, weight·distance/(10·d0) − 1.7, times 10·d0.
    fn en_edge_term(self, weight: u8, distance: u16) -> i32
        ensures { result ≡ pos (weight * distance) -ℤ pos (17 * self.diameter) }
    {
        i32::from(weight) * i32::from(distance) - 17 * i32::from(self.diameter)
    }

    // The factor k1 under EN, times 10·d0.
    fn en_edge_ratio(self) -> i32
        ensures { result ≡ en_edge_ratio self.spacing self.diameter }
    {
        let end = self
            .en_edge_term(28, self.spacing.end)
            .min(self.full_edge_ratio());
        self.least_with_pitch(self.en_edge_term(14, self.spacing.pitch), end)
    }

    // The factor k1 times 10·d0.
    fn edge_ratio(self, make: Make) -> i32
        ensures { result ≡ edge_ratio make self.spacing self.diameter }
    {
        match make {
            Make::En => self.en_edge_ratio(),
            Make::SeA => self.full_edge_ratio(),
        }
    }
}

impl Loaded<'_, BoltLayout> {
    // Do the bolts bear on the plate in the direction of one of the forces?
    pub(crate) fn bearing_met(&self, plate: Plate, direction: Direction) -> bool
        ensures { result ≡ bearing_met self.now.rules self.now.fastening.now plate direction self.now.forces.sizes }
    {
        let Rules { make, factors } = self.rules;
        let layout = self.fastening;
        let along_force = Holes::new(layout, direction);
        let across_force = Holes::new(layout, direction.other());
        let ultimate = plate.grade.ultimate_strength(make);
        let stress = along_force.bearing_stress(layout.class.ultimate_strength(), ultimate);
        let section = product_i64(bearing_area(layout, plate), across_force.edge_ratio(make));
        let resistance = product_i128(stress, section);
        let weight = u64::from(bearing_weight(factors.gamma_m2, along_force.diameter));
        let force = weight * u64::from(self.forces.sizes.in_direction(direction));
        within(force, resistance)
    }
}

// Products that are wider than their factors, so that none can overflow.
// Written in line, the overflow goals of `section` and `resistance` do not close.
fn product_i64(a: u32, b: i32) -> i64
    ensures { result ≡ pos a *ℤ b }
{
    i64::from(a) * i64::from(b)
}

fn product_i128(a: i64, b: i64) -> i128
    ensures { result ≡ a *ℤ b }
{
    i128::from(a) * i128::from(b)
}

// The weight 120·γM2·d0² of a force.
fn bearing_weight(gamma_m2: u8, hole: u8) -> u32
    ensures { result ≡ bearing_weight gamma_m2 hole }
{
    let hole_square = u16::from(hole) * u16::from(hole);
    u32::from(120 * u16::from(gamma_m2)) * u32::from(hole_square)
}

// Is the force no larger than the resistance, which may be negative?
fn within(force: u64, resistance: i128) -> bool
    ensures { result ≡ int_le (pos force) resistance }
{
    i128::from(force) <= resistance
}

// The area n·d·t in mm².
fn bearing_area(layout: &BoltLayout, plate: Plate) -> u32
    ensures { result ≡ bearing_area layout.now plate }
{
    u32::from(layout.count()) * u32::from(layout.size.diameter()) * u32::from(plate.thickness)
}
