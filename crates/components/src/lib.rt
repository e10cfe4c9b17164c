// Components as a standard judges them: a bolt group or a weld with the plates that it joins, and the
// sizes of the forces on it.
#![tactic(auto)]

ghost use Rattle.std.specs.Prelude.{◌≡◌};
ghost use Rattle.components.specs.Parts.{plate_on, thinner, weaker_grade, size_in};

use bolting::bolt_groups::{BoltGroup, Direction};
use parts::plates::Plate;
use parts::welds::Weld;
use stock::makes::Make;
use stock::steel::Grade;

// One of the two plates of a component.
#[derive(Clone, Copy, Debug, PartialEq, Eq)]
pub enum Side {
    A,
    B,
}

// The plates that a component joins.
#[derive(Clone, Copy, Debug, PartialEq, Eq)]
pub struct Plates {
    pub plate_a: Plate,
    pub plate_b: Plate,
}

impl Plates {
    pub fn on(&self, side: Side) -> Plate
        ensures { result ≡ plate_on side self.now }
    {
        match side {
            Side::A => self.plate_a,
            Side::B => self.plate_b,
        }
    }

    // The thickness of the thinner plate, in mm.
    pub fn thinner(&self) -> u8
        ensures { result ≡ thinner self.now }
    {
        self.plate_a.thickness.min(self.plate_b.thickness)
    }

    // The steel of the plate with the lower ultimate strength.
    pub fn weaker_grade(&self, make: Make) -> Grade
        ensures { result ≡ weaker_grade make self.now }
    {
        let grade_a = self.plate_a.grade;
        let grade_b = self.plate_b.grade;
        if grade_b.ultimate_strength(make) < grade_a.ultimate_strength(make) {
            grade_b
        } else {
            grade_a
        }
    }
}

// What joins two plates, with these.
#[derive(Clone, Copy, Debug, PartialEq, Eq)]
pub enum Component {
    Bolted(BoltGroup, Plates),
    Welded(Weld, Plates),
}

// Three forces on a component without their signs, in tenths of a kN.
#[derive(Clone, Copy, Debug, PartialEq, Eq)]
pub struct Sizes {
    pub s1: u32,
    pub s2: u32,
    pub s3: u32,
}

impl Sizes {
    // The size of the force in a direction of a bolt layout.
    pub fn in_direction(self, direction: Direction) -> u32
        ensures { result ≡ size_in direction self }
    {
        match direction {
            Direction::Along => self.s1,
            Direction::Across => self.s2,
        }
    }
}
