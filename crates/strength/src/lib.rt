// The strength clauses of the standards, each an exact comparison of whole numbers.
#![tactic(auto)]

ghost use Rattle.std.specs.Prelude.{◌≡◌};
ghost use Rattle.strength.specs.Strength.{bolt_clause_numbered, weld_clause_numbered, bolts_hold, welds_hold, strength_met};

use crate::loaded::Loaded;
use bolting::bolt_groups::{BoltLayout, Direction};
use components::{Component, Side, Sizes};
use parts::annexes::Rules;
use parts::welds::Weld;
use stock::makes::Make;

mod bearing;
mod bolts;
mod forces;
mod loaded;
mod roots;
mod sections;
mod welds;

// What a strength clause judges of a bolt group.
#[derive(Clone, Copy, Debug, PartialEq, Eq)]
pub enum BoltClause {
    Shear,
    Tension,
    // shear and tension together
    Combined,
    Bearing(Direction, Side),
    // sections of a plate
    Gross(Side),
    Net(Side),
}

impl BoltClause {
    // No TryFrom, since a number without a clause is no error: what the rules lack is met. Another list than that of
    // the layout clauses, with which it shares the shape alone.
    fn numbered(number: u8) -> Option<BoltClause>
        ensures { result ≡ bolt_clause_numbered number }
    {
        match number {
            31 => Some(BoltClause::Shear),
            32 => Some(BoltClause::Tension),
            33 => Some(BoltClause::Combined),
            34 => Some(BoltClause::Bearing(Direction::Along, Side::A)),
            35 => Some(BoltClause::Bearing(Direction::Along, Side::B)),
            36 => Some(BoltClause::Bearing(Direction::Across, Side::A)),
            37 => Some(BoltClause::Bearing(Direction::Across, Side::B)),
            38 => Some(BoltClause::Gross(Side::A)),
            39 => Some(BoltClause::Gross(Side::B)),
            40 => Some(BoltClause::Net(Side::A)),
            41 => Some(BoltClause::Net(Side::B)),
            _ => None,
        }
    }
}

// What a strength clause judges of a pair of welds.
#[derive(Clone, Copy, Debug, PartialEq, Eq)]
pub enum WeldClause {
    CombinedStress,
    NormalStress,
}

impl WeldClause {
    // No TryFrom, since the clause is that of a make and a number.
    fn numbered(make: Make, number: u8) -> Option<WeldClause>
        ensures { result ≡ weld_clause_numbered make number }
    {
        match (make, number) {
            (_, 51) => Some(WeldClause::CombinedStress),
            (Make::En, 52) => Some(WeldClause::NormalStress),
            _ => None,
        }
    }
}

impl Loaded<'_, BoltLayout> {
    fn hold(&self, clause: BoltClause) -> bool
        ensures { result ≡ bolts_hold self.now.rules self.now.fastening.now self.now.plates.now self.now.forces.sizes clause }
    {
        match clause {
            BoltClause::Shear => self.shear_met(),
            BoltClause::Tension => self.tension_met(),
            BoltClause::Combined => self.combined_met(),
            BoltClause::Bearing(direction, side) => self.bearing_met(
                self.plates.on(side),
                direction,
            ),
            BoltClause::Gross(side) => self.gross_met(self.plates.on(side)),
            BoltClause::Net(side) => self.net_met(self.plates.on(side)),
        }
    }
}

impl Loaded<'_, Weld> {
    fn hold(&self, clause: WeldClause) -> bool
        ensures { result ≡ welds_hold self.now.rules self.now.fastening.now self.now.plates.now self.now.forces.sizes clause }
    {
        match clause {
            WeldClause::CombinedStress => self.combined_stress_met(),
            WeldClause::NormalStress => self.normal_stress_met(),
        }
    }
}

// Does the component meet the strength clause of that number under forces of these sizes? A clause
// that the rules do not have for it is met.
pub fn strength_met(rules: Rules, component: &Component, clause: u8, sizes: Sizes) -> bool
    ensures { result ≡ strength_met rules component.now clause sizes }
{
    // A `match` in each arm: with `is_none_or` around `Loaded::new` this is not proved.
    match component {
        Component::Bolted(group, plates) => match BoltClause::numbered(clause) {
            Some(clause) => {
                let bolts = Loaded::new(rules, &group.layout, plates, sizes);
                bolts.is_some_and(|bolts| bolts.hold(clause))
            }
            None => true,
        },
        Component::Welded(weld, plates) => match WeldClause::numbered(rules.make, clause) {
            Some(clause) => {
                let welds = Loaded::new(rules, weld, plates, sizes);
                welds.is_some_and(|welds| welds.hold(clause))
            }
            None => true,
        },
    }
}
