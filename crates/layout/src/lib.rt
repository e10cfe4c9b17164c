// Layout clauses: distances of bolts, proportions of welds.
#![tactic(auto)]

ghost use Rattle.std.specs.Prelude.{◌≡◌};
ghost use Rattle.layout.specs.Layout.{bolt_clause_numbered, weld_clause_numbered, min_end, min_pitch, min_length, in_holes, bolts_laid_out, weld_laid_out, layout_met};

use bolting::bolt_groups::{BoltLayout, Direction};
use components::Component;
use parts::welds::Weld;
use stock::makes::Make;

// What a layout clause asks of a bolt group: along it of e1 and p1, across it of e2 and p2.
#[derive(Clone, Copy, Debug, PartialEq, Eq)]
pub enum BoltClause {
    MinEnd(Direction),
    MinPitch(Direction),
    MaxEnd(Direction),
    MaxPitch(Direction),
}

impl BoltClause {
    // No TryFrom, since a number without a clause is no error: what the make lacks is met. Another list than that of the
    // strength clauses, with which it shares the shape alone.
    fn numbered(number: u8) -> Option<BoltClause>
        ensures { result ≡ bolt_clause_numbered number }
    {
        match number {
            11 => Some(BoltClause::MinEnd(Direction::Along)),
            12 => Some(BoltClause::MinEnd(Direction::Across)),
            13 => Some(BoltClause::MinPitch(Direction::Along)),
            14 => Some(BoltClause::MinPitch(Direction::Across)),
            15 => Some(BoltClause::MaxEnd(Direction::Along)),
            16 => Some(BoltClause::MaxEnd(Direction::Across)),
            17 => Some(BoltClause::MaxPitch(Direction::Along)),
            18 => Some(BoltClause::MaxPitch(Direction::Across)),
            _ => None,
        }
    }
}

// What a layout clause asks of a weld; slenderness is its length by its throat.
#[derive(Clone, Copy, Debug, PartialEq, Eq)]
pub enum WeldClause {
    MinThroat,
    MaxThroat,
    MinLength,
    MinSlenderness,
    MaxSlenderness,
}

impl WeldClause {
    // No TryFrom, since a number without a clause is no error: what the make lacks is met.
    fn numbered(number: u8) -> Option<WeldClause>
        ensures { result ≡ weld_clause_numbered number }
    {
        match number {
            21 => Some(WeldClause::MinThroat),
            22 => Some(WeldClause::MaxThroat),
            23 => Some(WeldClause::MinLength),
            24 => Some(WeldClause::MinSlenderness),
            25 => Some(WeldClause::MaxSlenderness),
            _ => None,
        }
    }
}

// Does the component meet the layout clause of that number? A clause that the make does not have for it
// is met.
pub fn layout_met(make: Make, component: &Component, clause: u8) -> bool
    ensures { result ≡ layout_met make component.now clause }
{
    match component {
        Component::Bolted(group, plates) => BoltClause::numbered(clause).is_none_or(
            |clause| bolts_laid_out(make, group.layout, plates.thinner(), clause),
        ),
        Component::Welded(weld, plates) => WeldClause::numbered(clause).is_none_or(
            |clause| weld_laid_out(make, *weld, plates.thinner(), clause),
        ),
    }
}

fn bolts_laid_out(make: Make, layout: BoltLayout, thinner: u8, clause: BoltClause) -> bool
    ensures { result ≡ bolts_laid_out make layout thinner clause }
{
    let hole = layout.size.hole();
    match clause {
        BoltClause::MinEnd(direction) => {
            in_holes(
                layout.spacing(direction).end,
                min_end(make, direction),
                hole,
            )
        }
        BoltClause::MinPitch(direction) => {
            let spacing = layout.spacing(direction);
            spacing.is_single() || in_holes(spacing.pitch, min_pitch(make, direction), hole)
        }
        BoltClause::MaxEnd(direction) => {
            layout.spacing(direction).end <= 4 * u16::from(thinner) + 40
        }
        BoltClause::MaxPitch(direction) => {
            let spacing = layout.spacing(direction);
            let limit = 14 * u16::from(thinner);
            spacing.is_single() || (spacing.pitch <= limit && spacing.pitch <= 200)
        }
    }
}

// Is a distance in mm at least so many tenths of the hole's diameter?
fn in_holes(distance: u16, tenths: u8, hole: u8) -> bool
    ensures { result ≡ in_holes distance tenths hole }
{
    10 * u32::from(distance) >= u32::from(tenths) * u32::from(hole)
}

fn weld_laid_out(make: Make, weld: Weld, thinner: u8, clause: WeldClause) -> bool
    ensures { result ≡ weld_laid_out make weld thinner clause }
{
    match clause {
        WeldClause::MinThroat => weld.throat >= 30,
        WeldClause::MaxThroat => weld.throat <= 7 * u16::from(thinner),
        WeldClause::MinLength => weld.length >= min_length(make),
        WeldClause::MinSlenderness => 10 * u32::from(weld.length) >= 6 * u32::from(weld.throat),
        WeldClause::MaxSlenderness => u32::from(weld.length) <= 15 * u32::from(weld.throat),
    }
}

// The least end distance in tenths of the hole's diameter.
fn min_end(make: Make, direction: Direction) -> u8
    ensures { result ≡ min_end make direction }
{
    match (make, direction) {
        (_, Direction::Along) => 12,
        (Make::En, Direction::Across) => 12,
        (Make::SeA, Direction::Across) => 15,
    }
}

// The least pitch in tenths of the hole's diameter.
fn min_pitch(make: Make, direction: Direction) -> u8
    ensures { result ≡ min_pitch make direction }
{
    match (make, direction) {
        (_, Direction::Along) => 22,
        (Make::En, Direction::Across) => 24,
        (Make::SeA, Direction::Across) => 30,
    }
}

// The least length of a weld in mm.
fn min_length(make: Make) -> u16
    ensures { result ≡ min_length make }
{
    match make {
        Make::En => 30,
        Make::SeA => 40,
    }
}
