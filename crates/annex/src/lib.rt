// Annexes: the interface, and the annex of each make.
#![tactic(auto)]

ghost use Rattle.std.specs.Prelude.{◌≡◌};
ghost use Rattle.annex.specs.Meaning.{Meaning};
ghost use Rattle.annex.specs.Facts.{SmallerMet, UnloadedMet};
ghost use Rattle.annex.specs.Makes.{rules_meaning, standard_made, Stricter};
ghost use Rattle.annex.specs.Worked.{WorkedJoints};
ghost use Rattle.annex.specs.FactsLemmas.{rules_lighter};
ghost use Rattle.annex.specs.Unloaded.{rules_unloaded};

use components::{Component, Sizes};
use parts::annexes::{AnnexEntry, Rules};
use parts::entries::Entry;
use parts::limits::OutOfLimits;

// A set of clauses by which components are judged. Layout clauses bear the numbers 11 to 29, strength
// clauses 31 to 69; a clause that the annex lacks for a kind of component is met.
pub trait Annex {
    // the yes or no to every question
    ghost meaning: { Self → Meaning };

    // Clauses go by numbers and no enum, since an annex answers for every number, also one that it lacks. No type for a
    // question: a layout clause is asked without sizes.
    fn layout_met(&self, component: &Component, clause: u8) -> bool
        ensures { result ≡ (meaning self.now).layout component.now clause };

    fn strength_met(&self, component: &Component, clause: u8, sizes: Sizes) -> bool
        ensures { result ≡ (meaning self.now).strength component.now clause sizes };

    // what is met stays met under smaller forces
    ghost lighter: { (x : Self) → SmallerMet (meaning x) };

    // what is laid out well withstands no force at all
    ghost unloaded: { (x : Self) → UnloadedMet (meaning x) };
}

// A standard, EN or SE-A, as an annex. Its rules are private, so that none has factors outside their limits.
#[derive(Clone, Copy, Debug, PartialEq, Eq)]
pub struct Standard {
    rules: Rules,
}

impl Standard {
    // The standard that an entry chooses, or its first field outside the limits.
    #[tactic(auto, using(crate::specs::FactsLemmas::stricter, crate::proofs::Worked::worked_joints))]
    pub fn new(entry: AnnexEntry) -> Result<Standard, OutOfLimits>
        ensures made { result ≡ standard_made entry }
        ensures worked { WorkedJoints }
        ensures stricter { Stricter }
    {
        let rules = entry.checked()?;
        Ok(Standard { rules })
    }

    // The make, with its factors.
    pub fn rules(&self) -> Rules
        ensures { result ≡ self.now.rules }
    {
        self.rules // as `new` made them
    }
}

impl Annex for Standard {
    ghost meaning = { λ s. rules_meaning s.rules };

    ghost lighter = { λ s. rules_lighter s.rules };

    ghost unloaded = { λ s. rules_unloaded s.rules };

    fn layout_met(&self, component: &Component, clause: u8) -> bool {
        layout::layout_met(self.rules.make, component, clause)
    }

    fn strength_met(&self, component: &Component, clause: u8, sizes: Sizes) -> bool {
        strength::strength_met(self.rules, component, clause, sizes)
    }
}
