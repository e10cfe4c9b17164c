ghost use Rattle.std.specs.Prelude.{◌≡◌};
ghost use Rattle.parts.specs.Numbers.{load_number};

use register::Numbered;

// Three forces on a component, in tenths of a kN.
#[derive(Clone, Copy, Debug, PartialEq, Eq)]
pub struct Load {
    pub number: u16,
    pub component: u16,
    pub force_1: i16,
    pub force_2: i16,
    pub force_3: i16,
}

impl Numbered for Load {
    ghost numbered = { load_number };

    fn number(&self) -> u16 {
        self.number
    }
}
