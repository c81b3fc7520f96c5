//! What a switch is controlled by.
use cube_core::assign::Assign;

/// What a switch is controlled by: a constant, an input, or the complement of an input. Inputs are counted from 0 and are below 10.
#[derive(Clone, Copy, Debug, Default, PartialEq, Eq)]
pub enum Control {
    #[default]
    Zero,
    One,
    Plain(u8),
    Bar(u8),
}

impl Control {
    ghost use Rattle.std.specs.Prelude.{◌≡◌, ◌↔◌, IsTrue};
    ghost use Rattle.lattice_grid.specs.Control.{value_of, NamesBelow};

    /// Whether the switch is on at an assignment.
    pub fn value(self, x: Assign) -> bool
        requires { NamesBelow 10 self }
        ensures { result ≡ value_of self x }
    {
        match self {
            Control::Zero => false,
            Control::One => true,
            Control::Plain(input) => x.bit(input),
            Control::Bar(input) => !x.bit(input),
        }
    }

    /// Whether its input, where it has one, is below `inputs`.
    pub fn names_below(self, inputs: u8) -> bool
        ensures { IsTrue result ↔ NamesBelow inputs self }
    {
        match self {
            Control::Zero | Control::One => true,
            Control::Plain(input) | Control::Bar(input) => input < inputs,
        }
    }
}
