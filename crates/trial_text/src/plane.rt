//! The digits of a row.
ghost use Rattle.std.specs.Prelude.{◌≡◌};
ghost use Rattle.trial_text.specs.Made.{width_of, digit_of};

/// The digits of a row that stand for its inputs, or for its outputs.
#[derive(Clone, Copy)]
pub(crate) enum Plane {
    Inputs,
    Outputs,
}

impl Plane {
    /// How many digits of a row it has.
    pub(crate) fn width(self) -> u32
        ensures { result ≡ width_of self }
    {
        match self {
            Plane::Inputs => 6,
            Plane::Outputs => 16,
        }
    }

    /// The digit that a word of the generator gives.
    pub(crate) fn digit(self, word: u32) -> u8
        ensures { result ≡ digit_of self word }
    {
        match self {
            Plane::Inputs => match word % 3 {
                0 => b'0',
                1 => b'1',
                _ => b'-',
            },
            Plane::Outputs => match word % 4 {
                0 => b'1',
                1 => b'-',
                _ => b'0',
            },
        }
    }
}
