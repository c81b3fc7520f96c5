//! Which literals are allowed in a lattice.
ghost use Rattle.std.specs.Prelude.{◌≡◌, ℕ, ◌+◌, ◌*◌, ◌<◌, ◌≤◌, ◌↔◌, ◌++◌, [], ◌∷◌, All, IsTrue, if◌then◌else◌};
ghost use Rattle.std.specs.Option.{SomeIff};
ghost use Rattle.std.specs.List.{filter};
ghost use Rattle.arrayvec.specs.ArrayVec.{array_vec_len};
ghost use Rattle.lattice_grid.specs.declared.control.Control.{Control};
ghost use Rattle.lattice_grid.specs.Control.{NamesBelow};
ghost use Rattle.lattice_grid.specs.Rails.{is_allowed, MayStand, IsFull, literals_of, controls_of};

use crate::control::Control;
use arrayvec::ArrayVec;
use std::marker::Model;

/// The rails that allow every literal.
pub const ALL_RAILS: u32 = 1_048_575;

/// Which literals are allowed: bit 2i allows input i, bit 2i + 1 its complement. Constants are always allowed.
#[derive(Clone, Copy, Debug, PartialEq, Eq)]
pub struct Rails {
    bits: u32,
}

impl Model for Rails {
    ghost Value = { ℕ };

    ghost view = { λ rails. rails.bits };

    ghost invariant = { λ rails. rails.bits ≤ 1048575 };

    ghost inverse = { λ bits. record { bits = bits } };
}

impl Rails {
    /// None exactly where the number is above 1,048,575.
    pub fn new(bits: u32) -> Option<Rails>
        ensures { SomeIff result (bits ≤ 1048575) bits }
    {
        if bits <= ALL_RAILS {
            Some(Rails { bits })
        } else {
            None
        }
    }

    /// All literals are allowed.
    pub fn all() -> Rails
        ensures bits { result ≡ 1048575 }
        ensures full { IsFull 10 result }
    {
        Rails { bits: ALL_RAILS }
    }

    /// The number whose bits tell which literals are allowed, at most 1,048,575.
    pub fn bits(self) -> u32
        ensures same { result ≡ self }
        ensures within { result ≤ 1048575 }
    {
        self.bits
    }

    /// Whether a control, whose input is below ten, is allowed.
    pub fn allows(self, c: Control) -> bool
        requires { NamesBelow 10 c }
        ensures { result ≡ is_allowed self c }
    {
        match c {
            Control::Zero | Control::One => true,
            Control::Plain(input) => (self.bits >> (2 * input)) & 1 == 1,
            Control::Bar(input) => (self.bits >> (2 * input + 1)) & 1 == 1,
        }
    }

    /// Whether each literal of the inputs below `inputs`, at most ten, is allowed.
    pub fn full(self, inputs: u8) -> bool
        requires { inputs ≤ 10 }
        ensures { IsTrue result ↔ IsFull inputs self }
    {
        for input in 0..inputs {
            if !self.allows(Control::Plain(input)) || !self.allows(Control::Bar(input)) {
                return false;
            }
        }
        true
    }

    /// Whether a control is a constant, or an allowed literal of an input below `inputs`, at most ten.
    pub fn may_stand(self, inputs: u8, c: Control) -> bool
        requires { inputs ≤ 10 }
        ensures { IsTrue result ↔ MayStand inputs self c }
    {
        c.names_below(inputs) && self.allows(c)
    }

    /// Adds a literal where it is allowed.
    fn push_allowed<const N: usize>(self, found: &mut ArrayVec<Control, N>, c: Control)
        requires names { NamesBelow 10 c }
        requires room { array_vec_len found.old < N }
        ensures items { found.new.items ≡ found.old.items ++ filter (is_allowed self) (c ∷ []) }
        ensures len { array_vec_len found.new ≤ array_vec_len found.old + 1 }
    {
        if self.allows(c) {
            found.push(c);
        }
    }

    /// Adds the allowed literals of the inputs below `inputs`.
    fn push_literals<const N: usize>(self, found: &mut ArrayVec<Control, N>, inputs: u8)
        requires few { inputs ≤ 10 }
        requires room { array_vec_len found.old + 2 * inputs ≤ N }
        ensures { found.new.items ≡ found.old.items ++ literals_of inputs self }
    {
        for input in 0..inputs {
            self.push_allowed(found, Control::Plain(input));
            self.push_allowed(found, Control::Bar(input));
        }
    }

    /// The allowed literals of the inputs below `inputs`, at most ten: `x0`, `x0'`, `x1`, `x1'`, ..
    pub fn literals(self, inputs: u8) -> ArrayVec<Control, 20>
        requires { inputs ≤ 10 }
        ensures list { result.items ≡ literals_of inputs self }
        ensures stand { All (MayStand inputs self) result.items }
        ensures names { All (NamesBelow 10) result.items }
    {
        let mut found = ArrayVec::new();
        self.push_literals(&mut found, inputs);
        found
    }

    /// The controls that may stand in a lattice of the inputs below `inputs`, at most ten: `0`, `1`, and the allowed literals.
    #[tactic(auto, unfolding(crate::specs::Rails::controls_of))]
    pub fn controls(self, inputs: u8) -> ArrayVec<Control, 22>
        requires { inputs ≤ 10 }
        ensures list { result.items ≡ controls_of inputs self }
        ensures stand { All (MayStand inputs self) result.items }
        ensures names { All (NamesBelow 10) result.items }
    {
        let mut found = ArrayVec::new();
        found.push(Control::Zero);
        found.push(Control::One);
        self.push_literals(&mut found, inputs);
        found
    }
}
