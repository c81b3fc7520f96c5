//! What a report says.
ghost use Rattle.std.specs.Prelude.{◌≡◌, ◌≤◌, length};
ghost use Rattle.std.specs.Option.{option_copied};
ghost use Rattle.report_text.specs.Form.{form_of, lattice_of, lists};
ghost use Rattle.report_text.specs.Report.{lattice_lines, lines_in, parts_of_block};

use cube_core::assign::Assign;
use lattice_grid::array::Array;
use lattice_grid::grid::Grid;
use lattice_grid::shape::Shape;
use pla_reader::name::Name;

/// The rails with which each literal is allowed.
pub const ALL_RAILS: u32 = 1_048_575;

/// What is known of the lattice of an output.
#[derive(Drop)]
pub enum Answer {
    /// A lattice that realises the output.
    Found(Grid),
    /// One of which nothing smaller realises the output.
    Minimum(Grid),
    /// One of which it is not known whether something smaller does: nothing of area below `least` does, and the
    /// question of the shape `at`, whose area `least` is, was given up after so many steps.
    Undecided {
        grid: Grid,
        least: u32,
        at: Shape,
        after: u32,
    },
    /// A lattice of an array's shape that realises the output on that array.
    Mapped {
        grid: Grid,
        array: Array,
    },
    /// No lattice realises the output on this array.
    NoneMapped {
        array: Array,
    },
    /// It is not known whether one does: the question was given up after so many steps.
    MapUndecided {
        array: Array,
        after: u32,
    },
    /// No lattice of allowed literals realises the output: none of them is 1 at `on`, where the output is 1, and 0 at
    /// `off`, where it is 0.
    NoRails {
        on: Assign,
        off: Assign,
    },
}

impl Answer {
    /// The lattice that a report prints, where there is one.
    pub fn grid(&self) -> Option<&Grid>
        ensures { option_copied result ≡ lattice_of self.now }
    {
        match self {
            Answer::Found(grid) | Answer::Minimum(grid) => Some(grid),
            Answer::Undecided { grid, .. } | Answer::Mapped { grid, .. } => Some(grid),
            Answer::NoneMapped { .. } | Answer::MapUndecided { .. } | Answer::NoRails { .. } =>
                None,
        }
    }

    /// How many rows a report prints.
    pub fn rows(&self) -> u32
        ensures count { result ≡ length (lattice_lines (lattice_of self.now)) }
        ensures few { result ≤ 1048576 }
    {
        match self.grid() {
            None => 0,
            Some(grid) => grid.shape().rows(),
        }
    }

    /// Whether a text of this version has a line of proofs for it.
    pub fn lists_proofs(&self, version: Version) -> bool
        ensures { result ≡ lists version (form_of self.now) }
    {
        match version {
            Version::One => false,
            Version::Two => match self {
                Answer::Minimum(_) | Answer::Undecided { .. } | Answer::NoneMapped { .. } => true,
                Answer::Found(_)
                | Answer::Mapped { .. }
                | Answer::MapUndecided { .. }
                | Answer::NoRails { .. } => false,
            },
        }
    }
}

/// A shape whose question was refuted, and the number of steps that this took.
#[derive(Clone, Copy, Debug, PartialEq, Eq)]
pub struct Proof {
    pub shape: Shape,
    pub steps: u32,
}

/// The answer for an output, with the output's number and name, and what was refuted for it.
#[derive(Drop)]
pub struct Block {
    pub output: u32,
    pub name: Name,
    pub answer: Answer,
    pub proofs: Vec<Proof>,
}

impl Block {
    /// How many lines it has in a text of this version.
    pub fn lines(&self, version: Version) -> u32
        ensures count { result ≡ lines_in version (parts_of_block self.now) }
        ensures few { result ≤ 1048578 }
    {
        let proofs = if self.answer.lists_proofs(version) {
            1
        } else {
            0
        };
        self.answer.rows() + proofs + 1
    }
}

/// The version of a text.
#[derive(Clone, Copy, Debug, PartialEq, Eq)]
pub enum Version {
    /// It names no rails and lists no proofs.
    One,
    /// It names the rails, and lists proofs.
    Two,
}

/// The names of the inputs, the rails, bit 2i of which allows input i and bit 2i + 1 its complement, and the answers.
#[derive(Drop)]
pub struct Report {
    pub version: Version,
    pub rails: u32,
    pub input_names: Vec<Name>,
    pub blocks: Vec<Block>,
}
