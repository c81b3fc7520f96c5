//! Lists of cubes.
ghost use Rattle.std.specs.Prelude.{◌≡◌, ◌≤◌};
ghost use Rattle.cover_make.specs.Cubes.{table_of};

use cube_core::cube::Cube;
use cube_core::table::Table;
use std::marker::Model;

/// Cubes in their order, whose literals are of so many inputs.
#[derive(Drop)]
pub struct CubeList {
    inputs: u8,
    cubes: Vec<Cube>,
}

impl Model for CubeList {
    ghost use Rattle.cover_make.specs.Cubes.{Products, AreProducts};

    ghost Value = { Products };

    ghost view = { λ list. record { inputs = list.inputs; cubes = list.cubes.items } };

    ghost invariant = { λ list. AreProducts (record { inputs = list.inputs; cubes = list.cubes.items }) };
}

impl CubeList {
    ghost use Rattle.cover_make.specs.Cubes.{AreProducts};

    /// The list of these cubes, whose literals are to be of the inputs, from 1 to 10.
    pub(crate) fn new(inputs: u8, cubes: Vec<Cube>) -> CubeList
        requires { AreProducts (record { inputs = inputs; cubes = cubes.items }) }
        ensures { result ≡ record { inputs = inputs; cubes = cubes.items } }
    {
        CubeList { inputs, cubes }
    }

    /// How many inputs the cubes are of, from 1 to 10.
    pub fn inputs(&self) -> u8
        ensures same { result ≡ self.now.inputs }
        ensures kept { AreProducts self.now }
    {
        self.inputs
    }

    /// The cubes, from the first to the last.
    pub fn cubes(&self) -> &[Cube]
        ensures { result.now ≡ self.now.cubes }
    {
        &self.cubes
    }

    /// The assignments of the inputs that are in some cube of the list.
    pub fn table(&self) -> Table
        ensures { result ≡ table_of self.now.inputs self.now.cubes }
    {
        table_of(self.inputs, &self.cubes)
    }
}

/// The assignments of so many inputs that are in some of the cubes.
fn table_of(inputs: u8, cubes: &[Cube]) -> Table
    requires { inputs ≤ 10 }
    ensures { result ≡ table_of inputs cubes.now }
{
    let mut table = Table::empty();
    for cube in cubes {
        table.add_cube(inputs, cube);
    }
    table
}
