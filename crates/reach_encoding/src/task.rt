//! Questions as the encoder reads them.
ghost use Rattle.std.specs.Prelude.{◌≡◌, ℕ, ◌*◌, ◌^◌, ◌≤◌, ◌<◌, not, IfOk, IfSome, option_copied};
ghost use Rattle.std.specs.FinSet as set;
ghost use Rattle.lattice_grid.specs.Control.{value_of};
ghost use Rattle.lattice_grid.specs.Path.{IsWithin};
ghost use Rattle.path_meaning.specs.Defective.{defect_in};
ghost use Rattle.reach_encoding.specs.Encoding.{asked_at, cells_of, many_controls, many_asked, choice, value, mark, place_of, number_of, control_of};
ghost use Rattle.reach_encoding.specs.EncodeParts.{vars_of, IsOneOf, IsAsked};

use arrayvec::ArrayVec;
use clause_core::lit::Lit;
use cube_core::assign::Assign;
use cube_core::spec::Spec;
use lattice_grid::array::{Array, Defect};
use lattice_grid::control::Control;
use lattice_grid::rails::Rails;
use lattice_grid::rising::rising_assignments;
use lattice_grid::shape::{Place, Shape};
use std::alloc::Global;
use std::marker::Model;
use wire_io::fault::NoMemory;

/// What is asked for, the assignments that matter for it, rising, and the controls that may stand.
#[derive(Drop)]
pub struct Task<'a> {
    spec: &'a Spec,
    rails: Rails,
    shape: Shape,
    array: Option<&'a Array>,
    asked: Vec<Assign>,
    controls: ArrayVec<Control, 22>,
}

impl<'a> Model for Task<'a> {
    ghost use Rattle.std.specs.Prelude.{option_copied};
    ghost use Rattle.reach_encoding.specs.Encoding.{Question};
    ghost use Rattle.reach_encoding.specs.EncodeParts.{IsAsking};

    ghost Value = { Question };

    ghost use Rattle.std.specs.Coded.{codes};
    ghost use Rattle.cube_core.specs.Function.{function_code};

    ghost coded = { Prim.hlevel (codes, function_code) };

    ghost view = { λ task. record { function = task.spec.now; rails = task.rails; size = task.shape; array = option_copied task.array } };

    ghost invariant = { λ task. IsAsking (record { function = task.spec.now; rails = task.rails; size = task.shape; array = option_copied task.array }) task.asked.items task.controls.items };
}

impl<'a> Task<'a> {
    /// The task of a function, rails, a shape, and an array of this shape or none.
    pub fn new(
        alloc: Global,
        spec: &'a Spec,
        rails: Rails,
        shape: Shape,
        array: Option<&'a Array>,
    ) -> Result<Task<'a>, NoMemory>
        requires few { shape.rows * shape.cols ≤ 32768 }
        requires array { IfSome (option_copied array) (λ a. a.size ≡ shape) }
        ensures { IfOk result (λ task. task ≡ record { function = spec.now; rails = rails; size = shape; array = option_copied array.entry }) }
    {
        prove!(shape.rows() > 0);
        let asked = rising_assignments(alloc, spec.inputs(), &spec.on().or(spec.off()))?;
        Ok(Task {
            spec,
            rails,
            shape,
            array,
            asked,
            controls: rails.controls(spec.inputs()),
        })
    }

    /// How many rows and columns the lattice has.
    pub fn shape(&self) -> Shape
        ensures same { result ≡ self.now.size }
        ensures question { IsAsked self.now }
    {
        self.shape
    }

    /// How many cells it has.
    pub fn cells(&self) -> u32
        ensures same { result ≡ cells_of self.now }
        ensures question { IsAsked self.now }
    {
        self.shape.area()
    }

    /// How many controls may stand at a cell.
    pub fn controls(&self) -> u32
        ensures same { result ≡ many_controls self.now }
        ensures question { IsAsked self.now }
    {
        self.controls.len() as u32
    }

    /// How many assignments matter.
    pub fn many(&self) -> u32
        ensures same { result ≡ many_asked self.now }
        ensures question { IsAsked self.now }
    {
        self.asked.len() as u32
    }

    /// How many variables the formula has.
    pub fn vars(&self) -> u32
        ensures same { result ≡ vars_of self.now }
        ensures within { result < 2 ^ 31 }
        ensures question { IsAsked self.now }
    {
        self.cells() * (self.controls() + 2 * self.many())
    }

    /// The literal that a control stands at a cell, or does not.
    pub fn chosen(&self, stands: bool, cell: u32, control: u32) -> Lit
        requires cell { cell < cells_of self.now }
        requires control { control < many_controls self.now }
        ensures same { result ≡ record { var = choice self.now cell control; negated = not stands } }
        ensures over { IsOneOf (vars_of self.now) result }
    {
        Lit::new(cell * self.controls() + control + 1, !stands)
    }

    /// The literal that a cell is on at an assignment, or is not.
    pub fn valued(&self, on: bool, cell: u32, time: u32) -> Lit
        requires cell { cell < cells_of self.now }
        requires time { time < many_asked self.now }
        ensures same { result ≡ record { var = value self.now cell time; negated = not on } }
        ensures over { IsOneOf (vars_of self.now) result }
    {
        let cells = self.cells();
        Lit::new(cells * self.controls() + time * cells + cell + 1, !on)
    }

    /// The literal that a cell is marked at an assignment, or is not.
    pub fn marked(&self, marked: bool, cell: u32, time: u32) -> Lit
        requires cell { cell < cells_of self.now }
        requires time { time < many_asked self.now }
        ensures same { result ≡ record { var = mark self.now cell time; negated = not marked } }
        ensures over { IsOneOf (vars_of self.now) result }
    {
        let cells = self.cells();
        Lit::new(
            cells * self.controls() + self.many() * cells + time * cells + cell + 1,
            !marked,
        )
    }

    /// Whether the function is 1 at an assignment.
    pub fn is_on(&self, time: u32) -> bool
        requires { time < many_asked self.now }
        ensures { result ≡ set.contains self.now.function.on (asked_at self.now time) }
    {
        self.spec.on().has(self.asked[time as usize])
    }

    /// The value of a control at an assignment.
    pub fn control_value(&self, number: u32, time: u32) -> bool
        requires control { number < many_controls self.now }
        requires time { time < many_asked self.now }
        ensures { result ≡ value_of (control_of self.now number) (asked_at self.now time) }
    {
        let x = self.asked[time as usize];
        self.controls[number as usize].value(x)
    }

    /// The place of a cell.
    pub fn place(&self, cell: u32) -> Place
        requires { cell < cells_of self.now }
        ensures same { result ≡ place_of self.now.size cell }
        ensures within { IsWithin self.now.size result }
    {
        self.shape.place(cell)
    }

    /// The number of the cell at a place.
    pub fn number(&self, place: Place) -> u32
        requires { IsWithin self.now.size place }
        ensures same { result ≡ number_of self.now.size place }
        ensures within { result < cells_of self.now }
    {
        place.row * self.shape.cols() + place.col
    }

    /// The defect of a cell.
    pub fn defect(&self, cell: u32) -> Defect
        requires { cell < cells_of self.now }
        ensures { result ≡ defect_in self.now.array (place_of self.now.size cell) }
    {
        match self.array {
            Some(array) => array.at(self.place(cell)),
            None => Defect::Sound,
        }
    }
}
