//! Finders are asked, and what they propose is tested.
ghost use Rattle.std.specs.Prelude.{◌≡◌, ℕ, ◌*◌, ◌^◌, ◌<◌, ◌≤◌, ◌⊎◌, OnOk, OnErr, IfOk, IfSome, IfNone, vec_len};
ghost use Rattle.std.specs.Bool.{MatchBool};
ghost use Rattle.finder_set.specs.Finders.{area_of, IsRightWithin, IsWrongProposal, AreAsked};
ghost use Rattle.lattice_grid.specs.Lattice.{IsOver};
ghost use Rattle.lattice_grid.specs.Realise.{Realises};
ghost use Rattle.wire_io.specs.Causes.{Rose};

use crate::finder::Finder;
use cube_core::spec::Spec;
use lattice_grid::grid::Grid;
use path_meaning::marks::Marks;
use path_meaning::realise::realises;
use std::alloc::Global;
use wire_io::fault::NoMemory;

/// A finder that was dropped: its place in the list as it came, and the proposal for which it was dropped.
#[derive(Drop)]
pub struct Dropped {
    pub place: u32,
    pub proposal: Grid,
}

/// The best lattice that came of a list of finders, and the finders that were dropped from it.
#[derive(Drop)]
pub struct Improved {
    pub grid: Grid,
    pub dropped: Vec<Dropped>,
}

/// Whether the lattice names only the spec's inputs and realises it.
fn is_right(spec: &Spec, grid: &Grid, marks: &mut Marks) -> bool
    requires { area_of grid.now ≤ marks.old }
    ensures cases { MatchBool result (IsOver spec.now.inputs grid.now × Realises grid.now spec.now) ((IsOver spec.now.inputs grid.now → ⊥) ⊎ (Realises grid.now spec.now → ⊥)) }
    ensures cells { marks.new ≡ marks.old }
{
    grid.names_below(spec.inputs()) && realises(spec, grid, marks).is_ok()
}

/// Tests a proposal that is smaller than the best lattice: a right one becomes the best, and a wrong one is given back.
fn weigh(spec: &Spec, best: &mut Grid, proposal: Grid, marks: &mut Marks) -> Option<Grid>
    requires over { IsOver spec.now.inputs best.old }
    requires realises { Realises best.old spec.now }
    requires room { area_of best.old ≤ marks.old }
    ensures right { IsRightWithin spec.now (area_of best.old) best.new }
    ensures wrong { IfSome result (λ wrong. IsWrongProposal spec.now (area_of best.old) wrong) }
    ensures cells { marks.new ≡ marks.old }
{
    if proposal.shape().area() >= best.shape().area() {
        return None;
    }
    if is_right(spec, &proposal, marks) {
        *best = proposal;
        None
    } else {
        Some(proposal)
    }
}

/// Begins a finder and asks it until nothing is left, or until it proposes a wrong lattice, which is given back.
fn ask(
    finder: &mut Box<dyn Finder>,
    spec: &Spec,
    best: &mut Grid,
    marks: &mut Marks,
) -> Result<Option<Grid>, NoMemory>
    requires over { IsOver spec.now.inputs best.old }
    requires realises { Realises best.old spec.now }
    requires room { area_of best.old ≤ marks.old }
    ensures right { IsRightWithin spec.now (area_of best.old) best.new }
    ensures wrong { IfOk result (λ answer. IfSome answer (λ wrong. IsWrongProposal spec.now (area_of best.old) wrong)) }
    ensures spent { IfOk result (λ answer. IfNone answer (left finder.new ≡ 0)) }
    ensures rose { OnOk result (Rose (begun finder.old) (begun finder.new)) }
    ensures cells { marks.new ≡ marks.old }
{
    finder.begin(spec, best)?;
    while finder.left() > 0 {
        if let Some(proposal) = finder.propose()? {
            if let Some(wrong) = weigh(spec, best, proposal, marks) {
                return Ok(Some(wrong));
            }
        }
    }
    Ok(None)
}

/// Asks each finder, in order, for lattices smaller than the best so far, and tests what it proposes.
pub fn improve(
    alloc: Global,
    finders: &mut Vec<Box<dyn Finder>>,
    spec: &Spec,
    best: Grid,
    marks: &mut Marks,
) -> Result<Improved, NoMemory>
    requires over { IsOver spec.now.inputs best }
    requires realises { Realises best spec.now }
    requires room { area_of best ≤ marks.old }
    requires few { vec_len finders.old < 2 ^ 32 }
    ensures right { IfOk result (λ improved. IsRightWithin spec.now (area_of best) improved.grid) }
    ensures asked { IfOk result (λ improved. AreAsked begun left spec.now (area_of best) finders.old.items finders.new.items improved.dropped.items) }
    ensures fewer { OnErr result (vec_len finders.new ≤ vec_len finders.old) }
    ensures cells { marks.new ≡ marks.old }
{
    let mut best = best;
    let mut dropped = Vec::new(alloc);
    let mut asked = 0;
    for place in 0..finders.len() as u32 {
        match ask(&mut finders[asked], spec, &mut best, marks)? {
            None => asked += 1,
            Some(proposal) => {
                let _wrong = finders.remove(asked);
                dropped.push(Dropped { place, proposal })?;
            }
        }
    }
    Ok(Improved {
        grid: best,
        dropped,
    })
}
