//! Laws of the encoding. The functions do nothing: a caller learns the law.
ghost use Rattle.reach_encoding.specs.Decode.{IsChoosing};
ghost use Rattle.reach_encoding.specs.Model.{HasModel};
ghost use Rattle.reach_encoding.specs.Solved.{IsExcludedBelow, IsReadAsLattice, IsSmallEnough, IsSolvedByLattices};

/// The formula of a question has a solution exactly where some lattice answers the question. So where a formula of a size has
/// none, no lattice of a size that fits inside it realises the function.
pub fn solved()
    ensures lattices { IsSolvedByLattices }
    ensures excluded { IsExcludedBelow }
{}

/// Every solution chooses some control at each cell, and the lattice of the first ones answers the question.
pub fn read()
    ensures lattice { IsReadAsLattice }
    ensures chooses { IsChoosing }
{}

/// Every lattice that answers the question gives a solution, which chooses at each cell the control that stands there.
pub fn model()
    ensures { HasModel }
{}

/// The formula of a question has no more clauses than a formula may have.
pub fn small()
    ensures { IsSmallEnough }
{}
