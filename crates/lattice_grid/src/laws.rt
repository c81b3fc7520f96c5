//! Laws of lattices over rails. The functions do nothing: a caller learns the law.
ghost use Rattle.lattice_grid.specs.Start.{IsLackingFirst, IsLackingFinal, IsStartRight, IsOverFull};

/// Where a search over rails begins: with the lattice of pairs, which realises the function, or nowhere, since the first pair
/// that no allowed literal tells apart keeps every lattice over the rails from realising it.
pub fn starts()
    ensures first { IsLackingFirst }
    ensures last { IsLackingFinal }
    ensures right { IsStartRight }
{}

/// Where all literals are allowed, to be over the inputs and the rails is to be over the inputs.
pub fn full_rails()
    ensures { IsOverFull }
{}
