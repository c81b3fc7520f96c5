//! Laws of paths and cuts. The functions do nothing: a caller learns the law.
ghost use Rattle.path_meaning.specs.Closed.{IsCutRefuted, IsJoinedRefuted};
ghost use Rattle.path_meaning.specs.Crossing.{IsEitherOr, IsJoinedOrCut, IsNeverBoth};
ghost use Rattle.path_meaning.specs.Defective.{IsRealisedPlainly, IsRealisingPlainly};
ghost use Rattle.path_meaning.specs.Fitting.{IsFitting, IsRealisedLarger, IsRepeatJoined};

/// Whatever cells of a rectangle are on, be it as controls say or with stuck cells, exactly one of a path and a cut stands in it.
pub fn crossing()
    ensures at_least_one { IsJoinedOrCut }
    ensures never_both { IsNeverBoth }
    ensures either_or { IsEitherOr }
{}

/// No path, or no cut, stands exactly where a closed set of cells stops short of the far side.
pub fn closed_sets()
    ensures joined { IsJoinedRefuted }
    ensures cut { IsCutRefuted }
{}

/// To repeat the last row or the last column, any number of times, changes nothing; so what is realised at a size is
/// realised at each size that it fits inside, over the same inputs and rails.
pub fn fitting()
    ensures cells { IsFitting }
    ensures repeated { IsRepeatJoined }
    ensures realised { IsRealisedLarger }
{}

/// To realise a function on no array is to realise it.
pub fn plainly()
    ensures lattice { IsRealisingPlainly }
    ensures some { IsRealisedPlainly }
{}
