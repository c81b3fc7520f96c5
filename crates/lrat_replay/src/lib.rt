//! Replay of clause proofs, and LRAT text.
#![tactic(auto)]

ghost use Rattle.lrat_replay.specs.Laws.{IsSound, IsRefutationSound};
ghost use Rattle.lrat_replay.specs.Budget.{AreFewerThanSets};
ghost use Rattle.lrat_replay.specs.Together.{LearnTogether, CountTogether, TellTogether, IsSpentByWriting, IsEndSound};

mod deny;
pub mod fault;
mod hints;
pub mod ledger;
pub mod line;
mod lists;
pub mod marks;
mod place;
pub mod read;
pub mod refusal;
pub mod replay;
pub mod status;
pub mod step_text;
mod store;
mod subset;
pub mod tally;
pub mod write;

/// What replay shows, of all formulas and all lines.
pub fn soundness()
    ensures steps { IsSound }
    ensures refutations { IsRefutationSound }
{}

/// How the steps of a ledger come together.
pub fn steps_together()
    ensures learn { LearnTogether }
    ensures count { CountTogether }
    ensures tell { TellTogether }
    ensures spent { IsSpentByWriting }
    ensures end { IsEndSound }
{}

/// How many new steps there can be.
pub fn few_new_steps()
    ensures { AreFewerThanSets }
{}
