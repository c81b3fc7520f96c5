//! One question: whether some lattice realises a function, of a shape or on an array with stuck cells. A solver is asked, whose
//! steps a journal gets.
#![tactic(auto)]

pub mod question;
