//! Where bytes come from and where they go, with the faults of both.
#![tactic(auto)]

pub mod buffer;
pub mod fault;
pub mod firm;
pub mod host;
pub mod memory;
pub mod sink;
pub mod source;
