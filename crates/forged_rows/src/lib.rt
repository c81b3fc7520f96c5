//! Audits of journals at concrete texts, most of which are not right.
#![tactic(auto)]

#[cfg(test)]
mod audits;
