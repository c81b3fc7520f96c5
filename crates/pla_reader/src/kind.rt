//! The types of PLAs.

/// Which of its assignments a PLA names: those on, and with `d` the don't-cares, with `r` those off.
#[derive(Clone, Copy, Debug, PartialEq, Eq)]
pub enum Kind {
    F,
    Fd,
    Fr,
    Fdr,
}
