//! Why a step is refused.

/// Why an addition or a deletion is refused.
#[derive(Clone, Copy, Debug, PartialEq, Eq)]
pub enum StepFault {
    /// The identifier is not larger than every one so far, or is above 2,147,483,647.
    Order,
    /// No live clause has the identifier that a hint or a deletion names.
    Unknown,
    /// A literal of a hinted clause is true.
    Satisfied,
    /// Two or more different literals of a hinted clause have no value.
    Loose,
    /// The hints end without a conflict.
    NoConflict,
    /// A hint is negative.
    Rat,
    /// The clause has a literal and its complement.
    Tautology,
    /// A variable is above those of the formula.
    Variable,
    /// There was no memory.
    NoMemory,
}
