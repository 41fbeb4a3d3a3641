//! How a rule ends.

/// Why a rule whose condition holds is not made.
#[derive(Clone, Copy, Drop)]
pub(crate) enum StepFault {
    /// It leaves too large a sequent.
    Limit,
    Memory,
}
