//! Why a substitution was refused.

/// Why a substitution was refused.
#[derive(Debug, Drop)]
pub enum SubstFault {
    /// A name that is free in a new term is bound around its place.
    Capture,
    /// The result has more than 1,000,000 parts, or nests more than 4,000 deep.
    Size,
    /// Want of memory.
    Memory,
}
