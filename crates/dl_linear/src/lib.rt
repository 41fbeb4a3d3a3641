//! Linear forms of terms over whole numbers, and certificates that refute lines of them.
#![tactic(auto)]

mod certificate;
mod column;
mod form;
mod line;
mod linearizer;
mod narrow;
mod sides;
mod verifier;

pub use certificate::{CertFault, Certificate, Multiple};
pub use form::constant;
pub use line::{Line, LineFault, Lines};
pub use linearizer::{lines_of, lines_of_sides};
pub use sides::{Sides, sides_of};
pub use verifier::verify;
