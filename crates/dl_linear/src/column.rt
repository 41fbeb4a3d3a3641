//! Columns of a line.

/// A place in a line: the coefficient of the atom of this number, or the bound.
#[derive(Clone, Copy)]
pub(crate) enum Column {
    Atom(usize),
    Bound,
}
