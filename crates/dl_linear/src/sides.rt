//! What a formula with a line says of two terms.

ghost use Rattle.std.specs.Prelude.{◌≡◌};
ghost use Rattle.dl_linear.specs.Forms.{sides_of as sides_meant, equal_to as same, at_most as no_more, below as less};
ghost use Rattle.dl_linear.specs.Seen.{seen, seen_sides};

use dl_term::{Formula, Term};

/// What a line is made of: the left term and the gap are at most the right term, or equal to it.
#[derive(Clone, Copy)]
pub struct Sides<'a> {
    pub left: &'a Term,
    pub right: &'a Term,
    pub gap: i64,
    /// Whether the two are equal, and not only at most.
    pub equal: bool,
}

impl<'a> Sides<'a> {
    /// The left term equals the right one.
    pub fn equal_to(left: &'a Term, right: &'a Term) -> Sides<'a>
        ensures { seen result ≡ same left.now right.now }
    {
        Sides {
            left,
            right,
            gap: 0,
            equal: true,
        }
    }

    /// The left term is at most the right one.
    pub fn at_most(left: &'a Term, right: &'a Term) -> Sides<'a>
        ensures { seen result ≡ no_more left.now right.now }
    {
        Sides {
            left,
            right,
            gap: 0,
            equal: false,
        }
    }

    /// The left term is below the right one, by 1 at least.
    pub fn below(left: &'a Term, right: &'a Term) -> Sides<'a>
        ensures { seen result ≡ less left.now right.now }
    {
        Sides {
            left,
            right,
            gap: 1,
            equal: false,
        }
    }
}

/// The sides of a formula that has a line: an equation, an inequality, or the negation of an inequality. Every other
/// formula has none.
#[tactic(auto, unfolding(dl_term::specs::Syntax::opened))]
pub fn sides_of(formula: &Formula) -> Option<Sides<'_>>
    ensures { seen_sides result ≡ sides_meant formula.now }
{
    match formula {
        Formula::Eq(left, right) => Some(Sides::equal_to(left, right)),
        Formula::Lt(left, right) => Some(Sides::below(left, right)),
        Formula::Le(left, right) => Some(Sides::at_most(left, right)),
        Formula::Not(inner) => match inner.get() {
            Formula::Lt(left, right) => Some(Sides::at_most(right, left)),
            Formula::Le(left, right) => Some(Sides::below(right, left)),
            _ => None,
        },
        _ => None,
    }
}
