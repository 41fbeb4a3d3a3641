//! Whether two terms or formulas are the same, part by part.

ghost use Rattle.std.specs.Prelude.{◌≡◌};
ghost use Rattle.dl_term.specs.Same.{same_label as labels_match, same_part as parts_match, same_term as terms_match, same_formula as formulas_match};

use crate::syntax::{Formula, Lab, Part, Term};

/// Whether two labels are written the same.
pub fn same_label(left: Lab, right: Lab) -> bool
    ensures { result ≡ labels_match left right }
{
    match (left, right) {
        (Lab::Own, Lab::Own) => true,
        (Lab::At(left), Lab::At(right)) => left == right,
        _ => false,
    }
}

/// Whether the two are the same part of a message.
pub fn same_part(left: Part, right: Part) -> bool
    ensures { result ≡ parts_match left right }
{
    match (left, right) {
        (Part::Id, Part::Id) => true,
        (Part::From, Part::From) => true,
        (Part::To, Part::To) => true,
        (Part::Live, Part::Live) => true,
        (Part::Arg(left), Part::Arg(right)) => left == right,
        _ => false,
    }
}

/// Whether two terms are the same, part by part. The node of index 0 and the number 0 are not.
#[tactic(auto, unfolding(crate::specs::Syntax::opened))]
pub fn same_term(left: &Term, right: &Term) -> bool
    ensures { result ≡ terms_match left.now right.now }
{
    match (left, right) {
        (Term::Num(a), Term::Num(b)) => *a == *b,
        (Term::Word { sym: x, value: a }, Term::Word { sym: y, value: b }) => *x == *y && *a == *b,
        (Term::Var(x), Term::Var(y)) => *x == *y,
        (
            Term::Field {
                label: l,
                field: f,
                node: a,
            },
            Term::Field {
                label: m,
                field: g,
                node: b,
            },
        ) => { same_label(*l, *m) && *f == *g && same_term(a.get(), b.get()) }
        (
            Term::Row {
                label: l,
                field: f,
                node: a,
                index: i,
            },
            Term::Row {
                label: m,
                field: g,
                node: b,
                index: j,
            },
        ) => same_label(*l, *m)
            && *f == *g
            && same_term(a.get(), b.get())
            && same_term(i.get(), j.get()),
        (Term::Len(l), Term::Len(m)) => same_label(*l, *m),
        (Term::Msg { msg: x, part: p }, Term::Msg { msg: y, part: q }) => *x == *y
            && same_part(*p, *q),
        (Term::Add(a, b), Term::Add(c, d)) => same_term(a.get(), c.get())
            && same_term(b.get(), d.get()),
        (Term::Sub(a, b), Term::Sub(c, d)) => same_term(a.get(), c.get())
            && same_term(b.get(), d.get()),
        (Term::Mul(a, b), Term::Mul(c, d)) => same_term(a.get(), c.get())
            && same_term(b.get(), d.get()),
        (Term::If(a, b, x, y), Term::If(c, d, z, w)) => {
            same_term(a.get(), c.get())
                && same_term(b.get(), d.get())
                && same_term(x.get(), z.get())
                && same_term(y.get(), w.get())
        }
        _ => false,
    }
}

/// Whether two formulas are the same, part by part, bound names included.
#[tactic(auto, unfolding(crate::specs::Syntax::opened))]
pub fn same_formula(left: &Formula, right: &Formula) -> bool
    ensures { result ≡ formulas_match left.now right.now }
{
    match (left, right) {
        (Formula::True, Formula::True) => true,
        (Formula::False, Formula::False) => true,
        (Formula::Eq(a, b), Formula::Eq(c, d)) => same_term(a, c) && same_term(b, d),
        (Formula::Lt(a, b), Formula::Lt(c, d)) => same_term(a, c) && same_term(b, d),
        (Formula::Le(a, b), Formula::Le(c, d)) => same_term(a, c) && same_term(b, d),
        (Formula::Not(f), Formula::Not(g)) => same_formula(f.get(), g.get()),
        (Formula::And(f, g), Formula::And(h, k)) => same_formula(f.get(), h.get())
            && same_formula(g.get(), k.get()),
        (Formula::Or(f, g), Formula::Or(h, k)) => same_formula(f.get(), h.get())
            && same_formula(g.get(), k.get()),
        (Formula::Implies(f, g), Formula::Implies(h, k)) => same_formula(f.get(), h.get())
            && same_formula(g.get(), k.get()),
        (Formula::All { sym: x, body: f }, Formula::All { sym: y, body: g }) => *x == *y
            && same_formula(f.get(), g.get()),
        (Formula::Exists { sym: x, body: f }, Formula::Exists { sym: y, body: g }) => *x == *y
            && same_formula(f.get(), g.get()),
        (
            Formula::Each {
                msg: m,
                label: l,
                tag: t,
                body: f,
            },
            Formula::Each {
                msg: n,
                label: k,
                tag: u,
                body: g,
            },
        ) => *m == *n && same_label(*l, *k) && *t == *u && same_formula(f.get(), g.get()),
        (
            Formula::Any {
                msg: m,
                label: l,
                tag: t,
                body: f,
            },
            Formula::Any {
                msg: n,
                label: k,
                tag: u,
                body: g,
            },
        ) => *m == *n && same_label(*l, *k) && *t == *u && same_formula(f.get(), g.get()),
        _ => false,
    }
}
