//! What a formula is made of, with one accessor for each kind, so that no rule takes a formula apart itself.

ghost use Rattle.std.specs.Prelude.{◌≡◌};
ghost use Rattle.dl_kernel.specs.Parts.{is_true as says_true, is_false as says_false, as_equation, as_denied, as_and, as_or, as_implication, as_universal, as_existential};

use dl_term::{Formula, Lab, Term};

/// The two sides of a connective.
#[derive(Drop)]
pub struct Two {
    pub left: Formula,
    pub right: Formula,
}

/// The two sides of an equation.
#[derive(Drop)]
pub struct Equation {
    pub left: Term,
    pub right: Term,
}

/// What a quantifier binds, and what it says of it.
#[derive(Drop)]
pub enum Quantified {
    /// A node, which the variable stands for.
    Nodes {
        sym: u32,
        body: Formula,
    },
    /// A message of the tag in the label's soup, which the message name stands for.
    Messages {
        msg: u32,
        label: Lab,
        /// The tag's index in its protocol.
        tag: u8,
        body: Formula,
    },
}

pub(crate) fn is_true(formula: &Formula) -> bool
    ensures { result ≡ says_true formula.now }
{
    match formula {
        Formula::True => true,
        _ => false,
    }
}

pub(crate) fn is_false(formula: &Formula) -> bool
    ensures { result ≡ says_false formula.now }
{
    match formula {
        Formula::False => true,
        _ => false,
    }
}

/// The parts of a conjunction.
#[tactic(auto, unfolding(dl_term::specs::Syntax::opened))]
pub(crate) fn into_and(formula: Formula) -> Option<Two>
    ensures { result ≡ as_and formula }
{
    match formula {
        Formula::And(left, right) => Some(Two {
            left: left.into_inner(),
            right: right.into_inner(),
        }),
        _ => None,
    }
}

/// The parts of a disjunction.
#[tactic(auto, unfolding(dl_term::specs::Syntax::opened))]
pub(crate) fn into_or(formula: Formula) -> Option<Two>
    ensures { result ≡ as_or formula }
{
    match formula {
        Formula::Or(left, right) => Some(Two {
            left: left.into_inner(),
            right: right.into_inner(),
        }),
        _ => None,
    }
}

/// What an implication asks for and what it gives. A negation gives `false`.
#[tactic(auto, unfolding(dl_term::specs::Syntax::opened))]
pub(crate) fn into_implication(formula: Formula) -> Option<Two>
    ensures { result ≡ as_implication formula }
{
    match formula {
        Formula::Implies(left, right) => Some(Two {
            left: left.into_inner(),
            right: right.into_inner(),
        }),
        Formula::Not(body) => Some(Two {
            left: body.into_inner(),
            right: Formula::False,
        }),
        _ => None,
    }
}

/// What a formula says of each node or message.
#[tactic(auto, unfolding(dl_term::specs::Syntax::opened))]
pub(crate) fn into_universal(formula: Formula) -> Option<Quantified>
    ensures { result ≡ as_universal formula }
{
    match formula {
        Formula::All { sym, body } => Some(Quantified::Nodes {
            sym,
            body: body.into_inner(),
        }),
        Formula::Each {
            msg,
            label,
            tag,
            body,
        } => Some(Quantified::Messages {
            msg,
            label,
            tag,
            body: body.into_inner(),
        }),
        _ => None,
    }
}

/// What a formula says of some node or message.
#[tactic(auto, unfolding(dl_term::specs::Syntax::opened))]
pub(crate) fn into_existential(formula: Formula) -> Option<Quantified>
    ensures { result ≡ as_existential formula }
{
    match formula {
        Formula::Exists { sym, body } => Some(Quantified::Nodes {
            sym,
            body: body.into_inner(),
        }),
        Formula::Any {
            msg,
            label,
            tag,
            body,
        } => Some(Quantified::Messages {
            msg,
            label,
            tag,
            body: body.into_inner(),
        }),
        _ => None,
    }
}

/// The sides of an equation.
#[tactic(auto, unfolding(dl_term::specs::Syntax::opened))]
pub(crate) fn into_equation(formula: Formula) -> Option<Equation>
    ensures { result ≡ as_equation formula }
{
    match formula {
        Formula::Eq(left, right) => Some(Equation { left, right }),
        _ => None,
    }
}

/// The sides of an equation that is denied.
#[tactic(auto, unfolding(dl_term::specs::Syntax::opened))]
pub(crate) fn into_denied(formula: Formula) -> Option<Equation>
    ensures { result ≡ as_denied formula }
{
    match formula {
        Formula::Not(body) => into_equation(body.into_inner()),
        _ => None,
    }
}
