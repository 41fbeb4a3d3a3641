//! What can be told of a term or a formula with no state: bounds, sizes, names.

ghost use Rattle.std.specs.Prelude.{◌≡◌, ◌^◌, ◌-◌, min};
ghost use Rattle.dl_term.specs.Measures.{bound, parts, formula_parts, nesting, formula_nesting, has_variable, has_message, is_free_variable, is_free_message, is_free, is_oversized};

use crate::syntax::{Formula, Term};

/// The most parts that a formula may have that a call of these crates makes.
pub const LARGEST_SIZE: u64 = 1_000_000;

/// The deepest that the parts of such a formula may nest.
pub const DEEPEST_NESTING: u64 = 4_000;

/// A bound of the term's absolute value, or the greatest `u128` where the bound is larger.
///
/// It is the magnitude of a number, 2^63 for what is read of the state or of a name, the sum for `+` and `-`, the
/// product for `*`, and the larger branch for `if`.
#[tactic(auto, unfolding(crate::specs::Syntax::opened))]
pub fn magnitude(term: &Term) -> u128
    ensures { result ≡ min (bound term.now) (2 ^ 128 - 1) }
{
    match term {
        Term::Num(value) | Term::Word { value, .. } => u128::from(value.unsigned_abs()),
        Term::Var(_) | Term::Field { .. } | Term::Row { .. } | Term::Len(_) | Term::Msg { .. } => 1
            << 63,
        Term::Add(left, right) | Term::Sub(left, right) => magnitude(left.get()).saturating_add(
            magnitude(right.get()),
        ),
        Term::Mul(left, right) => magnitude(left.get()).saturating_mul(magnitude(right.get())),
        Term::If(_, _, yes, no) => magnitude(yes.get()).max(magnitude(no.get())),
    }
}

/// The number of a formula's parts, which are the constructors of formulas and terms in it, or the greatest
/// `u64` where they are more.
#[tactic(auto, unfolding(crate::specs::Syntax::opened))]
pub fn size(formula: &Formula) -> u64
    ensures { result ≡ min (formula_parts formula.now) (2 ^ 64 - 1) }
{
    match formula {
        Formula::True | Formula::False => 1,
        Formula::Eq(left, right) | Formula::Lt(left, right) | Formula::Le(left, right) => {
            term_size(left)
                .saturating_add(term_size(right))
                .saturating_add(1)
        }
        Formula::Not(body)
        | Formula::All { body, .. }
        | Formula::Exists { body, .. }
        | Formula::Each { body, .. }
        | Formula::Any { body, .. } => size(body.get()).saturating_add(1),
        Formula::And(left, right) | Formula::Or(left, right) | Formula::Implies(left, right) => {
            size(left.get())
                .saturating_add(size(right.get()))
                .saturating_add(1)
        }
    }
}

/// The number of a term's parts, or the greatest `u64` where they are more.
#[tactic(auto, unfolding(crate::specs::Syntax::opened))]
pub fn term_size(term: &Term) -> u64
    ensures { result ≡ min (parts term.now) (2 ^ 64 - 1) }
{
    match term {
        Term::Num(_) | Term::Word { .. } | Term::Var(_) | Term::Len(_) | Term::Msg { .. } => 1,
        Term::Field { node, .. } => term_size(node.get()).saturating_add(1),
        Term::Row { node, index, .. } => {
            term_size(node.get())
                .saturating_add(term_size(index.get()))
                .saturating_add(1)
        }
        Term::Add(left, right) | Term::Sub(left, right) | Term::Mul(left, right) => {
            term_size(left.get())
                .saturating_add(term_size(right.get()))
                .saturating_add(1)
        }
        Term::If(left, right, yes, no) => term_size(left.get())
            .saturating_add(term_size(right.get()))
            .saturating_add(term_size(yes.get()))
            .saturating_add(term_size(no.get()))
            .saturating_add(1),
    }
}

/// How deep a formula's parts nest, which is 1 for a single part, or the greatest `u64` where they nest deeper.
#[tactic(auto, unfolding(crate::specs::Syntax::opened))]
pub fn depth(formula: &Formula) -> u64
    ensures { result ≡ min (formula_nesting formula.now) (2 ^ 64 - 1) }
{
    match formula {
        Formula::True | Formula::False => 1,
        Formula::Eq(left, right) | Formula::Lt(left, right) | Formula::Le(left, right) => {
            term_depth(left).max(term_depth(right)).saturating_add(1)
        }
        Formula::Not(body)
        | Formula::All { body, .. }
        | Formula::Exists { body, .. }
        | Formula::Each { body, .. }
        | Formula::Any { body, .. } => depth(body.get()).saturating_add(1),
        Formula::And(left, right) | Formula::Or(left, right) | Formula::Implies(left, right) => {
            depth(left.get()).max(depth(right.get())).saturating_add(1)
        }
    }
}

/// How deep a term's parts nest, or the greatest `u64` where they nest deeper.
#[tactic(auto, unfolding(crate::specs::Syntax::opened))]
pub fn term_depth(term: &Term) -> u64
    ensures { result ≡ min (nesting term.now) (2 ^ 64 - 1) }
{
    match term {
        Term::Num(_) | Term::Word { .. } | Term::Var(_) | Term::Len(_) | Term::Msg { .. } => 1,
        Term::Field { node, .. } => term_depth(node.get()).saturating_add(1),
        Term::Row { node, index, .. } => {
            term_depth(node.get())
                .max(term_depth(index.get()))
                .saturating_add(1)
        }
        Term::Add(left, right) | Term::Sub(left, right) | Term::Mul(left, right) => {
            term_depth(left.get())
                .max(term_depth(right.get()))
                .saturating_add(1)
        }
        Term::If(left, right, yes, no) => {
            let tested = term_depth(left.get()).max(term_depth(right.get()));
            let chosen = term_depth(yes.get()).max(term_depth(no.get()));
            tested.max(chosen).saturating_add(1)
        }
    }
}

/// Whether a formula has more than 1,000,000 parts, or nests more than 4,000 deep, which counts as more.
pub fn oversized(formula: &Formula) -> bool
    ensures { result ≡ is_oversized formula.now }
{
    size(formula) > LARGEST_SIZE || depth(formula) > DEEPEST_NESTING
}

/// Whether the name stands in the formula, as a variable or a message, outside the quantifiers that bind it.
pub fn free(formula: &Formula, sym: u32) -> bool
    ensures { result ≡ is_free formula.now sym }
{
    free_variable(formula, sym) || free_message(formula, sym)
}

/// Whether the variable stands in the formula outside the quantifiers over nodes that bind it.
#[tactic(auto, unfolding(crate::specs::Syntax::opened))]
pub fn free_variable(formula: &Formula, sym: u32) -> bool
    ensures { result ≡ is_free_variable formula.now sym }
{
    match formula {
        Formula::True | Formula::False => false,
        Formula::Eq(left, right) | Formula::Lt(left, right) | Formula::Le(left, right) => {
            variable_in(left, sym) || variable_in(right, sym)
        }
        Formula::Not(body) | Formula::Each { body, .. } | Formula::Any { body, .. } => {
            free_variable(body.get(), sym)
        }
        Formula::And(left, right) | Formula::Or(left, right) | Formula::Implies(left, right) => {
            free_variable(left.get(), sym) || free_variable(right.get(), sym)
        }
        Formula::All { sym: bound, body } | Formula::Exists { sym: bound, body } => {
            *bound != sym && free_variable(body.get(), sym)
        }
    }
}

/// Whether the message stands in the formula outside the quantifiers over messages that bind it.
#[tactic(auto, unfolding(crate::specs::Syntax::opened))]
pub fn free_message(formula: &Formula, msg: u32) -> bool
    ensures { result ≡ is_free_message formula.now msg }
{
    match formula {
        Formula::True | Formula::False => false,
        Formula::Eq(left, right) | Formula::Lt(left, right) | Formula::Le(left, right) => {
            message_in(left, msg) || message_in(right, msg)
        }
        Formula::Not(body) | Formula::All { body, .. } | Formula::Exists { body, .. } => {
            free_message(body.get(), msg)
        }
        Formula::And(left, right) | Formula::Or(left, right) | Formula::Implies(left, right) => {
            free_message(left.get(), msg) || free_message(right.get(), msg)
        }
        Formula::Each {
            msg: bound,
            body,
            ..
        }
        | Formula::Any {
            msg: bound,
            body,
            ..
        } => { *bound != msg && free_message(body.get(), msg) }
    }
}

/// Whether the variable stands in the term.
#[tactic(auto, unfolding(crate::specs::Syntax::opened))]
pub fn variable_in(term: &Term, name: u32) -> bool
    ensures { result ≡ has_variable term.now name }
{
    match term {
        Term::Num(_) | Term::Word { .. } | Term::Len(_) | Term::Msg { .. } => false,
        Term::Var(stands) => *stands == name,
        Term::Field { node, .. } => variable_in(node.get(), name),
        Term::Row { node, index, .. } => variable_in(node.get(), name)
            || variable_in(index.get(), name),
        Term::Add(left, right) | Term::Sub(left, right) | Term::Mul(left, right) => {
            variable_in(left.get(), name) || variable_in(right.get(), name)
        }
        Term::If(left, right, yes, no) => {
            variable_in(left.get(), name)
                || variable_in(right.get(), name)
                || variable_in(yes.get(), name)
                || variable_in(no.get(), name)
        }
    }
}

/// Whether a part of the message stands in the term.
#[tactic(auto, unfolding(crate::specs::Syntax::opened))]
pub fn message_in(term: &Term, name: u32) -> bool
    ensures { result ≡ has_message term.now name }
{
    match term {
        Term::Num(_) | Term::Word { .. } | Term::Len(_) | Term::Var(_) => false,
        Term::Msg { msg: stands, .. } => *stands == name,
        Term::Field { node, .. } => message_in(node.get(), name),
        Term::Row { node, index, .. } => message_in(node.get(), name)
            || message_in(index.get(), name),
        Term::Add(left, right) | Term::Sub(left, right) | Term::Mul(left, right) => {
            message_in(left.get(), name) || message_in(right.get(), name)
        }
        Term::If(left, right, yes, no) => {
            message_in(left.get(), name)
                || message_in(right.get(), name)
                || message_in(yes.get(), name)
                || message_in(no.get(), name)
        }
    }
}
