//! Formulas: what is known in them, how large their values may be, whether they are local, and which names they bind.

ghost use Rattle.std.specs.Prelude.{◌≡◌};
ghost use Rattle.dl_model.specs.Scopes.{is_local};
ghost use Rattle.dl_formed.specs.Scoped.{scope_of};
ghost use Rattle.dl_formed.specs.Programs.{binds_none};
ghost use Rattle.dl_formed.specs.Known.{formula_is_known, each_is_narrow, formula_is_apart, is_formula, is_formula_of_step};

use crate::names::NameSet;
use crate::scope::Known;
use crate::terms;
use dl_term::Formula;

// Whether the formula is known, and each of its terms is narrow.
pub(crate) fn is_formula(formula: &Formula, known: &Known) -> bool
    ensures { result ≡ is_formula (scope_of known.now) formula.now }
{
    is_known(formula, known) && is_narrow(formula)
}

// Whether the formula is known and local, and each of its terms is narrow.
pub(crate) fn is_formula_of_step(formula: &Formula, known: &Known) -> bool
    ensures { result ≡ is_formula_of_step (scope_of known.now) formula.now }
{
    is_formula(formula, known) && is_local(formula)
}

// Whether each label, field, tag, variable and message is known, and each quantifier binds a new name.
#[tactic(auto, unfolding(dl_term::specs::Syntax::opened))]
fn is_known(formula: &Formula, known: &Known) -> bool
    ensures { result ≡ formula_is_known (scope_of known.now) formula.now }
{
    match formula {
        Formula::True => true,
        Formula::False => true,
        Formula::Eq(left, right) => {
            terms::is_known(left, known) && terms::is_known(right, known)
        }
        Formula::Lt(left, right) => {
            terms::is_known(left, known) && terms::is_known(right, known)
        }
        Formula::Le(left, right) => {
            terms::is_known(left, known) && terms::is_known(right, known)
        }
        Formula::Not(body) => is_known(body.get(), known),
        Formula::And(left, right) => is_known(left.get(), known) && is_known(right.get(), known),
        Formula::Or(left, right) => is_known(left.get(), known) && is_known(right.get(), known),
        Formula::Implies(left, right) => {
            is_known(left.get(), known) && is_known(right.get(), known)
        }
        Formula::All { sym, body } => {
            known.is_fresh(*sym) && is_known(body.get(), &Known::Variable(&*known, *sym))
        }
        Formula::Exists { sym, body } => {
            known.is_fresh(*sym) && is_known(body.get(), &Known::Variable(&*known, *sym))
        }
        Formula::Each {
            msg,
            label,
            tag,
            body,
        } => {
            known.is_fresh(*msg)
                && known.has_tag(*label, *tag)
                && is_known(body.get(), &Known::Message(&*known, *msg))
        }
        Formula::Any {
            msg,
            label,
            tag,
            body,
        } => {
            known.is_fresh(*msg)
                && known.has_tag(*label, *tag)
                && is_known(body.get(), &Known::Message(&*known, *msg))
        }
    }
}

// Whether the bound of each term is below 2^127.
#[tactic(auto, unfolding(dl_term::specs::Syntax::opened))]
fn is_narrow(formula: &Formula) -> bool
    ensures { result ≡ each_is_narrow formula.now }
{
    match formula {
        Formula::True => true,
        Formula::False => true,
        Formula::Eq(left, right) => terms::is_narrow(left) && terms::is_narrow(right),
        Formula::Lt(left, right) => terms::is_narrow(left) && terms::is_narrow(right),
        Formula::Le(left, right) => terms::is_narrow(left) && terms::is_narrow(right),
        Formula::Not(body) => is_narrow(body.get()),
        Formula::And(left, right) => is_narrow(left.get()) && is_narrow(right.get()),
        Formula::Or(left, right) => is_narrow(left.get()) && is_narrow(right.get()),
        Formula::Implies(left, right) => is_narrow(left.get()) && is_narrow(right.get()),
        Formula::All { body, .. } => is_narrow(body.get()),
        Formula::Exists { body, .. } => is_narrow(body.get()),
        Formula::Each { body, .. } => is_narrow(body.get()),
        Formula::Any { body, .. } => is_narrow(body.get()),
    }
}

// Whether the formula reads what one node knows, and has no quantifier over messages.
#[tactic(auto, unfolding(dl_term::specs::Syntax::opened))]
fn is_local(formula: &Formula) -> bool
    ensures { result ≡ is_local formula.now }
{
    match formula {
        Formula::True => true,
        Formula::False => true,
        Formula::Eq(left, right) => terms::is_local(left) && terms::is_local(right),
        Formula::Lt(left, right) => terms::is_local(left) && terms::is_local(right),
        Formula::Le(left, right) => terms::is_local(left) && terms::is_local(right),
        Formula::Not(body) => is_local(body.get()),
        Formula::And(left, right) => is_local(left.get()) && is_local(right.get()),
        Formula::Or(left, right) => is_local(left.get()) && is_local(right.get()),
        Formula::Implies(left, right) => is_local(left.get()) && is_local(right.get()),
        Formula::All { body, .. } => is_local(body.get()),
        Formula::Exists { body, .. } => is_local(body.get()),
        Formula::Each { .. } => false,
        Formula::Any { .. } => false,
    }
}

// Whether no quantifier binds one of the names.
#[tactic(auto, unfolding(dl_term::specs::Syntax::opened))]
pub(crate) fn is_apart(formula: &Formula, names: &NameSet) -> bool
    ensures { result ≡ formula_is_apart names.now formula.now }
{
    match formula {
        Formula::True => true,
        Formula::False => true,
        Formula::Eq(_, _) => true,
        Formula::Lt(_, _) => true,
        Formula::Le(_, _) => true,
        Formula::Not(body) => is_apart(body.get(), names),
        Formula::And(left, right) => is_apart(left.get(), names) && is_apart(right.get(), names),
        Formula::Or(left, right) => is_apart(left.get(), names) && is_apart(right.get(), names),
        Formula::Implies(left, right) => {
            is_apart(left.get(), names) && is_apart(right.get(), names)
        }
        Formula::All { sym, body } => !names.has(*sym) && is_apart(body.get(), names),
        Formula::Exists { sym, body } => !names.has(*sym) && is_apart(body.get(), names),
        Formula::Each { msg, body, .. } => !names.has(*msg) && is_apart(body.get(), names),
        Formula::Any { msg, body, .. } => !names.has(*msg) && is_apart(body.get(), names),
    }
}

// Whether the formula has no quantifier.
#[tactic(auto, unfolding(dl_term::specs::Syntax::opened))]
pub(crate) fn binds_none(formula: &Formula) -> bool
    ensures { result ≡ binds_none formula.now }
{
    match formula {
        Formula::True => true,
        Formula::False => true,
        Formula::Eq(_, _) => true,
        Formula::Lt(_, _) => true,
        Formula::Le(_, _) => true,
        Formula::Not(body) => binds_none(body.get()),
        Formula::And(left, right) => binds_none(left.get()) && binds_none(right.get()),
        Formula::Or(left, right) => binds_none(left.get()) && binds_none(right.get()),
        Formula::Implies(left, right) => binds_none(left.get()) && binds_none(right.get()),
        Formula::All { .. } => false,
        Formula::Exists { .. } => false,
        Formula::Each { .. } => false,
        Formula::Any { .. } => false,
    }
}
