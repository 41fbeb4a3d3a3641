//! Whether a formula names no label of a world.

ghost use Rattle.std.specs.Prelude.{◌≡◌, ◌↔◌, IsOk};
ghost use Rattle.dl_model.specs.Spoken.{term_labels, labels_of};
ghost use Rattle.dl_model.specs.Worlds.{IsApart};
ghost use Rattle.dl_world.specs.Framed.{label_apart, labels_apart, formula_apart};

use crate::positions::Positions;
use dl_model::World;
use dl_term::{Formula, Lab, Term};

/// Whether no field, row, length or quantifier of the formula is at a label of the world. The refusal is the first such
/// label in preorder of the formula. It takes no memory.
pub fn frame_apart(formula: &Formula, world: &World) -> Result<(), u8>
    ensures exact { result ≡ formula_apart world.now formula.now }
    ensures apart { IsOk result ↔ IsApart world.now formula.now }
{
    check_formula(formula, &Positions::of(world.labels.as_slice()))
}

#[tactic(auto, unfolding(dl_term::specs::Syntax::opened), using(crate::proofs::Framing::apart_append))]
fn check_formula(formula: &Formula, labels: &Positions) -> Result<(), u8>
    ensures { result ≡ labels_apart labels.now (labels_of formula.now) }
{
    match formula {
        Formula::True | Formula::False => Ok(()),
        Formula::Eq(left, right) | Formula::Lt(left, right) | Formula::Le(left, right) => {
            check_term(left, labels).and(check_term(right, labels))
        }
        Formula::Not(body) | Formula::All { body, .. } | Formula::Exists { body, .. } => {
            check_formula(body.get(), labels)
        }
        Formula::And(left, right) | Formula::Or(left, right) | Formula::Implies(left, right) => {
            check_formula(left.get(), labels).and(check_formula(right.get(), labels))
        }
        Formula::Each { label, body, .. } | Formula::Any { label, body, .. } => {
            check_label(*label, labels).and(check_formula(body.get(), labels))
        }
    }
}

#[tactic(auto, unfolding(dl_term::specs::Syntax::opened), using(crate::proofs::Framing::apart_append))]
fn check_term(term: &Term, labels: &Positions) -> Result<(), u8>
    ensures { result ≡ labels_apart labels.now (term_labels term.now) }
{
    match term {
        Term::Num(_) | Term::Word { .. } | Term::Var(_) | Term::Msg { .. } => Ok(()),
        Term::Field { label, node, .. } => {
            check_label(*label, labels).and(check_term(node.get(), labels))
        }
        Term::Row {
            label,
            node,
            index,
            ..
        } => {
            let read = check_term(node.get(), labels).and(check_term(index.get(), labels));
            check_label(*label, labels).and(read)
        }
        Term::Len(label) => check_label(*label, labels),
        Term::Add(left, right) | Term::Sub(left, right) | Term::Mul(left, right) => {
            check_term(left.get(), labels).and(check_term(right.get(), labels))
        }
        Term::If(left, right, yes, no) => {
            let tested = check_term(left.get(), labels).and(check_term(right.get(), labels));
            let chosen = check_term(yes.get(), labels).and(check_term(no.get(), labels));
            tested.and(chosen)
        }
    }
}

fn check_label(label: Lab, labels: &Positions) -> Result<(), u8>
    ensures { result ≡ label_apart labels.now label }
{
    match label {
        Lab::At(position) if labels.has(position) => Err(position),
        _ => Ok(()),
    }
}
