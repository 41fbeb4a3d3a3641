//! The labels that a formula names.

ghost use Rattle.std.specs.Prelude.{◌≡◌, ◌++◌, ◌∷◌, [], IfOk, OnOk};
ghost use Rattle.dl_model.specs.Spoken.{term_labels, labels_of as labels_in};

use dl_term::{Formula, Lab, Term};
use sqlite_items::Items;
use std::alloc::{AllocError, Global};

/// The labels of the fields, rows, lengths and quantifiers of a formula, in the order in which they
/// stand. Its only error is want of memory.
pub(crate) fn labels_of(alloc: Global, formula: &Formula) -> Result<Items<Lab>, AllocError>
    ensures { IfOk result (λ labels. labels ≡ labels_in formula.now) }
{
    let mut labels = Items::new(alloc);
    add_labels(formula, alloc, &mut labels)?;
    Ok(labels)
}

#[tactic(auto, unfolding(dl_term::specs::Syntax::opened))]
fn add_labels(formula: &Formula, alloc: Global, labels: &mut Items<Lab>) -> Result<(), AllocError>
    ensures { OnOk result (labels.new ≡ labels.old ++ labels_in formula.now) }
{
    match formula {
        Formula::True => Ok(()),
        Formula::False => Ok(()),
        Formula::Eq(left, right) => add_of_two_terms(left, right, alloc, labels),
        Formula::Lt(left, right) => add_of_two_terms(left, right, alloc, labels),
        Formula::Le(left, right) => add_of_two_terms(left, right, alloc, labels),
        Formula::Not(body) => add_labels(body.get(), alloc, labels),
        Formula::And(left, right) => {
            add_labels(left.get(), alloc, labels)?;
            add_labels(right.get(), alloc, labels)
        }
        Formula::Or(left, right) => {
            add_labels(left.get(), alloc, labels)?;
            add_labels(right.get(), alloc, labels)
        }
        Formula::Implies(left, right) => {
            add_labels(left.get(), alloc, labels)?;
            add_labels(right.get(), alloc, labels)
        }
        Formula::All { body, .. } => add_labels(body.get(), alloc, labels),
        Formula::Exists { body, .. } => add_labels(body.get(), alloc, labels),
        Formula::Each { label, body, .. } => {
            labels.push(*label)?;
            add_labels(body.get(), alloc, labels)
        }
        Formula::Any { label, body, .. } => {
            labels.push(*label)?;
            add_labels(body.get(), alloc, labels)
        }
    }
}

fn add_of_two_terms(
    left: &Term,
    right: &Term,
    alloc: Global,
    labels: &mut Items<Lab>,
) -> Result<(), AllocError>
    ensures { OnOk result (labels.new ≡ labels.old ++ (term_labels left.now ++ term_labels right.now)) }
{
    add_term_labels(left, alloc, labels)?;
    add_term_labels(right, alloc, labels)
}

#[tactic(auto, unfolding(dl_term::specs::Syntax::opened))]
fn add_term_labels(term: &Term, alloc: Global, labels: &mut Items<Lab>) -> Result<(), AllocError>
    ensures { OnOk result (labels.new ≡ labels.old ++ term_labels term.now) }
{
    match term {
        Term::Num(_) => Ok(()),
        Term::Word { .. } => Ok(()),
        Term::Var(_) => Ok(()),
        Term::Msg { .. } => Ok(()),
        Term::Len(label) => labels.push(*label),
        Term::Field { label, node, .. } => {
            labels.push(*label)?;
            add_term_labels(node.get(), alloc, labels)
        }
        Term::Row {
            label,
            node,
            index,
            ..
        } => {
            labels.push(*label)?;
            add_term_labels(node.get(), alloc, labels)?;
            add_term_labels(index.get(), alloc, labels)
        }
        Term::Add(left, right) => {
            add_term_labels(left.get(), alloc, labels)?;
            add_term_labels(right.get(), alloc, labels)
        }
        Term::Sub(left, right) => {
            add_term_labels(left.get(), alloc, labels)?;
            add_term_labels(right.get(), alloc, labels)
        }
        Term::Mul(left, right) => {
            add_term_labels(left.get(), alloc, labels)?;
            add_term_labels(right.get(), alloc, labels)
        }
        Term::If(left, right, yes, no) => {
            add_term_labels(left.get(), alloc, labels)?;
            add_term_labels(right.get(), alloc, labels)?;
            add_term_labels(yes.get(), alloc, labels)?;
            add_term_labels(no.get(), alloc, labels)
        }
    }
}
