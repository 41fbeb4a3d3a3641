//! Terms and formulas of trees.

ghost use Rattle.std.specs.Prelude.{◌≡◌, IfOk, IfErr, [], None};
ghost use Rattle.dl_forms.specs.Judge.{fault, first_fault};
ghost use Rattle.dl_forms.specs.Scope.{context_of};
ghost use Rattle.dl_forms.specs.Read.{IsFormed, IsFault, Means, MeansTerm, ReadsTerm, ReadsFormula, names_stage};
ghost use Rattle.dl_forms.specs.Naming.{names_in};
ghost use Rattle.dl_forms.specs.Numbered.{AreNumbered};
ghost use Rattle.dl_forms.specs.Table.{numbered, all_marked, Extends};
ghost use Rattle.dl_model.specs.Spoken.{bound_names};

use crate::around::Around;
use crate::fault::FormFault;
use crate::form::form_fault;
use crate::formula::formula;
use crate::number::number_names;
use crate::position::Position;
use crate::read::term;
use crate::scope::{Bound, Scope};
use crate::table::Names;
use dl_model::Instances;
use dl_term::{Formula, Term};
use dl_tree::Tree;
use std::alloc::Global;

/// The term that a tree is, where each of its names has its number, and its form was looked at. A refusal is
/// the first fault of the stage of names: rule 10, 11, 14, 15 or 16, each at its place. Besides, want of memory
/// is answered.
pub fn term_of(
    alloc: Global,
    names: &Names,
    scope: &Scope,
    inst: &Instances,
    tree: &Tree,
) -> Result<Term, FormFault>
    requires { IsFormed scope.now inst.now }
    ensures ok { IfOk result (λ term. ReadsTerm names.now scope.now inst.now [] tree.now term) }
    ensures err { IfErr result (λ e. IsFault (fault tree.now (names_stage names.now scope.now inst.now []) Position.Term) e) }
{
    term(alloc, &Around { names, scope, inst }, &Bound::Nothing, tree)
}

/// The formula that a tree is, where each of its names has its number, and its form was looked at. A refusal is
/// the first fault of the stage of names: rule 10, 11, 13, 14, 15 or 16, each at its place. Besides, want of
/// memory is answered. Nothing is marked.
pub fn formula_of(
    alloc: Global,
    names: &Names,
    scope: &Scope,
    inst: &Instances,
    tree: &Tree,
) -> Result<Formula, FormFault>
    requires { IsFormed scope.now inst.now }
    ensures ok { IfOk result (λ formula. ReadsFormula names.now scope.now inst.now [] tree.now formula) }
    ensures err { IfErr result (λ e. IsFault (fault tree.now (names_stage names.now scope.now inst.now []) Position.Formula) e) }
{
    formula(alloc, &Around { names, scope, inst }, &Bound::Nothing, tree)
}

// The term of a tree, where each of its names has its number.
#[tactic(auto, unfolding(crate::specs::Judge::first_fault))]
fn numbered_term(
    alloc: Global,
    names: &Names,
    scope: &Scope,
    inst: &Instances,
    tree: &Tree,
) -> Result<Term, FormFault>
    requires { IsFormed scope.now inst.now }
    ensures sound { IfOk result (λ term. first_fault (context_of names.now scope.now inst.now []) Position.Term tree.now ≡ None) }
    ensures means { IfOk result (λ term. MeansTerm names.now scope.now inst.now tree.now term) }
    ensures err { IfErr result (λ e. IsFault (first_fault (context_of names.now scope.now inst.now []) Position.Term tree.now) e) }
{
    if let Some(place) = form_fault(Position::Term, tree) {
        return Err(FormFault::At { rule: 10, place });
    }
    term_of(alloc, names, scope, inst, tree)
}

// The formula of a tree, where each of its names has its number.
#[tactic(auto, unfolding(crate::specs::Judge::first_fault))]
fn numbered_formula(
    alloc: Global,
    names: &Names,
    scope: &Scope,
    inst: &Instances,
    tree: &Tree,
) -> Result<Formula, FormFault>
    requires { IsFormed scope.now inst.now }
    ensures sound { IfOk result (λ formula. first_fault (context_of names.now scope.now inst.now []) Position.Formula tree.now ≡ None) }
    ensures means { IfOk result (λ formula. Means names.now scope.now inst.now tree.now formula) }
    ensures err { IfErr result (λ e. IsFault (first_fault (context_of names.now scope.now inst.now []) Position.Formula tree.now) e) }
{
    if let Some(place) = form_fault(Position::Formula, tree) {
        return Err(FormFault::At { rule: 10, place });
    }
    formula_of(alloc, names, scope, inst, tree)
}

/// The term that a tree is, by what may be named at its place.
///
/// The names of the tree that are new get their numbers, in the order in which they stand. They keep
/// them also where the tree is refused. A refusal is the first fault of the tree: rule 10 where it is of
/// no form, and else 11, 13, 15 or 16, each at its place. Besides, want of memory is answered.
pub fn read_term(
    alloc: Global,
    names: &mut Names,
    scope: &Scope,
    inst: &Instances,
    tree: &Tree,
) -> Result<Term, FormFault>
    requires formed { IsFormed scope.now inst.now }
    requires known { AreNumbered names.old scope.now inst.now }
    ensures sound { IfOk result (λ term. first_fault (context_of names.old scope.now inst.now []) Position.Term tree.now ≡ None) }
    ensures means { IfOk result (λ term. MeansTerm names.new scope.now inst.now tree.now term) }
    ensures err { IfErr result (λ e. IsFault (first_fault (context_of names.old scope.now inst.now []) Position.Term tree.now) e) }
    ensures grown { IfOk result (λ term. names.new ≡ numbered names.old (names_in tree.now Position.Term)) }
    ensures kept { Extends names.old names.new }
{
    number_names(alloc, names, Position::Term, tree)?;
    numbered_term(alloc, &*names, scope, inst, tree)
}

/// The formula that a tree is, by what may be named at its place.
///
/// The names of the tree that are new get their numbers, in the order in which they stand, and those that
/// its quantifiers bind are marked so. The numbers are kept also where the tree is refused. A refusal is
/// the first fault of the tree: rule 10 where it is of no form, and else 11, 13, 14, 15 or 16, each at its
/// place. Rule 14 comes only where the scope's kind isn't `Kind::Whole`. Besides, want of memory is answered.
pub fn read_formula(
    alloc: Global,
    names: &mut Names,
    scope: &Scope,
    inst: &Instances,
    tree: &Tree,
) -> Result<Formula, FormFault>
    requires formed { IsFormed scope.now inst.now }
    requires known { AreNumbered names.old scope.now inst.now }
    ensures sound { IfOk result (λ formula. first_fault (context_of names.old scope.now inst.now []) Position.Formula tree.now ≡ None) }
    ensures means { IfOk result (λ formula. Means (numbered names.old (names_in tree.now Position.Formula)) scope.now inst.now tree.now formula) }
    ensures err { IfErr result (λ e. IsFault (first_fault (context_of names.old scope.now inst.now []) Position.Formula tree.now) e) }
    ensures grown { IfOk result (λ formula. names.new ≡ all_marked (numbered names.old (names_in tree.now Position.Formula)) (bound_names formula)) }
    ensures kept { IfErr result (λ e. Extends names.old names.new) }
{
    number_names(alloc, names, Position::Formula, tree)?;
    match numbered_formula(alloc, &*names, scope, inst, tree) {
        Ok(formula) => {
            mark_bound(names, &formula);
            Ok(formula)
        }
        Err(fault) => Err(fault),
    }
}

/// Notes that quantifiers have bound the names that those of the formula bind.
#[tactic(auto, unfolding(dl_term::specs::Syntax::opened), using(crate::proofs::TableLemmas::marks))]
pub fn mark_bound(names: &mut Names, formula: &Formula)
    ensures { names.new ≡ all_marked names.old (bound_names formula.now) }
{
    match formula {
        Formula::True
        | Formula::False
        | Formula::Eq(_, _)
        | Formula::Lt(_, _)
        | Formula::Le(_, _) => {}
        Formula::Not(body) => mark_bound(names, body.get()),
        Formula::And(left, right) => {
            mark_bound(names, left.get());
            mark_bound(names, right.get());
        }
        Formula::Or(left, right) => {
            mark_bound(names, left.get());
            mark_bound(names, right.get());
        }
        Formula::Implies(left, right) => {
            mark_bound(names, left.get());
            mark_bound(names, right.get());
        }
        Formula::All { sym, body } | Formula::Exists { sym, body } => {
            names.mark(*sym, true);
            mark_bound(names, body.get());
        }
        Formula::Each { msg, body, .. } | Formula::Any { msg, body, .. } => {
            names.mark(*msg, true);
            mark_bound(names, body.get());
        }
    }
}
