//! The parts of a list that are no lists.

ghost use Rattle.std.specs.Prelude.{◌≡◌, None, true, false, OnOk, IfErr, IfOk};
ghost use Rattle.dl_forms.specs.declared.scope.Kind.TheVariants as kinds;
ghost use Rattle.dl_forms.specs.Judge.{at, fault};
ghost use Rattle.dl_forms.specs.Read.{IsFault};
ghost use Rattle.dl_notation.specs.Judge.{OfForms, OfNames};
ghost use Rattle.dl_notation.specs.Parts.{part_fault};
ghost use Rattle.dl_notation.specs.Rules.{formula_stage, term_rule, term_stage};
ghost use Rattle.dl_rules.specs.Sights.{in_context, context_in, context_of, script_labels};
ghost use Rattle.dl_names.specs.Steps.{Passes, is_symbol};
ghost use Rattle.dl_scope.specs.Walked.{environment};

use crate::behind::{pass_constant, pass_name};
use dl_forms::{FormFault, Kind, Position};
use dl_notation::{FormulaRole, NameRole, NumberRole, Role, TermRole, form_fault};
use dl_rules::{
    Bound, Labels, Sight, Variables, add_bound, constant_rule, fault, is_first_outside, name_rule,
    number_rule, rule_if,
};
use dl_scope::{Walk, text_of};
use dl_tree::{Place, Tree};
use std::alloc::{AllocError, Global};

/// The error of a rule at a place, where it is broken.
pub(crate) fn refuse(rule: Option<u8>, place: Place) -> Result<(), FormFault>
    ensures ok { OnOk result (rule ≡ None) }
    ensures err { IfErr result (λ e. IsFault (at rule place) e) }
{
    match rule {
        Some(rule) => Err(FormFault::At { rule, place }),
        None => Ok(()),
    }
}

/// The error of an atom of no form.
pub(crate) fn refuse_form(role: Role, tree: &Tree) -> Result<(), FormFault>
    ensures ok { OnOk result (part_fault (OfForms false) role tree.now ≡ None) }
    ensures err { IfErr result (λ e. IsFault (part_fault (OfForms false) role tree.now) e) }
{
    match form_fault(role, false, tree) {
        Some(place) => Err(FormFault::At { rule: 10, place }),
        None => Ok(()),
    }
}

/// Goes past a number, or answers its fault.
pub(crate) fn walk_number<'a>(
    walk: &mut Walk<'a>,
    number: NumberRole,
    tree: &'a Tree,
) -> Result<(), FormFault>
    ensures ok { OnOk result (Passes (environment walk.old) (Role.Number number) tree.now (environment walk.new)) }
    ensures err { IfErr result (λ e. IsFault (part_fault (OfNames (environment walk.old)) (Role.Number number) tree.now) e) }
{
    refuse_form(Role::Number(number), tree)?;
    refuse(number_rule(walk, number, tree), tree.place())
}

/// Goes past a name, or answers its fault.
pub(crate) fn walk_name<'a>(
    walk: &mut Walk<'a>,
    alloc: Global,
    name: NameRole,
    tree: &'a Tree,
) -> Result<(), FormFault>
    ensures ok { OnOk result (Passes (environment walk.old) (Role.Name name) tree.now (environment walk.new)) }
    ensures err { IfErr result (λ e. IsFault (part_fault (OfNames (environment walk.old)) (Role.Name name) tree.now) e) }
{
    refuse_form(Role::Name(name), tree)?;
    let text = text_of(tree);
    refuse(name_rule(walk, name, &text), tree.place())?;
    pass_name(walk, alloc, name, text)?;
    Ok(())
}

/// Goes past a constant, or answers its fault.
pub(crate) fn walk_constant<'a>(walk: &mut Walk<'a>, tree: &'a Tree) -> Result<(), FormFault>
    ensures ok { OnOk result (Passes (environment walk.old) Role.Constant tree.now (environment walk.new)) }
    ensures err { IfErr result (λ e. IsFault (part_fault (OfNames (environment walk.old)) Role.Constant tree.now) e) }
{
    refuse_form(Role::Constant, tree)?;
    refuse(constant_rule(walk, tree), tree.place())?;
    pass_constant(walk);
    Ok(())
}

/// What a formula of a role may name.
fn formula_sight<'x, 'a>(walk: &'x Walk<'a>, formula: FormulaRole) -> Sight<'x, 'a>
    ensures { in_context (context_of result) ≡ formula_stage (environment walk.now) formula }
{
    match formula {
        FormulaRole::Guard => sight(walk, Variables::Item, Labels::Own, Kind::Local),
        FormulaRole::Coherence => sight(walk, Variables::Nothing, Labels::Own, Kind::Whole),
        FormulaRole::Hook => sight(walk, Variables::Item, Labels::Hook, Kind::Local),
        FormulaRole::Invariant => sight(walk, Variables::Nothing, Labels::File, Kind::Whole),
        FormulaRole::Precondition => sight(walk, Variables::Item, Labels::File, Kind::Whole),
        FormulaRole::Postcondition => { sight(walk, Variables::Result, Labels::File, Kind::Whole) }
        FormulaRole::Annotation | FormulaRole::Frame => {
            sight(walk, Variables::Locals, Labels::File, Kind::Whole)
        }
        FormulaRole::Test => sight(walk, Variables::Locals, Labels::File, Kind::Plain),
        FormulaRole::Claim => script_sight(walk, Variables::Item),
    }
}

/// What may be named with these variables and labels.
fn sight<'x, 'a>(
    walk: &'x Walk<'a>,
    variables: Variables,
    labels: Labels,
    kind: Kind,
) -> Sight<'x, 'a>
    ensures { context_of result ≡ context_in (environment walk.now) variables labels false kind }
{
    Sight {
        walk,
        variables,
        labels,
        hides: false,
        kind,
    }
}

/// What a script may name.
fn script_sight<'x, 'a>(walk: &'x Walk<'a>, variables: Variables) -> Sight<'x, 'a>
    ensures { context_of result ≡ context_in (environment walk.now) variables (script_labels (environment walk.now)) true kinds.Whole }
{
    let labels = if walk.scope.has_own {
        Labels::Own
    } else {
        Labels::File
    };
    Sight {
        walk,
        variables,
        labels,
        hides: true,
        kind: Kind::Whole,
    }
}

/// Whether the tree is a symbol.
fn is_symbol(tree: &Tree) -> bool
    ensures { result ≡ is_symbol tree.now }
{
    match tree {
        Tree::Sym { .. } => true,
        Tree::Num { .. } => false,
        Tree::List { .. } => false,
    }
}

/// What a term of a role may name.
fn term_sight<'x, 'a>(walk: &'x Walk<'a>, term: TermRole, tree: &Tree) -> Sight<'x, 'a>
    ensures { in_context (context_of result) ≡ term_stage (environment walk.now) term tree.now }
{
    match term {
        TermRole::FirstValue => sight(walk, Variables::Me, Labels::Nothing, Kind::Plain),
        TermRole::Update => sight(walk, Variables::Item, Labels::Own, Kind::Local),
        TermRole::Expression => sight(walk, Variables::Locals, Labels::File, Kind::Plain),
        TermRole::Bounded => script_sight(walk, Variables::Item),
        TermRole::Given => {
            if is_symbol(tree) {
                script_sight(walk, Variables::Messages)
            } else {
                script_sight(walk, Variables::Item)
            }
        }
    }
}

/// Judges a formula or a term by what it may name.
fn judge_seen<'x, 'a>(
    sight: &Sight<'x, 'a>,
    position: Position,
    tree: &'a Tree,
) -> Result<(), FormFault>
    ensures ok { OnOk result (fault tree.now (in_context (context_of sight.now)) position ≡ None) }
    ensures err { IfErr result (λ e. IsFault (fault tree.now (in_context (context_of sight.now)) position) e) }
{
    match fault(tree, sight, &Bound::Nothing, None, position) {
        Some((rule, place)) => Err(FormFault::At { rule, place }),
        None => Ok(()),
    }
}

/// Goes past a formula, or answers its first fault.
pub(crate) fn walk_formula<'a>(
    walk: &mut Walk<'a>,
    formula: FormulaRole,
    tree: &'a Tree,
) -> Result<(), FormFault>
    ensures ok { OnOk result (Passes (environment walk.old) (Role.Formula formula) tree.now (environment walk.new)) }
    ensures err { IfErr result (λ e. IsFault (part_fault (OfNames (environment walk.old)) (Role.Formula formula) tree.now) e) }
{
    judge_formula(walk, formula, tree)?;
    add_bound(&mut walk.quantified, Position::Formula, tree)?;
    Ok(())
}

/// The fault of a formula where it stands.
fn judge_formula<'a>(walk: &Walk<'a>, formula: FormulaRole, tree: &'a Tree) -> Result<(), FormFault>
    ensures ok { OnOk result (fault tree.now (formula_stage (environment walk.now) formula) Position.Formula ≡ None) }
    ensures err { IfErr result (λ e. IsFault (fault tree.now (formula_stage (environment walk.now) formula) Position.Formula) e) }
{
    let sight = formula_sight(walk, formula);
    judge_seen(&sight, Position::Formula, tree)
}

/// The rule that a term breaks that has no fault within it. Its error is a value that doesn't fit.
fn term_rule<'a>(walk: &Walk<'a>, term: TermRole, tree: &'a Tree) -> Result<Option<u8>, AllocError>
    ensures { IfOk result (λ rule. rule ≡ term_rule (environment walk.now) term tree.now) }
{
    match term {
        TermRole::FirstValue => Ok(rule_if(14, is_first_outside(walk, tree)?)),
        TermRole::Update | TermRole::Expression | TermRole::Bounded | TermRole::Given => Ok(None),
    }
}

/// The fault of a term where it stands.
fn judge_term<'a>(walk: &Walk<'a>, term: TermRole, tree: &'a Tree) -> Result<(), FormFault>
    ensures ok { OnOk result (fault tree.now (term_stage (environment walk.now) term tree.now) Position.Term ≡ None) }
    ensures err { IfErr result (λ e. IsFault (fault tree.now (term_stage (environment walk.now) term tree.now) Position.Term) e) }
{
    let sight = term_sight(walk, term, tree);
    judge_seen(&sight, Position::Term, tree)
}

/// Goes past a term, or answers its first fault.
pub(crate) fn walk_term<'a>(
    walk: &mut Walk<'a>,
    term: TermRole,
    tree: &'a Tree,
) -> Result<(), FormFault>
    ensures ok { OnOk result (Passes (environment walk.old) (Role.Term term) tree.now (environment walk.new)) }
    ensures err { IfErr result (λ e. IsFault (part_fault (OfNames (environment walk.old)) (Role.Term term) tree.now) e) }
{
    judge_term(walk, term, tree)?;
    let rule = term_rule(walk, term, tree)?;
    refuse(rule, tree.place())
}
