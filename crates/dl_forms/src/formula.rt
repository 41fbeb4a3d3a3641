//! The reader of formulas.

ghost use Rattle.std.specs.Prelude.{◌≡◌, IfOk, IfErr, IfSome, IfNone, None, Some, ◌∷◌, [], false};
ghost use Rattle.dl_forms.specs.Context.{is_among};
ghost use Rattle.dl_forms.specs.Judge.{fault, is_plain, is_limited};
ghost use Rattle.dl_forms.specs.Scope.{bindings, taken, text_at};
ghost use Rattle.dl_forms.specs.Read.{IsFormed, IsFault, ReadsPair, ReadsFormula, ReadsFormulaForm, ReadsFormulas, BindsVariable, BindsMessage, ReadsQuantified, ReadsOverMessages, quantified_fault, messages_fault, names_stage, pair_fault, formulas_fault, list_formula_fault};

use crate::around::{Around, label, tag};
use crate::fault::FormFault;
use crate::form::{is_formula_form, is_name};
use crate::head::{Head, head_of};
use crate::kind::breaks_kind;
use crate::names::is;
use crate::position::Position;
use crate::read::term;
use crate::scope::Bound;
use crate::taken::is_taken;
use dl_term::{Formula, Lab, Term};
use dl_tree::{Place, Tree};
use sqlite_items::Boxed;
use std::alloc::Global;

/// Two terms that are compared.
#[tactic(auto, using(crate::proofs::TermLemmas::terms))]
fn compared(
    alloc: Global,
    around: &Around,
    bound: &Bound,
    parts: &[Tree],
    place: Place,
) -> Result<(Term, Term), FormFault>
    requires { IsFormed around.now.scope.now around.now.inst.now }
    ensures ok { IfOk result (λ pair. ReadsPair around.now.names.now around.now.scope.now around.now.inst.now (bindings bound.now) parts.now pair.0 pair.1) }
    ensures err { IfErr result (λ e. IsFault (pair_fault around.now.names.now around.now.scope.now around.now.inst.now (bindings bound.now) place parts.now) e) }
{
    match parts {
        [left, right] => {
            let left = term(alloc, around, bound, left)?;
            let right = term(alloc, around, bound, right)?;
            Ok((left, right))
        }
        _ => Err(FormFault::At { rule: 10, place }),
    }
}

/// A formula.
#[cycle(formula)]
#[tactic(auto, using(crate::proofs::FormulaLemmas::formulas))]
pub(crate) fn formula(
    alloc: Global,
    around: &Around,
    bound: &Bound,
    tree: &Tree,
) -> Result<Formula, FormFault>
    requires { IsFormed around.now.scope.now around.now.inst.now }
    ensures ok { IfOk result (λ formula. ReadsFormula around.now.names.now around.now.scope.now around.now.inst.now (bindings bound.now) tree.now formula) }
    ensures err { IfErr result (λ e. IsFault (fault tree.now (names_stage around.now.names.now around.now.scope.now around.now.inst.now (bindings bound.now)) Position.Formula) e) }
{
    match tree {
        Tree::Num { place, .. } => Err(FormFault::At {
            rule: 10,
            place: *place,
        }),
        Tree::Sym { name, place } => {
            if is(name, b"true") {
                Ok(Formula::True)
            } else if is(name, b"false") {
                Ok(Formula::False)
            } else {
                Err(FormFault::At {
                    rule: 10,
                    place: *place,
                })
            }
        }
        Tree::List { items, place } => match items.as_slice().split_first() {
            None => Err(FormFault::At {
                rule: 10,
                place: *place,
            }),
            Some((first, parts)) => list_formula(
                alloc,
                around,
                bound,
                head_of(first),
                parts,
                *place,
            ),
        },
    }
}

#[cycle(formula)]
#[tactic(auto, using(crate::proofs::FormulaLemmas::formulas))]
fn boxed(
    alloc: Global,
    around: &Around,
    bound: &Bound,
    tree: &Tree,
) -> Result<Boxed<Formula>, FormFault>
    requires { IsFormed around.now.scope.now around.now.inst.now }
    ensures ok { IfOk result (λ formula. ReadsFormula around.now.names.now around.now.scope.now around.now.inst.now (bindings bound.now) tree.now formula) }
    ensures err { IfErr result (λ e. IsFault (fault tree.now (names_stage around.now.names.now around.now.scope.now around.now.inst.now (bindings bound.now)) Position.Formula) e) }
{
    let formula = formula(alloc, around, bound, tree)?;
    Ok(Boxed::new(alloc, formula)?)
}

/// Two formulas.
#[cycle(formula)]
#[tactic(auto, using(crate::proofs::FormulaLemmas::formulas))]
fn both(
    alloc: Global,
    around: &Around,
    bound: &Bound,
    parts: &[Tree],
    place: Place,
) -> Result<(Boxed<Formula>, Boxed<Formula>), FormFault>
    requires { IsFormed around.now.scope.now around.now.inst.now }
    ensures ok { IfOk result (λ pair. ReadsFormulas around.now.names.now around.now.scope.now around.now.inst.now (bindings bound.now) parts.now pair.0 pair.1) }
    ensures err { IfErr result (λ e. IsFault (formulas_fault around.now.names.now around.now.scope.now around.now.inst.now (bindings bound.now) place parts.now) e) }
{
    match parts {
        [left, right] => {
            let left = boxed(alloc, around, bound, left)?;
            let right = boxed(alloc, around, bound, right)?;
            Ok((left, right))
        }
        _ => Err(FormFault::At { rule: 10, place }),
    }
}

/// The number of the name that a quantifier binds, to a variable or a message.
#[tactic(auto, using(crate::proofs::FormulaLemmas::binders))]
fn new_name(around: &Around, bound: &Bound, tree: &Tree) -> Result<u32, FormFault>
    ensures variable { IfOk result (λ sym. BindsVariable around.now.names.now around.now.scope.now around.now.inst.now (bindings bound.now) tree.now sym) }
    ensures message { IfOk result (λ sym. BindsMessage around.now.names.now around.now.scope.now around.now.inst.now (bindings bound.now) tree.now sym) }
    ensures no_variable { IfErr result (λ e. IsFault (fault tree.now (names_stage around.now.names.now around.now.scope.now around.now.inst.now (bindings bound.now)) Position.NewVariable) e) }
    ensures no_message { IfErr result (λ e. IsFault (fault tree.now (names_stage around.now.names.now around.now.scope.now around.now.inst.now (bindings bound.now)) Position.NewMessage) e) }
{
    match tree {
        Tree::Sym { name, place } => {
            if !is_name(name) {
                return Err(FormFault::At {
                    rule: 10,
                    place: *place,
                });
            }
            if is_taken(around, bound, name) {
                return Err(FormFault::At {
                    rule: 13,
                    place: *place,
                });
            }
            match around.names.known(name) {
                Some(sym) => Ok(sym),
                None => Err(FormFault::Memory),
            }
        }
        Tree::Num { place, .. } => Err(FormFault::At {
            rule: 10,
            place: *place,
        }),
        Tree::List { place, .. } => Err(FormFault::At {
            rule: 10,
            place: *place,
        }),
    }
}

/// A variable and the formula that it is bound in.
#[cycle(formula)]
#[tactic(auto, using(crate::proofs::FormulaLemmas::quantified))]
fn quantified(
    alloc: Global,
    around: &Around,
    bound: &Bound,
    parts: &[Tree],
    place: Place,
) -> Result<(u32, Boxed<Formula>), FormFault>
    requires { IsFormed around.now.scope.now around.now.inst.now }
    ensures ok { IfOk result (λ q. ReadsQuantified around.now.names.now around.now.scope.now around.now.inst.now (bindings bound.now) parts.now q.0 q.1) }
    ensures err { IfErr result (λ e. IsFault (quantified_fault around.now.names.now around.now.scope.now around.now.inst.now (bindings bound.now) place parts.now) e) }
{
    match parts {
        [name, body] => {
            let sym = new_name(around, bound, name)?;
            let body = boxed(alloc, around, &Bound::Variable(&*bound, sym), body)?;
            Ok((sym, body))
        }
        _ => Err(FormFault::At { rule: 10, place }),
    }
}

/// The parts of a comparison.
#[tactic(auto, using(crate::proofs::FormulaLemmas::lists))]
fn equal(
    alloc: Global,
    around: &Around,
    bound: &Bound,
    parts: &[Tree],
    place: Place,
) -> Result<Formula, FormFault>
    requires { IsFormed around.now.scope.now around.now.inst.now }
    ensures ok { IfOk result (λ formula. ReadsFormulaForm around.now.names.now around.now.scope.now around.now.inst.now (bindings bound.now) place Head.Eq parts.now formula) }
    ensures err { IfErr result (λ e. IsFault (list_formula_fault around.now.names.now around.now.scope.now around.now.inst.now (bindings bound.now) place Head.Eq parts.now) e) }
{
    let (left, right) = compared(alloc, around, bound, parts, place)?;
    Ok(Formula::Eq(left, right))
}

/// The parts of a comparison.
#[tactic(auto, using(crate::proofs::FormulaLemmas::lists))]
fn less(
    alloc: Global,
    around: &Around,
    bound: &Bound,
    parts: &[Tree],
    place: Place,
) -> Result<Formula, FormFault>
    requires { IsFormed around.now.scope.now around.now.inst.now }
    ensures ok { IfOk result (λ formula. ReadsFormulaForm around.now.names.now around.now.scope.now around.now.inst.now (bindings bound.now) place Head.Lt parts.now formula) }
    ensures err { IfErr result (λ e. IsFault (list_formula_fault around.now.names.now around.now.scope.now around.now.inst.now (bindings bound.now) place Head.Lt parts.now) e) }
{
    let (left, right) = compared(alloc, around, bound, parts, place)?;
    Ok(Formula::Lt(left, right))
}

/// The parts of a comparison.
#[tactic(auto, using(crate::proofs::FormulaLemmas::lists))]
fn at_most(
    alloc: Global,
    around: &Around,
    bound: &Bound,
    parts: &[Tree],
    place: Place,
) -> Result<Formula, FormFault>
    requires { IsFormed around.now.scope.now around.now.inst.now }
    ensures ok { IfOk result (λ formula. ReadsFormulaForm around.now.names.now around.now.scope.now around.now.inst.now (bindings bound.now) place Head.Le parts.now formula) }
    ensures err { IfErr result (λ e. IsFault (list_formula_fault around.now.names.now around.now.scope.now around.now.inst.now (bindings bound.now) place Head.Le parts.now) e) }
{
    let (left, right) = compared(alloc, around, bound, parts, place)?;
    Ok(Formula::Le(left, right))
}

/// The parts of a conjunction.
#[cycle(formula)]
#[tactic(auto, using(crate::proofs::FormulaLemmas::lists))]
fn conjunction(
    alloc: Global,
    around: &Around,
    bound: &Bound,
    parts: &[Tree],
    place: Place,
) -> Result<Formula, FormFault>
    requires { IsFormed around.now.scope.now around.now.inst.now }
    ensures ok { IfOk result (λ formula. ReadsFormulaForm around.now.names.now around.now.scope.now around.now.inst.now (bindings bound.now) place Head.And parts.now formula) }
    ensures err { IfErr result (λ e. IsFault (list_formula_fault around.now.names.now around.now.scope.now around.now.inst.now (bindings bound.now) place Head.And parts.now) e) }
{
    let (left, right) = both(alloc, around, bound, parts, place)?;
    Ok(Formula::And(left, right))
}

/// The parts of a disjunction.
#[cycle(formula)]
#[tactic(auto, using(crate::proofs::FormulaLemmas::lists))]
fn disjunction(
    alloc: Global,
    around: &Around,
    bound: &Bound,
    parts: &[Tree],
    place: Place,
) -> Result<Formula, FormFault>
    requires { IsFormed around.now.scope.now around.now.inst.now }
    ensures ok { IfOk result (λ formula. ReadsFormulaForm around.now.names.now around.now.scope.now around.now.inst.now (bindings bound.now) place Head.Or parts.now formula) }
    ensures err { IfErr result (λ e. IsFault (list_formula_fault around.now.names.now around.now.scope.now around.now.inst.now (bindings bound.now) place Head.Or parts.now) e) }
{
    let (left, right) = both(alloc, around, bound, parts, place)?;
    Ok(Formula::Or(left, right))
}

/// The parts of an implication.
#[cycle(formula)]
#[tactic(auto, using(crate::proofs::FormulaLemmas::lists))]
fn implication(
    alloc: Global,
    around: &Around,
    bound: &Bound,
    parts: &[Tree],
    place: Place,
) -> Result<Formula, FormFault>
    requires { IsFormed around.now.scope.now around.now.inst.now }
    ensures ok { IfOk result (λ formula. ReadsFormulaForm around.now.names.now around.now.scope.now around.now.inst.now (bindings bound.now) place Head.Implies parts.now formula) }
    ensures err { IfErr result (λ e. IsFault (list_formula_fault around.now.names.now around.now.scope.now around.now.inst.now (bindings bound.now) place Head.Implies parts.now) e) }
{
    let (left, right) = both(alloc, around, bound, parts, place)?;
    Ok(Formula::Implies(left, right))
}

/// The parts of a quantifier over nodes.
#[cycle(formula)]
#[tactic(auto, using(crate::proofs::FormulaLemmas::lists))]
fn universal(
    alloc: Global,
    around: &Around,
    bound: &Bound,
    parts: &[Tree],
    place: Place,
) -> Result<Formula, FormFault>
    requires formed { IsFormed around.now.scope.now around.now.inst.now }
    requires allowed { is_plain around.now.scope.now.kind ≡ false }
    ensures ok { IfOk result (λ formula. ReadsFormulaForm around.now.names.now around.now.scope.now around.now.inst.now (bindings bound.now) place Head.All parts.now formula) }
    ensures err { IfErr result (λ e. IsFault (list_formula_fault around.now.names.now around.now.scope.now around.now.inst.now (bindings bound.now) place Head.All parts.now) e) }
{
    let (sym, body) = quantified(alloc, around, bound, parts, place)?;
    Ok(Formula::All { sym, body })
}

/// The parts of a quantifier over nodes.
#[cycle(formula)]
#[tactic(auto, using(crate::proofs::FormulaLemmas::lists))]
fn existential(
    alloc: Global,
    around: &Around,
    bound: &Bound,
    parts: &[Tree],
    place: Place,
) -> Result<Formula, FormFault>
    requires formed { IsFormed around.now.scope.now around.now.inst.now }
    requires allowed { is_plain around.now.scope.now.kind ≡ false }
    ensures ok { IfOk result (λ formula. ReadsFormulaForm around.now.names.now around.now.scope.now around.now.inst.now (bindings bound.now) place Head.Some parts.now formula) }
    ensures err { IfErr result (λ e. IsFault (list_formula_fault around.now.names.now around.now.scope.now around.now.inst.now (bindings bound.now) place Head.Some parts.now) e) }
{
    let (sym, body) = quantified(alloc, around, bound, parts, place)?;
    Ok(Formula::Exists { sym, body })
}

/// The parts of a negation.
#[cycle(formula)]
#[tactic(auto, using(crate::proofs::FormulaLemmas::lists))]
fn negation(
    alloc: Global,
    around: &Around,
    bound: &Bound,
    parts: &[Tree],
    place: Place,
) -> Result<Formula, FormFault>
    requires { IsFormed around.now.scope.now around.now.inst.now }
    ensures ok { IfOk result (λ formula. ReadsFormulaForm around.now.names.now around.now.scope.now around.now.inst.now (bindings bound.now) place Head.Not parts.now formula) }
    ensures err { IfErr result (λ e. IsFault (list_formula_fault around.now.names.now around.now.scope.now around.now.inst.now (bindings bound.now) place Head.Not parts.now) e) }
{
    match parts {
        [body] => {
            let body = boxed(alloc, around, bound, body)?;
            Ok(Formula::Not(body))
        }
        _ => Err(FormFault::At { rule: 10, place }),
    }
}

/// A message of a label's tag and the formula that it is bound in, by their four parts.
#[cycle(formula)]
#[tactic(auto, using(crate::proofs::MessageLemmas::messages))]
fn over_messages(
    alloc: Global,
    around: &Around,
    bound: &Bound,
    body: &Tree,
    name: &Tree,
    label_name: &Tree,
    tag_name: &Tree,
    place: Place,
) -> Result<(u32, Lab, u8, Boxed<Formula>), FormFault>
    requires { IsFormed around.now.scope.now around.now.inst.now }
    ensures ok { IfOk result (λ q. ReadsOverMessages around.now.names.now around.now.scope.now around.now.inst.now (bindings bound.now) (name.now ∷ label_name.now ∷ tag_name.now ∷ body.now ∷ []) q.0 q.1 q.2 q.3) }
    ensures err { IfErr result (λ e. IsFault (messages_fault around.now.names.now around.now.scope.now around.now.inst.now (bindings bound.now) place (name.now ∷ label_name.now ∷ tag_name.now ∷ body.now ∷ [])) e) }
{
    let msg = new_name(around, bound, name)?;
    let inner = Bound::Message(&*bound, msg);
    let lab = label(around, &inner, label_name)?;
    let t = tag(around, &inner, lab, tag_name)?;
    let body = boxed(alloc, around, &inner, body)?;
    Ok((msg, lab, t, body))
}

/// A message of a label's tag and the formula that it is bound in.
#[cycle(formula)]
#[tactic(auto, using(crate::proofs::FormulaLemmas::quantified))]
fn bound_message(
    alloc: Global,
    around: &Around,
    bound: &Bound,
    parts: &[Tree],
    place: Place,
) -> Result<(u32, Lab, u8, Boxed<Formula>), FormFault>
    requires { IsFormed around.now.scope.now around.now.inst.now }
    ensures ok { IfOk result (λ q. ReadsOverMessages around.now.names.now around.now.scope.now around.now.inst.now (bindings bound.now) parts.now q.0 q.1 q.2 q.3) }
    ensures err { IfErr result (λ e. IsFault (messages_fault around.now.names.now around.now.scope.now around.now.inst.now (bindings bound.now) place parts.now) e) }
{
    match parts {
        [name, label_name, tag_name, body] => {
            over_messages(
                alloc, around, bound, body, name, label_name, tag_name, place,
            )
        }
        _ => Err(FormFault::At { rule: 10, place }),
    }
}

/// The parts of a quantifier over messages.
#[cycle(formula)]
#[tactic(auto, using(crate::proofs::MessageLemmas::each))]
fn for_each(
    alloc: Global,
    around: &Around,
    bound: &Bound,
    parts: &[Tree],
    place: Place,
) -> Result<Formula, FormFault>
    requires formed { IsFormed around.now.scope.now around.now.inst.now }
    requires allowed { is_limited around.now.scope.now.kind ≡ false }
    ensures ok { IfOk result (λ formula. ReadsFormulaForm around.now.names.now around.now.scope.now around.now.inst.now (bindings bound.now) place Head.Each parts.now formula) }
    ensures err { IfErr result (λ e. IsFault (list_formula_fault around.now.names.now around.now.scope.now around.now.inst.now (bindings bound.now) place Head.Each parts.now) e) }
{
    let (msg, lab, t, body) = bound_message(alloc, around, bound, parts, place)?;
    Ok(Formula::Each {
        msg,
        label: lab,
        tag: t,
        body,
    })
}

/// The parts of a quantifier over messages.
#[cycle(formula)]
#[tactic(auto, using(crate::proofs::MessageLemmas::each))]
fn for_any(
    alloc: Global,
    around: &Around,
    bound: &Bound,
    parts: &[Tree],
    place: Place,
) -> Result<Formula, FormFault>
    requires formed { IsFormed around.now.scope.now around.now.inst.now }
    requires allowed { is_limited around.now.scope.now.kind ≡ false }
    ensures ok { IfOk result (λ formula. ReadsFormulaForm around.now.names.now around.now.scope.now around.now.inst.now (bindings bound.now) place Head.Any parts.now formula) }
    ensures err { IfErr result (λ e. IsFault (list_formula_fault around.now.names.now around.now.scope.now around.now.inst.now (bindings bound.now) place Head.Any parts.now) e) }
{
    let (msg, lab, t, body) = bound_message(alloc, around, bound, parts, place)?;
    Ok(Formula::Any {
        msg,
        label: lab,
        tag: t,
        body,
    })
}

/// What stands behind the head of a formula.
#[cycle(formula)]
#[tactic(auto, using(crate::proofs::FormulaLemmas::dispatch))]
fn list_formula(
    alloc: Global,
    around: &Around,
    bound: &Bound,
    head: Head,
    parts: &[Tree],
    place: Place,
) -> Result<Formula, FormFault>
    requires { IsFormed around.now.scope.now around.now.inst.now }
    ensures ok { IfOk result (λ formula. ReadsFormulaForm around.now.names.now around.now.scope.now around.now.inst.now (bindings bound.now) place head parts.now formula) }
    ensures err { IfErr result (λ e. IsFault (list_formula_fault around.now.names.now around.now.scope.now around.now.inst.now (bindings bound.now) place head parts.now) e) }
{
    if !is_formula_form(head, parts.len()) {
        return Err(FormFault::At { rule: 10, place });
    }
    if breaks_kind(around.scope.kind, head, parts) {
        return Err(FormFault::At { rule: 14, place });
    }
    match head {
        Head::Eq => equal(alloc, around, bound, parts, place),
        Head::Lt => less(alloc, around, bound, parts, place),
        Head::Le => at_most(alloc, around, bound, parts, place),
        Head::And => conjunction(alloc, around, bound, parts, place),
        Head::Or => disjunction(alloc, around, bound, parts, place),
        Head::Implies => implication(alloc, around, bound, parts, place),
        Head::All => universal(alloc, around, bound, parts, place),
        Head::Some => existential(alloc, around, bound, parts, place),
        Head::Not => negation(alloc, around, bound, parts, place),
        Head::Each => for_each(alloc, around, bound, parts, place),
        Head::Any => for_any(alloc, around, bound, parts, place),
        Head::Get
        | Head::Len
        | Head::Id
        | Head::From
        | Head::To
        | Head::Live
        | Head::Arg
        | Head::Add
        | Head::Sub
        | Head::Mul
        | Head::If
        | Head::Other => Err(FormFault::At { rule: 10, place }),
    }
}
