//! The reader of terms.

ghost use Rattle.std.specs.Prelude.{◌≡◌, IfOk, IfErr, None, Some, ◌∷◌, [], false};
ghost use Rattle.dl_forms.specs.Word.{head_of_part};
ghost use Rattle.dl_forms.specs.Notation.{term_forms};
ghost use Rattle.dl_forms.specs.Judge.{fault, at, symbol_rule, is_plain, is_limited, breaks_at, breaks_read};
ghost use Rattle.dl_forms.specs.Read.{IsFault, IsFormed, ReadsTerm, ReadsLabel, ReadsArgument, ReadsForm, ReadsPair, names_stage, list_fault, pair_fault};
ghost use Rattle.dl_forms.specs.Show.{bare};
ghost use Rattle.dl_forms.specs.Scope.{bindings, first_named, variables, words_of};
ghost use Rattle.dl_forms.specs.Width.{is_wide};
ghost use Rattle.dl_tree.specs.declared.tree.Tree.{Tree};
ghost use Rattle.dl_tree.specs.declared.tree.Tree.TheVariants as tree;

use crate::around::{Around, field, is_flat, is_row, label, message, variable};
use crate::fault::FormFault;
use crate::form::{is_name, is_term_form};
use crate::head::{Head, head_of};
use crate::kind::breaks_kind;
use crate::names::word_in;
use crate::position::Position;
use crate::scope::{Bound, Scope};
use crate::table::Names;
use crate::width::is_wide;
use dl_model::Instances;
use dl_term::{Lab, Part, Term};
use dl_tree::{Name, Place, Tree};
use sqlite_items::Boxed;
use std::alloc::Global;

/// A name that stands for a number: a variable, a node or an enumerator.
#[tactic(auto, using(crate::proofs::NameLemmas::names))]
fn named(around: &Around, bound: &Bound, name: &Name, place: Place) -> Result<Term, FormFault>
    ensures ok { IfOk result (λ term. ReadsTerm around.now.names.now around.now.scope.now around.now.inst.now (bindings bound.now) (tree.Sym name.now place) term) }
    ensures err { IfErr result (λ e. IsFault (fault (tree.Sym name.now place) (names_stage around.now.names.now around.now.scope.now around.now.inst.now (bindings bound.now)) Position.Term) e) }
{
    if !is_name(name) {
        return Err(FormFault::At { rule: 10, place });
    }
    if let Some(sym) = variable(around, bound, name) {
        return Ok(Term::Var(sym));
    }
    match word_in(around.names, around.scope.words.as_slice(), name) {
        Some(word) => Ok(word),
        None => Err(FormFault::At { rule: 11, place }),
    }
}

/// A term.
#[cycle(term)]
#[tactic(auto, using(crate::proofs::TermLemmas::terms))]
pub(crate) fn term(
    alloc: Global,
    around: &Around,
    bound: &Bound,
    tree: &Tree,
) -> Result<Term, FormFault>
    requires { IsFormed around.now.scope.now around.now.inst.now }
    ensures ok { IfOk result (λ term. ReadsTerm around.now.names.now around.now.scope.now around.now.inst.now (bindings bound.now) tree.now term) }
    ensures err { IfErr result (λ e. IsFault (fault tree.now (names_stage around.now.names.now around.now.scope.now around.now.inst.now (bindings bound.now)) Position.Term) e) }
{
    match tree {
        Tree::Num { value, .. } => Ok(Term::Num(*value)),
        Tree::Sym { name, place } => named(around, bound, name, *place),
        Tree::List { items, place } => match items.as_slice().split_first() {
            None => Err(FormFault::At {
                rule: 10,
                place: *place,
            }),
            Some((first, parts)) => list_term(alloc, around, bound, head_of(first), parts, *place),
        },
    }
}

/// Two terms.
#[cycle(term)]
#[tactic(auto, using(crate::proofs::TermLemmas::terms))]
fn pair(
    alloc: Global,
    around: &Around,
    bound: &Bound,
    parts: &[Tree],
    place: Place,
) -> Result<(Boxed<Term>, Boxed<Term>), FormFault>
    requires { IsFormed around.now.scope.now around.now.inst.now }
    ensures ok { IfOk result (λ pair. ReadsPair around.now.names.now around.now.scope.now around.now.inst.now (bindings bound.now) parts.now pair.0 pair.1) }
    ensures err { IfErr result (λ e. IsFault (pair_fault around.now.names.now around.now.scope.now around.now.inst.now (bindings bound.now) place parts.now) e) }
{
    match parts {
        [left, right] => {
            let left = term(alloc, around, bound, left)?;
            let right = term(alloc, around, bound, right)?;
            Ok((Boxed::new(alloc, left)?, Boxed::new(alloc, right)?))
        }
        _ => Err(FormFault::At { rule: 10, place }),
    }
}

/// The parts of a sum.
#[cycle(term)]
#[tactic(auto, using(crate::proofs::TermLemmas::lists))]
fn sum(
    alloc: Global,
    around: &Around,
    bound: &Bound,
    parts: &[Tree],
    place: Place,
) -> Result<Term, FormFault>
    requires formed { IsFormed around.now.scope.now around.now.inst.now }
    requires narrow { is_wide (words_of around.now.names.now around.now.scope.now) Position.Term Head.Add parts.now ≡ false }
    ensures ok { IfOk result (λ term. ReadsForm around.now.names.now around.now.scope.now around.now.inst.now (bindings bound.now) place Head.Add parts.now term) }
    ensures err { IfErr result (λ e. IsFault (list_fault around.now.names.now around.now.scope.now around.now.inst.now (bindings bound.now) place Head.Add parts.now) e) }
{
    let (left, right) = pair(alloc, around, bound, parts, place)?;
    Ok(Term::Add(left, right))
}

/// The parts of a difference.
#[cycle(term)]
#[tactic(auto, using(crate::proofs::TermLemmas::lists))]
fn difference(
    alloc: Global,
    around: &Around,
    bound: &Bound,
    parts: &[Tree],
    place: Place,
) -> Result<Term, FormFault>
    requires formed { IsFormed around.now.scope.now around.now.inst.now }
    requires narrow { is_wide (words_of around.now.names.now around.now.scope.now) Position.Term Head.Sub parts.now ≡ false }
    ensures ok { IfOk result (λ term. ReadsForm around.now.names.now around.now.scope.now around.now.inst.now (bindings bound.now) place Head.Sub parts.now term) }
    ensures err { IfErr result (λ e. IsFault (list_fault around.now.names.now around.now.scope.now around.now.inst.now (bindings bound.now) place Head.Sub parts.now) e) }
{
    let (left, right) = pair(alloc, around, bound, parts, place)?;
    Ok(Term::Sub(left, right))
}

/// The parts of a product.
#[cycle(term)]
#[tactic(auto, using(crate::proofs::TermLemmas::lists))]
fn product(
    alloc: Global,
    around: &Around,
    bound: &Bound,
    parts: &[Tree],
    place: Place,
) -> Result<Term, FormFault>
    requires formed { IsFormed around.now.scope.now around.now.inst.now }
    requires narrow { is_wide (words_of around.now.names.now around.now.scope.now) Position.Term Head.Mul parts.now ≡ false }
    ensures ok { IfOk result (λ term. ReadsForm around.now.names.now around.now.scope.now around.now.inst.now (bindings bound.now) place Head.Mul parts.now term) }
    ensures err { IfErr result (λ e. IsFault (list_fault around.now.names.now around.now.scope.now around.now.inst.now (bindings bound.now) place Head.Mul parts.now) e) }
{
    let (left, right) = pair(alloc, around, bound, parts, place)?;
    Ok(Term::Mul(left, right))
}

/// The parts of a choice.
#[cycle(term)]
#[tactic(auto, using(crate::proofs::TermLemmas::lists))]
fn choice(
    alloc: Global,
    around: &Around,
    bound: &Bound,
    parts: &[Tree],
    place: Place,
) -> Result<Term, FormFault>
    requires formed { IsFormed around.now.scope.now around.now.inst.now }
    requires narrow { is_wide (words_of around.now.names.now around.now.scope.now) Position.Term Head.If parts.now ≡ false }
    ensures ok { IfOk result (λ term. ReadsForm around.now.names.now around.now.scope.now around.now.inst.now (bindings bound.now) place Head.If parts.now term) }
    ensures err { IfErr result (λ e. IsFault (list_fault around.now.names.now around.now.scope.now around.now.inst.now (bindings bound.now) place Head.If parts.now) e) }
{
    match parts {
        [left, right, yes, no] => {
            let left = term(alloc, around, bound, left)?;
            let right = term(alloc, around, bound, right)?;
            let yes = term(alloc, around, bound, yes)?;
            let no = term(alloc, around, bound, no)?;
            let left = Boxed::new(alloc, left)?;
            let right = Boxed::new(alloc, right)?;
            let yes = Boxed::new(alloc, yes)?;
            let no = Boxed::new(alloc, no)?;
            Ok(Term::If(left, right, yes, no))
        }
        _ => Err(FormFault::At { rule: 10, place }),
    }
}

/// The parts of the length of a soup.
#[tactic(auto, using(crate::proofs::PartLemmas::parts))]
fn length(around: &Around, bound: &Bound, parts: &[Tree], place: Place) -> Result<Term, FormFault>
    requires formed { IsFormed around.now.scope.now around.now.inst.now }
    requires allowed { is_limited around.now.scope.now.kind ≡ false }
    ensures ok { IfOk result (λ term. ReadsForm around.now.names.now around.now.scope.now around.now.inst.now (bindings bound.now) place Head.Len parts.now term) }
    ensures err { IfErr result (λ e. IsFault (list_fault around.now.names.now around.now.scope.now around.now.inst.now (bindings bound.now) place Head.Len parts.now) e) }
{
    match parts {
        [name] => {
            let lab = label(around, bound, name)?;
            Ok(Term::Len(lab))
        }
        _ => Err(FormFault::At { rule: 10, place }),
    }
}

/// What stands behind the head of a part of a message that has no number.
#[tactic(auto, using(crate::proofs::PartLemmas::parts))]
fn message_part(
    around: &Around,
    bound: &Bound,
    part: Part,
    parts: &[Tree],
    place: Place,
) -> Result<Term, FormFault>
    requires forms { term_forms (head_of_part part) ≡ (Position.Message ∷ []) ∷ [] }
    requires allowed { is_plain around.now.scope.now.kind ≡ false }
    ensures ok { IfOk result (λ term. ReadsForm around.now.names.now around.now.scope.now around.now.inst.now (bindings bound.now) place (head_of_part part) parts.now term) }
    ensures err { IfErr result (λ e. IsFault (list_fault around.now.names.now around.now.scope.now around.now.inst.now (bindings bound.now) place (head_of_part part) parts.now) e) }
{
    match parts {
        [name] => {
            let msg = message(around, bound, name)?;
            Ok(Term::Msg { msg, part })
        }
        _ => Err(FormFault::At { rule: 10, place }),
    }
}

/// The number of an argument.
#[tactic(auto, using(crate::proofs::PartLemmas::arguments))]
fn argument(around: &Around, bound: &Bound, tree: &Tree) -> Result<u8, FormFault>
    ensures ok { IfOk result (λ k. ReadsArgument around.now.names.now around.now.scope.now around.now.inst.now (bindings bound.now) tree.now k) }
    ensures err { IfErr result (λ e. IsFault (fault tree.now (names_stage around.now.names.now around.now.scope.now around.now.inst.now (bindings bound.now)) Position.Argument) e) }
{
    match tree {
        Tree::Num { value, place } => {
            if 0 <= *value && *value <= 7 {
                Ok(*value as u8)
            } else {
                Err(FormFault::At {
                    rule: 10,
                    place: *place,
                })
            }
        }
        Tree::Sym { place, .. } => Err(FormFault::At {
            rule: 10,
            place: *place,
        }),
        Tree::List { place, .. } => Err(FormFault::At {
            rule: 10,
            place: *place,
        }),
    }
}

/// The parts of an argument of a message.
#[tactic(auto, using(crate::proofs::PartLemmas::parts))]
fn message_argument(
    around: &Around,
    bound: &Bound,
    parts: &[Tree],
    place: Place,
) -> Result<Term, FormFault>
    requires { is_plain around.now.scope.now.kind ≡ false }
    ensures ok { IfOk result (λ term. ReadsForm around.now.names.now around.now.scope.now around.now.inst.now (bindings bound.now) place Head.Arg parts.now term) }
    ensures err { IfErr result (λ e. IsFault (list_fault around.now.names.now around.now.scope.now around.now.inst.now (bindings bound.now) place Head.Arg parts.now) e) }
{
    match parts {
        [name, number] => {
            let msg = message(around, bound, name)?;
            let k = argument(around, bound, number)?;
            Ok(Term::Msg {
                msg,
                part: Part::Arg(k),
            })
        }
        _ => Err(FormFault::At { rule: 10, place }),
    }
}

/// What stands behind the head of a term.
#[cycle(term)]
#[tactic(auto, using(crate::proofs::TermLemmas::dispatch))]
fn list_term(
    alloc: Global,
    around: &Around,
    bound: &Bound,
    head: Head,
    parts: &[Tree],
    place: Place,
) -> Result<Term, FormFault>
    requires { IsFormed around.now.scope.now around.now.inst.now }
    ensures ok { IfOk result (λ term. ReadsForm around.now.names.now around.now.scope.now around.now.inst.now (bindings bound.now) place head parts.now term) }
    ensures err { IfErr result (λ e. IsFault (list_fault around.now.names.now around.now.scope.now around.now.inst.now (bindings bound.now) place head parts.now) e) }
{
    if !is_term_form(head, parts.len()) {
        return Err(FormFault::At { rule: 10, place });
    }
    if breaks_kind(around.scope.kind, head, parts) {
        return Err(FormFault::At { rule: 14, place });
    }
    if is_wide(around, head, parts) {
        return Err(FormFault::At { rule: 16, place });
    }
    match head {
        Head::Add => sum(alloc, around, bound, parts, place),
        Head::Sub => difference(alloc, around, bound, parts, place),
        Head::Mul => product(alloc, around, bound, parts, place),
        Head::If => choice(alloc, around, bound, parts, place),
        Head::Get => get(alloc, around, bound, parts, place),
        Head::Len => length(around, bound, parts, place),
        Head::Id => message_part(around, bound, Part::Id, parts, place),
        Head::From => message_part(around, bound, Part::From, parts, place),
        Head::To => message_part(around, bound, Part::To, parts, place),
        Head::Live => message_part(around, bound, Part::Live, parts, place),
        Head::Arg => message_argument(around, bound, parts, place),
        Head::Eq
        | Head::Lt
        | Head::Le
        | Head::Not
        | Head::And
        | Head::Or
        | Head::Implies
        | Head::All
        | Head::Some
        | Head::Each
        | Head::Any
        | Head::Other => Err(FormFault::At { rule: 10, place }),
    }
}

/// A read of a field, by the three parts behind its head.
#[cycle(term)]
#[tactic(auto, using(crate::proofs::GetLemmas::gets))]
fn field_read(
    alloc: Global,
    around: &Around,
    bound: &Bound,
    node: &Tree,
    label_name: &Tree,
    field_name: &Tree,
    place: Place,
) -> Result<Term, FormFault>
    requires formed { IsFormed around.now.scope.now around.now.inst.now }
    requires allowed { breaks_at around.now.scope.now.kind node.now ≡ false }
    ensures ok { IfOk result (λ term. ReadsForm around.now.names.now around.now.scope.now around.now.inst.now (bindings bound.now) place Head.Get (label_name.now ∷ field_name.now ∷ node.now ∷ []) term) }
    ensures err { IfErr result (λ e. IsFault (list_fault around.now.names.now around.now.scope.now around.now.inst.now (bindings bound.now) place Head.Get (label_name.now ∷ field_name.now ∷ node.now ∷ [])) e) }
{
    if is_row(around, bound, label_name, field_name) {
        return Err(FormFault::At { rule: 15, place });
    }
    let lab = label(around, bound, label_name)?;
    let at = field(around, bound, lab, field_name)?;
    let node = term(alloc, around, bound, node)?;
    let node = Boxed::new(alloc, node)?;
    Ok(Term::Field {
        label: lab,
        field: at,
        node,
    })
}

/// The parts of a read.
#[cycle(term)]
#[tactic(auto, using(crate::proofs::RowLemmas::rows))]
fn get(
    alloc: Global,
    around: &Around,
    bound: &Bound,
    parts: &[Tree],
    place: Place,
) -> Result<Term, FormFault>
    requires formed { IsFormed around.now.scope.now around.now.inst.now }
    requires allowed { breaks_read around.now.scope.now.kind parts.now ≡ false }
    ensures ok { IfOk result (λ term. ReadsForm around.now.names.now around.now.scope.now around.now.inst.now (bindings bound.now) place Head.Get parts.now term) }
    ensures err { IfErr result (λ e. IsFault (list_fault around.now.names.now around.now.scope.now around.now.inst.now (bindings bound.now) place Head.Get parts.now) e) }
{
    match parts {
        [label_name, field_name, node] => {
            field_read(alloc, around, bound, node, label_name, field_name, place)
        }
        [label_name, field_name, node, index] => {
            if is_flat(around, bound, label_name, field_name) {
                return Err(FormFault::At { rule: 15, place });
            }
            let lab = label(around, bound, label_name)?;
            let at = field(around, bound, lab, field_name)?;
            let node = term(alloc, around, bound, node)?;
            let index = term(alloc, around, bound, index)?;
            let node = Boxed::new(alloc, node)?;
            let index = Boxed::new(alloc, index)?;
            Ok(Term::Row {
                label: lab,
                field: at,
                node,
                index,
            })
        }
        _ => Err(FormFault::At { rule: 10, place }),
    }
}
