//! The forms that each position allows, and the first fault of form.

ghost use Rattle.std.specs.Prelude.{◌≡◌, ◌∷◌, [], None, Some, is_some, length, MatchOption};
ghost use Rattle.dl_forms.specs.Form.{head_of};
ghost use Rattle.dl_forms.specs.Notation.{term_forms, formula_forms, forms, form_with};
ghost use Rattle.dl_forms.specs.Judge.{fits_number, fits_symbol, is_name, fault};
ghost use Rattle.dl_forms.specs.Judge.{OfForms};
ghost use Rattle.dl_forms.specs.Parts.{parts_fault};

use crate::head::{Head, head_of};
use crate::names::is;
use crate::position::Position;
use dl_tree::{Name, Place, Tree};

/// The form, where it has so many parts.
fn only(count: usize, form: &'static [Position]) -> Option<&'static [Position]>
    ensures { MatchOption result (form_with count (form.now ∷ []) ≡ None) (λ chosen. form_with count (form.now ∷ []) ≡ Some chosen.now) }
{
    if form.len() == count {
        Some(form)
    } else {
        None
    }
}

fn read_form(count: usize) -> Option<&'static [Position]>
    ensures { MatchOption result (form_with count (term_forms Head.Get) ≡ None) (λ chosen. form_with count (term_forms Head.Get) ≡ Some chosen.now) }
{
    if count == 3 {
        Some(&[Position::Label, Position::Field, Position::Term])
    } else if count == 4 {
        Some(&[
            Position::Label,
            Position::Field,
            Position::Term,
            Position::Term,
        ])
    } else {
        None
    }
}

fn term_form(head: Head, count: usize) -> Option<&'static [Position]>
    ensures { MatchOption result (form_with count (term_forms head) ≡ None) (λ chosen. form_with count (term_forms head) ≡ Some chosen.now) }
{
    match head {
        Head::Get => read_form(count),
        Head::Len => only(count, &[Position::Label]),
        Head::Id | Head::From | Head::To | Head::Live => only(count, &[Position::Message]),
        Head::Arg => only(count, &[Position::Message, Position::Argument]),
        Head::Add | Head::Sub | Head::Mul => only(count, &[Position::Term, Position::Term]),
        Head::If => only(
            count,
            &[
                Position::Term,
                Position::Term,
                Position::Term,
                Position::Term,
            ],
        ),
        Head::Eq
        | Head::Lt
        | Head::Le
        | Head::Not
        | Head::And
        | Head::Or
        | Head::Implies
        | Head::All
        | Head::Some
        | Head::Each
        | Head::Any
        | Head::Other => None,
    }
}

fn formula_form(head: Head, count: usize) -> Option<&'static [Position]>
    ensures { MatchOption result (form_with count (formula_forms head) ≡ None) (λ chosen. form_with count (formula_forms head) ≡ Some chosen.now) }
{
    match head {
        Head::Eq | Head::Lt | Head::Le => only(count, &[Position::Term, Position::Term]),
        Head::Not => only(count, &[Position::Formula]),
        Head::And | Head::Or | Head::Implies => only(
            count,
            &[Position::Formula, Position::Formula],
        ),
        Head::All | Head::Some => only(count, &[Position::NewVariable, Position::Formula]),
        Head::Each | Head::Any => {
            only(
                count,
                &[
                    Position::NewMessage,
                    Position::Label,
                    Position::Tag,
                    Position::Formula,
                ],
            )
        }
        Head::Get
        | Head::Len
        | Head::Id
        | Head::From
        | Head::To
        | Head::Live
        | Head::Arg
        | Head::Add
        | Head::Sub
        | Head::Mul
        | Head::If
        | Head::Other => None,
    }
}

/// Whether a term that begins with the word has a form with so many parts.
pub(crate) fn is_term_form(head: Head, count: usize) -> bool
    ensures { result ≡ is_some (form_with count (term_forms head)) }
{
    term_form(head, count).is_some()
}

/// Whether a formula that begins with the word has a form with so many parts.
pub(crate) fn is_formula_form(head: Head, count: usize) -> bool
    ensures { result ≡ is_some (form_with count (formula_forms head)) }
{
    formula_form(head, count).is_some()
}

/// What each part behind the head has to be, in the form of the position with so many parts.
fn form(position: Position, head: Head, count: usize) -> Option<&'static [Position]>
    ensures { MatchOption result (form_with count (forms position head) ≡ None) (λ chosen. form_with count (forms position head) ≡ Some chosen.now) }
{
    match position {
        Position::Term => term_form(head, count),
        Position::Formula => formula_form(head, count),
        Position::Label
        | Position::Field
        | Position::Tag
        | Position::Message
        | Position::NewVariable
        | Position::NewMessage
        | Position::Argument => None,
    }
}

/// What each part of a list behind the first has to be, where the list has so many.
pub fn form_of(position: Position, first: &Tree, count: usize) -> Option<&'static [Position]>
    ensures { MatchOption result (form_with count (forms position (head_of first.now)) ≡ None) (λ chosen. form_with count (forms position (head_of first.now)) ≡ Some chosen.now) }
{
    form(position, head_of(first), count)
}

fn fits_number(position: Position, value: i64) -> bool
    ensures { result ≡ fits_number position value }
{
    match position {
        Position::Term => true,
        Position::Argument => 0 <= value && value <= 7,
        Position::Formula
        | Position::Label
        | Position::Field
        | Position::Tag
        | Position::Message
        | Position::NewVariable
        | Position::NewMessage => false,
    }
}

/// Whether a symbol is a name: whether it begins with a letter.
pub fn is_name(name: &Name) -> bool
    ensures { result ≡ is_name name.now }
{
    match name.as_str().as_bytes().first() {
        Some(first) => first.is_ascii_alphabetic(),
        None => false,
    }
}

fn fits_symbol(position: Position, name: &Name) -> bool
    ensures { result ≡ fits_symbol position name.now }
{
    match position {
        Position::Formula => is(name, b"true") || is(name, b"false"),
        Position::Argument => false,
        Position::Term
        | Position::Label
        | Position::Field
        | Position::Tag
        | Position::Message
        | Position::NewVariable
        | Position::NewMessage => is_name(name),
    }
}

/// The place of the first part, in preorder, that is of no form of its position.
#[cycle(form_fault)]
#[tactic(auto, using(crate::proofs::FaultLemmas::faults))]
pub fn form_fault(position: Position, tree: &Tree) -> Option<Place>
    ensures { MatchOption result (fault tree.now OfForms position ≡ None) (λ place. fault tree.now OfForms position ≡ Some (10, place)) }
{
    match tree {
        Tree::Num { value, place } => {
            if fits_number(position, *value) {
                None
            } else {
                Some(*place)
            }
        }
        Tree::Sym { name, place } => {
            if fits_symbol(position, name) {
                None
            } else {
                Some(*place)
            }
        }
        Tree::List { items, place } => match items.as_slice().split_first() {
            None => Some(*place),
            Some((first, parts)) => match form_of(position, first, parts.len()) {
                None => Some(*place),
                Some(form) => parts_form_fault(form, parts),
            },
        },
    }
}

#[cycle(form_fault)]
#[tactic(auto, using(crate::proofs::FaultLemmas::faults))]
fn parts_form_fault(form: &[Position], parts: &[Tree]) -> Option<Place>
    ensures { MatchOption result (parts_fault OfForms form.now parts.now ≡ None) (λ place. parts_fault OfForms form.now parts.now ≡ Some (10, place)) }
{
    for (i, part) in parts.iter().enumerate() {
        if i >= form.len() {
            return None;
        }
        if let Some(place) = form_fault(form[i], part) {
            return Some(place);
        }
    }
    None
}
