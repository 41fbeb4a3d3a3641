//! The first fault of names and sorts in a formula or a term.

ghost use Rattle.std.specs.Prelude.{◌≡◌, ◌∷◌, false, true, length};
ghost use Rattle.dl_tree.specs.declared.tree.Tree.TheVariants as tree;
ghost use Rattle.dl_forms.specs.Form.{head_of};
ghost use Rattle.dl_forms.specs.Judge.{OfNames, at, fault, fits_number, fits_symbol, misses_index, ◌or_else◌, symbol_rule};
ghost use Rattle.dl_forms.specs.Notation.{form_with, forms};
ghost use Rattle.dl_forms.specs.Parts.{parts_fault};
ghost use Rattle.dl_rules.specs.Judged.{IsJudged, IsJudgedAs, binds_first, formed, is_arithmetic, is_term, label_behind, rule_of};
ghost use Rattle.dl_rules.specs.Sights.{bindings, bindings_at, bindings_inside, context_of, seen};

use crate::rules::rule_if;
use crate::seen::{name_rule, protocol_named, row_at};
use crate::sight::{Bound, Sight};
use crate::width::{Judged, STORED, limited, malformed, product, sum, word_width};
use dl_forms::{Head, Position, breaks_kind, form_of, head_of, is, is_name};
use dl_scope::{Text, text_of};
use dl_tree::{Name, Place, Tree};

fn fits_number(position: Position, value: i64) -> bool
    ensures { result ≡ fits_number position value }
{
    match position {
        Position::Term => true,
        Position::Argument => 0 <= value && value <= 7,
        Position::Formula
        | Position::Label
        | Position::Field
        | Position::Tag
        | Position::Message
        | Position::NewVariable
        | Position::NewMessage => false,
    }
}

fn fits_symbol(position: Position, name: &Name) -> bool
    ensures { result ≡ fits_symbol position name.now }
{
    match position {
        Position::Formula => is(name, b"true") || is(name, b"false"),
        Position::Argument => false,
        Position::Term
        | Position::Label
        | Position::Field
        | Position::Tag
        | Position::Message
        | Position::NewVariable
        | Position::NewMessage => is_name(name),
    }
}

/// Whether a read has no index for a row, or one for a field.
fn read_misses<'x, 'a>(sight: &Sight<'x, 'a>, parts: &'a [Tree]) -> bool
    ensures { result ≡ misses_index (context_of sight.now) Head.Get parts.now }
{
    match parts {
        [label, field, _] => row_at(sight, label, field).unwrap_or(false),
        [label, field, _, _] => !row_at(sight, label, field).unwrap_or(true),
        _ => false,
    }
}

/// Whether a list is a read that has no index for a row, or one for a field.
fn misses_index<'x, 'a>(sight: &Sight<'x, 'a>, head: Head, parts: &'a [Tree]) -> bool
    ensures { result ≡ misses_index (context_of sight.now) head parts.now }
{
    match head {
        Head::Get => read_misses(sight, parts),
        Head::Len | Head::Id | Head::From | Head::To | Head::Live | Head::Arg => false,
        Head::Add | Head::Sub | Head::Mul | Head::If => false,
        Head::Eq | Head::Lt | Head::Le | Head::Not => false,
        Head::And | Head::Or | Head::Implies => false,
        Head::All | Head::Some | Head::Each | Head::Any | Head::Other => false,
    }
}

/// The rule that a list breaks as a whole, its width aside.
fn rule_of<'x, 'a>(sight: &Sight<'x, 'a>, head: Head, parts: &'a [Tree]) -> Option<u8>
    ensures { result ≡ rule_of (context_of sight.now) head parts.now }
{
    if breaks_kind(sight.kind, head, parts) {
        return Some(14);
    }
    rule_if(15, misses_index(sight, head, parts))
}

/// The rule that a symbol breaks in its position, behind these quantifiers and the label before.
fn symbol_rule<'x, 'a>(
    sight: &Sight<'x, 'a>,
    bound: &Bound,
    label: Option<usize>,
    position: Position,
    name: &'a Name,
) -> Option<u8>
    ensures { result ≡ symbol_rule (OfNames (seen (context_of sight.now) (bindings bound.now) label)) position name.now }
{
    if !fits_symbol(position, name) {
        return Some(10);
    }
    name_rule(sight, bound, label, position, &Text::new(name.as_str()))
}

/// The rule at a place, where it is broken.
fn at(rule: Option<u8>, place: Place) -> Option<(u8, Place)>
    ensures { result ≡ at rule place }
{
    match rule {
        Some(rule) => Some((rule, place)),
        None => None,
    }
}

/// The first of two faults.
fn or_else(first: Option<(u8, Place)>, later: Option<(u8, Place)>) -> Option<(u8, Place)>
    ensures { result ≡ (first or_else later) }
{
    match first {
        Some(first) => Some(first),
        None => later,
    }
}

/// The first fault of a part in its position, behind these quantifiers and the label before.
#[cycle(fault)]
#[tactic(auto, using(crate::proofs::FormulaLemmas::faults))]
pub fn fault<'x, 'a>(
    tree: &'a Tree,
    sight: &Sight<'x, 'a>,
    bound: &Bound,
    label: Option<usize>,
    position: Position,
) -> Option<(u8, Place)>
    ensures { result ≡ fault tree.now (OfNames (seen (context_of sight.now) (bindings bound.now) label)) position }
{
    match position {
        Position::Term => term(tree, sight, bound, label).fault,
        Position::Formula
        | Position::Label
        | Position::Field
        | Position::Tag
        | Position::Message
        | Position::NewVariable
        | Position::NewMessage
        | Position::Argument => part_fault(tree, sight, bound, label, position),
    }
}

/// The same of a part that is no term.
#[cycle(fault)]
#[tactic(auto, using(crate::proofs::FormulaLemmas::faults))]
fn part_fault<'x, 'a>(
    tree: &'a Tree,
    sight: &Sight<'x, 'a>,
    bound: &Bound,
    label: Option<usize>,
    position: Position,
) -> Option<(u8, Place)>
    requires { is_term position ≡ false }
    ensures { result ≡ fault tree.now (OfNames (seen (context_of sight.now) (bindings bound.now) label)) position }
{
    match tree {
        Tree::Num { value, place } => {
            if fits_number(position, *value) {
                None
            } else {
                Some((10, *place))
            }
        }
        Tree::Sym { name, place } => {
            at(symbol_rule(sight, bound, label, position, name), *place)
        }
        Tree::List { items, place } => match items.as_slice().split_first() {
            None => Some((10, *place)),
            Some((first, parts)) => {
                list_fault(parts, sight, bound, label, position, first, *place)
            }
        },
    }
}

/// The same of a list that begins with this part, its width aside.
#[cycle(fault)]
#[tactic(auto, using(crate::proofs::FormulaLemmas::faults))]
fn list_fault<'x, 'a>(
    parts: &'a [Tree],
    sight: &Sight<'x, 'a>,
    bound: &Bound,
    label: Option<usize>,
    position: Position,
    first: &'a Tree,
    place: Place,
) -> Option<(u8, Place)>
    ensures { result ≡ formed (context_of sight.now) (bindings bound.now) label place (head_of first.now) parts.now (form_with (length parts.now) (forms position (head_of first.now))) }
{
    match form_of(position, first, parts.len()) {
        None => Some((10, place)),
        Some(form) => match rule_of(sight, head_of(first), parts) {
            Some(rule) => Some((rule, place)),
            None => parts_fault(parts, sight, bound, label, form),
        },
    }
}

/// The protocol of the label just before what stands behind a part.
fn label_behind<'x, 'a>(
    sight: &Sight<'x, 'a>,
    label: Option<usize>,
    position: Position,
    part: &'a Tree,
) -> Option<usize>
    ensures { result ≡ label_behind (context_of sight.now) position part.now label }
{
    match position {
        Position::Label => protocol_named(sight, part),
        Position::Field | Position::Tag => None,
        Position::Term | Position::Formula | Position::Message | Position::Argument => label,
        Position::NewVariable | Position::NewMessage => label,
    }
}

/// What is bound behind the first part of a form.
fn inner_bound<'b>(bound: &'b Bound<'b>, form: &[Position], parts: &'b [Tree]) -> Bound<'b>
    ensures { bindings result ≡ bindings_inside form.now parts.now (bindings bound.now) }
{
    let Some(position) = form.first() else {
        return *bound;
    };
    let Some(part) = parts.first() else {
        return *bound;
    };
    let name = text_of(part);
    match *position {
        Position::NewVariable => Bound::Variable(bound, name.as_str()),
        Position::NewMessage => Bound::Message(bound, name.as_str()),
        Position::Term => *bound,
        Position::Formula => *bound,
        Position::Label => *bound,
        Position::Field => *bound,
        Position::Tag => *bound,
        Position::Message => *bound,
        Position::Argument => *bound,
    }
}

/// What is bound at the part with this number.
fn bound_at<'b>(i: usize, outer: &'b Bound<'b>, inner: &'b Bound<'b>) -> &'b Bound<'b>
    ensures { bindings result.now ≡ bindings_at i (bindings outer.now) (bindings inner.now) }
{
    if i == 0 { outer } else { inner }
}

/// The first fault of the parts of a form, of which no other than the first binds a name.
#[cycle(fault)]
#[tactic(auto, using(crate::proofs::FormulaLemmas::faults))]
fn parts_fault<'x, 'a>(
    parts: &'a [Tree],
    sight: &Sight<'x, 'a>,
    bound: &Bound,
    label: Option<usize>,
    form: &[Position],
) -> Option<(u8, Place)>
    requires { binds_first form.now ≡ true }
    ensures { result ≡ parts_fault (OfNames (seen (context_of sight.now) (bindings bound.now) label)) form.now parts.now }
{
    let inner = inner_bound(&*bound, form, &*parts);
    let mut label = label;
    for (i, part) in parts.iter().enumerate() {
        if i >= form.len() {
            return None;
        }
        let position = form[i];
        let around = bound_at(i, &*bound, &inner);
        if let Some(found) = fault(part, sight, around, label, position) {
            return Some(found);
        }
        label = label_behind(sight, label, position, part);
    }
    None
}

/// The first fault of a term, and its width, or 2 ^ 127 where that is larger.
#[cycle(fault)]
#[tactic(auto, using(crate::proofs::TermLemmas::terms))]
fn term<'x, 'a>(
    tree: &'a Tree,
    sight: &Sight<'x, 'a>,
    bound: &Bound,
    label: Option<usize>,
) -> Judged
    ensures { IsJudged (context_of sight.now) (bindings bound.now) label tree.now result }
{
    match tree {
        Tree::Num { value, .. } => Judged {
            fault: None,
            width: u128::from(value.unsigned_abs()),
        },
        Tree::Sym { name, place } => Judged {
            fault: at(
                symbol_rule(sight, bound, label, Position::Term, name),
                *place,
            ),
            width: word_width(sight, &Text::new(name.as_str())),
        },
        Tree::List { items, place } => match items.as_slice().split_first() {
            None => Judged {
                fault: Some((10, *place)),
                width: STORED,
            },
            Some((first, parts)) => list_term(parts, sight, bound, label, first, *place),
        },
    }
}

/// Whether a term with this head is a sum, a difference, a product or a choice.
fn is_arithmetic(head: Head) -> bool
    ensures { result ≡ is_arithmetic head }
{
    match head {
        Head::Add | Head::Sub | Head::Mul | Head::If => true,
        Head::Get | Head::Len | Head::Id | Head::From | Head::To | Head::Live => false,
        Head::Arg | Head::Eq | Head::Lt | Head::Le | Head::Not | Head::And => false,
        Head::Or | Head::Implies | Head::All | Head::Some | Head::Each => false,
        Head::Any | Head::Other => false,
    }
}

/// The same of a list that begins with this part.
#[cycle(fault)]
#[tactic(auto, using(crate::proofs::TermLemmas::terms))]
fn list_term<'x, 'a>(
    parts: &'a [Tree],
    sight: &Sight<'x, 'a>,
    bound: &Bound,
    label: Option<usize>,
    first: &'a Tree,
    place: Place,
) -> Judged
    ensures { IsJudged (context_of sight.now) (bindings bound.now) label (tree.List (first.now ∷ parts.now) place) result }
{
    if is_arithmetic(head_of(first)) {
        return arithmetic_term(parts, sight, bound, label, first, place);
    }
    let fault = list_fault(parts, sight, bound, label, Position::Term, first, place);
    Judged {
        fault,
        width: STORED,
    }
}

/// The same of a sum, a difference, a product or a choice.
#[cycle(fault)]
#[tactic(auto, using(crate::proofs::TermLemmas::terms))]
fn arithmetic_term<'x, 'a>(
    parts: &'a [Tree],
    sight: &Sight<'x, 'a>,
    bound: &Bound,
    label: Option<usize>,
    first: &'a Tree,
    place: Place,
) -> Judged
    requires { is_arithmetic (head_of first.now) ≡ true }
    ensures { IsJudged (context_of sight.now) (bindings bound.now) label (tree.List (first.now ∷ parts.now) place) result }
{
    match head_of(first) {
        Head::Add => sum_term(parts, sight, bound, label, place),
        Head::Sub => sum_term(parts, sight, bound, label, place),
        Head::Mul => product_term(parts, sight, bound, label, place),
        Head::If => choice_term(parts, sight, bound, label, place),
        Head::Get | Head::Len | Head::Id | Head::From | Head::To | Head::Live => malformed(place),
        Head::Arg | Head::Eq | Head::Lt | Head::Le | Head::Not | Head::And => malformed(place),
        Head::Or | Head::Implies | Head::All | Head::Some | Head::Each => malformed(place),
        Head::Any | Head::Other => malformed(place),
    }
}

/// The same of a sum or a difference.
#[cycle(fault)]
#[tactic(auto, using(crate::proofs::TermLemmas::terms))]
fn sum_term<'x, 'a>(
    parts: &'a [Tree],
    sight: &Sight<'x, 'a>,
    bound: &Bound,
    label: Option<usize>,
    place: Place,
) -> Judged
    ensures { IsJudgedAs (context_of sight.now) (bindings bound.now) label Head.Add parts.now place result }
{
    match parts {
        [left, right] => {
            let left = term(left, sight, bound, label);
            let right = term(right, sight, bound, label);
            let faults = or_else(left.fault, right.fault);
            limited(place, sum(left.width, right.width), faults)
        }
        _ => malformed(place),
    }
}

/// The same of a product.
#[cycle(fault)]
#[tactic(auto, using(crate::proofs::TermLemmas::terms))]
fn product_term<'x, 'a>(
    parts: &'a [Tree],
    sight: &Sight<'x, 'a>,
    bound: &Bound,
    label: Option<usize>,
    place: Place,
) -> Judged
    ensures { IsJudgedAs (context_of sight.now) (bindings bound.now) label Head.Mul parts.now place result }
{
    match parts {
        [left, right] => {
            let left = term(left, sight, bound, label);
            let right = term(right, sight, bound, label);
            let faults = or_else(left.fault, right.fault);
            limited(place, product(left.width, right.width), faults)
        }
        _ => malformed(place),
    }
}

/// The same of a choice.
#[cycle(fault)]
#[tactic(auto, using(crate::proofs::TermLemmas::terms))]
fn choice_term<'x, 'a>(
    parts: &'a [Tree],
    sight: &Sight<'x, 'a>,
    bound: &Bound,
    label: Option<usize>,
    place: Place,
) -> Judged
    ensures { IsJudgedAs (context_of sight.now) (bindings bound.now) label Head.If parts.now place result }
{
    match parts {
        [left, right, yes, no] => {
            let left = term(left, sight, bound, label);
            let right = term(right, sight, bound, label);
            let yes = term(yes, sight, bound, label);
            let no = term(no, sight, bound, label);
            let later = or_else(right.fault, or_else(yes.fault, no.fault));
            limited(place, yes.width.max(no.width), or_else(left.fault, later))
        }
        _ => malformed(place),
    }
}
