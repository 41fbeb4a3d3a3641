//! The first fault of form of a tree.

ghost use Rattle.std.specs.Prelude.{◌≡◌, ◌||◌, length, false, None, Some, MatchOption};
ghost use Rattle.std.specs.List.{list_any};
ghost use Rattle.dl_forms.specs.Judge.{rule_if};
ghost use Rattle.dl_notation.specs.Notation.{headed, form_named};
ghost use Rattle.dl_notation.specs.Trees.{begins_with, with_parts};
ghost use Rattle.dl_notation.specs.Judge.{OfForms, fits_number, number_fault, name_fault, constant_fault, way_fault, lacks_deployment, list_rule, stands_once, list_fault};
ghost use Rattle.dl_notation.specs.Parts.{part_fault, parts_fault, laid_fault};

use crate::role::{ListRole, NumberRole, Role};
use crate::shape::{begins_with, has_room, headed_form, headless_form, role_at, text_of};
use dl_forms::{Position, is, is_name};
use dl_tree::{Place, Tree};

fn fits_number(role: NumberRole, value: i64) -> bool
    ensures { result ≡ fits_number role value }
{
    match role {
        NumberRole::Integer | NumberRole::Point => true,
        NumberRole::Version => value == 1,
        NumberRole::Half => value == 1 || value == 2,
    }
}

fn number_fault(role: NumberRole, tree: &Tree) -> Option<Place>
    ensures { MatchOption result (number_fault role tree.now ≡ None) (λ place. number_fault role tree.now ≡ Some (10, place)) }
{
    match tree {
        Tree::Num { value, place } => {
            if fits_number(role, *value) {
                None
            } else {
                Some(*place)
            }
        }
        Tree::Sym { place, .. } => Some(*place),
        Tree::List { place, .. } => Some(*place),
    }
}

fn name_fault(tree: &Tree) -> Option<Place>
    ensures { MatchOption result (name_fault tree.now ≡ None) (λ place. name_fault tree.now ≡ Some (10, place)) }
{
    match tree {
        Tree::Sym { name, place } => { if is_name(name) { None } else { Some(*place) } }
        Tree::Num { place, .. } => Some(*place),
        Tree::List { place, .. } => Some(*place),
    }
}

fn constant_fault(tree: &Tree) -> Option<Place>
    ensures { MatchOption result (constant_fault tree.now ≡ None) (λ place. constant_fault tree.now ≡ Some (10, place)) }
{
    match tree {
        Tree::Num { .. } => None,
        Tree::Sym { name, place } => { if is_name(name) { None } else { Some(*place) } }
        Tree::List { place, .. } => Some(*place),
    }
}

fn way_fault(tree: &Tree) -> Option<Place>
    ensures { MatchOption result (way_fault tree.now ≡ None) (λ place. way_fault tree.now ≡ Some (10, place)) }
{
    match tree {
        Tree::Sym { name, place } => {
            if is(name, b"send") || is(name, b"receive") {
                None
            } else {
                Some(*place)
            }
        }
        Tree::Num { place, .. } => Some(*place),
        Tree::List { place, .. } => Some(*place),
    }
}

/// Whether one of the trees is a list that begins with the word.
fn any_begins_with(trees: &[Tree], word: &str) -> bool
    ensures { result ≡ list_any (begins_with word.now) trees.now }
{
    match trees.split_first() {
        None => false,
        Some((first, rest)) => begins_with(first, word) || any_begins_with(rest, word),
    }
}

fn lacks_deployment(parts: &[Tree]) -> bool
    ensures { result ≡ lacks_deployment parts.now }
{
    match parts {
        [_, _, items @ ..] => !any_begins_with(items, "deploy"),
        _ => true,
    }
}

/// Whether a list breaks a rule of form as a whole.
fn breaks_form(list: ListRole, stood: bool, word: &str, parts: &[Tree]) -> bool
    ensures { list_rule (OfForms stood) list word.now parts.now ≡ rule_if 10 result }
{
    match list {
        ListRole::File => lacks_deployment(parts),
        ListRole::Item => stood && word.as_bytes() == "deploy".as_bytes(),
        ListRole::ProtocolPart => stood && word.as_bytes() == "coherence".as_bytes(),
        _ => false,
    }
}

/// Whether the part is a deployment or a coherence, which may stand once.
fn stands_once(role: Role, part: &Tree) -> bool
    ensures { result ≡ stands_once role part.now }
{
    match role {
        Role::List(ListRole::Item) => begins_with(part, "deploy"),
        Role::List(ListRole::ProtocolPart) => begins_with(part, "coherence"),
        _ => false,
    }
}

/// Whether what may stand once has stood behind the part.
fn stood_behind(role: Role, stood: bool, part: &Tree) -> bool
    ensures { result ≡ (stood || stands_once role part.now) }
{
    stood || stands_once(role, part)
}

/// The place of the first part, in preorder, that is of no form. `stood` says whether a deployment, before an
/// item, or a coherence, before a part of a protocol, has stood.
#[cycle(form_fault)]
#[tactic(auto, using(crate::proofs::FaultLemmas::faults))]
pub fn list_form_fault(list: ListRole, stood: bool, tree: &Tree) -> Option<Place>
    ensures { MatchOption result (list_fault tree.now (OfForms stood) list ≡ None) (λ place. list_fault tree.now (OfForms stood) list ≡ Some (10, place)) }
{
    match tree {
        Tree::Num { place, .. } => Some(*place),
        Tree::Sym { place, .. } => Some(*place),
        Tree::List { items, place } => match headless_form(list) {
            Some((fixed, rest)) => {
                let parts = items.as_slice();
                if !has_room(fixed.len(), rest, parts.len())
                    || breaks_form(list, stood, "", parts)
                {
                    return Some(*place);
                }
                parts_form_fault(fixed, rest, parts)
            }
            None => match items.as_slice().split_first() {
                None => Some(*place),
                Some((first, parts)) => {
                    headed_form_fault(list, stood, text_of(first), parts, *place)
                }
            },
        },
    }
}

/// The same of a list that begins with a word.
#[cycle(form_fault)]
#[tactic(auto, using(crate::proofs::FaultLemmas::faults))]
fn headed_form_fault(
    list: ListRole,
    stood: bool,
    word: &str,
    parts: &[Tree],
    place: Place,
) -> Option<Place>
    ensures { MatchOption result
        (laid_fault (OfForms stood) list place (with_parts word.now parts.now (form_named word.now (length parts.now) (headed list))) ≡ None)
        (λ at. laid_fault (OfForms stood) list place (with_parts word.now parts.now (form_named word.now (length parts.now) (headed list))) ≡ Some (10, at)) }
{
    match headed_form(list, word, parts.len()) {
        None => Some(place),
        Some((fixed, rest)) => {
            if breaks_form(list, stood, word, parts) {
                return Some(place);
            }
            parts_form_fault(fixed, rest, parts)
        }
    }
}

/// The same of a part of a list.
#[cycle(form_fault)]
#[tactic(auto, using(crate::proofs::FaultLemmas::faults))]
pub fn form_fault(role: Role, stood: bool, tree: &Tree) -> Option<Place>
    ensures { MatchOption result (part_fault (OfForms stood) role tree.now ≡ None) (λ place. part_fault (OfForms stood) role tree.now ≡ Some (10, place)) }
{
    match role {
        Role::Number(number) => number_fault(number, tree),
        Role::Name(_) => name_fault(tree),
        Role::Constant => constant_fault(tree),
        Role::Way => way_fault(tree),
        Role::Formula(_) => dl_forms::form_fault(Position::Formula, tree),
        Role::Term(_) => dl_forms::form_fault(Position::Term, tree),
        Role::List(list) => list_form_fault(list, stood, tree),
    }
}

/// The same of the parts of a list.
#[cycle(form_fault)]
#[tactic(auto, using(crate::proofs::FaultLemmas::faults))]
fn parts_form_fault(fixed: &[Role], rest: Option<Role>, parts: &[Tree]) -> Option<Place>
    ensures { MatchOption result (parts_fault (OfForms false) fixed.now rest parts.now ≡ None) (λ place. parts_fault (OfForms false) fixed.now rest parts.now ≡ Some (10, place)) }
{
    let mut stood = false;
    for (i, part) in parts.iter().enumerate() {
        let Some(role) = role_at(fixed, rest, i) else {
            return None;
        };
        if let Some(place) = form_fault(role, stood, part) {
            return Some(place);
        }
        stood = stood_behind(role, stood, part);
    }
    None
}
