//! The walk over the lists of a file.

ghost use Rattle.std.specs.Prelude.{◌≡◌, true, false, length, OnOk, IfErr};
ghost use Rattle.dl_forms.specs.Read.{IsFault};
ghost use Rattle.dl_notation.specs.Behind.{entered};
ghost use Rattle.dl_notation.specs.Judge.{OfNames, list_fault};
ghost use Rattle.dl_notation.specs.Notation.{form_named, headed};
ghost use Rattle.dl_notation.specs.Parts.{laid_fault, part_fault, parts_fault};
ghost use Rattle.dl_notation.specs.Trees.{with_parts};
ghost use Rattle.dl_names.specs.Steps.{Passes, PassesForm, PassesLaid, PassesList, PassesParts, is_closed, is_quiet_form, laid, left_by, left_open};
ghost use Rattle.dl_scope.specs.Walked.{environment, no_scope};

use crate::enter::enter;
use crate::leave::{add_item, add_obligation, add_parameter, add_part, add_pending};
use crate::part::{
    refuse, refuse_form, walk_constant, walk_formula, walk_name, walk_number, walk_term,
};
use dl_forms::FormFault;
use dl_notation::{ListRole, Role, has_room, headed_form, headless_form, role_at};
use dl_rules::list_rule;
use dl_scope::{Scope, Text, Walk, close, copy_scope, empty_scope, text_of};
use dl_tree::{Place, Tree};
use std::alloc::{AllocError, Global};

/// Whether what a list of this kind names for itself falls away behind it.
fn is_closed(list: ListRole) -> bool
    ensures { result ≡ is_closed list }
{
    match list {
        ListRole::Item | ListRole::ProtocolPart | ListRole::Send | ListRole::Receive => true,
        ListRole::Command | ListRole::Obligation | ListRole::Script => true,
        ListRole::File | ListRole::Nodes | ListRole::SortBody | ListRole::Arguments => false,
        ListRole::Argument | ListRole::Update | ListRole::HookArguments => false,
        ListRole::WorldLabels | ListRole::WorldHooks | ListRole::Composition => false,
        ListRole::Parameters | ListRole::Parameter | ListRole::Locals => false,
        ListRole::Precondition | ListRole::Postcondition | ListRole::Body => false,
        ListRole::Return | ListRole::Targets | ListRole::Then | ListRole::Else => false,
        ListRole::Program | ListRole::StepNames | ListRole::Certificate => false,
        ListRole::Multiple => false,
    }
}

/// Goes past a list, or answers its first fault.
#[cycle(walk)]
#[tactic(auto, using(crate::proofs::ListLemmas::lists))]
pub(crate) fn walk_list<'a>(
    walk: &mut Walk<'a>,
    alloc: Global,
    list: ListRole,
    tree: &'a Tree,
) -> Result<(), FormFault>
    ensures ok { OnOk result (PassesList (environment walk.old) list tree.now (environment walk.new)) }
    ensures err { IfErr result (λ e. IsFault (list_fault tree.now (OfNames (environment walk.old)) list) e) }
{
    match tree {
        Tree::Num { place, .. } => Err(FormFault::At {
            rule: 10,
            place: *place,
        }),
        Tree::Sym { place, .. } => Err(FormFault::At {
            rule: 10,
            place: *place,
        }),
        Tree::List { items, place } => match headless_form(list) {
            Some((fixed, rest)) => {
                let parts = items.as_slice();
                if !has_room(fixed.len(), rest, parts.len()) {
                    return Err(FormFault::At {
                        rule: 10,
                        place: *place,
                    });
                }
                walk_form(
                    walk,
                    alloc,
                    list,
                    &Text::new(""),
                    fixed,
                    rest,
                    parts,
                    *place,
                )
            }
            None => match items.as_slice().split_first() {
                None => Err(FormFault::At {
                    rule: 10,
                    place: *place,
                }),
                Some((first, parts)) => {
                    walk_headed(walk, alloc, list, &text_of(first), parts, *place)
                }
            },
        },
    }
}

/// The same of a list that begins with a word.
#[cycle(walk)]
#[tactic(auto, using(crate::proofs::ListLemmas::lists))]
fn walk_headed<'a>(
    walk: &mut Walk<'a>,
    alloc: Global,
    list: ListRole,
    word: &Text<'a>,
    parts: &'a [Tree],
    place: Place,
) -> Result<(), FormFault>
    ensures ok { OnOk result (PassesLaid (environment walk.old) list place (with_parts word.now parts.now (form_named word.now (length parts.now) (headed list))) (environment walk.new)) }
    ensures err { IfErr result (λ e. IsFault (laid_fault (OfNames (environment walk.old)) list place (with_parts word.now parts.now (form_named word.now (length parts.now) (headed list)))) e) }
{
    match headed_form(list, word.as_str(), parts.len()) {
        None => Err(FormFault::At { rule: 10, place }),
        Some((fixed, rest)) => walk_form(walk, alloc, list, word, fixed, rest, parts, place),
    }
}

/// The same of a list of this form.
#[cycle(walk)]
#[tactic(auto, using(crate::proofs::ListLemmas::lists))]
fn walk_form<'a>(
    walk: &mut Walk<'a>,
    alloc: Global,
    list: ListRole,
    word: &Text<'a>,
    fixed: &[Role],
    rest: Option<Role>,
    parts: &'a [Tree],
    place: Place,
) -> Result<(), FormFault>
    requires { is_quiet_form list fixed.now rest ≡ true }
    ensures ok { OnOk result (PassesLaid (environment walk.old) list place (laid word.now fixed.now rest parts.now) (environment walk.new)) }
    ensures err { IfErr result (λ e. IsFault (laid_fault (OfNames (environment walk.old)) list place (laid word.now fixed.now rest parts.now)) e) }
{
    let rule = list_rule(walk, alloc, list, word, parts)?;
    refuse(rule, place)?;
    if is_closed(list) {
        walk_closed(walk, alloc, list, word, fixed, rest, parts)
    } else {
        walk_open(walk, alloc, list, word, fixed, rest, parts)
    }
}

/// The same of a list of this form that breaks no rule as a whole, where what it names stays.
#[cycle(walk)]
#[tactic(auto, using(crate::proofs::ListLemmas::lists))]
fn walk_open<'a>(
    walk: &mut Walk<'a>,
    alloc: Global,
    list: ListRole,
    word: &Text<'a>,
    fixed: &[Role],
    rest: Option<Role>,
    parts: &'a [Tree],
) -> Result<(), FormFault>
    requires { is_closed list ≡ false }
    ensures ok { OnOk result (PassesForm (environment walk.old) list word.now fixed.now rest parts.now (environment walk.new)) }
    ensures err { IfErr result (λ e. IsFault (parts_fault (OfNames (entered (environment walk.old) list word.now)) fixed.now rest parts.now) e) }
{
    enter(walk, alloc, list, word)?;
    walk_parts(walk, alloc, fixed, rest, parts)?;
    leave_open(walk, list)?;
    Ok(())
}

/// Leaves a list, where what it names stays. Its only error is want of memory.
fn leave_open(walk: &mut Walk, list: ListRole) -> Result<(), AllocError>
    requires { is_closed list ≡ false }
    ensures { OnOk result (environment walk.new ≡ left_open list (environment walk.old)) }
{
    match list {
        ListRole::Parameter => add_parameter(walk),
        _ => Ok(()),
    }
}

/// The same, where what the list names falls away behind it.
#[cycle(walk)]
#[tactic(auto, using(crate::proofs::ListLemmas::lists))]
fn walk_closed<'a>(
    walk: &mut Walk<'a>,
    alloc: Global,
    list: ListRole,
    word: &Text<'a>,
    fixed: &[Role],
    rest: Option<Role>,
    parts: &'a [Tree],
) -> Result<(), FormFault>
    requires closed { is_closed list ≡ true }
    requires quiet { is_quiet_form list fixed.now rest ≡ true }
    ensures ok { OnOk result (PassesForm (environment walk.old) list word.now fixed.now rest parts.now (environment walk.new)) }
    ensures err { IfErr result (λ e. IsFault (parts_fault (OfNames (entered (environment walk.old) list word.now)) fixed.now rest parts.now) e) }
{
    let mut saved = empty_scope(alloc);
    let result = walk_saved(walk, alloc, &mut saved, list, word, fixed, rest, parts);
    drop(saved);
    result
}

/// The same, with room for what the item had named before.
#[cycle(walk)]
#[tactic(auto, using(crate::proofs::ListLemmas::lists))]
fn walk_saved<'a>(
    walk: &mut Walk<'a>,
    alloc: Global,
    saved: &mut Scope<'a>,
    list: ListRole,
    word: &Text<'a>,
    fixed: &[Role],
    rest: Option<Role>,
    parts: &'a [Tree],
) -> Result<(), FormFault>
    requires empty { saved.old ≡ no_scope }
    requires closed { is_closed list ≡ true }
    requires quiet { is_quiet_form list fixed.now rest ≡ true }
    ensures ok { OnOk result (PassesForm (environment walk.old) list word.now fixed.now rest parts.now (environment walk.new)) }
    ensures err { IfErr result (λ e. IsFault (parts_fault (OfNames (entered (environment walk.old) list word.now)) fixed.now rest parts.now) e) }
{
    copy_scope(&walk.scope, saved)?;
    enter(walk, alloc, list, word)?;
    walk_parts(walk, alloc, fixed, rest, parts)?;
    leave_closed(walk, alloc, saved, list, word, parts)?;
    Ok(())
}

/// Leaves a list, where what it names falls away. Its only error is want of memory.
fn leave_closed<'a>(
    walk: &mut Walk<'a>,
    alloc: Global,
    saved: &mut Scope<'a>,
    list: ListRole,
    word: &Text<'a>,
    parts: &'a [Tree],
) -> Result<(), AllocError>
    requires { is_closed list ≡ true }
    ensures { OnOk result (environment walk.new ≡ left_by list word.now parts.now (environment walk.old) saved.old) }
{
    match list {
        ListRole::Item => {
            add_item(walk, alloc, word, parts)?;
            close(walk, saved);
            Ok(())
        }
        ListRole::ProtocolPart => {
            close(walk, saved);
            add_part(&mut walk.scope.own, word, parts)
        }
        ListRole::Script => {
            close(walk, saved);
            add_pending(walk, alloc)
        }
        ListRole::Obligation => {
            close(walk, saved);
            add_obligation(walk, alloc, word, parts)
        }
        _ => {
            close(walk, saved);
            Ok(())
        }
    }
}

/// Goes past a part of a list, or answers its first fault.
#[cycle(walk)]
#[tactic(auto, using(crate::proofs::ListLemmas::lists))]
fn walk_part<'a>(
    walk: &mut Walk<'a>,
    alloc: Global,
    role: Role,
    tree: &'a Tree,
) -> Result<(), FormFault>
    ensures ok { OnOk result (Passes (environment walk.old) role tree.now (environment walk.new)) }
    ensures err { IfErr result (λ e. IsFault (part_fault (OfNames (environment walk.old)) role tree.now) e) }
{
    match role {
        Role::Number(number) => walk_number(walk, number, tree),
        Role::Name(name) => walk_name(walk, alloc, name, tree),
        Role::Constant => walk_constant(walk, tree),
        Role::Way => refuse_form(role, tree),
        Role::Formula(formula) => walk_formula(walk, formula, tree),
        Role::Term(term) => walk_term(walk, term, tree),
        Role::List(list) => walk_list(walk, alloc, list, tree),
    }
}

/// The same of the parts of a list.
#[cycle(walk)]
#[tactic(auto, using(crate::proofs::ListLemmas::lists))]
fn walk_parts<'a>(
    walk: &mut Walk<'a>,
    alloc: Global,
    fixed: &[Role],
    rest: Option<Role>,
    parts: &'a [Tree],
) -> Result<(), FormFault>
    ensures ok { OnOk result (PassesParts (environment walk.old) fixed.now rest parts.now (environment walk.new)) }
    ensures err { IfErr result (λ e. IsFault (parts_fault (OfNames (environment walk.old)) fixed.now rest parts.now) e) }
{
    for (i, part) in parts.iter().enumerate() {
        let Some(role) = role_at(fixed, rest, i) else {
            return Ok(());
        };
        walk_part(walk, alloc, role, part)?;
    }
    Ok(())
}
