//! Declarations as trees without places.

ghost use Rattle.std.specs.Prelude.{◌≡◌, ◌≤◌, ◌∷◌, ◌++◌, [], map, length, pos, codes, if◌then◌else◌, Some, IfOk, OnOk};
ghost use Rattle.std.specs.Option.{option_copied};
ghost use Rattle.dl_forms.specs.Show.{number as shown_number};
ghost use Rattle.dl_shown.specs.Shown.{body_of, sort_of, label_of, term_of, formula_of, field_of, values_of, update_of, transition_of, receive_of, tag_of, coherence_of, protocol_of, instance_of, hook_of, hook_name, world_of, invariant_of, program_of, deploy_of};

use crate::found;
use crate::pieces::{add_names, arguments, begin, list, name, name_list, number, range};
use dl_forms::{Names, SortDecl, show_formula, show_term};
use dl_model::{
    Decls, Deploy, FieldDecl, Hook, Invariant, Program, Protocol, Tag, Transition, Update, World,
};
use dl_term::{Formula, Sort, Term};
use dl_tree::Tree;
use sqlite_items::Items;
use std::alloc::{AllocError, Global};

// ---- sorts

/// What a sort is declared as.
fn body(alloc: Global, names: &Names, sort: Sort, values: &[u32]) -> Result<Tree, AllocError>
    ensures { IfOk result (λ tree. tree ≡ body_of names.now sort values.now) }
{
    match values {
        [] => range(alloc, sort),
        [_, ..] => {
            let mut parts = begin(alloc, "enum")?;
            add_names(alloc, names, values, &mut parts)?;
            Ok(list(parts))
        }
    }
}

pub(crate) fn sort(alloc: Global, names: &Names, sort: &SortDecl) -> Result<Tree, AllocError>
    ensures { IfOk result (λ tree. tree ≡ sort_of names.now sort.now) }
{
    let mut parts = begin(alloc, "sort")?;
    parts.push(name(alloc, names, sort.sym)?)?;
    parts.push(body(alloc, names, sort.sort, sort.values.as_slice())?)?;
    Ok(list(parts))
}

// ---- terms and formulas

/// A term, where `self` is the label of the protocol `own`.
pub(crate) fn term(
    alloc: Global,
    names: &Names,
    decls: &Decls,
    own: Option<u8>,
    term: &Term,
) -> Result<Tree, AllocError>
    ensures { IfOk result (λ tree. tree ≡ term_of names.now decls.now own term.now) }
{
    show_term(
        alloc,
        names,
        &decls.inst,
        own,
        decls.labels.as_slice(),
        term,
    )
}

/// A formula, where `self` is the label of the protocol `own`.
pub(crate) fn formula(
    alloc: Global,
    names: &Names,
    decls: &Decls,
    own: Option<u8>,
    formula: &Formula,
) -> Result<Tree, AllocError>
    ensures { IfOk result (λ tree. tree ≡ formula_of names.now decls.now own formula.now) }
{
    show_formula(
        alloc,
        names,
        &decls.inst,
        own,
        decls.labels.as_slice(),
        formula,
    )
}

// ---- protocols

/// The word of a row, or that of a field.
fn field_word(row: bool) -> &'static str
    ensures word { result.now ≡ (if row then codes "row" else codes "field") }
    ensures short { length result.now ≤ 64 }
{
    if row { "row" } else { "field" }
}

fn field(alloc: Global, names: &Names, decls: &Decls, field: &FieldDecl) -> Result<Tree, AllocError>
    ensures { IfOk result (λ tree. tree ≡ field_of names.now decls.now field.now) }
{
    let mut parts = begin(alloc, field_word(field.row))?;
    parts.push(name(alloc, names, field.sym)?)?;
    parts.push(range(alloc, field.sort)?)?;
    parts.push(term(alloc, names, decls, None, &field.first)?)?;
    Ok(list(parts))
}

/// Adds the new value of a field, or the index and the new value of a row.
fn add_values(
    alloc: Global,
    names: &Names,
    decls: &Decls,
    own: Option<u8>,
    update: &Update,
    parts: &mut Items<Tree>,
) -> Result<(), AllocError>
    ensures { OnOk result (parts.new ≡ parts.old ++ values_of names.now decls.now own update.now update.now.index) }
{
    match &update.index {
        Some(index) => {
            parts.push(term(alloc, names, decls, own, index)?)?;
            parts.push(term(alloc, names, decls, own, &update.value)?)
        }
        None => parts.push(term(alloc, names, decls, own, &update.value)?),
    }
}

fn update(
    alloc: Global,
    names: &Names,
    decls: &Decls,
    own: Option<u8>,
    fields: &[FieldDecl],
    update: &Update,
) -> Result<Tree, AllocError>
    ensures { IfOk result (λ tree. tree ≡ update_of names.now decls.now own fields.now update.now) }
{
    let mut parts = begin(alloc, "set")?;
    let field = fields.get(usize::from(update.field));
    parts.push(found::field_name(alloc, names, decls, field)?)?;
    add_values(alloc, names, decls, own, update, &mut parts)?;
    Ok(list(parts))
}

/// Adds updates behind the parts that are there.
fn add_updates(
    alloc: Global,
    names: &Names,
    decls: &Decls,
    own: Option<u8>,
    fields: &[FieldDecl],
    updates: &[Update],
    parts: &mut Items<Tree>,
) -> Result<(), AllocError>
    ensures { OnOk result (parts.new ≡ parts.old ++ map (update_of names.now decls.now own fields.now) updates.now) }
{
    for one in updates {
        parts.push(update(alloc, names, decls, own, fields, one)?)?;
    }
    Ok(())
}

/// A send or a receive, by its word.
fn transition(
    alloc: Global,
    names: &Names,
    decls: &Decls,
    word: &str,
    own: Option<u8>,
    fields: &[FieldDecl],
    transition: &Transition,
) -> Result<Tree, AllocError>
    requires { length word.now ≤ 64 }
    ensures { IfOk result (λ tree. tree ≡ transition_of names.now decls.now word.now own fields.now transition.now) }
{
    let mut parts = begin(alloc, word)?;
    parts.push(formula(alloc, names, decls, own, &transition.guard)?)?;
    let updates = transition.updates.as_slice();
    add_updates(alloc, names, decls, own, fields, updates, &mut parts)?;
    Ok(list(parts))
}

/// Adds the receive of a tag, where it has one.
fn add_receive(
    alloc: Global,
    names: &Names,
    decls: &Decls,
    own: Option<u8>,
    fields: &[FieldDecl],
    receive: &Option<Transition>,
    parts: &mut Items<Tree>,
) -> Result<(), AllocError>
    ensures { OnOk result (parts.new ≡ parts.old ++ receive_of names.now decls.now own fields.now receive.now) }
{
    match receive {
        Some(receive) => {
            parts.push(transition(alloc, names, decls, "receive", own, fields, receive)?)
        }
        None => Ok(()),
    }
}

fn tag(
    alloc: Global,
    names: &Names,
    decls: &Decls,
    own: Option<u8>,
    fields: &[FieldDecl],
    tag: &Tag,
) -> Result<Tree, AllocError>
    ensures { IfOk result (λ tree. tree ≡ tag_of names.now decls.now own fields.now tag.now) }
{
    let mut parts = begin(alloc, "tag")?;
    parts.push(name(alloc, names, tag.sym)?)?;
    parts.push(arguments(alloc, names, tag.args.as_slice())?)?;
    parts.push(transition(alloc, names, decls, "send", own, fields, &tag.send)?)?;
    add_receive(alloc, names, decls, own, fields, &tag.receive, &mut parts)?;
    Ok(list(parts))
}

fn add_fields(
    alloc: Global,
    names: &Names,
    decls: &Decls,
    fields: &[FieldDecl],
    parts: &mut Items<Tree>,
) -> Result<(), AllocError>
    ensures { OnOk result (parts.new ≡ parts.old ++ map (field_of names.now decls.now) fields.now) }
{
    for one in fields {
        parts.push(field(alloc, names, decls, one)?)?;
    }
    Ok(())
}

fn add_tags(
    alloc: Global,
    names: &Names,
    decls: &Decls,
    own: Option<u8>,
    fields: &[FieldDecl],
    tags: &[Tag],
    parts: &mut Items<Tree>,
) -> Result<(), AllocError>
    ensures { OnOk result (parts.new ≡ parts.old ++ map (tag_of names.now decls.now own fields.now) tags.now) }
{
    for one in tags {
        parts.push(tag(alloc, names, decls, own, fields, one)?)?;
    }
    Ok(())
}

fn coherence(
    alloc: Global,
    names: &Names,
    decls: &Decls,
    own: Option<u8>,
    coherence: &Formula,
) -> Result<Tree, AllocError>
    ensures { IfOk result (λ tree. coherence_of names.now decls.now own (Some coherence.now) ≡ tree ∷ []) }
{
    let mut parts = begin(alloc, "coherence")?;
    parts.push(formula(alloc, names, decls, own, coherence)?)?;
    Ok(list(parts))
}

/// Adds the coherence of a protocol, where it has one.
fn add_coherence(
    alloc: Global,
    names: &Names,
    decls: &Decls,
    own: Option<u8>,
    declared: &Option<Formula>,
    parts: &mut Items<Tree>,
) -> Result<(), AllocError>
    ensures { OnOk result (parts.new ≡ parts.old ++ coherence_of names.now decls.now own declared.now) }
{
    match declared {
        Some(declared) => parts.push(coherence(alloc, names, decls, own, declared)?),
        None => Ok(()),
    }
}

pub(crate) fn protocol(
    alloc: Global,
    names: &Names,
    decls: &Decls,
    at: u8,
    protocol: &Protocol,
) -> Result<Tree, AllocError>
    ensures { IfOk result (λ tree. tree ≡ protocol_of names.now decls.now at protocol.now) }
{
    let own = Some(at);
    let fields = protocol.fields.as_slice();
    let mut parts = begin(alloc, "protocol")?;
    parts.push(name(alloc, names, protocol.sym)?)?;
    add_fields(alloc, names, decls, fields, &mut parts)?;
    add_tags(
        alloc,
        names,
        decls,
        own,
        fields,
        protocol.tags.as_slice(),
        &mut parts,
    )?;
    add_coherence(alloc, names, decls, own, &protocol.coherence, &mut parts)?;
    Ok(list(parts))
}

// ---- labels, hooks, worlds, invariants

pub(crate) fn instance(
    alloc: Global,
    names: &Names,
    decls: &Decls,
    at: u8,
) -> Result<Tree, AllocError>
    ensures { IfOk result (λ tree. tree ≡ instance_of names.now decls.now at) }
{
    let mut parts = begin(alloc, "label")?;
    parts.push(found::label(alloc, names, decls, at)?)?;
    let protocol = found::protocol_of_label(&decls.inst, at);
    parts.push(found::protocol_name(alloc, names, decls, protocol)?)?;
    Ok(list(parts))
}

pub(crate) fn hook(
    alloc: Global,
    names: &Names,
    decls: &Decls,
    hook: &Hook,
) -> Result<Tree, AllocError>
    ensures { IfOk result (λ tree. tree ≡ hook_of names.now decls.now hook.now) }
{
    let mut parts = begin(alloc, "hook")?;
    parts.push(name(alloc, names, hook.sym)?)?;
    parts.push(found::label(alloc, names, decls, hook.core)?)?;
    parts.push(found::label(alloc, names, decls, hook.client)?)?;
    let tag = found::tag_in(found::protocol_of_label(&decls.inst, hook.client), hook.tag);
    parts.push(found::tag_name(alloc, names, decls, tag)?)?;
    parts.push(name_list(alloc, names, hook.args.as_slice())?)?;
    parts.push(formula(alloc, names, decls, None, &hook.formula)?)?;
    Ok(list(parts))
}

/// The labels of a world.
fn world_labels(
    alloc: Global,
    names: &Names,
    decls: &Decls,
    labels: &[u8],
    parts: &mut Items<Tree>,
) -> Result<(), AllocError>
    ensures { OnOk result (parts.new ≡ parts.old ++ map (label_of names.now decls.now) labels.now) }
{
    for label in labels {
        parts.push(found::label(alloc, names, decls, *label)?)?;
    }
    Ok(())
}

/// The hooks of a world.
fn world_hooks(
    alloc: Global,
    names: &Names,
    decls: &Decls,
    hooks: &[u8],
    parts: &mut Items<Tree>,
) -> Result<(), AllocError>
    ensures { OnOk result (parts.new ≡ parts.old ++ map (hook_name names.now decls.now) hooks.now) }
{
    for hook in hooks {
        parts.push(found::hook(alloc, names, decls, *hook)?)?;
    }
    Ok(())
}

pub(crate) fn world(
    alloc: Global,
    names: &Names,
    decls: &Decls,
    world: &World,
) -> Result<Tree, AllocError>
    ensures { IfOk result (λ tree. tree ≡ world_of names.now decls.now world.now) }
{
    let mut labels = begin(alloc, "labels")?;
    world_labels(alloc, names, decls, world.labels.as_slice(), &mut labels)?;
    let mut hooks = begin(alloc, "hooks")?;
    world_hooks(alloc, names, decls, world.hooks.as_slice(), &mut hooks)?;
    let mut parts = begin(alloc, "world")?;
    parts.push(name(alloc, names, world.sym)?)?;
    parts.push(list(labels))?;
    parts.push(list(hooks))?;
    Ok(list(parts))
}

pub(crate) fn held(
    alloc: Global,
    names: &Names,
    decls: &Decls,
    held: &Invariant,
) -> Result<Tree, AllocError>
    ensures { IfOk result (λ tree. tree ≡ invariant_of names.now decls.now held.now) }
{
    let mut parts = begin(alloc, "invariant")?;
    parts.push(name(alloc, names, held.sym)?)?;
    parts.push(found::world(alloc, names, decls, held.world)?)?;
    parts.push(formula(alloc, names, decls, None, &held.formula)?)?;
    Ok(list(parts))
}

// ---- the deployment

/// Adds numbers behind the parts that are there.
fn add_numbers(values: &[i64], parts: &mut Items<Tree>) -> Result<(), AllocError>
    ensures { OnOk result (parts.new ≡ parts.old ++ map shown_number values.now) }
{
    for value in values {
        parts.push(number(*value))?;
    }
    Ok(())
}

/// What a node runs.
fn program(
    alloc: Global,
    names: &Names,
    decls: &Decls,
    program: &Program,
) -> Result<Tree, AllocError>
    ensures { IfOk result (λ tree. tree ≡ program_of names.now decls.now program.now) }
{
    let mut parts = Items::new(alloc);
    parts.push(found::node(alloc, names, decls, program.node)?)?;
    parts.push(found::procedure(alloc, names, decls, program.proc)?)?;
    add_numbers(program.constants.as_slice(), &mut parts)?;
    Ok(list(parts))
}

fn add_programs(
    alloc: Global,
    names: &Names,
    decls: &Decls,
    programs: &[Program],
    parts: &mut Items<Tree>,
) -> Result<(), AllocError>
    ensures { OnOk result (parts.new ≡ parts.old ++ map (program_of names.now decls.now) programs.now) }
{
    for one in programs {
        parts.push(program(alloc, names, decls, one)?)?;
    }
    Ok(())
}

pub(crate) fn deployment(
    alloc: Global,
    names: &Names,
    decls: &Decls,
    deploy: &Deploy,
) -> Result<Tree, AllocError>
    ensures { IfOk result (λ tree. tree ≡ deploy_of names.now decls.now deploy.now) }
{
    let mut parts = begin(alloc, "deploy")?;
    parts.push(found::world(alloc, names, decls, deploy.world)?)?;
    add_programs(alloc, names, decls, deploy.programs.as_slice(), &mut parts)?;
    Ok(list(parts))
}
