//! What an obligation may rely on: the coherences and the invariants of a world.

ghost use Rattle.std.specs.Prelude.{◌≡◌, ◌++◌, ◌∷◌, [], take, OnOk};
ghost use Rattle.std.specs.List.{flat_map, list_all};
ghost use Rattle.dl_model.specs.Lookup.{world_at, hook_at};
ghost use Rattle.dl_model.specs.Sorts.{has as has_position};
ghost use Rattle.dl_inv.specs.Steps.{called};
ghost use Rattle.dl_inv.specs.Facts.{coherence_at, facts_of, hook_agrees, injects as injects_world, label_name as name_of_label, visible_in};
ghost use Rattle.dl_inv.specs.Code.{world_with};

use crate::listed::find_protocol;
use dl_model::{Decls, Hypothesis, Invariant};
use dl_subst::at_label;
use dl_term::{Formula, copy_formula};
use sqlite_items::{Items, at};
use std::alloc::{AllocError, Global};

/// The labels and the hooks of a world.
#[derive(Clone, Copy)]
pub struct Extent<'a> {
    pub labels: &'a [u8],
    pub hooks: &'a [u8],
}

/// The extent of the world at a position, with nothing in it where there is no such world.
pub fn extent_of(decls: &Decls, world: u8) -> Extent<'_>
    ensures labels { result.labels.now ≡ (world_at decls.now world).labels }
    ensures hooks { result.hooks.now ≡ (world_at decls.now world).hooks }
{
    match at(decls.worlds.as_slice(), usize::from(world)) {
        Some(world) => Extent {
            labels: world.labels.as_slice(),
            hooks: world.hooks.as_slice(),
        },
        None => Extent {
            labels: &[],
            hooks: &[],
        },
    }
}

// ---- which worlds can be injected

fn has(positions: &[u8], position: u8) -> bool
    ensures { result ≡ has_position positions.now position }
{
    positions.iter().any(|other| position == *other)
}

// The client of a hook, or 0 where there is no such hook.
fn client_of(decls: &Decls, hook: u8) -> u8
    ensures { result ≡ (hook_at decls.now hook).client }
{
    match at(decls.hooks.as_slice(), usize::from(hook)) {
        Some(hook) => hook.client,
        None => 0,
    }
}

// Whether the hook is the small world's exactly where it is the large world's and its client is one of the small world's
// labels.
fn hook_agrees(decls: &Decls, small: &Extent, large: &Extent, hook: u8) -> bool
    ensures { result ≡ hook_agrees decls.now (world_with small.now) (world_with large.now) hook }
{
    let covered = has(large.hooks, hook) && has(small.labels, client_of(decls, hook));
    if has(small.hooks, hook) {
        covered
    } else {
        !covered
    }
}

fn labels_are_in(small: &Extent, large: &Extent) -> bool
    ensures { result ≡ list_all (has_position large.now.labels.now) small.now.labels.now }
{
    small.labels.iter().all(|label| has(large.labels, *label))
}

fn hooks_agree(decls: &Decls, small: &Extent, large: &Extent, hooks: &[u8]) -> bool
    ensures { result ≡ list_all (hook_agrees decls.now (world_with small.now) (world_with large.now)) hooks.now }
{
    hooks
        .iter()
        .all(|hook| hook_agrees(decls, small, large, *hook))
}

// Whether the small world can be injected into the large one.
fn injects(decls: &Decls, small: &Extent, large: &Extent) -> bool
    ensures { result ≡ injects_world decls.now (world_with small.now) (world_with large.now) }
{
    labels_are_in(small, large)
        && hooks_agree(decls, small, large, small.hooks)
        && hooks_agree(decls, small, large, large.hooks)
}

// ---- hypotheses

/// Adds a hypothesis of this name.
pub fn add_fact(
    facts: &mut Items<Hypothesis>,
    name: u32,
    formula: Formula,
) -> Result<(), AllocError>
    ensures { OnOk result (facts.new ≡ facts.old ++ called name formula ∷ []) }
{
    facts.push(Hypothesis { name, formula })
}

// The name of a label, or 0 where there is no such label.
fn label_name(decls: &Decls, label: u8) -> u32
    ensures { result ≡ name_of_label decls.now label }
{
    match at(decls.labels.as_slice(), usize::from(label)) {
        Some(name) => *name,
        None => 0,
    }
}

// Adds the coherence of a label, by the label's name.
fn add_coherence(
    alloc: Global,
    facts: &mut Items<Hypothesis>,
    decls: &Decls,
    label: u8,
) -> Result<(), AllocError>
    ensures { OnOk result (facts.new ≡ facts.old ++ coherence_at decls.now label) }
{
    let Some(protocol) = find_protocol(&decls.inst, label) else {
        return Ok(());
    };
    let Some(coherence) = &protocol.coherence else {
        return Ok(());
    };
    let formula = at_label(alloc, coherence, label)?;
    add_fact(facts, label_name(decls, label), formula)
}

fn add_coherences(
    alloc: Global,
    facts: &mut Items<Hypothesis>,
    decls: &Decls,
    labels: &[u8],
) -> Result<(), AllocError>
    ensures { OnOk result (facts.new ≡ facts.old ++ flat_map (coherence_at decls.now) labels.now) }
{
    for label in labels {
        add_coherence(alloc, facts, decls, *label)?;
    }
    Ok(())
}

// Adds an invariant by its name, where it is visible in the world.
fn add_if_visible(
    alloc: Global,
    facts: &mut Items<Hypothesis>,
    decls: &Decls,
    world: &Extent,
    invariant: &Invariant,
) -> Result<(), AllocError>
    ensures { OnOk result (facts.new ≡ facts.old ++ visible_in decls.now (world_with world.now) invariant.now) }
{
    if !injects(decls, &extent_of(decls, invariant.world), world) {
        return Ok(());
    }
    let formula = copy_formula(alloc, &invariant.formula)?;
    add_fact(facts, invariant.sym, formula)
}

fn add_visible(
    alloc: Global,
    facts: &mut Items<Hypothesis>,
    decls: &Decls,
    world: &Extent,
    invariants: &[Invariant],
) -> Result<(), AllocError>
    ensures { OnOk result (facts.new ≡ facts.old ++ flat_map (visible_in decls.now (world_with world.now)) invariants.now) }
{
    for invariant in invariants {
        add_if_visible(alloc, facts, decls, world, invariant)?;
    }
    Ok(())
}

// The first so many invariants.
fn first_invariants(invariants: &[Invariant], count: u8) -> &[Invariant]
    ensures { result.now ≡ take count invariants.now }
{
    &invariants[..usize::from(count).min(invariants.len())]
}

/// Adds the facts of a world, with the first so many invariants of the file.
pub fn add_facts(
    alloc: Global,
    facts: &mut Items<Hypothesis>,
    decls: &Decls,
    count: u8,
    world: &Extent,
) -> Result<(), AllocError>
    ensures { OnOk result (facts.new ≡ facts.old ++ facts_of decls.now count (world_with world.now)) }
{
    add_coherences(alloc, facts, decls, world.labels)?;
    let before = first_invariants(decls.invariants.as_slice(), count);
    add_visible(alloc, facts, decls, world, before)
}
