//! Whether hooks, worlds, invariants and the deployment are formed.

ghost use Rattle.std.specs.Prelude.{◌≡◌, IfOk};
ghost use Rattle.dl_formed.specs.Decided.{are_distinct, are_below, hook_scope, has_labels, has_tag, hook_is_formed, world_is_formed, invariant_is_formed};
ghost use Rattle.dl_formed.specs.Known.{is_formula_of_step};

use crate::collect::{numbers_of, variables_with};
use crate::formulas;
use crate::names::{are_distinct, are_names};
use crate::protocols::TO;
use crate::scope::{Known, Labels, in_file};
use crate::terms::ME;
use dl_model::{Hook, Instances, Invariant, World};
use dl_term::Lab;
use sqlite_items::at;
use std::alloc::{AllocError, Global};

// Whether the hook is formed.
pub(crate) fn hook_is_formed(
    alloc: Global,
    hook: &Hook,
    inst: &Instances,
) -> Result<bool, AllocError>
    ensures { IfOk result (λ formed. formed ≡ hook_is_formed inst.now hook.now) }
{
    if !has_labels(hook, inst) {
        return Ok(false);
    }
    if !has_tag(hook, inst) {
        return Ok(false);
    }
    if !are_names(hook.args.as_slice()) {
        return Ok(false);
    }
    condition_is_formed(alloc, hook, inst)
}

fn has_labels(hook: &Hook, inst: &Instances) -> bool
    ensures { result ≡ has_labels inst.now hook.now }
{
    usize::from(hook.core) < inst.of.len() && usize::from(hook.client) < inst.of.len()
}

// Whether the client has the tag, with as many arguments as the hook.
fn has_tag(hook: &Hook, inst: &Instances) -> bool
    ensures { result ≡ has_tag inst.now hook.now }
{
    match in_file(inst, Lab::At(hook.client)) {
        Some(protocol) => match at(protocol.tags.as_slice(), usize::from(hook.tag)) {
            Some(tag) => hook.args.len() == tag.args.len(),
            None => false,
        },
        None => false,
    }
}

fn condition_is_formed(alloc: Global, hook: &Hook, inst: &Instances) -> Result<bool, AllocError>
    ensures { IfOk result (λ formed. formed ≡ is_formula_of_step (hook_scope inst.now hook.now) hook.now.formula) }
{
    let variables = variables_with(alloc, ME, TO, hook.args.as_slice())?;
    let formed = formulas::is_formula_of_step(
        &hook.formula,
        &Known::Base(Labels::Hooked(inst, hook), variables.as_slice()),
    );
    drop(variables);
    Ok(formed)
}

// Whether the world is formed, in a file of so many labels and hooks.
pub(crate) fn world_is_formed(
    alloc: Global,
    world: &World,
    labels: usize,
    hooks: usize,
) -> Result<bool, AllocError>
    ensures { IfOk result (λ formed. formed ≡ world_is_formed labels hooks world.now) }
{
    if !are_below(world.labels.as_slice(), labels) {
        return Ok(false);
    }
    if !are_below(world.hooks.as_slice(), hooks) {
        return Ok(false);
    }
    if !positions_are_distinct(alloc, world.labels.as_slice())? {
        return Ok(false);
    }
    positions_are_distinct(alloc, world.hooks.as_slice())
}

// Whether each position is one of so many items.
pub(crate) fn are_below(positions: &[u8], count: usize) -> bool
    ensures { result ≡ are_below count positions.now }
{
    for position in positions {
        if count <= usize::from(*position) {
            return false;
        }
    }
    true
}

fn positions_are_distinct(alloc: Global, positions: &[u8]) -> Result<bool, AllocError>
    ensures { IfOk result (λ distinct. distinct ≡ are_distinct positions.now) }
{
    let numbers = numbers_of(alloc, positions)?;
    let distinct = are_distinct(numbers.as_slice());
    drop(numbers);
    Ok(distinct)
}

// Whether the invariant is formed, in a file of so many worlds.
pub(crate) fn invariant_is_formed(invariant: &Invariant, inst: &Instances, worlds: usize) -> bool
    ensures { result ≡ invariant_is_formed inst.now worlds invariant.now }
{
    usize::from(invariant.world) < worlds
        && formulas::is_formula(&invariant.formula, &Known::Base(Labels::File(inst), &[]))
}
