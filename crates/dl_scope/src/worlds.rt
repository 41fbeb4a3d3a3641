//! What a world shows.

ghost use Rattle.std.specs.Prelude.{◌≡◌, ◌++◌, ◌&&◌, [], unwrap_or, OnOk};
ghost use Rattle.std.specs.List.{list_all};
ghost use Rattle.std.specs.Option.{option_copied};
ghost use Rattle.dl_forms.specs.Context.{is_among};
ghost use Rattle.dl_notation.specs.Environment.{no_protocol, protocol_of};
ghost use Rattle.dl_notation.specs.Worlds.{coherent, composed, facts, is_injected, no_world, same_truth, united, visible, without, world_named};
ghost use Rattle.dl_scope.specs.Walked.{environment};

use crate::declared::World;
use crate::known::{protocol_of, world_named};
use crate::names::add_new;
use crate::text::Text;
use crate::walk::Walk;
use indexmap::IndexSet;
use sqlite_items::Items;
use std::alloc::{AllocError, Global};

/// Adds texts that aren't there. Its only error is want of memory, which it also answers for one that is there.
fn add_each<'a>(texts: &mut IndexSet<Text<'a>>, more: &[Text<'a>]) -> Result<(), AllocError>
    ensures { OnOk result (texts.new.keys ≡ texts.old.keys ++ more.now) }
{
    for text in more {
        add_new(texts, text.copy())?;
    }
    Ok(())
}

/// Adds those of the second list that aren't in the first set, each once. Its only error is want of memory, which
/// it also answers where one is there already.
fn add_without<'a>(
    texts: &mut IndexSet<Text<'a>>,
    first: &IndexSet<Text<'a>>,
    second: &[Text<'a>],
) -> Result<(), AllocError>
    ensures { OnOk result (texts.new.keys ≡ texts.old.keys ++ without first.now.keys second.now) }
{
    for text in second {
        if !first.contains(text) {
            add_new(texts, text.copy())?;
        }
    }
    Ok(())
}

/// Puts the texts of two sets into an empty one. Its only error is want of memory.
fn unite<'a>(
    texts: &mut IndexSet<Text<'a>>,
    first: &IndexSet<Text<'a>>,
    second: &IndexSet<Text<'a>>,
) -> Result<(), AllocError>
    requires { texts.old.keys ≡ [] }
    ensures { OnOk result (texts.new.keys ≡ united first.now.keys second.now.keys) }
{
    add_each(texts, first.as_slice())?;
    add_without(texts, first, second.as_slice())
}

/// Puts the labels and hooks of two worlds into an empty one. Its only error is want of memory.
fn compose<'a>(
    world: &mut World<'a>,
    first: &World<'a>,
    second: &World<'a>,
) -> Result<(), AllocError>
    requires { world.old ≡ no_world }
    ensures { OnOk result (world.new ≡ composed first.now second.now) }
{
    unite(&mut world.labels, &first.labels, &second.labels)?;
    unite(&mut world.hooks, &first.hooks, &second.hooks)
}

/// Puts the labels and hooks of two worlds, by their names, into an empty one. Its only error is want of
/// memory.
pub fn compose_named<'a>(
    walk: &Walk<'a>,
    alloc: Global,
    world: &mut World<'a>,
    first: &Text<'a>,
    second: &Text<'a>,
) -> Result<(), AllocError>
    requires { world.old ≡ no_world }
    ensures { OnOk result (world.new ≡ composed (world_named (environment walk.now) first.now) (world_named (environment walk.now) second.now)) }
{
    let none = World::empty(alloc);
    let first = world_or(world_named(walk, first), &none);
    let second = world_or(world_named(walk, second), &none);
    let result = compose(world, first, second);
    drop(none);
    result
}

/// The world, or another one where there is none.
fn world_or<'x, 'a>(world: Option<&'x World<'a>>, other: &'x World<'a>) -> &'x World<'a>
    ensures { result.now ≡ unwrap_or (option_copied world.entry) other.now }
{
    match world {
        Some(world) => world,
        None => other,
    }
}

/// Whether all of the texts are in the set.
fn all_among<'a>(texts: &[Text<'a>], others: &IndexSet<Text<'a>>) -> bool
    ensures { result ≡ list_all (λ text. is_among text others.now.keys) texts.now }
{
    for text in texts {
        if !others.contains(text) {
            return false;
        }
    }
    true
}

/// Whether the small world has the hook exactly where the large one has it and the client is one of its labels.
fn has_alike<'a>(small: &World<'a>, large: &World<'a>, hook: &Text<'a>, client: &Text<'a>) -> bool
    ensures { result ≡ same_truth (is_among hook.now small.now.hooks) (is_among hook.now large.now.hooks && is_among client.now small.now.labels) }
{
    let in_small = small.hooks.contains(hook);
    let wanted = large.hooks.contains(hook) && small.labels.contains(client);
    in_small == wanted
}

/// Whether the small world has its hooks as the large one has them.
fn all_alike<'a>(small: &World<'a>, large: &World<'a>, hooks: &[(Text<'a>, Text<'a>)]) -> bool
    ensures { result ≡ list_all (λ hook. same_truth (is_among hook.0 small.now.hooks) (is_among hook.0 large.now.hooks && is_among hook.1 small.now.labels)) hooks.now }
{
    for hook in hooks {
        if !has_alike(small, large, &hook.0, &hook.1) {
            return false;
        }
    }
    true
}

/// Whether the small world can be injected into the large one.
fn is_injected<'a>(walk: &Walk<'a>, small: &World<'a>, large: &World<'a>) -> bool
    ensures { result ≡ is_injected (environment walk.now) small.now large.now }
{
    all_among(small.labels.as_slice(), &large.labels)
        && all_alike(small, large, walk.hooks.as_slice())
}

/// Whether the invariants of a world, by its name, are visible in another world.
fn is_visible<'a>(walk: &Walk<'a>, none: &World<'a>, world: &World<'a>, name: &Text<'a>) -> bool
    requires { none.now ≡ no_world }
    ensures { result ≡ is_injected (environment walk.now) (world_named (environment walk.now) name.now) world.now }
{
    is_injected(walk, world_or(world_named(walk, name), none), world)
}

/// Adds the names of the invariants that are visible in the world. Its only error is want of memory.
pub(crate) fn add_visible<'a>(
    walk: &Walk<'a>,
    none: &World<'a>,
    world: &World<'a>,
    invariants: &[(Text<'a>, Text<'a>)],
    texts: &mut Items<Text<'a>>,
) -> Result<(), AllocError>
    requires { none.now ≡ no_world }
    ensures { OnOk result (texts.new ≡ texts.old ++ visible (environment walk.now) world.now invariants.now) }
{
    for invariant in invariants {
        if is_visible(walk, none, world, &invariant.1) {
            texts.push(invariant.0.copy())?;
        }
    }
    Ok(())
}

/// Whether the label's protocol has a coherence.
fn is_coherent<'a>(walk: &Walk<'a>, label: &Text<'a>) -> bool
    ensures { result ≡ (unwrap_or (protocol_of (environment walk.now) label.now) no_protocol).is_coherent }
{
    match protocol_of(walk, label) {
        Some(protocol) => protocol.is_coherent,
        None => false,
    }
}

/// Adds the labels that have a coherence. Its only error is want of memory.
pub(crate) fn add_coherent<'a>(
    walk: &Walk<'a>,
    labels: &[Text<'a>],
    texts: &mut Items<Text<'a>>,
) -> Result<(), AllocError>
    ensures { OnOk result (texts.new ≡ texts.old ++ coherent (environment walk.now) labels.now) }
{
    for label in labels {
        if is_coherent(walk, label) {
            texts.push(label.copy())?;
        }
    }
    Ok(())
}

/// Adds what an obligation in the world of this name knows besides its own hypotheses. Its only error is want
/// of memory.
pub(crate) fn add_facts_of<'a>(
    walk: &Walk<'a>,
    alloc: Global,
    name: &Text<'a>,
    texts: &mut Items<Text<'a>>,
) -> Result<(), AllocError>
    ensures { OnOk result (texts.new ≡ texts.old ++ facts (environment walk.now) (world_named (environment walk.now) name.now)) }
{
    let none = World::empty(alloc);
    let world = world_or(world_named(walk, name), &none);
    let result = add_parts(walk, &none, world, walk.invariants.as_slice(), texts);
    drop(none);
    result
}

/// Adds what the world of an invariant, by its name, shows before it: the labels that have a coherence, and the
/// invariants before it that are visible. Its only error is want of memory.
pub(crate) fn add_facts_before<'a>(
    walk: &Walk<'a>,
    alloc: Global,
    name: &Text<'a>,
    invariants: &[(Text<'a>, Text<'a>)],
    texts: &mut Items<Text<'a>>,
) -> Result<(), AllocError>
    ensures { OnOk result (texts.new ≡ texts.old ++ coherent (environment walk.now) (world_named (environment walk.now) name.now).labels ++ visible (environment walk.now) (world_named (environment walk.now) name.now) invariants.now) }
{
    let none = World::empty(alloc);
    let world = world_or(world_named(walk, name), &none);
    let result = add_parts(walk, &none, world, invariants, texts);
    drop(none);
    result
}

/// Adds the labels of the world that have a coherence, and those of the invariants that are visible in it. Its
/// only error is want of memory.
fn add_parts<'a>(
    walk: &Walk<'a>,
    none: &World<'a>,
    world: &World<'a>,
    invariants: &[(Text<'a>, Text<'a>)],
    texts: &mut Items<Text<'a>>,
) -> Result<(), AllocError>
    requires { none.now ≡ no_world }
    ensures { OnOk result (texts.new ≡ texts.old ++ coherent (environment walk.now) world.now.labels ++ visible (environment walk.now) world.now invariants.now) }
{
    add_coherent(walk, world.labels.as_slice(), texts)?;
    add_visible(walk, none, world, invariants, texts)
}
