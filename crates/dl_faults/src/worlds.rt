//! The first fault of a file's worlds.

ghost use Rattle.std.specs.Prelude.{◌≡◌, ◌≤◌, ◌&&◌, [], IfOk, length};
ghost use Rattle.std.specs.List.{flat_map, enumerate_from};
ghost use Rattle.dl_model.specs.Sorts.{has as has_position};
ghost use Rattle.dl_model.specs.Lookup.{hook_at};
ghost use Rattle.dl_model.specs.Formed.{IsFormed};
ghost use Rattle.dl_faults.specs.Wrong.{earliest};
ghost use Rattle.dl_faults.specs.Worlds.{hook_wrong, world_wrong, declared_wrongs, world_wrongs, world_fault as fault_of_worlds};

use crate::injections::no_world;
use crate::invariants::invariants_fault;
use crate::places::hook_place;
use crate::programs::programs_fault;
use crate::wrong::{Named, Wrong, earlier_of};
use dl_file::File;
use dl_model::{Decls, World};
use std::alloc::{AllocError, Global};

/// Whether the list has the position.
pub(crate) fn has(positions: &[u8], n: u8) -> bool
    ensures { result ≡ has_position positions.now n }
{
    for position in positions {
        if n == *position {
            return true;
        }
    }
    false
}

/// Whether the core and the client of a hook are labels of the world. A hook that isn't there has label 0 for both.
fn is_inside(decls: &Decls, world: &World, hook: u8) -> bool
    ensures { result ≡ (has_position world.now.labels (hook_at decls.now hook).core && has_position world.now.labels (hook_at decls.now hook).client) }
{
    let labels = world.labels.as_slice();
    match decls.hooks.as_slice().get(hook as usize) {
        Some(hook) => has(labels, hook.core) && has(labels, hook.client),
        None => has(labels, 0) && has(labels, 0),
    }
}

fn hook_fault(file: &File, w: u8, world: &World, position: usize, hook: u8) -> Option<Wrong>
    ensures { result ≡ earliest (hook_wrong file.now w world.now (position, hook)) }
{
    if is_inside(&file.decls, world, hook) {
        return None;
    }
    Some(Wrong {
        rule: 21,
        place: hook_place(&file.tree, w, position),
        what: Named::Nothing,
    })
}

/// The first fault of the hooks of a world, whose number is given.
fn hooks_fault(file: &File, w: u8, world: &World) -> Option<Wrong>
    ensures { result ≡ earliest (world_wrong file.now (w, world.now)) }
{
    let mut found = None;
    for (position, hook) in world.hooks.as_slice().iter().enumerate() {
        found = earlier_of(found, hook_fault(file, w, world, position, *hook));
    }
    found
}

/// The first fault of the hooks of all worlds. It takes no memory.
///
/// The condition is that the file declares at most 256 worlds.
pub fn hooks_of_worlds_fault(file: &File) -> Option<Wrong>
    requires { length file.now.decls.worlds ≤ 256 }
    ensures { result ≡ earliest (flat_map (world_wrong file.now) (enumerate_from 0 file.now.decls.worlds)) }
{
    let mut found = None;
    for (w, world) in file.decls.worlds.as_slice().iter().enumerate() {
        found = earlier_of(found, hooks_fault(file, w as u8, world));
    }
    found
}

// The first fault of the worlds and the invariants.
fn declared_fault(alloc: Global, file: &File, none: &World) -> Result<Option<Wrong>, AllocError>
    requires formed { IsFormed file.now.decls }
    requires none { none.now ≡ record { sym = 0; labels = []; hooks = [] } }
    ensures { IfOk result (λ found. found ≡ earliest (declared_wrongs file.now)) }
{
    let of_hooks = hooks_of_worlds_fault(file);
    let of_invariants = invariants_fault(alloc, file, none)?;
    Ok(earlier_of(of_hooks, of_invariants))
}

// And of the procedures and the deployment.
fn fault_among(alloc: Global, file: &File, none: &World) -> Result<Option<Wrong>, AllocError>
    requires formed { IsFormed file.now.decls }
    requires none { none.now ≡ record { sym = 0; labels = []; hooks = [] } }
    ensures { IfOk result (λ found. found ≡ earliest (world_wrongs file.now)) }
{
    let of_declared = declared_fault(alloc, file, none)?;
    let of_programs = programs_fault(alloc, file, none)?;
    Ok(earlier_of(of_declared, of_programs))
}

/// The first fault of a file's worlds: a hook whose core or client is outside its world (rule 21), of each invariant and each
/// procedure a label outside its world (24 and 20), what a call holds on to on a label of its callee (23), or the world of an
/// invariant, a callee or a program that can't be injected where it is asked for, for a label (20) or a hook (22) that is
/// named.
///
/// The condition is that the declarations are formed. The only error is want of memory.
pub fn world_fault(alloc: Global, file: &File) -> Result<Option<Wrong>, AllocError>
    requires { IsFormed file.now.decls }
    ensures { IfOk result (λ found. found ≡ fault_of_worlds file.now) }
{
    let none = no_world(alloc);
    let found = fault_among(alloc, file, &none);
    drop(none);
    found
}
