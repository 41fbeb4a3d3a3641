//! Worlds that are injected into others.

ghost use Rattle.std.specs.Prelude.{◌≡◌, ◌≤◌, [], Some, Err, length};
ghost use Rattle.dl_model.specs.Lookup.{world_at, composed as composed_world};
ghost use Rattle.dl_world.specs.Injected.{HooksAreDeclared, injection};
ghost use Rattle.dl_faults.specs.Wrong.{earliest};
ghost use Rattle.dl_faults.specs.Injections.{injection_wrong};

use crate::wrong::{Named, Wrong};
use dl_model::{Decls, World};
use dl_tree::Place;
use dl_world::{InjectFault, can_inject};
use sqlite_items::{Items, at};
use std::alloc::Global;

fn refused(place: Place, fault: InjectFault) -> Wrong
    ensures { Some result ≡ earliest (injection_wrong place (Err fault)) }
{
    match fault {
        InjectFault::NoLabel(_) => Wrong {
            rule: 20,
            place,
            what: Named::Nothing,
        },
        InjectFault::NotCovered(hook) => Wrong {
            rule: 22,
            place,
            what: Named::Hook(hook),
        },
    }
}

/// What is wrong where something at this place asks for a world to be injected into another one.
pub(crate) fn injection_fault(
    decls: &Decls,
    place: Place,
    small: &World,
    large: &World,
) -> Option<Wrong>
    requires few { length decls.now.hooks ≤ 256 }
    requires small { HooksAreDeclared decls.now small.now }
    requires large { HooksAreDeclared decls.now large.now }
    ensures { result ≡ earliest (injection_wrong place (injection decls.now small.now large.now)) }
{
    match can_inject(decls, small, large) {
        Ok(()) => None,
        Err(fault) => Some(refused(place, fault)),
    }
}

/// The world with this number, or `none` where there is none.
pub(crate) fn world_of<'a>(decls: &'a Decls, world: u8, none: &'a World) -> &'a World
    requires { none.now ≡ record { sym = 0; labels = []; hooks = [] } }
    ensures { result.now ≡ world_at decls.now world }
{
    match at(decls.worlds.as_slice(), usize::from(world)) {
        Some(world) => world,
        None => none,
    }
}

/// The world of the deployment.
pub(crate) fn composed<'a>(decls: &'a Decls, none: &'a World) -> &'a World
    requires { none.now ≡ record { sym = 0; labels = []; hooks = [] } }
    ensures { result.now ≡ composed_world decls.now }
{
    match &decls.deploy {
        Some(deploy) => world_of(decls, deploy.world, none),
        None => world_of(decls, 0, none),
    }
}

/// A world without labels and hooks.
pub(crate) fn no_world(alloc: Global) -> World
    ensures { result ≡ record { sym = 0; labels = []; hooks = [] } }
{
    World {
        sym: 0,
        labels: Items::new(alloc),
        hooks: Items::new(alloc),
    }
}
