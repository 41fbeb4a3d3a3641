//! What a file declares for its deployment.

ghost use Rattle.std.specs.Prelude.{◌≡◌, ◌↔◌, IsTrue, slice_get};
ghost use Rattle.std.specs.Option.{option_copied};
ghost use Rattle.dl_model.specs.Lookup.{composed as the_composed, deploy_of};
ghost use Rattle.dl_model.specs.Runs.{label_of_call as the_label};
ghost use Rattle.dl_model.specs.Sorts.{has};
ghost use Rattle.dl_history.specs.Taken.{IsDeclared};

use dl_model::{Call, Decls, Entry, Program, World};
use sqlite_items::at;

// The position of the world of the deployment. Without one it is the first.
fn world_of(decls: &Decls) -> u8
    ensures { result ≡ (deploy_of decls.now).world }
{
    match &decls.deploy {
        Some(deploy) => deploy.world,
        None => 0,
    }
}

// The programs of the deployment.
pub(crate) fn programs_of(decls: &Decls) -> &[Program]
    ensures { result.now ≡ (deploy_of decls.now).programs }
{
    match &decls.deploy {
        Some(deploy) => deploy.programs.as_slice(),
        None => &[],
    }
}

fn composed(decls: &Decls) -> Option<&World>
    ensures { option_copied result ≡ slice_get decls.now.worlds (deploy_of decls.now).world }
{
    at(decls.worlds.as_slice(), usize::from(world_of(decls)))
}

fn labels_of(decls: &Decls) -> &[u8]
    ensures { result.now ≡ (the_composed decls.now).labels }
{
    match composed(decls) {
        Some(world) => world.labels.as_slice(),
        None => &[],
    }
}

// The hooks of the composed world.
pub(crate) fn hooks_of(decls: &Decls) -> &[u8]
    ensures { result.now ≡ (the_composed decls.now).hooks }
{
    match composed(decls) {
        Some(world) => world.hooks.as_slice(),
        None => &[],
    }
}

fn label_of_call(call: &Call) -> u8
    ensures { result ≡ the_label call.now }
{
    match call {
        Call::Send { label, .. } => *label,
        Call::Poll { label, .. } => *label,
        Call::Await { label, .. } => *label,
        Call::Read { label, .. } => *label,
    }
}

fn has_label(labels: &[u8], label: u8) -> bool
    ensures { result ≡ has labels.now label }
{
    labels.iter().any(|known| label == *known)
}

// Whether the entry is one of a node, at a label of the composed world.
pub(crate) fn is_declared(decls: &Decls, entry: &Entry) -> bool
    ensures { IsTrue result ↔ IsDeclared decls.now entry.now }
{
    entry.node < decls.inst.nodes && has_label(labels_of(decls), label_of_call(&entry.call))
}
