//! Which world can be injected into another.

ghost use Rattle.std.specs.Prelude.{◌≡◌, ◌↔◌, ◌≤◌, length, IsOk, not, if◌then◌else◌};
ghost use Rattle.dl_model.specs.Sorts.{has as has_position};
ghost use Rattle.dl_model.specs.Worlds.{Injects};
ghost use Rattle.dl_world.specs.Injected.{injection, first_lacking, first_uncovered, HooksAreDeclared};

use crate::positions::Positions;
use dl_model::{Decls, Hook, World};

/// Why a world can't be injected into another.
#[derive(Clone, Copy, Debug, PartialEq, Eq, Drop)]
pub enum InjectFault {
    /// The first label of the small world that the large one lacks.
    NoLabel(u8),
    /// The first declared hook that is in the small world and has its client outside it, or that has its client in the
    /// small world and is in one of the two worlds and not in the other.
    NotCovered(u8),
}

// The labels and the hooks of the small world, and the hooks of the large one.
#[derive(Drop)]
struct Sides<'a> {
    labels: Positions<'a>,
    ours: Positions<'a>,
    theirs: Positions<'a>,
}

impl<'a> Sides<'a> {
    // Whether the hook isn't covered.
    fn is_uncovered(&self, position: u8, hook: &Hook) -> bool
        ensures { result ≡ (if has_position self.now.labels hook.now.client then (if has_position self.now.ours position then not (has_position self.now.theirs position) else has_position self.now.theirs position) else has_position self.now.ours position) }
    {
        if self.labels.has(hook.client) {
            self.ours.has(position) != self.theirs.has(position)
        } else {
            self.ours.has(position)
        }
    }
}

/// Whether the small world can be injected into the large one: its labels are among those of the large one, and the
/// hooks of the large one whose client is one of its labels are exactly its own. A refusal names the first label that
/// lacks, and else the first hook that breaks this. It takes no memory, and one step for each label and each declared
/// hook.
///
/// The conditions are that the file declares at most 256 hooks, and the hooks of both worlds.
pub fn can_inject(decls: &Decls, small: &World, large: &World) -> Result<(), InjectFault>
    requires few { length decls.now.hooks ≤ 256 }
    requires small { HooksAreDeclared decls.now small.now }
    requires large { HooksAreDeclared decls.now large.now }
    ensures exact { result ≡ injection decls.now small.now large.now }
    ensures injects { IsOk result ↔ Injects decls.now small.now large.now }
{
    inject(decls, small, large)
}

fn inject(decls: &Decls, small: &World, large: &World) -> Result<(), InjectFault>
    requires { length decls.now.hooks ≤ 256 }
    ensures { result ≡ injection decls.now small.now large.now }
{
    match lacking(small, large) {
        Some(label) => Err(InjectFault::NoLabel(label)),
        None => match uncovered(decls, small, large) {
            Some(hook) => Err(InjectFault::NotCovered(hook)),
            None => Ok(()),
        },
    }
}

// The first label of the small world that the large one lacks.
fn lacking(small: &World, large: &World) -> Option<u8>
    ensures { result ≡ first_lacking small.now large.now }
{
    let labels = Positions::of(large.labels.as_slice());
    for label in small.labels.as_slice() {
        if !labels.has(*label) {
            return Some(*label);
        }
    }
    None
}

// The first declared hook that isn't covered.
fn uncovered(decls: &Decls, small: &World, large: &World) -> Option<u8>
    requires { length decls.now.hooks ≤ 256 }
    ensures { result ≡ first_uncovered decls.now small.now large.now }
{
    let sides = Sides {
        labels: Positions::of(small.labels.as_slice()),
        ours: Positions::of(small.hooks.as_slice()),
        theirs: Positions::of(large.hooks.as_slice()),
    };
    for (position, hook) in decls.hooks.as_slice().iter().enumerate() {
        if sides.is_uncovered(position as u8, hook) {
            return Some(position as u8);
        }
    }
    None
}
