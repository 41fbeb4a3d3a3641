//! The first fault of a file's invariants: of their labels, and of what their worlds are injected into.

ghost use Rattle.std.specs.Prelude.{◌≡◌, ◌≤◌, [], IfOk, length};
ghost use Rattle.std.specs.List.{flat_map, enumerate_from};
ghost use Rattle.dl_model.specs.Formed.{IsFormed};
ghost use Rattle.dl_model.specs.Spoken.{labels_of as labels_in};
ghost use Rattle.dl_faults.specs.Wrong.{earliest};
ghost use Rattle.dl_faults.specs.Worlds.{label_wrong, invariant_wrong};

use crate::injections::{composed, injection_fault, world_of};
use crate::labels::labels_of;
use crate::places::{invariant_place, item, label_places};
use crate::spoken::labels_fault;
use crate::wrong::{Wrong, earlier_of};
use dl_file::File;
use dl_model::{Invariant, World};
use dl_term::Formula;
use std::alloc::{AllocError, Global};

// The first fault of the labels of the invariant with this number and formula.
fn spoken_fault(
    alloc: Global,
    file: &File,
    i: u8,
    world: &World,
    formula: &Formula,
) -> Result<Option<Wrong>, AllocError>
    ensures { IfOk result (λ found. found ≡ earliest (flat_map (label_wrong file.now i world.now) (enumerate_from 0 (labels_in formula.now)))) }
{
    let places = label_places(alloc, false, item(&file.tree, "invariant", i))?;
    let labels = labels_of(alloc, formula)?;
    let whole = invariant_place(&file.tree, i);
    Ok(labels_fault(24, world, whole, places.as_slice(), labels.as_slice()))
}

// ---- invariants

fn invariant_fault(
    alloc: Global,
    file: &File,
    none: &World,
    i: u8,
    invariant: &Invariant,
) -> Result<Option<Wrong>, AllocError>
    requires formed { IsFormed file.now.decls }
    requires none { none.now ≡ record { sym = 0; labels = []; hooks = [] } }
    ensures { IfOk result (λ found. found ≡ earliest (invariant_wrong file.now (i, invariant.now))) }
{
    let world = world_of(&file.decls, invariant.world, none);
    let large = composed(&file.decls, none);
    let spoken = spoken_fault(alloc, file, i, world, &invariant.formula)?;
    let place = invariant_place(&file.tree, i);
    Ok(earlier_of(spoken, injection_fault(&file.decls, place, world, large)))
}

/// The first fault of the invariants. `none` is a world without labels and hooks. Its only error is want of memory.
pub(crate) fn invariants_fault(
    alloc: Global,
    file: &File,
    none: &World,
) -> Result<Option<Wrong>, AllocError>
    requires formed { IsFormed file.now.decls }
    requires few { length file.now.decls.invariants ≤ 256 }
    requires none { none.now ≡ record { sym = 0; labels = []; hooks = [] } }
    ensures { IfOk result (λ found. found ≡ earliest (flat_map (invariant_wrong file.now) (enumerate_from 0 file.now.decls.invariants))) }
{
    let mut found = None;
    for (i, invariant) in file.decls.invariants.as_slice().iter().enumerate() {
        let one = invariant_fault(alloc, file, none, i as u8, invariant)?;
        found = earlier_of(found, one);
    }
    Ok(found)
}
