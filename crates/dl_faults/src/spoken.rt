//! Labels of formulas that are outside a world, or inside one.

ghost use Rattle.std.specs.Prelude.{◌≡◌, IfOk};
ghost use Rattle.std.specs.List.{flat_map, enumerate_from};
ghost use Rattle.dl_model.specs.Worlds.{is_label_of as is_one_of};
ghost use Rattle.dl_faults.specs.declared.wrong.Named.TheVariants.{Label};
ghost use Rattle.dl_faults.specs.Wrong.{earliest, naming};
ghost use Rattle.dl_faults.specs.Code.{label_wrong_among, place_among, touched_wrong_among};
ghost use Rattle.dl_faults.specs.Programs.{formula_wrong, frame_wrong, touching_wrong};

use crate::labels::labels_of;
use crate::places::{label_places, label_word};
use crate::worlds::has;
use crate::wrong::{Named, Wrong, earlier_of};
use dl_model::World;
use dl_term::{Formula, Lab};
use dl_tree::{Place, Tree};
use std::alloc::{AllocError, Global};

fn is_label_of(world: &World, label: Lab) -> bool
    ensures { result ≡ is_one_of world.now label }
{
    match label {
        Lab::Own => false,
        Lab::At(position) => has(world.labels.as_slice(), position),
    }
}

/// The place with this number, or that of the whole where there is none.
fn place_at(whole: Place, places: &[Place], n: usize) -> Place
    ensures { result ≡ place_among whole places.now n }
{
    match places.get(n) {
        Some(place) => *place,
        None => whole,
    }
}

fn label_fault(
    rule: u8,
    world: &World,
    whole: Place,
    places: &[Place],
    n: usize,
    label: Lab,
) -> Option<Wrong>
    ensures { result ≡ earliest (label_wrong_among rule world.now whole places.now (n, label)) }
{
    if is_label_of(world, label) {
        return None;
    }
    Some(Wrong {
        rule,
        place: place_at(whole, places, n),
        what: Named::Nothing,
    })
}

/// The first of these labels, which stand at these places, that is none of the world's: it breaks this rule.
pub(crate) fn labels_fault(
    rule: u8,
    world: &World,
    whole: Place,
    places: &[Place],
    labels: &[Lab],
) -> Option<Wrong>
    ensures { result ≡ earliest (flat_map (label_wrong_among rule world.now whole places.now) (enumerate_from 0 labels.now)) }
{
    let mut found = None;
    for (n, label) in labels.iter().enumerate() {
        found = earlier_of(found, label_fault(rule, world, whole, places, n, *label));
    }
    found
}

/// The first label of a formula, which stands at this tree, that is none of the world's (rule 20). Its only error is want of
/// memory.
pub(crate) fn formula_fault(
    alloc: Global,
    world: &World,
    tree: &Tree,
    formula: &Formula,
) -> Result<Option<Wrong>, AllocError>
    ensures { IfOk result (λ found. found ≡ earliest (formula_wrong world.now tree.now formula.now)) }
{
    let places = label_places(alloc, true, tree)?;
    let labels = labels_of(alloc, formula)?;
    let whole = label_word(tree).place();
    Ok(labels_fault(20, world, whole, places.as_slice(), labels.as_slice()))
}

// ---- frames

fn touching(place: Place, label: u8) -> Wrong
    ensures { result ≡ naming 23 place (Label label) }
{
    Wrong {
        rule: 23,
        place,
        what: Named::Label(label),
    }
}

// A label that is the callee's.
fn touching_fault(callee: &World, place: Place, label: Lab) -> Option<Wrong>
    ensures { result ≡ earliest (touching_wrong callee.now place label) }
{
    match label {
        Lab::Own => None,
        Lab::At(position) => {
            if has(callee.labels.as_slice(), position) {
                Some(touching(place, position))
            } else {
                None
            }
        }
    }
}

fn touched_fault(
    callee: &World,
    whole: Place,
    places: &[Place],
    n: usize,
    label: Lab,
) -> Option<Wrong>
    ensures { result ≡ earliest (touched_wrong_among callee.now whole places.now (n, label)) }
{
    let place = place_at(whole, places, n);
    touching_fault(callee, place, label)
}

fn each_touched_fault(
    callee: &World,
    whole: Place,
    places: &[Place],
    labels: &[Lab],
) -> Option<Wrong>
    ensures { result ≡ earliest (flat_map (touched_wrong_among callee.now whole places.now) (enumerate_from 0 labels.now)) }
{
    let mut found = None;
    for (n, label) in labels.iter().enumerate() {
        found = earlier_of(found, touched_fault(callee, whole, places, n, *label));
    }
    found
}

/// The first label of what a call holds on to, which stands at this tree, that is one of the callee's world (rule 23). Its
/// only error is want of memory.
pub(crate) fn frame_fault(
    alloc: Global,
    callee: &World,
    tree: &Tree,
    frame: &Formula,
) -> Result<Option<Wrong>, AllocError>
    ensures { IfOk result (λ found. found ≡ earliest (frame_wrong callee.now tree.now frame.now)) }
{
    let places = label_places(alloc, false, tree)?;
    let labels = labels_of(alloc, frame)?;
    let whole = tree.place();
    Ok(each_touched_fault(callee, whole, places.as_slice(), labels.as_slice()))
}
