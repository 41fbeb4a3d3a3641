//! That what a step updates is in its sort.

ghost use Rattle.std.specs.Prelude.{◌≡◌, ◌++◌, ◌∷◌, [], filter, IfOk, OnOk};
ghost use Rattle.std.specs.Option.{option_copied};
ghost use Rattle.std.specs.List.{flat_map};
ghost use Rattle.dl_term.specs.declared.syntax.Term.{Num};
ghost use Rattle.dl_term.specs.declared.syntax.Formula.{Le};
ghost use Rattle.dl_sequent.specs.Bounds.{lies_in as lies, field_sort as sort_of_field, between as is_between, in_sort_formula};
ghost use Rattle.dl_wp.specs.Steps.{seen as seen_in};
ghost use Rattle.dl_inv.specs.Steps.{index_fits, value_fits, all_fit as all_that_fits};
ghost use Rattle.dl_inv.specs.Code.{says_something, step_in, update_said};

use crate::joined::{add_part, both, join};
use dl_model::{Instances, Protocol, Sequent, Update};
use dl_sequent::{bounds, node_sort};
use dl_term::{Formula, Sort, Term, copy_term};
use dl_wp::{Sight, seen};
use sqlite_items::Items;
use std::alloc::{AllocError, Global};

// A step of a protocol, and what is known of its terms.
#[derive(Clone, Copy)]
pub(crate) struct Scene<'a> {
    pub(crate) inst: &'a Instances,
    // The variables and the messages of the obligation.
    pub(crate) known: &'a Sequent,
    pub(crate) sight: Sight<'a>,
    pub(crate) protocol: Option<&'a Protocol>,
}

fn lies_in(within: Option<Sort>, sort: Sort) -> bool
    ensures { result ≡ lies within sort }
{
    match within {
        Some(within) => sort.low <= within.low && within.high <= sort.high,
        None => false,
    }
}

fn field_sort(protocol: Option<&Protocol>, field: u8) -> Option<Sort>
    ensures { result ≡ sort_of_field (option_copied protocol.entry) field }
{
    match protocol {
        Some(protocol) => protocol
            .fields
            .get(usize::from(field))
            .map(|field| field.sort),
        None => None,
    }
}

fn at_least(alloc: Global, low: i64, term: &Term) -> Result<Formula, AllocError>
    ensures { IfOk result (λ made. made ≡ Le (Num low) term.now) }
{
    let term = copy_term(alloc, term)?;
    Ok(Formula::Le(Term::Num(low), term))
}

fn at_most(alloc: Global, term: &Term, high: i64) -> Result<Formula, AllocError>
    ensures { IfOk result (λ made. made ≡ Le term.now (Num high)) }
{
    let term = copy_term(alloc, term)?;
    Ok(Formula::Le(term, Term::Num(high)))
}

// The term is at least the least number of the sort, and at most the greatest.
fn between(alloc: Global, sort: Sort, term: &Term) -> Result<Formula, AllocError>
    ensures { IfOk result (λ made. made ≡ is_between sort term.now) }
{
    let low = at_least(alloc, sort.low, term)?;
    match at_most(alloc, term, sort.high) {
        Ok(high) => both(alloc, low, high),
        Err(error) => {
            drop(low);
            Err(error)
        }
    }
}

/// The formula that says that the term is in the sort, `true` where its bounds tell that.
pub fn in_sort(
    alloc: Global,
    inst: &Instances,
    known: &Sequent,
    term: &Term,
    sort: Sort,
) -> Result<Formula, AllocError>
    ensures { IfOk result (λ made. made ≡ in_sort_formula inst.now known.now term.now sort) }
{
    if lies_in(bounds(inst, known, term), sort) {
        return Ok(Formula::True);
    }
    between(alloc, sort, term)
}

// Adds that a term of the step is in the sort.
fn add_seen(
    alloc: Global,
    parts: &mut Items<Formula>,
    scene: &Scene,
    term: &Term,
    sort: Sort,
) -> Result<(), AllocError>
    ensures { OnOk result (parts.new ≡ parts.old ++ filter says_something (in_sort_formula scene.now.inst.now scene.now.known.now term.now sort ∷ [])) }
{
    let formula = in_sort(alloc, scene.inst, scene.known, term, sort)?;
    add_part(parts, formula)
}

// Adds that a term of the protocol, as it stands in the step, is in the sort.
fn add_in_sort(
    alloc: Global,
    parts: &mut Items<Formula>,
    scene: &Scene,
    term: &Term,
    sort: Sort,
) -> Result<(), AllocError>
    ensures { OnOk result (parts.new ≡ parts.old ++ filter says_something (in_sort_formula scene.now.inst.now scene.now.known.now (seen_in (step_in scene.now.sight) term.now) sort ∷ [])) }
{
    let term = seen(alloc, &scene.sight, term)?;
    let added = add_seen(alloc, parts, scene, &term, sort);
    drop(term);
    added
}

// Adds that the index of an update is a node.
fn add_index(
    alloc: Global,
    parts: &mut Items<Formula>,
    scene: &Scene,
    index: &Option<Term>,
) -> Result<(), AllocError>
    ensures { OnOk result (parts.new ≡ parts.old ++ filter says_something (index_fits scene.now.inst.now scene.now.known.now (step_in scene.now.sight) index.now)) }
{
    match index {
        Some(index) => add_in_sort(alloc, parts, scene, index, node_sort(scene.inst)),
        None => Ok(()),
    }
}

// Adds that the value of an update is in the sort of its field.
fn add_value(
    alloc: Global,
    parts: &mut Items<Formula>,
    scene: &Scene,
    value: &Term,
    sort: Option<Sort>,
) -> Result<(), AllocError>
    ensures { OnOk result (parts.new ≡ parts.old ++ filter says_something (value_fits scene.now.inst.now scene.now.known.now (step_in scene.now.sight) value.now sort)) }
{
    match sort {
        Some(sort) => add_in_sort(alloc, parts, scene, value, sort),
        None => Ok(()),
    }
}

fn add_update(
    alloc: Global,
    parts: &mut Items<Formula>,
    scene: &Scene,
    update: &Update,
) -> Result<(), AllocError>
    ensures { OnOk result (parts.new ≡ parts.old ++ update_said scene.now update.now) }
{
    add_index(alloc, parts, scene, &update.index)?;
    let sort = field_sort(scene.protocol, update.field);
    add_value(alloc, parts, scene, &update.value, sort)
}

fn add_updates(
    alloc: Global,
    parts: &mut Items<Formula>,
    scene: &Scene,
    updates: &[Update],
) -> Result<(), AllocError>
    ensures { OnOk result (parts.new ≡ parts.old ++ flat_map (update_said scene.now) updates.now) }
{
    for update in updates {
        add_update(alloc, parts, scene, update)?;
    }
    Ok(())
}

/// The formula that says that what a step updates fits: each index is a node, and each value is in the sort of its field.
pub(crate) fn all_fit(
    alloc: Global,
    scene: &Scene,
    updates: &[Update],
) -> Result<Formula, AllocError>
    ensures { IfOk result (λ made. made ≡ all_that_fits scene.now.inst.now scene.now.known.now (step_in scene.now.sight) (option_copied scene.now.protocol) updates.now) }
{
    let mut parts = Items::new(alloc);
    add_updates(alloc, &mut parts, scene, updates)?;
    join(alloc, &mut parts)
}
