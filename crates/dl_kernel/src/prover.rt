//! The replay of a script.

ghost use Rattle.std.specs.Prelude.{◌≡◌, [], true, Ok, IfOk};
ghost use Rattle.dl_model.specs.Formed.{InstancesAreFormed};
ghost use Rattle.dl_model.specs.Sequents.{IsValid};
ghost use Rattle.dl_sequent.specs.Clean.{is_clean};
ghost use Rattle.dl_kernel.specs.Steps.{closes};
ghost use Rattle.dl_kernel.specs.Outcome.{fault, fault_of, IsAnswer};
ghost use Rattle.dl_kernel.specs.Seen.{one_if, two_if, AllClean, SameStep, kept_one, kept_small, kept_first, AfterOne, AfterFirst};
ghost use Rattle.dl_kernel.specs.Kinds.{has_one_script};

use crate::certificates::is_refuted_by;
use crate::changes::{range, reduce, rewrite};
use crate::fault::KernelFault;
use crate::made::StepFault;
use crate::quantifiers::{give, inst as instantiate, open, unpack};
use crate::rules::{apply, cases, decide, have, intro, is_by, is_closed, parts, pick, split};
use dl_model::{Instances, Sequent};
use dl_sequent::{Rule, Script, is_too_large};
use dl_tree::Place;
use std::alloc::{AllocError, Global};

/// Whether the script proves the sequent, which is valid then.
///
/// The rules are looked at in preorder, and the first one that is refused is answered. `RuleFails` comes exactly where
/// its condition fails, which it does too where it would leave a sequent that isn't clean. `Limit` comes exactly where
/// its condition holds and it leaves a sequent of more than 1,000,000 parts, or one with a formula that nests more than
/// 4,000 deep. `Memory` comes only where memory is refused.
pub fn replay(
    alloc: Global,
    inst: &Instances,
    sequent: Sequent,
    script: &Script,
) -> Result<(), KernelFault>
    requires formed { InstancesAreFormed inst.now }
    requires clean { is_clean sequent ≡ true }
    ensures valid { result ≡ Ok tt → IsValid inst.now sequent }
    ensures refused { IsAnswer result (fault inst.now script.now.rule script.now.place sequent) }
{
    let mut sequent = sequent;
    let answer = prove(alloc, inst, &mut sequent, script);
    drop(sequent);
    answer
}

// A rule that closes the goal, or that has two sub-scripts. The others come after it.
#[cycle(prove)]
#[tactic(auto, unfolding(crate::specs::Opened::opened))]
fn prove(
    alloc: Global,
    inst: &Instances,
    sequent: &mut Sequent,
    script: &Script,
) -> Result<(), KernelFault>
    requires clean { is_clean sequent.old ≡ true }
    ensures { IsAnswer result (fault inst.now script.now.rule script.now.place sequent.old) }
{
    let place = script.place;
    match &script.rule {
        Rule::By { hyp } => end(place, is_by(sequent, *hyp)),
        Rule::Close => end(place, is_closed(sequent)),
        Rule::Linear { first, second } => match is_refuted_by(alloc, sequent, first, second) {
            Ok(fine) => end(place, fine),
            Err(_) => Err(KernelFault::Memory),
        },
        Rule::Split { left, right } => {
            let one = split(alloc, sequent);
            match prove_first(alloc, inst, place, one, left.get(), sequent) {
                Ok(()) => prove(alloc, inst, sequent, right.get()),
                Err(fault) => Err(fault),
            }
        }
        Rule::Cases {
            hyp,
            name,
            left,
            right,
        } => {
            let one = cases(alloc, sequent, *hyp, *name);
            match prove_first(alloc, inst, place, one, left.get(), sequent) {
                Ok(()) => prove(alloc, inst, sequent, right.get()),
                Err(fault) => Err(fault),
            }
        }
        Rule::Apply {
            hyp,
            name,
            first,
            then,
        } => {
            let one = apply(alloc, sequent, *hyp, *name);
            match prove_first(alloc, inst, place, one, first.get(), sequent) {
                Ok(()) => prove(alloc, inst, sequent, then.get()),
                Err(fault) => Err(fault),
            }
        }
        Rule::Have {
            formula,
            name,
            first,
            then,
        } => {
            let one = have(alloc, sequent, formula, *name);
            match prove_first(alloc, inst, place, one, first.get(), sequent) {
                Ok(()) => prove(alloc, inst, sequent, then.get()),
                Err(fault) => Err(fault),
            }
        }
        Rule::Decide {
            formula,
            name,
            yes,
            no,
        } => {
            let one = decide(alloc, sequent, formula, *name);
            match prove_first(alloc, inst, place, one, yes.get(), sequent) {
                Ok(()) => prove(alloc, inst, sequent, no.get()),
                Err(fault) => Err(fault),
            }
        }
        _ => prove_with_one(alloc, inst, sequent, script),
    }
}

// A rule with one sub-script.
#[cycle(prove)]
#[tactic(auto, unfolding(crate::specs::Opened::opened))]
fn prove_with_one(
    alloc: Global,
    inst: &Instances,
    sequent: &mut Sequent,
    script: &Script,
) -> Result<(), KernelFault>
    requires clean { is_clean sequent.old ≡ true }
    requires one { has_one_script script.now.rule ≡ true }
    ensures { IsAnswer result (fault inst.now script.now.rule script.now.place sequent.old) }
{
    let place = script.place;
    match &script.rule {
        Rule::Pick { part, then } => {
            let made = Ok(pick(sequent, *part));
            prove_one(alloc, inst, place, made, sequent, then.get())
        }
        Rule::Intro { name, then } => {
            let made = or_memory(intro(sequent, *name));
            prove_one(alloc, inst, place, made, sequent, then.get())
        }
        Rule::Open { var, then } => {
            let made = open(alloc, inst, sequent, *var);
            prove_one(alloc, inst, place, made, sequent, then.get())
        }
        Rule::Give { what, then } => {
            let made = give(alloc, inst, sequent, what);
            prove_one(alloc, inst, place, made, sequent, then.get())
        }
        Rule::Parts {
            hyp,
            left,
            right,
            then,
        } => {
            let made = or_memory(parts(alloc, sequent, *hyp, *left, *right));
            prove_one(alloc, inst, place, made, sequent, then.get())
        }
        Rule::Inst {
            hyp,
            what,
            name,
            then,
        } => {
            let made = instantiate(alloc, inst, sequent, *hyp, what, *name);
            prove_one(alloc, inst, place, made, sequent, then.get())
        }
        Rule::Unpack {
            hyp,
            var,
            name,
            then,
        } => {
            let made = unpack(alloc, inst, sequent, *hyp, *var, *name);
            prove_one(alloc, inst, place, made, sequent, then.get())
        }
        Rule::Rewrite { hyp, at, then } => {
            let made = rewrite(alloc, sequent, *hyp, *at);
            prove_one(alloc, inst, place, made, sequent, then.get())
        }
        Rule::Reduce { hyp, at, then } => {
            let made = or_memory(reduce(alloc, sequent, *hyp, *at));
            prove_one(alloc, inst, place, made, sequent, then.get())
        }
        Rule::Range { term, name, then } => {
            let made = or_memory(range(alloc, inst, sequent, term, *name));
            prove_one(alloc, inst, place, made, sequent, then.get())
        }
        _ => unreachable!(),
    }
}

// A rule that closes the goal where the test passes.
fn end(place: Place, test: bool) -> Result<(), KernelFault>
    ensures { IsAnswer result (fault_of place [] (closes test)) }
{
    if test {
        Ok(())
    } else {
        Err(KernelFault::RuleFails { place })
    }
}

fn or_memory(made: Result<bool, AllocError>) -> Result<bool, StepFault>
    ensures { SameStep result made }
{
    match made {
        Ok(fine) => Ok(fine),
        Err(_) => Err(StepFault::Memory),
    }
}

// Whether a rule with one sub-script is made, and leaves no sequent that is too large.
fn goes_on(
    place: Place,
    made: Result<bool, StepFault>,
    sequent: &Sequent,
) -> Result<(), KernelFault>
    ensures { result ≡ kept_one place made sequent.now }
{
    match made {
        Ok(true) => {}
        Ok(false) => return Err(KernelFault::RuleFails { place }),
        Err(StepFault::Limit) => return Err(KernelFault::Limit { place }),
        Err(StepFault::Memory) => return Err(KernelFault::Memory),
    }
    if is_too_large(sequent) {
        return Err(KernelFault::Limit { place });
    }
    Ok(())
}

// The one sequent that a rule leaves.
#[cycle(prove)]
fn prove_one(
    alloc: Global,
    inst: &Instances,
    place: Place,
    made: Result<bool, StepFault>,
    sequent: &mut Sequent,
    then: &Script,
) -> Result<(), KernelFault>
    requires clean { IfOk made (λ fine. AllClean (one_if fine sequent.old)) }
    ensures { AfterOne result place (fault inst.now then.now.rule then.now.place) made sequent.old }
{
    match goes_on(place, made, sequent) {
        Ok(()) => prove(alloc, inst, sequent, then),
        Err(fault) => Err(fault),
    }
}

// The first sequent of two, where neither one is too large.
fn first_of_two(
    place: Place,
    one: Result<Option<Sequent>, AllocError>,
    other: &Sequent,
) -> Result<Sequent, KernelFault>
    ensures { result ≡ kept_first place one other.now }
{
    match one {
        Ok(Some(one)) => small_first(place, one, other),
        Ok(None) => Err(KernelFault::RuleFails { place }),
        Err(_) => Err(KernelFault::Memory),
    }
}

fn small_first(place: Place, one: Sequent, other: &Sequent) -> Result<Sequent, KernelFault>
    ensures { result ≡ kept_small place one other.now }
{
    if is_too_large(&one) || is_too_large(other) {
        Err(KernelFault::Limit { place })
    } else {
        Ok(one)
    }
}

// The first sequent of the two that a rule leaves, with what is looked at before it.
#[cycle(prove)]
fn prove_first(
    alloc: Global,
    inst: &Instances,
    place: Place,
    one: Result<Option<Sequent>, AllocError>,
    first: &Script,
    other: &Sequent,
) -> Result<(), KernelFault>
    requires clean { IfOk one (λ s. AllClean (two_if s other.now)) }
    ensures { AfterFirst result place (fault inst.now first.now.rule first.now.place) one other.now }
{
    match first_of_two(place, one, other) {
        Ok(mut one) => {
            let answer = prove(alloc, inst, &mut one, first);
            // By a call, since each shape of a formula would else be a branch of this function.
            drop(one);
            answer
        }
        Err(fault) => Err(fault),
    }
}
