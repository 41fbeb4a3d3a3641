//! What is wrong with one obligation.

ghost use Rattle.std.specs.Prelude.{◌≡◌, true, Some, None, IfOk};
ghost use Rattle.dl_model.specs.Formed.{InstancesAreFormed};
ghost use Rattle.dl_sequent.specs.Clean.{is_clean};
ghost use Rattle.dl_sequent.specs.Plain.{is_plain_sequent};
ghost use Rattle.dl_kernel.specs.Outcome.{fault as first_refused};
ghost use Rattle.dl_faults.specs.Wrong.{naming, unless, earliest};
ghost use Rattle.dl_faults.specs.Obligations.{duty_place as place_of_duty, duty_wrong, proof_of as proof_for, proof_wrong, script_wrong};
ghost use Rattle.dl_faults.specs.declared.wrong.Named.TheVariants.{Obligation};
ghost use Rattle.dl_faults.specs.Given.{FileIsFormed};
ghost use Rattle.dl_verdict.specs.Code.{IsBuiltFor, IsCleanFor, IsKnown, IsRefusedAs};
ghost use Rattle.dl_inv.specs.declared.sequents.BuildFault.TheVariants as unbuilt;

use crate::known::{Known, duty_place, proof_of};
use crate::spare::spare_names;
use crate::whole::build;
use dl_faults::{Named, Wrong};
use dl_file::Proof;
use dl_inv::BuildFault;
use dl_kernel::{KernelFault, replay};
use dl_model::{Instances, Sequent};
use dl_sequent::{Duty, Script, plain};
use std::alloc::{AllocError, Global};

fn at_duty(alloc: Global, known: &Known, rule: u8, duty: Duty) -> Result<Wrong, AllocError>
    requires { IsKnown known.now }
    ensures { IfOk result (λ wrong. wrong ≡ naming rule (place_of_duty known.now.file.now duty) (Obligation duty)) }
{
    let place = duty_place(alloc, known, duty)?;
    Ok(Wrong {
        rule,
        place,
        what: Named::Obligation(duty),
    })
}

// Of an obligation that was not built: it is too large.
fn not_built(
    alloc: Global,
    known: &Known,
    duty: Duty,
    fault: BuildFault,
) -> Result<Option<Wrong>, AllocError>
    requires { IsKnown known.now }
    ensures { IfOk result (λ found. (fault ≡ unbuilt.Limit) × (found ≡ Some (naming 33 (place_of_duty known.now.file.now duty) (Obligation duty)))) }
{
    match fault {
        BuildFault::Limit => {
            let wrong = at_duty(alloc, known, 33, duty)?;
            Ok(Some(wrong))
        }
        BuildFault::Memory => Err(AllocError),
    }
}

// ---- with a proof

fn refused(fault: KernelFault) -> Result<Option<Wrong>, AllocError>
    ensures { IfOk result (IsRefusedAs fault) }
{
    match fault {
        KernelFault::RuleFails { place } => Ok(Some(Wrong {
            rule: 32,
            place,
            what: Named::Nothing,
        })),
        KernelFault::Limit { place } => Ok(Some(Wrong {
            rule: 33,
            place,
            what: Named::Nothing,
        })),
        KernelFault::Memory => Err(AllocError),
    }
}

// The first refusal of the script.
fn script_fault(
    alloc: Global,
    inst: &Instances,
    sequent: Sequent,
    script: &Script,
) -> Result<Option<Wrong>, AllocError>
    requires formed { InstancesAreFormed inst.now }
    requires clean { is_clean sequent ≡ true }
    ensures { IfOk result (λ found. found ≡ earliest (script_wrong (first_refused inst.now script.now.rule script.now.place sequent))) }
{
    match replay(alloc, inst, sequent, script) {
        Ok(()) => Ok(None),
        Err(fault) => refused(fault),
    }
}

fn fault_with(
    alloc: Global,
    known: &Known,
    duty: Duty,
    proof: &Proof,
) -> Result<Option<Wrong>, AllocError>
    requires known { IsKnown known.now }
    requires formed { FileIsFormed known.now.file.now }
    requires clean { IsCleanFor known.now.file.now.decls duty }
    requires built { IsBuiltFor known.now.file.now.decls duty }
    requires proof { proof_for known.now.file.now duty ≡ Some proof.now }
    ensures { IfOk result (λ found. found ≡ earliest (proof_wrong known.now.file.now duty (Some proof.now))) }
{
    let file = known.file;
    match build(alloc, &file.decls, duty, proof.names.as_slice()) {
        Ok(sequent) => script_fault(alloc, &file.decls.inst, sequent, &proof.script),
        Err(fault) => not_built(alloc, known, duty, fault),
    }
}

// ---- without a proof

// A sequent without a script has to be plain.
fn unproved_fault(
    alloc: Global,
    known: &Known,
    duty: Duty,
    sequent: Sequent,
) -> Result<Option<Wrong>, AllocError>
    requires { IsKnown known.now }
    ensures { IfOk result (λ found. found ≡ earliest (unless (is_plain_sequent sequent) (naming 30 (place_of_duty known.now.file.now duty) (Obligation duty)))) }
{
    let judged = plain(alloc, &known.file.decls.inst, &sequent);
    drop(sequent);
    if judged? {
        return Ok(None);
    }
    let wrong = at_duty(alloc, known, 30, duty)?;
    Ok(Some(wrong))
}

fn fault_without(alloc: Global, known: &Known, duty: Duty) -> Result<Option<Wrong>, AllocError>
    requires known { IsKnown known.now }
    requires formed { FileIsFormed known.now.file.now }
    requires built { IsBuiltFor known.now.file.now.decls duty }
    ensures { IfOk result (λ found. found ≡ earliest (proof_wrong known.now.file.now duty None)) }
{
    let file = known.file;
    let names = spare_names(alloc, file, duty)?;
    match build(alloc, &file.decls, duty, names.as_slice()) {
        Ok(sequent) => unproved_fault(alloc, known, duty, sequent),
        Err(fault) => not_built(alloc, known, duty, fault),
    }
}

/// What is wrong with an obligation: it is too large (rule 33), the first refusal of its script (32 or 33), or, without a
/// proof, that it isn't plain (30). The only error is want of memory.
pub(crate) fn duty_fault(
    alloc: Global,
    known: &Known,
    duty: Duty,
) -> Result<Option<Wrong>, AllocError>
    requires known { IsKnown known.now }
    requires formed { FileIsFormed known.now.file.now }
    requires clean { IsCleanFor known.now.file.now.decls duty }
    requires built { IsBuiltFor known.now.file.now.decls duty }
    ensures { IfOk result (λ found. found ≡ earliest (duty_wrong known.now.file.now duty)) }
{
    match proof_of(known, duty) {
        Some(proof) => fault_with(alloc, known, duty, proof),
        None => fault_without(alloc, known, duty),
    }
}
