//! The answer of a check.

ghost use Rattle.std.specs.Prelude.{◌≡◌, None, IfErr, IfOk, OnOk, length};
ghost use Rattle.dl_model.specs.Lookup.{deploy_of};
ghost use Rattle.dl_model.specs.Safe.{EachFreeRunMeetsInvariants, EachRunIsSafe};
ghost use Rattle.dl_faults.specs.Given.{FileIsFormed};
ghost use Rattle.dl_file.specs.declared.answer.Fault.TheVariants.{Memory};
ghost use Rattle.dl_faults.specs.Verdict.{IsVerdict, counts_of};
ghost use Rattle.dl_faults.specs.Whole.{duties_of};
ghost use Rattle.dl_faults.specs.Worlds.{world_fault as fault_of_worlds};
ghost use Rattle.dl_faults.specs.Obligations.{obligation_fault as fault_of_obligations};
ghost use Rattle.dl_verdict.specs.Code.{IsRefusal};

use crate::duties::{Judged, count, judge};
use crate::named::shown;
use dl_faults::{Wrong, world_fault};
use dl_file::{Accepted, Fault, File};
use dl_model::Decls;
use std::alloc::{AllocError, Global};

// The first fault of a file, with what is named there.
fn refusal(alloc: Global, file: &File, wrong: Wrong) -> Fault
    ensures { IsRefusal file.now wrong result }
{
    match shown(alloc, file, wrong.what) {
        Ok(what) => Fault::At {
            rule: wrong.rule,
            place: wrong.place,
            what,
        },
        Err(_) => Fault::Memory,
    }
}

fn deployed(decls: &Decls) -> usize
    ensures { result ≡ length (deploy_of decls.now).programs }
{
    match &decls.deploy {
        Some(deploy) => deploy.programs.len(),
        None => 0,
    }
}

// How much the file has, with so many obligations.
fn counts(file: &File, obligations: u32) -> Result<Accepted, AllocError>
    requires { obligations ≡ length (duties_of file.now.decls) }
    ensures { IfOk result (λ counts. counts ≡ counts_of file.now) }
{
    let labels = count(file.decls.inst.of.len())?;
    let hooks = count(file.decls.hooks.len())?;
    let invariants = count(file.decls.invariants.len())?;
    let programs = count(deployed(&file.decls))?;
    Ok(Accepted {
        nodes: file.decls.inst.nodes,
        labels,
        hooks,
        invariants,
        programs,
        obligations,
    })
}

fn accepted(file: &File, obligations: u32) -> Result<Accepted, Fault>
    requires { obligations ≡ length (duties_of file.now.decls) }
    ensures ok { IfOk result (λ accepted. accepted ≡ counts_of file.now) }
    ensures err { IfErr result (λ fault. fault ≡ Memory) }
{
    match counts(file, obligations) {
        Ok(accepted) => Ok(accepted),
        Err(_) => Err(Fault::Memory),
    }
}

// The answer by what was found at the obligations of a file whose worlds have no fault.
fn answered(alloc: Global, file: &File, judged: Judged) -> Result<Accepted, Fault>
    requires worlds { fault_of_worlds file.now ≡ None }
    requires fault { judged.fault ≡ fault_of_obligations file.now }
    requires count { judged.count ≡ length (duties_of file.now.decls) }
    ensures { IsVerdict file.now result }
{
    match judged.fault {
        Some(wrong) => Err(refusal(alloc, file, wrong)),
        None => accepted(file, judged.count),
    }
}

// The answer by what was found at the worlds.
fn with_worlds(alloc: Global, file: &File, found: Option<Wrong>) -> Result<Accepted, Fault>
    requires formed { FileIsFormed file.now }
    requires worlds { found ≡ fault_of_worlds file.now }
    ensures { IsVerdict file.now result }
{
    if let Some(wrong) = found {
        return Err(refusal(alloc, file, wrong));
    }
    match judge(alloc, file) {
        Ok(judged) => answered(alloc, file, judged),
        Err(_) => Err(Fault::Memory),
    }
}

fn verdict(alloc: Global, file: &File) -> Result<Accepted, Fault>
    requires { FileIsFormed file.now }
    ensures { IsVerdict file.now result }
{
    match world_fault(alloc, file) {
        Ok(found) => with_worlds(alloc, file, found),
        Err(_) => Err(Fault::Memory),
    }
}

/// Checks a file that was read: that it keeps to its worlds, and that each of its obligations is proved or plain.
///
/// `Ok` tells how much the file has, and comes only where nothing is wrong with it. Then every run of it is safe: each state
/// meets the coherences of the composed world and the invariants, each program send its guard and the hooks of the composed
/// world, and each program that ended its postcondition. After every run of free nodes the coherences and the invariants
/// hold. `At` has the rule and the place of the first fault, that of a world before one of an obligation, with what is named
/// there. `Memory` may come in the place of either.
///
/// The condition is that the file is formed, as the readers see to.
pub fn check(alloc: Global, file: &File) -> Result<Accepted, Fault>
    requires { FileIsFormed file.now }
    ensures verdict { IsVerdict file.now result }
    ensures safe { OnOk result (EachRunIsSafe file.now.decls) }
    ensures keeps { OnOk result (EachFreeRunMeetsInvariants file.now.decls) }
{
    verdict(alloc, file)
}
