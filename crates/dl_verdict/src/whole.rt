//! The obligations of a whole file: those of protocols and invariants, and then those of procedures and the deployment.

ghost use Rattle.std.specs.Prelude.{◌≡◌, ◌++◌, true, false, Err, IfOk, OnOk};
ghost use Rattle.dl_model.specs.Formed.{FileIsSmall, InstancesAreFormed};
ghost use Rattle.dl_sequent.specs.Sizes.{is_too_large};
ghost use Rattle.dl_inv.specs.declared.sequents.BuildFault.TheVariants as unbuilt;
ghost use Rattle.dl_faults.specs.Whole.{duties_of, is_of_program as is_of_a_program, sequent_of};
ghost use Rattle.dl_verdict.specs.Code.{CanBuild};

use dl_built::build as build_of_program;
use dl_duties::duties as duties_of_programs;
use dl_inv::{BuildFault, build as build_of_state, duties as duties_of_states};
use dl_model::{Decls, Sequent};
use dl_sequent::Duty;
use sqlite_items::Items;
use std::alloc::{AllocError, Global};

fn add_all(list: &mut Items<Duty>, more: &[Duty]) -> Result<(), AllocError>
    ensures { OnOk result (list.new ≡ list.old ++ more.now) }
{
    for duty in more {
        list.push(*duty)?;
    }
    Ok(())
}

/// The obligations that aren't waived, in their order. Its only error is want of memory.
pub(crate) fn duties(alloc: Global, decls: &Decls) -> Result<Items<Duty>, AllocError>
    requires small { FileIsSmall decls.now }
    requires formed { InstancesAreFormed decls.now.inst }
    ensures { IfOk result (λ list. list ≡ duties_of decls.now) }
{
    let mut list = duties_of_states(alloc, decls)?;
    let programs = duties_of_programs(alloc, decls)?;
    add_all(&mut list, programs.as_slice())?;
    Ok(list)
}

/// Whether the obligation is one of a procedure or of the deployment.
pub(crate) fn is_of_program(duty: Duty) -> bool
    ensures { result ≡ is_of_a_program duty }
{
    match duty {
        Duty::InitProtocol { .. } => false,
        Duty::InitInvariant { .. } => false,
        Duty::StepProtocol { .. } => false,
        Duty::StepInvariant { .. } => false,
        Duty::Start { .. } => true,
        Duty::Guard { .. } => true,
        Duty::AfterSend { .. } => true,
        Duty::Got { .. } => true,
        Duty::Miss { .. } => true,
        Duty::AfterRead { .. } => true,
        Duty::Body { .. } => true,
        Duty::Exit { .. } => true,
        Duty::Enter { .. } => true,
        Duty::Leave { .. } => true,
        Duty::Stable { .. } => true,
        Duty::Frame { .. } => true,
        Duty::Deploy { .. } => true,
    }
}

/// The sequent of an obligation that takes these names. `Limit` comes only where it has more than 1,000,000 parts or nests
/// more than 4,000 deep.
pub(crate) fn build(
    alloc: Global,
    decls: &Decls,
    duty: Duty,
    names: &[u32],
) -> Result<Sequent, BuildFault>
    requires small { FileIsSmall decls.now }
    requires can { CanBuild decls.now duty names.now }
    ensures made { IfOk result (λ made. made ≡ sequent_of decls.now duty names.now) }
    ensures small { IfOk result (λ made. is_too_large made ≡ false) }
    ensures limit { (result ≡ Err unbuilt.Limit) → is_too_large (sequent_of decls.now duty names.now) ≡ true }
{
    if is_of_program(duty) {
        build_of_program(alloc, decls, &duty, names)
    } else {
        build_of_state(alloc, decls, &duty, names)
    }
}
