//! The first fault of the obligations of a file and their proofs.

ghost use Rattle.std.specs.Prelude.{◌≡◌, IfOk, length};
ghost use Rattle.std.specs.List.{flat_map};
ghost use Rattle.dl_faults.specs.Whole.{duties_of};
ghost use Rattle.dl_faults.specs.Wrong.{earliest};
ghost use Rattle.dl_faults.specs.Obligations.{duty_wrong, obligation_fault as fault_of_obligations};
ghost use Rattle.dl_faults.specs.Given.{FileIsFormed};
ghost use Rattle.dl_verdict.specs.Code.{IsKnown};

use crate::extras::extras_fault;
use crate::known::{Known, known_of};
use crate::sequents::duty_fault;
use crate::whole::duties;
use dl_faults::{Wrong, earlier_of};
use dl_file::File;
use dl_sequent::Duty;
use std::alloc::{AllocError, Global};

/// What was found at the obligations of a file.
#[derive(Clone, Copy)]
pub(crate) struct Judged {
    /// How many there are.
    pub(crate) count: u32,
    pub(crate) fault: Option<Wrong>,
}

/// A number of things as it is written in an answer. One past 32 bits is want of memory: no text declares so many things.
pub(crate) fn count(many: usize) -> Result<u32, AllocError>
    ensures { IfOk result (λ count. count ≡ many) }
{
    if many > 4_294_967_295 {
        return Err(AllocError);
    }
    Ok(many as u32)
}

fn each_duty_fault(
    alloc: Global,
    known: &Known,
    duties: &[Duty],
) -> Result<Option<Wrong>, AllocError>
    requires known { IsKnown known.now }
    requires formed { FileIsFormed known.now.file.now }
    requires all { duties.now ≡ duties_of known.now.file.now.decls }
    ensures { IfOk result (λ found. found ≡ earliest (flat_map (duty_wrong known.now.file.now) duties.now)) }
{
    let mut found = None;
    for duty in duties {
        let one = duty_fault(alloc, known, *duty)?;
        found = earlier_of(found, one);
    }
    Ok(found)
}

// The first fault of the obligations themselves.
fn duties_fault(alloc: Global, file: &File, duties: &[Duty]) -> Result<Option<Wrong>, AllocError>
    requires formed { FileIsFormed file.now }
    requires all { duties.now ≡ duties_of file.now.decls }
    ensures { IfOk result (λ found. found ≡ earliest (flat_map (duty_wrong file.now) duties.now)) }
{
    let known = known_of(alloc, file)?;
    let found = each_duty_fault(alloc, &known, duties);
    drop(known);
    found
}

// The first fault of the obligations, which are given, and of the proofs that are for none of them.
fn fault_among(alloc: Global, file: &File, duties: &[Duty]) -> Result<Option<Wrong>, AllocError>
    requires formed { FileIsFormed file.now }
    requires all { duties.now ≡ duties_of file.now.decls }
    ensures { IfOk result (λ found. found ≡ fault_of_obligations file.now) }
{
    let of_duties = duties_fault(alloc, file, duties)?;
    let of_extras = extras_fault(alloc, file, duties)?;
    Ok(earlier_of(of_duties, of_extras))
}

/// The first fault of the obligations, and how many there are. Its only error is want of memory.
pub(crate) fn judge(alloc: Global, file: &File) -> Result<Judged, AllocError>
    requires { FileIsFormed file.now }
    ensures fault { IfOk result (λ judged. judged.fault ≡ fault_of_obligations file.now) }
    ensures count { IfOk result (λ judged. judged.count ≡ length (duties_of file.now.decls)) }
{
    let list = duties(alloc, &file.decls)?;
    let count = count(list.len())?;
    let fault = fault_among(alloc, file, list.as_slice())?;
    Ok(Judged { count, fault })
}

/// The first fault of a file's obligations and their proofs: an obligation without a proof that isn't plain (rule 30), a
/// proof of what is no obligation (31), a rule of a script that is refused (32), or a sequent that is too large (33).
///
/// The condition is that the file is formed. Each obligation is looked at once, and its proof is looked up in a table.
/// The only error is want of memory.
pub fn obligation_fault(alloc: Global, file: &File) -> Result<Option<Wrong>, AllocError>
    requires { FileIsFormed file.now }
    ensures { IfOk result (λ found. found ≡ fault_of_obligations file.now) }
{
    let judged = judge(alloc, file)?;
    Ok(judged.fault)
}
