//! Proofs of what is no obligation of their file.

ghost use Rattle.std.specs.Prelude.{◌≡◌, IfOk};
ghost use Rattle.std.specs.List.{flat_map};
ghost use Rattle.dl_faults.specs.Whole.{duties_of};
ghost use Rattle.dl_faults.specs.Wrong.{earliest};
ghost use Rattle.dl_faults.specs.Obligations.{extra_wrong};
ghost use Rattle.dl_verdict.specs.Code.{extra_by_keys};

use crate::keys::{Key, has_duty, keys_of_duties};
use dl_faults::{Named, Wrong, earlier_of};
use dl_file::{File, Proof};
use dl_sequent::Duty;
use indexmap::IndexSet;
use std::alloc::{AllocError, Global};

fn extra_fault(keys: &IndexSet<Key>, proof: &Proof) -> Option<Wrong>
    ensures { result ≡ earliest (extra_by_keys keys.now.keys proof.now) }
{
    if has_duty(keys, proof.duty) {
        return None;
    }
    Some(Wrong {
        rule: 31,
        place: proof.place,
        what: Named::Nothing,
    })
}

fn each_extra_fault(keys: &IndexSet<Key>, proofs: &[Proof]) -> Option<Wrong>
    ensures { result ≡ earliest (flat_map (extra_by_keys keys.now.keys) proofs.now) }
{
    let mut found = None;
    for proof in proofs {
        found = earlier_of(found, extra_fault(keys, proof));
    }
    found
}

/// The first proof that is for none of the file's obligations (rule 31), which are given. The only error is want of
/// memory.
pub(crate) fn extras_fault(
    alloc: Global,
    file: &File,
    duties: &[Duty],
) -> Result<Option<Wrong>, AllocError>
    requires { duties.now ≡ duties_of file.now.decls }
    ensures { IfOk result (λ found. found ≡ earliest (flat_map (extra_wrong file.now) file.now.proofs)) }
{
    let keys = keys_of_duties(alloc, duties)?;
    Ok(each_extra_fault(&keys, file.proofs.as_slice()))
}
