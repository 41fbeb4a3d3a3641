//! Whether a file is formed.

ghost use Rattle.std.specs.Prelude.{◌≡◌, ◌↔◌, [], true, IfOk};
ghost use Rattle.dl_faults.specs.Given.{FileIsFormed};
ghost use Rattle.dl_formed_file.specs.Bound.{with_names, bound_anywhere};
ghost use Rattle.dl_formed_file.specs.Decided.{is_deployed, names_are_right};

use crate::bound::bound_names;
use crate::keys::are_once;
use crate::names::{are_below, are_formed};
use crate::own::variables_are_below;
use dl_file::File;
use dl_formed::is_formed;
use dl_model::Decls;
use indexmap::IndexSet;
use std::alloc::{AllocError, Global};

/// Whether the file is formed: its declarations are formed and have a deployment, each name that a quantifier binds and
/// each variable of a procedure has its text, each proof has the names that its obligation takes, of which none is a
/// variable of the obligation and no quantifier binds one, and no obligation has two proofs.
///
/// The one refusal is want of memory. The time is linear in the file's size times the nesting of its formulas.
pub fn file_is_formed(alloc: Global, file: &File) -> Result<bool, AllocError>
    ensures { IfOk result (λ formed. (formed ≡ true) ↔ FileIsFormed file.now) }
{
    if !is_deployed(&file.decls) {
        return Ok(false);
    }
    if !is_formed(alloc, &file.decls)? {
        return Ok(false);
    }
    if !are_once(alloc, file.proofs.as_slice())? {
        return Ok(false);
    }
    names_are_right(alloc, file)
}

fn is_deployed(decls: &Decls) -> bool
    ensures { result ≡ is_deployed decls.now }
{
    decls.deploy.is_some()
}

// Whether each bound name and each variable has its text, and each proof the names that it takes.
fn names_are_right(alloc: Global, file: &File) -> Result<bool, AllocError>
    ensures { IfOk result (λ right. right ≡ names_are_right file.now (with_names [] (bound_anywhere file.now.decls))) }
{
    let bound = bound_names(alloc, &file.decls)?;
    let right = are_right_by(file, &bound);
    drop(bound);
    Ok(right)
}

fn are_right_by(file: &File, bound: &IndexSet<u32>) -> bool
    ensures { result ≡ names_are_right file.now bound.now.keys }
{
    are_below(bound.as_slice(), file.names.len())
        && variables_are_below(&file.decls, file.names.len())
        && are_formed(file.proofs.as_slice(), &file.decls, bound)
}
