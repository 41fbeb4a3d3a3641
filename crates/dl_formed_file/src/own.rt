//! The variables of procedures and of their obligations.

ghost use Rattle.std.specs.Prelude.{◌≡◌};
ghost use Rattle.std.specs.List.{list_all};
ghost use Rattle.dl_model.specs.Lookup.{arg_names};
ghost use Rattle.dl_model.specs.Sorts.{has};
ghost use Rattle.dl_formed.specs.Decided.{are_below as all_below};
ghost use Rattle.dl_triples.specs.Taken.{names_at, names_in, own_names};
ghost use Rattle.dl_formed_file.specs.Decided.{proc_has, proc_is_below as proc_below, variables_are_below as all_variables_below};

use crate::names::{are_below, has_name};
use dl_model::{Decls, Proc};
use dl_sequent::Duty;
use dl_term::Sort;

const ME: u32 = 4;

const RESULT: u32 = 7;

// ---- the variables of an obligation

fn has_parameter(params: &[(u32, Sort)], name: u32) -> bool
    ensures { result ≡ has (arg_names params.now) name }
{
    for param in params {
        if name == param.0 {
            return true;
        }
    }
    false
}

fn is_of_proc(proc: &Proc, name: u32) -> bool
    ensures { result ≡ proc_has proc.now name }
{
    name == ME
        || (has_parameter(proc.params.as_slice(), name) || has_name(proc.locals.as_slice(), name))
}

// Whether the name is a variable of the obligations of a procedure.
#[tactic(auto, using(crate::proofs::OwnLemmas::in_told))]
fn is_in(decls: &Decls, proc: u8, name: u32) -> bool
    ensures { result ≡ has (names_in decls.now proc) name }
{
    match decls.procs.get(usize::from(proc)) {
        Some(proc) => is_of_proc(proc, name),
        None => name == ME,
    }
}

// The same at a point, where those of the postcondition, the point 0, have its result besides.
#[tactic(auto, using(crate::proofs::OwnLemmas::at_told))]
fn is_at(decls: &Decls, proc: u8, point: u32, name: u32) -> bool
    ensures { result ≡ has (names_at decls.now proc point) name }
{
    (point == 0 && name == RESULT) || is_in(decls, proc, name)
}

/// Whether the name is one of the variables of an obligation, but for those that it takes.
pub(crate) fn is_own(decls: &Decls, duty: Duty, name: u32) -> bool
    ensures { result ≡ has (own_names decls.now duty) name }
{
    match duty {
        Duty::InitProtocol { .. } => false,
        Duty::InitInvariant { .. } => false,
        Duty::StepProtocol { .. } => false,
        Duty::StepInvariant { .. } => false,
        Duty::Start { proc } => is_in(decls, proc, name),
        Duty::Guard { proc, .. } => is_in(decls, proc, name),
        Duty::AfterSend { proc, .. } => is_in(decls, proc, name),
        Duty::Got { proc, .. } => is_in(decls, proc, name),
        Duty::Miss { proc, .. } => is_in(decls, proc, name),
        Duty::AfterRead { proc, .. } => is_in(decls, proc, name),
        Duty::Body { proc, .. } => is_in(decls, proc, name),
        Duty::Exit { proc, .. } => is_in(decls, proc, name),
        Duty::Enter { proc, .. } => is_in(decls, proc, name),
        Duty::Leave { proc, .. } => is_in(decls, proc, name),
        Duty::Stable { proc, point, .. } => is_at(decls, proc, point, name),
        Duty::Frame { proc, .. } => is_in(decls, proc, name),
        Duty::Deploy { .. } => false,
    }
}

// ---- the variables of all procedures

fn parameters_are_below(params: &[(u32, Sort)], count: usize) -> bool
    ensures { result ≡ all_below count (arg_names params.now) }
{
    for param in params {
        if count <= param.0 as usize {
            return false;
        }
    }
    true
}

fn proc_is_below(proc: &Proc, count: usize) -> bool
    ensures { result ≡ proc_below count proc.now }
{
    parameters_are_below(proc.params.as_slice(), count) && are_below(proc.locals.as_slice(), count)
}

fn procs_are_below(procs: &[Proc], count: usize) -> bool
    ensures { result ≡ list_all (proc_below count) procs.now }
{
    for proc in procs {
        if !proc_is_below(proc, count) {
            return false;
        }
    }
    true
}

/// Whether each variable of a procedure is one of so many names.
pub(crate) fn variables_are_below(decls: &Decls, count: usize) -> bool
    ensures { result ≡ all_variables_below count decls.now }
{
    (RESULT as usize) < count
        && ((ME as usize) < count && procs_are_below(decls.procs.as_slice(), count))
}
