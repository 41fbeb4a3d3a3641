//! Whether the deployment is formed.

ghost use Rattle.std.specs.Prelude.{◌≡◌, IfOk, Some};
ghost use Rattle.std.specs.List.{list_all};
ghost use Rattle.dl_model.specs.Lookup.{arg_sorts};
ghost use Rattle.dl_model.specs.Sorts.{in_sort, all_in_sorts};
ghost use Rattle.dl_formed.specs.Decided.{are_distinct};
ghost use Rattle.dl_formed.specs.Programs.{has_constants, program_is_formed, program_nodes, deployment_is_formed};

use crate::collect::nodes_of_programs;
use crate::names::are_distinct;
use dl_model::{Decls, Deploy, Program};
use dl_term::Sort;
use sqlite_items::at;
use std::alloc::{AllocError, Global};

// Whether the deployment is formed.
pub(crate) fn is_formed(alloc: Global, decls: &Decls) -> Result<bool, AllocError>
    ensures { IfOk result (λ formed. formed ≡ deployment_is_formed decls.now decls.now.deploy) }
{
    match &decls.deploy {
        Some(deploy) => deploy_is_formed(alloc, deploy, decls),
        None => Ok(true),
    }
}

fn deploy_is_formed(alloc: Global, deploy: &Deploy, decls: &Decls) -> Result<bool, AllocError>
    ensures { IfOk result (λ formed. formed ≡ deployment_is_formed decls.now (Some deploy.now)) }
{
    if usize::from(deploy.world) >= decls.worlds.len() {
        return Ok(false);
    }
    if !programs_are_formed(deploy.programs.as_slice(), decls) {
        return Ok(false);
    }
    nodes_are_distinct(alloc, deploy.programs.as_slice())
}

fn programs_are_formed(programs: &[Program], decls: &Decls) -> bool
    ensures { result ≡ list_all (program_is_formed decls.now) programs.now }
{
    for program in programs {
        if !program_is_formed(program, decls) {
            return false;
        }
    }
    true
}

fn program_is_formed(program: &Program, decls: &Decls) -> bool
    ensures { result ≡ program_is_formed decls.now program.now }
{
    program.node < decls.inst.nodes && has_constants(program, decls)
}

// Whether there is the procedure, and each parameter has a constant of its sort.
fn has_constants(program: &Program, decls: &Decls) -> bool
    ensures { result ≡ has_constants decls.now.procs program.now.proc program.now.constants }
{
    match at(decls.procs.as_slice(), usize::from(program.proc)) {
        Some(proc) => are_in_sorts(proc.params.as_slice(), program.constants.as_slice()),
        None => false,
    }
}

// One constant for each parameter, each in its sort.
fn are_in_sorts(params: &[(u32, Sort)], constants: &[i64]) -> bool
    ensures { result ≡ all_in_sorts (arg_sorts params.now) constants.now }
{
    if params.len() != constants.len() {
        return false;
    }
    for place in 0..params.len() {
        if !is_in_sort(params[place].1, constants[place]) {
            return false;
        }
    }
    true
}

fn is_in_sort(sort: Sort, number: i64) -> bool
    ensures { result ≡ in_sort sort number }
{
    sort.low <= number && number <= sort.high
}

// Whether no node runs two programs.
fn nodes_are_distinct(alloc: Global, programs: &[Program]) -> Result<bool, AllocError>
    ensures { IfOk result (λ distinct. distinct ≡ are_distinct (program_nodes programs.now)) }
{
    let nodes = nodes_of_programs(alloc, programs)?;
    let distinct = are_distinct(nodes.as_slice());
    drop(nodes);
    Ok(distinct)
}
