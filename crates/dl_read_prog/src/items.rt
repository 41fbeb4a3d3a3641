//! The items of programs.

use crate::procedures::{points, procedure};
use crate::programs::deployment;
use dl_forms::Names;
use dl_model::Deploy;
use dl_read_proto::{Built, Meaning, add, lost, number_of, parts_behind, position, word_of};
use dl_tree::Tree;
use std::alloc::{AllocError, Global};
use std::mem;

/// Adds a procedure or the deployment to what the items before it declared. The one error is want of memory, and then
/// what was built is of no use.
pub fn build_program(
    alloc: Global,
    names: &Names,
    built: &mut Built,
    tree: &Tree,
) -> Result<(), AllocError> {
    if word_of(tree) == "deploy" {
        return build_deployment(alloc, names, built, parts_behind(tree));
    }
    match parts_behind(tree).split_first() {
        Some((name, parts)) => build_procedure(alloc, names, built, name, parts),
        None => lost(),
    }
}

fn build_procedure(
    alloc: Global,
    names: &Names,
    built: &mut Built,
    name: &Tree,
    parts: &[Tree],
) -> Result<(), AllocError> {
    let sym = number_of(names, name)?;
    let at = position(built.decls.procs.len())?;
    built.meanings.declare(sym, Meaning::Procedure(at))?;
    add(&mut built.points, points(alloc, parts))?;
    let procedure = procedure(alloc, &built.around(names), sym, parts);
    add(&mut built.decls.procs, procedure)
}

fn build_deployment(
    alloc: Global,
    names: &Names,
    built: &mut Built,
    parts: &[Tree],
) -> Result<(), AllocError> {
    match deployment(alloc, &built.around(names), parts) {
        Ok(deploy) => {
            put(&mut built.decls.deploy, deploy);
            Ok(())
        }
        Err(error) => Err(error),
    }
}

fn put(place: &mut Option<Deploy>, deploy: Deploy) {
    drop(mem::replace(place, Some(deploy)));
}
