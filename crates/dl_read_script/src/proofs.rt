//! Proofs of obligations.

use crate::duties::{duty, own_protocol, procedure_of};
use crate::scripts::script;
use dl_file::Proof;
use dl_forms::Names;
use dl_model::Proc;
use dl_read_proto::{Around, Built, both, finished, lost, numbers, parts_behind};
use dl_sequent::{Duty, Script};
use dl_tree::Tree;
use sqlite_items::Items;
use std::alloc::{AllocError, Global};

/// The proof that an item is, behind what was built.
pub(crate) fn proof(
    alloc: Global,
    names: &Names,
    built: &Built,
    tree: &Tree,
) -> Result<Proof, AllocError> {
    let [duty_tree, listed, body] = parts_behind(tree) else {
        return lost();
    };
    let duty = duty(names, built, duty_tree)?;
    let listed = numbers(alloc, names, parts_behind(listed));
    match both(listed, proof_script(alloc, names, built, duty, body)) {
        Ok((names, script)) => Ok(Proof {
            duty,
            names,
            script,
            place: tree.place(),
        }),
        Err(error) => Err(error),
    }
}

fn proof_script(
    alloc: Global,
    names: &Names,
    built: &Built,
    duty: Duty,
    body: &Tree,
) -> Result<Script, AllocError> {
    match hiding(alloc, built, duty) {
        Ok(hiding) => {
            let script = script_with(alloc, names, built, duty, hiding.as_slice(), body);
            drop(hiding);
            script
        }
        Err(error) => Err(error),
    }
}

/// The script of an obligation, where these variables hide nodes and enumerators of the same names.
fn script_with(
    alloc: Global,
    names: &Names,
    built: &Built,
    duty: Duty,
    hiding: &[u32],
    body: &Tree,
) -> Result<Script, AllocError> {
    let inst = &built.decls.inst;
    let meanings = &built.meanings;
    let Some(own) = own_protocol(duty) else {
        let around = Around {
            names,
            meanings,
            inst,
            fields: &[],
            tags: &[],
            hiding,
        };
        return script(alloc, &around, body);
    };
    match inst.protocols.get(usize::from(own)) {
        Some(protocol) => {
            let around = Around {
                names,
                meanings,
                inst,
                fields: protocol.fields.as_slice(),
                tags: protocol.tags.as_slice(),
                hiding,
            };
            script(alloc, &around, body)
        }
        None => lost(),
    }
}

/// The names of the variables of an obligation of a procedure. An item behind the procedure may have declared an
/// enumerator of such a name.
fn hiding(alloc: Global, built: &Built, duty: Duty) -> Result<Items<u32>, AllocError> {
    let Some(at) = procedure_of(duty) else {
        return Ok(Items::new(alloc));
    };
    let mut hiding = Items::new(alloc);
    match built.decls.procs.get(usize::from(at)) {
        Some(procedure) => {
            let done = add_variables(procedure, &mut hiding);
            finished(hiding, done)
        }
        None => Ok(hiding),
    }
}

fn add_variables(procedure: &Proc, variables: &mut Items<u32>) -> Result<(), AllocError> {
    for (sym, _) in procedure.params.as_slice() {
        variables.push(*sym)?;
    }
    for sym in procedure.locals.as_slice() {
        variables.push(*sym)?;
    }
    Ok(())
}
