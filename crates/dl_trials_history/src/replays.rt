//! Histories of two small files, and where they have their first fault. What is expected follows from the model's
//! definitions, by hand.

use crate::entries::{awaits, got, no_args, one_arg, polls, sends};
use dl_file::File;
use dl_formed::is_formed;
use dl_forms::Names;
use dl_history::{Config, ReplayFault, replay};
use dl_model::{Decls, Entry, Reply};
use dl_read_script::build_file;
use dl_term::{Part, View};
use dl_tree::read_tree;
use dl_world::shape;
use std::alloc::{AllocError, Global};
use std::test::Fail;

// One node sends a number, and another one awaits it.
const MAIL: &str = "(disel 1 (nodes a b)
  (protocol mail (field got bool 0)
    (tag req ((v int)) (send true) (receive true (set got 1))))
  (label r mail)
  (world w (labels r) (hooks))
  (proc client w ((v int)) (locals) (pre true) (post true)
    (body (send true r req b v)) (return 0))
  (proc server w () (locals f u) (pre true) (post true)
    (body (await true r req f (u))) (return u))
  (deploy w (a client 7) (b server)))";

// Who asks must have cast. The first node does, and the second one has no program.
const VOTE: &str = "(disel 1 (nodes a b)
  (protocol vote (field done bool 0)
    (tag cast () (send true (set done 1)) (receive true)))
  (protocol query (tag ask () (send true) (receive true)))
  (label v vote)
  (label q query)
  (hook late v q ask () (= (get v done me) 1))
  (world w (labels v q) (hooks late))
  (proc p w () (locals) (pre true) (post true)
    (body (send true v cast b) (send true q ask b)) (return 0))
  (deploy w (a p)))";

// The names and the file of a text.
fn built(alloc: Global, text: &str) -> Result<(Names, File), AllocError> {
    if text.len() >= 4294967295 {
        return Err(AllocError);
    }
    match read_tree(alloc, text.as_bytes()) {
        Ok(tree) => build_file(alloc, tree),
        Err(_) => Err(AllocError),
    }
}

// The position of the first fault.
fn fault_of(alloc: Global, decls: &Decls, entries: &[Entry]) -> Result<Option<u32>, AllocError> {
    if entries.len() > 1000 {
        return Err(AllocError);
    }
    if !is_formed(alloc, decls)? {
        return Err(AllocError);
    }
    let first = shape(alloc, decls)?;
    match replay(alloc, decls, &first, entries) {
        Ok(config) => {
            drop(config);
            Ok(None)
        }
        Err(ReplayFault::At(position)) => Ok(Some(position)),
        Err(ReplayFault::Memory) => Err(AllocError),
    }
}

// The first history whose first fault is not the expected one.
fn first_wrong(
    alloc: Global,
    decls: &Decls,
    cases: &[([Entry; 3], Option<u32>)],
) -> Result<Option<usize>, AllocError> {
    for position in 0..cases.len() {
        let (entries, expected) = &cases[position];
        if fault_of(alloc, decls, entries)? != *expected {
            return Ok(Some(position));
        }
    }
    Ok(None)
}

// Whether the first message is live, the second node's first field, and how many machines there are.
fn end_of(
    alloc: Global,
    decls: &Decls,
    entries: &[Entry],
) -> Result<Option<(i64, i64, usize)>, AllocError> {
    if entries.len() > 1000 {
        return Err(AllocError);
    }
    if !is_formed(alloc, decls)? {
        return Err(AllocError);
    }
    let first = shape(alloc, decls)?;
    match replay(alloc, decls, &first, entries) {
        Ok(config) => {
            let told = told(&config);
            drop(config);
            Ok(Some(told))
        }
        Err(ReplayFault::At(_)) => Ok(None),
        Err(ReplayFault::Memory) => Err(AllocError),
    }
}

fn told(config: &Config) -> (i64, i64, usize) {
    (
        config.state.part(0, 0, Part::Live),
        config.state.field(0, 0, 1, 0),
        config.machines.as_slice().len(),
    )
}

#[test]
fn a_letter_is_delivered(rt: HostRuntime) -> Result<(), Fail> {
    let alloc = rt.alloc();
    let entries = [
        awaits(1, Reply::Miss),
        sends(0, 0, 0, 1, one_arg(7), 0),
        awaits(1, got(0, 0, one_arg(7))),
    ];
    let (names, file) = built(alloc, MAIL)?;
    let end = end_of(alloc, &file.decls, &entries);
    drop(names);
    drop(file);
    assert_eq!(rt; end?, Some((0, 1, 2)));
    Ok(())
}

#[test]
fn faults_of_programs(rt: HostRuntime) -> Result<(), Fail> {
    let alloc = rt.alloc();
    let sent = sends(0, 0, 0, 1, one_arg(7), 0);
    let taken = awaits(1, got(0, 0, one_arg(7)));
    let cases = [
        ([taken, sent, taken], Some(0)),
        ([sent, taken, taken], Some(2)),
        ([sent, awaits(1, Reply::Miss), taken], Some(1)),
        ([sent, awaits(1, got(0, 1, one_arg(7))), taken], Some(1)),
        ([sent, awaits(1, got(0, 0, one_arg(8))), taken], Some(1)),
        ([sent, awaits(1, got(1, 0, one_arg(7))), taken], Some(1)),
        ([sent, polls(1, 0, got(0, 0, one_arg(7))), taken], Some(1)),
        ([sent, sends(0, 0, 0, 1, one_arg(7), 1), taken], Some(1)),
        ([sends(0, 0, 0, 1, one_arg(7), 1), taken, sent], Some(0)),
        ([sends(0, 0, 0, 1, one_arg(8), 0), taken, sent], Some(0)),
        ([sends(0, 1, 0, 1, one_arg(7), 0), taken, sent], Some(0)),
        ([sends(2, 0, 0, 1, one_arg(7), 0), taken, sent], Some(0)),
    ];
    let (names, file) = built(alloc, MAIL)?;
    let wrong = first_wrong(alloc, &file.decls, &cases);
    drop(names);
    drop(file);
    assert_eq!(rt; wrong?, None);
    Ok(())
}

#[test]
fn faults_of_free_nodes(rt: HostRuntime) -> Result<(), Fail> {
    let alloc = rt.alloc();
    let votes = sends(1, 0, 0, 0, no_args(), 0);
    let again = sends(1, 0, 0, 0, no_args(), 1);
    let asks = sends(1, 0, 1, 0, no_args(), 0);
    let casts = sends(0, 0, 0, 1, no_args(), 0);
    let cases = [
        ([votes, asks, again], None),
        ([asks, votes, again], Some(0)),
        ([casts, asks, again], Some(1)),
        ([casts, polls(1, 0, got(0, 0, no_args())), again], None),
        ([casts, polls(1, 0, Reply::Miss), again], Some(1)),
        ([casts, awaits(1, got(0, 0, no_args())), again], Some(1)),
        ([sends(1, 1, 0, 0, no_args(), 0), casts, again], Some(0)),
        ([sends(1, 0, 0, 2, no_args(), 0), casts, again], Some(0)),
        ([sends(1, 0, 0, 0, one_arg(0), 0), casts, again], Some(0)),
        ([sends(1, 0, 2, 0, no_args(), 0), casts, again], Some(0)),
    ];
    let (names, file) = built(alloc, VOTE)?;
    let wrong = first_wrong(alloc, &file.decls, &cases);
    drop(names);
    drop(file);
    assert_eq!(rt; wrong?, None);
    Ok(())
}
