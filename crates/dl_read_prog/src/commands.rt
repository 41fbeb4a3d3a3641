//! Commands.

use crate::programs::procedure_position;
use dl_model::Command;
use dl_read_proto::{
    Around, add, all_terms, both, field, finished, formula, label, lost, number_of, numbers,
    parts_of, some, tag, term, word_of,
};
use dl_term::{Formula, Lab, Term};
use dl_tree::Tree;
use sqlite_items::Items;
use std::alloc::{AllocError, Global};

/// The commands that stand in a list behind its word.
#[cycle(command)]
pub(crate) fn block(
    alloc: Global,
    around: &Around,
    tree: &Tree,
) -> Result<Items<Command>, AllocError> {
    match tree {
        Tree::Num { .. } => lost(),
        Tree::Sym { .. } => lost(),
        Tree::List { items, .. } => commands(alloc, around, items.as_slice(), 1),
    }
}

/// The commands that stand behind the first parts of a list.
#[cycle(command)]
fn commands(
    alloc: Global,
    around: &Around,
    trees: &[Tree],
    first: usize,
) -> Result<Items<Command>, AllocError> {
    let mut commands = Items::new(alloc);
    let done = add_commands(alloc, around, trees, first, &mut commands);
    finished(commands, done)
}

#[cycle(command)]
fn add_commands(
    alloc: Global,
    around: &Around,
    trees: &[Tree],
    first: usize,
    commands: &mut Items<Command>,
) -> Result<(), AllocError> {
    for (at, tree) in trees.iter().enumerate() {
        if at >= first {
            add(commands, command(alloc, around, tree))?;
        }
    }
    Ok(())
}

#[cycle(command)]
fn command(alloc: Global, around: &Around, tree: &Tree) -> Result<Command, AllocError> {
    match tree {
        Tree::Num { .. } => lost(),
        Tree::Sym { .. } => lost(),
        Tree::List { items, .. } => match items.as_slice().split_first() {
            Some((head, parts)) => list_command(alloc, around, word_of(head), parts),
            None => lost(),
        },
    }
}

/// The command that a list is, by its word and the parts behind it.
#[cycle(command)]
fn list_command(
    alloc: Global,
    around: &Around,
    word: &str,
    parts: &[Tree],
) -> Result<Command, AllocError> {
    if word == "if" {
        return choice(alloc, around, parts);
    }
    if word == "while" {
        return repetition(alloc, around, parts);
    }
    plain_command(alloc, around, word, parts)
}

/// A choice, by its test and the two lists of commands.
#[cycle(command)]
fn choice(alloc: Global, around: &Around, parts: &[Tree]) -> Result<Command, AllocError> {
    let [test, yes, no] = parts else {
        return lost();
    };
    let yes = block(alloc, around, yes);
    let branches = both(yes, block(alloc, around, no));
    match both(formula(alloc, around, test), branches) {
        Ok((test, (yes, no))) => Ok(Command::If { test, yes, no }),
        Err(error) => Err(error),
    }
}

/// A loop, by its test, its annotation and its commands.
#[cycle(command)]
fn repetition(alloc: Global, around: &Around, parts: &[Tree]) -> Result<Command, AllocError> {
    let [test, note, ..] = parts else {
        return lost();
    };
    let body = commands(alloc, around, parts, 2);
    let test = formula(alloc, around, test);
    match both(both(test, formula(alloc, around, note)), body) {
        Ok(((test, note), body)) => Ok(Command::While { test, note, body }),
        Err(error) => Err(error),
    }
}

/// A command that holds no other one.
fn plain_command(
    alloc: Global,
    around: &Around,
    word: &str,
    parts: &[Tree],
) -> Result<Command, AllocError> {
    if word == "set" {
        return assignment(alloc, around, parts);
    }
    let Some((note, parts)) = parts.split_first() else {
        return lost();
    };
    let note = formula(alloc, around, note);
    if word == "send" {
        send(alloc, around, note, parts)
    } else if word == "await" {
        receive(alloc, around, note, parts)
    } else if word == "poll" {
        poll(alloc, around, note, parts)
    } else if word == "read" {
        read(alloc, around, note, parts)
    } else {
        call(alloc, around, note, parts)
    }
}

fn assignment(alloc: Global, around: &Around, parts: &[Tree]) -> Result<Command, AllocError> {
    let [local, value] = parts else {
        return lost();
    };
    let local = number_of(around.names, local);
    match both(local, term(alloc, around, value)) {
        Ok((local, value)) => Ok(Command::Set { local, value }),
        Err(error) => Err(error),
    }
}

/// The positions of a label and its tag.
fn label_tag(around: &Around, of: &Tree, name: &Tree) -> Result<(u8, u8), AllocError> {
    match label(around, of)? {
        Lab::Own => lost(),
        Lab::At(label) => {
            let tag = tag(around, Lab::At(label), name)?;
            Ok((label, tag))
        }
    }
}

/// The positions of a label and its field or row.
fn label_field(around: &Around, of: &Tree, name: &Tree) -> Result<(u8, u8), AllocError> {
    match label(around, of)? {
        Lab::Own => lost(),
        Lab::At(label) => {
            let field = field(around, Lab::At(label), name)?;
            Ok((label, field))
        }
    }
}

fn send(
    alloc: Global,
    around: &Around,
    note: Result<Formula, AllocError>,
    parts: &[Tree],
) -> Result<Command, AllocError> {
    match parts {
        [of, name, to, args @ ..] => {
            let to = term(alloc, around, to);
            let sent = both(to, all_terms(alloc, around, args));
            match both(both(note, label_tag(around, of, name)), sent) {
                Ok(((note, (label, tag)), (to, args))) => Ok(Command::Send {
                    note,
                    label,
                    tag,
                    to,
                    args,
                }),
                Err(error) => Err(error),
            }
        }
        _ => {
            drop(note);
            lost()
        }
    }
}

/// The locals that a message is put in: that for its sender, and those for its arguments.
fn targets(
    alloc: Global,
    around: &Around,
    sender: &Tree,
    args: &Tree,
) -> Result<(u32, Items<u32>), AllocError> {
    let args = numbers(alloc, around.names, parts_of(args));
    both(number_of(around.names, sender), args)
}

fn receive(
    alloc: Global,
    around: &Around,
    note: Result<Formula, AllocError>,
    parts: &[Tree],
) -> Result<Command, AllocError> {
    match parts {
        [of, name, sender, args] => {
            let targets = targets(alloc, around, sender, args);
            match both(both(note, label_tag(around, of, name)), targets) {
                Ok(((note, (label, tag)), (sender, args))) => Ok(Command::Await {
                    note,
                    label,
                    tag,
                    sender,
                    args,
                }),
                Err(error) => Err(error),
            }
        }
        _ => {
            drop(note);
            lost()
        }
    }
}

fn poll(
    alloc: Global,
    around: &Around,
    note: Result<Formula, AllocError>,
    parts: &[Tree],
) -> Result<Command, AllocError> {
    match parts {
        [got, of, name, sender, args] => {
            let got = both(number_of(around.names, got), label_tag(around, of, name));
            let targets = targets(alloc, around, sender, args);
            match both(both(note, got), targets) {
                Ok(((note, (got, (label, tag))), (sender, args))) => Ok(Command::Poll {
                    note,
                    got,
                    label,
                    tag,
                    sender,
                    args,
                }),
                Err(error) => Err(error),
            }
        }
        _ => {
            drop(note);
            lost()
        }
    }
}

fn read(
    alloc: Global,
    around: &Around,
    note: Result<Formula, AllocError>,
    parts: &[Tree],
) -> Result<Command, AllocError> {
    match parts {
        [into, of, name] => read_of(around, note, [into, of, name], Ok(None)),
        [into, of, name, index] => {
            let index = some(term(alloc, around, index));
            read_of(around, note, [into, of, name], index)
        }
        _ => {
            drop(note);
            lost()
        }
    }
}

/// A read into the local that the first tree names, of the label and the field that the others name.
fn read_of(
    around: &Around,
    note: Result<Formula, AllocError>,
    named: [&Tree; 3],
    index: Result<Option<Term>, AllocError>,
) -> Result<Command, AllocError> {
    let [into, of, name] = named;
    let place = both(number_of(around.names, into), label_field(around, of, name));
    match both(both(note, place), index) {
        Ok(((note, (into, (label, field))), index)) => Ok(Command::Read {
            note,
            into,
            label,
            field,
            index,
        }),
        Err(error) => Err(error),
    }
}

fn call(
    alloc: Global,
    around: &Around,
    note: Result<Formula, AllocError>,
    parts: &[Tree],
) -> Result<Command, AllocError> {
    match parts {
        [frame, into, name, args @ ..] => {
            let claims = both(note, formula(alloc, around, frame));
            let into = number_of(around.names, into);
            let callee = both(into, procedure_position(around, name));
            match both(both(claims, callee), all_terms(alloc, around, args)) {
                Ok((((note, frame), (into, proc)), args)) => Ok(Command::Call {
                    note,
                    frame,
                    into,
                    proc,
                    args,
                }),
                Err(error) => Err(error),
            }
        }
        _ => {
            drop(note);
            lost()
        }
    }
}
