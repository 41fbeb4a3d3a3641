//! The obligations that proofs name.

use dl_forms::Names;
use dl_read_prog::procedure_position;
use dl_read_proto::{
    Built, Meaning, integer, label_position, lost, meaning_of, number_of, parts_behind, tag,
    tag_position, word_of,
};
use dl_sequent::Duty;
use dl_term::Lab;
use dl_tree::Tree;
use std::alloc::AllocError;

/// The obligation that a list names.
pub(crate) fn duty(names: &Names, built: &Built, tree: &Tree) -> Result<Duty, AllocError> {
    let word = word_of(tree);
    match parts_behind(tree) {
        [name] => short_duty(names, built, word, name),
        [name, number] => point_duty(names, built, word, name, number),
        [protocol, name, way] => protocol_step(names, built, protocol, name, way),
        [invariant, label, name, way] => {
            invariant_step(names, built, invariant, [label, name, way])
        }
        [procedure, number, label, name, way] => {
            let word_is_frame = word == "frame";
            other_step(
                names,
                built,
                word_is_frame,
                [procedure, number],
                [label, name, way],
            )
        }
        _ => lost(),
    }
}

/// What holds at first, of a protocol, an invariant, a procedure or a deployed node.
fn short_duty(names: &Names, built: &Built, word: &str, name: &Tree) -> Result<Duty, AllocError> {
    match meaning_of(&built.around(names), name)? {
        Meaning::Protocol(protocol) => Ok(Duty::InitProtocol { protocol }),
        Meaning::Invariant(invariant) => Ok(Duty::InitInvariant { invariant }),
        Meaning::Procedure(proc) => Ok(Duty::Start { proc }),
        Meaning::Word(value) => deployed(word, value),
        _ => lost(),
    }
}

fn deployed(word: &str, value: i64) -> Result<Duty, AllocError> {
    if word != "deploy" {
        return lost();
    }
    match u32::try_from(value) {
        Ok(node) => Ok(Duty::Deploy { node }),
        Err(_) => lost(),
    }
}

/// Whether the word says receive.
fn is_receive(way: &Tree) -> bool {
    word_of(way) == "receive"
}

/// The step of a protocol's tag.
fn protocol_step(
    names: &Names,
    built: &Built,
    protocol: &Tree,
    name: &Tree,
    way: &Tree,
) -> Result<Duty, AllocError> {
    let Meaning::Protocol(protocol) = meaning_of(&built.around(names), protocol)? else {
        return lost();
    };
    let sym = number_of(names, name)?;
    match built.decls.inst.protocols.get(usize::from(protocol)) {
        Some(declared) => {
            let tag = tag_position(declared.tags.as_slice(), sym)?;
            Ok(Duty::StepProtocol {
                protocol,
                tag,
                receive: is_receive(way),
            })
        }
        None => lost(),
    }
}

/// The positions of a label and its tag.
fn label_tag(
    names: &Names,
    built: &Built,
    label: &Tree,
    name: &Tree,
) -> Result<(u8, u8), AllocError> {
    let around = built.around(names);
    let label = label_position(&around, label)?;
    let tag = tag(&around, Lab::At(label), name)?;
    Ok((label, tag))
}

/// The step of a label's tag that keeps an invariant.
fn invariant_step(
    names: &Names,
    built: &Built,
    invariant: &Tree,
    step: [&Tree; 3],
) -> Result<Duty, AllocError> {
    let Meaning::Invariant(invariant) = meaning_of(&built.around(names), invariant)? else {
        return lost();
    };
    let [label, name, way] = step;
    let (label, tag) = label_tag(names, built, label, name)?;
    Ok(Duty::StepInvariant {
        invariant,
        label,
        tag,
        receive: is_receive(way),
    })
}

/// A procedure and one of its points.
fn point_of(
    names: &Names,
    built: &Built,
    name: &Tree,
    number: &Tree,
) -> Result<(u8, u32), AllocError> {
    let proc = procedure_position(&built.around(names), name)?;
    match u32::try_from(integer(number)?) {
        Ok(point) => Ok((proc, point)),
        Err(_) => lost(),
    }
}

/// What another node's step keeps at a point of a procedure.
fn other_step(
    names: &Names,
    built: &Built,
    frame: bool,
    point: [&Tree; 2],
    step: [&Tree; 3],
) -> Result<Duty, AllocError> {
    let [name, number] = point;
    let (proc, point) = point_of(names, built, name, number)?;
    let [label, name, way] = step;
    let (label, tag) = label_tag(names, built, label, name)?;
    let receive = is_receive(way);
    if frame {
        Ok(Duty::Frame {
            proc,
            point,
            label,
            tag,
            receive,
        })
    } else {
        Ok(Duty::Stable {
            proc,
            point,
            label,
            tag,
            receive,
        })
    }
}

/// Whether the point is a read.
fn is_read(built: &Built, proc: u8, point: u32) -> bool {
    let Some(at) = point.checked_sub(1) else {
        return false;
    };
    match built.points.get(usize::from(proc)) {
        Some(points) => match points.get(at as usize) {
            Some(read) => *read,
            None => false,
        },
        None => false,
    }
}

/// What a point of a procedure leaves to show.
fn point_duty(
    names: &Names,
    built: &Built,
    word: &str,
    name: &Tree,
    number: &Tree,
) -> Result<Duty, AllocError> {
    let (proc, point) = point_of(names, built, name, number)?;
    if word == "guard" {
        Ok(Duty::Guard { proc, point })
    } else if word == "after" {
        if is_read(built, proc, point) {
            Ok(Duty::AfterRead { proc, point })
        } else {
            Ok(Duty::AfterSend { proc, point })
        }
    } else if word == "got" {
        Ok(Duty::Got { proc, point })
    } else if word == "miss" {
        Ok(Duty::Miss { proc, point })
    } else if word == "body" {
        Ok(Duty::Body { proc, point })
    } else if word == "exit" {
        Ok(Duty::Exit { proc, point })
    } else if word == "enter" {
        Ok(Duty::Enter { proc, point })
    } else {
        Ok(Duty::Leave { proc, point })
    }
}

/// The protocol that `self` stands for in an obligation.
pub(crate) fn own_protocol(duty: Duty) -> Option<u8> {
    match duty {
        Duty::InitProtocol { protocol } => Some(protocol),
        Duty::StepProtocol { protocol, .. } => Some(protocol),
        _ => None,
    }
}

/// The procedure that an obligation is of.
pub(crate) fn procedure_of(duty: Duty) -> Option<u8> {
    match duty {
        Duty::Start { proc } => Some(proc),
        Duty::Guard { proc, .. } => Some(proc),
        Duty::AfterSend { proc, .. } => Some(proc),
        Duty::Got { proc, .. } => Some(proc),
        Duty::Miss { proc, .. } => Some(proc),
        Duty::AfterRead { proc, .. } => Some(proc),
        Duty::Body { proc, .. } => Some(proc),
        Duty::Exit { proc, .. } => Some(proc),
        Duty::Enter { proc, .. } => Some(proc),
        Duty::Leave { proc, .. } => Some(proc),
        Duty::Stable { proc, .. } => Some(proc),
        Duty::Frame { proc, .. } => Some(proc),
        _ => None,
    }
}
