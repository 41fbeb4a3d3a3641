//! The names of obligations as trees without places.

ghost use Rattle.std.specs.Prelude.{◌≡◌, ◌≤◌, ◌++◌, ◌∷◌, [], length, IfOk, OnOk};
ghost use Rattle.std.specs.Option.{option_copied};
ghost use Rattle.dl_shown.specs.Scripts.{way_of, own_of, own_protocol as protocol_of_duty, own_tag as tag_of_duty, invariant_name as name_of_invariant, step_of, at_point as shown_at_point, duty_of};
ghost use Rattle.dl_sequent.specs.declared.duty.Duty.TheVariants.{InitProtocol, InitInvariant, StepProtocol, StepInvariant, Start, Deploy};

use crate::found;
use crate::pieces::{begin, count, list, name, nothing, symbol};
use dl_forms::Names;
use dl_model::Decls;
use dl_sequent::Duty;
use dl_tree::Tree;
use sqlite_items::Items;
use std::alloc::{AllocError, Global};

/// The protocol of the label `self` in the proof of an obligation.
pub(crate) fn own(duty: Duty) -> Option<u8>
    ensures { result ≡ own_of duty }
{
    match duty {
        Duty::InitProtocol { protocol } => Some(protocol),
        Duty::InitInvariant { .. } => None,
        Duty::StepProtocol { protocol, .. } => Some(protocol),
        Duty::StepInvariant { .. } => None,
        Duty::Start { .. } => None,
        Duty::Guard { .. } => None,
        Duty::AfterSend { .. } => None,
        Duty::Got { .. } => None,
        Duty::Miss { .. } => None,
        Duty::AfterRead { .. } => None,
        Duty::Body { .. } => None,
        Duty::Exit { .. } => None,
        Duty::Enter { .. } => None,
        Duty::Leave { .. } => None,
        Duty::Stable { .. } => None,
        Duty::Frame { .. } => None,
        Duty::Deploy { .. } => None,
    }
}

fn way(alloc: Global, receive: bool) -> Result<Tree, AllocError>
    ensures { IfOk result (λ tree. tree ≡ way_of receive) }
{
    if receive {
        symbol(alloc, "receive")
    } else {
        symbol(alloc, "send")
    }
}

fn own_protocol(alloc: Global, names: &Names, decls: &Decls, at: u8) -> Result<Tree, AllocError>
    ensures { IfOk result (λ tree. tree ≡ protocol_of_duty names.now decls.now at) }
{
    let protocol = decls.inst.protocols.get(usize::from(at));
    found::protocol_name(alloc, names, decls, protocol)
}

fn own_tag(
    alloc: Global,
    names: &Names,
    decls: &Decls,
    protocol: u8,
    tag: u8,
) -> Result<Tree, AllocError>
    ensures { IfOk result (λ tree. tree ≡ tag_of_duty names.now decls.now protocol tag) }
{
    let protocol = decls.inst.protocols.get(usize::from(protocol));
    found::tag_name(alloc, names, decls, found::tag_in(protocol, tag))
}

fn invariant_name(alloc: Global, names: &Names, decls: &Decls, at: u8) -> Result<Tree, AllocError>
    ensures { IfOk result (λ tree. tree ≡ name_of_invariant names.now decls.now at) }
{
    match decls.invariants.get(usize::from(at)) {
        Some(invariant) => name(alloc, names, invariant.sym),
        None => nothing(alloc),
    }
}

/// Adds the step that an obligation is about: a label, a tag, and whether it is a receive.
fn add_step(
    alloc: Global,
    names: &Names,
    decls: &Decls,
    label: u8,
    tag: u8,
    receive: bool,
    parts: &mut Items<Tree>,
) -> Result<(), AllocError>
    ensures { OnOk result (parts.new ≡ parts.old ++ step_of names.now decls.now label tag receive) }
{
    parts.push(found::label(alloc, names, decls, label)?)?;
    let tag = found::tag_in(found::protocol_of_label(&decls.inst, label), tag);
    parts.push(found::tag_name(alloc, names, decls, tag)?)?;
    parts.push(way(alloc, receive)?)
}

/// The obligation that a protocol's coherence, or an invariant, holds at first.
fn init_protocol(
    alloc: Global,
    names: &Names,
    decls: &Decls,
    protocol: u8,
) -> Result<Tree, AllocError>
    ensures { IfOk result (λ tree. tree ≡ duty_of names.now decls.now (InitProtocol protocol)) }
{
    let mut parts = begin(alloc, "init")?;
    parts.push(own_protocol(alloc, names, decls, protocol)?)?;
    Ok(list(parts))
}

fn init_invariant(
    alloc: Global,
    names: &Names,
    decls: &Decls,
    invariant: u8,
) -> Result<Tree, AllocError>
    ensures { IfOk result (λ tree. tree ≡ duty_of names.now decls.now (InitInvariant invariant)) }
{
    let mut parts = begin(alloc, "init")?;
    parts.push(invariant_name(alloc, names, decls, invariant)?)?;
    Ok(list(parts))
}

/// The obligation that a step keeps a protocol's coherence.
fn step_protocol(
    alloc: Global,
    names: &Names,
    decls: &Decls,
    protocol: u8,
    tag: u8,
    receive: bool,
) -> Result<Tree, AllocError>
    ensures { IfOk result (λ tree. tree ≡ duty_of names.now decls.now (StepProtocol protocol tag receive)) }
{
    let mut parts = begin(alloc, "step")?;
    parts.push(own_protocol(alloc, names, decls, protocol)?)?;
    parts.push(own_tag(alloc, names, decls, protocol, tag)?)?;
    parts.push(way(alloc, receive)?)?;
    Ok(list(parts))
}

/// The obligation that a step keeps an invariant.
fn step_invariant(
    alloc: Global,
    names: &Names,
    decls: &Decls,
    invariant: u8,
    label: u8,
    tag: u8,
    receive: bool,
) -> Result<Tree, AllocError>
    ensures { IfOk result (λ tree. tree ≡ duty_of names.now decls.now (StepInvariant invariant label tag receive)) }
{
    let mut parts = begin(alloc, "step")?;
    parts.push(invariant_name(alloc, names, decls, invariant)?)?;
    add_step(alloc, names, decls, label, tag, receive, &mut parts)?;
    Ok(list(parts))
}

/// An obligation of a procedure as a whole.
fn start(alloc: Global, names: &Names, decls: &Decls, proc: u8) -> Result<Tree, AllocError>
    ensures { IfOk result (λ tree. tree ≡ duty_of names.now decls.now (Start proc)) }
{
    let mut parts = begin(alloc, "start")?;
    parts.push(found::procedure(alloc, names, decls, proc)?)?;
    Ok(list(parts))
}

/// An obligation of a point of a procedure.
fn at_point(
    alloc: Global,
    names: &Names,
    decls: &Decls,
    word: &str,
    proc: u8,
    point: u32,
) -> Result<Tree, AllocError>
    requires { length word.now ≤ 64 }
    ensures { IfOk result (λ tree. tree ≡ shown_at_point names.now decls.now word.now proc point []) }
{
    let mut parts = begin(alloc, word)?;
    parts.push(found::procedure(alloc, names, decls, proc)?)?;
    parts.push(count(point))?;
    Ok(list(parts))
}

/// An obligation of a point of a procedure under a step of another node.
fn under_step(
    alloc: Global,
    names: &Names,
    decls: &Decls,
    word: &str,
    proc: u8,
    point: u32,
    label: u8,
    tag: u8,
    receive: bool,
) -> Result<Tree, AllocError>
    requires { length word.now ≤ 64 }
    ensures { IfOk result (λ tree. tree ≡ shown_at_point names.now decls.now word.now proc point (step_of names.now decls.now label tag receive)) }
{
    let mut parts = begin(alloc, word)?;
    parts.push(found::procedure(alloc, names, decls, proc)?)?;
    parts.push(count(point))?;
    add_step(alloc, names, decls, label, tag, receive, &mut parts)?;
    Ok(list(parts))
}

/// The obligation that a node's precondition holds at first.
fn deployed(alloc: Global, names: &Names, decls: &Decls, node: u32) -> Result<Tree, AllocError>
    ensures { IfOk result (λ tree. tree ≡ duty_of names.now decls.now (Deploy node)) }
{
    let mut parts = begin(alloc, "deploy")?;
    parts.push(found::node(alloc, names, decls, node)?)?;
    Ok(list(parts))
}

/// An obligation by its name.
pub(crate) fn duty(
    alloc: Global,
    names: &Names,
    decls: &Decls,
    duty: Duty,
) -> Result<Tree, AllocError>
    ensures { IfOk result (λ tree. tree ≡ duty_of names.now decls.now duty) }
{
    match duty {
        Duty::InitProtocol { protocol } => init_protocol(alloc, names, decls, protocol),
        Duty::InitInvariant { invariant } => init_invariant(alloc, names, decls, invariant),
        Duty::StepProtocol {
            protocol,
            tag,
            receive,
        } => step_protocol(alloc, names, decls, protocol, tag, receive),
        Duty::StepInvariant {
            invariant,
            label,
            tag,
            receive,
        } => step_invariant(alloc, names, decls, invariant, label, tag, receive),
        Duty::Start { proc } => start(alloc, names, decls, proc),
        Duty::Guard { proc, point } => at_point(alloc, names, decls, "guard", proc, point),
        Duty::AfterSend { proc, point } => at_point(alloc, names, decls, "after", proc, point),
        Duty::Got { proc, point } => at_point(alloc, names, decls, "got", proc, point),
        Duty::Miss { proc, point } => at_point(alloc, names, decls, "miss", proc, point),
        Duty::AfterRead { proc, point } => at_point(alloc, names, decls, "after", proc, point),
        Duty::Body { proc, point } => at_point(alloc, names, decls, "body", proc, point),
        Duty::Exit { proc, point } => at_point(alloc, names, decls, "exit", proc, point),
        Duty::Enter { proc, point } => at_point(alloc, names, decls, "enter", proc, point),
        Duty::Leave { proc, point } => at_point(alloc, names, decls, "leave", proc, point),
        Duty::Stable {
            proc,
            point,
            label,
            tag,
            receive,
        } => under_step(
            alloc, names, decls, "stable", proc, point, label, tag, receive,
        ),
        Duty::Frame {
            proc,
            point,
            label,
            tag,
            receive,
        } => under_step(
            alloc, names, decls, "frame", proc, point, label, tag, receive,
        ),
        Duty::Deploy { node } => deployed(alloc, names, decls, node),
    }
}
