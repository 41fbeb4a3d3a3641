//! Which obligations protocols and invariants have.

ghost use Rattle.std.specs.Prelude.{◌≡◌, ◌++◌, ◌≤◌, IfOk, OnOk, length, slice_get};
ghost use Rattle.std.specs.List.{flat_map};
ghost use Rattle.dl_model.specs.Formed.{FileIsSmall, InstancesAreFormed};
ghost use Rattle.dl_model.specs.Scopes.{protocol_found};
ghost use Rattle.std.specs.Option.{option_copied};
ghost use Rattle.dl_inv.specs.Moves.{touch_of, step_duty, subject_label};
ghost use Rattle.dl_inv.specs.Obligations.{invariant_at};
ghost use Rattle.dl_inv.specs.Duties.{if_touched, duties_of, duties_of_protocol, duties_of_invariant, positions, steps_of_tag, steps_of_tags, steps_at_label};

use crate::touched::{Move, touches};
use dl_model::{Decls, Instances, Invariant, Protocol, Tag};
use dl_sequent::Duty;
use dl_term::{Formula, Lab};
use sqlite_items::{Items, at};
use std::alloc::{AllocError, Global};

// What steps are to keep.
#[derive(Clone, Copy)]
pub(crate) enum Subject {
    // The coherence of a protocol.
    Coherence { protocol: u8 },
    // An invariant, at the steps of a label.
    Held { invariant: u8, label: u8 },
}

impl Subject {
    // The obligation of a send, or of a receive, of a tag.
    fn duty(self, tag: u8, receive: bool) -> Duty
        ensures { result ≡ step_duty self tag receive }
    {
        match self {
            Subject::Coherence { protocol } => Duty::StepProtocol {
                protocol,
                tag,
                receive,
            },
            Subject::Held { invariant, label } => Duty::StepInvariant {
                invariant,
                label,
                tag,
                receive,
            },
        }
    }

    // The label of the steps.
    fn label(self) -> Lab
        ensures { result ≡ subject_label self }
    {
        match self {
            Subject::Coherence { .. } => Lab::Own,
            Subject::Held { label, .. } => Lab::At(label),
        }
    }
}

/// The obligations of the file's protocols and invariants that aren't waived, in their order: each protocol with a
/// coherence at first and at the steps that touch it, and then each invariant at first and at the steps of the labels of
/// its world that touch it. The conditions are that the file is within its limits and its instances are formed. The one
/// refusal is want of memory.
pub fn duties(alloc: Global, decls: &Decls) -> Result<Items<Duty>, AllocError>
    requires small { FileIsSmall decls.now }
    requires formed { InstancesAreFormed decls.now.inst }
    ensures { IfOk result (λ list. list ≡ duties_of decls.now) }
{
    let mut list = Items::new(alloc);
    add_of_protocols(&mut list, decls)?;
    add_of_invariants(&mut list, decls)?;
    Ok(list)
}

fn add_of_protocols(list: &mut Items<Duty>, decls: &Decls) -> Result<(), AllocError>
    requires few { length decls.now.inst.protocols ≤ 256 }
    requires formed { InstancesAreFormed decls.now.inst }
    ensures { OnOk result (list.new ≡ list.old ++ flat_map (duties_of_protocol decls.now) (positions decls.now.inst.protocols)) }
{
    for protocol in 0..decls.inst.protocols.len() {
        add_of_protocol(list, decls, protocol as u8)?;
    }
    Ok(())
}

fn add_of_protocol(list: &mut Items<Duty>, decls: &Decls, protocol: u8) -> Result<(), AllocError>
    requires { InstancesAreFormed decls.now.inst }
    ensures { OnOk result (list.new ≡ list.old ++ duties_of_protocol decls.now protocol) }
{
    let Some(declared) = at(decls.inst.protocols.as_slice(), usize::from(protocol)) else {
        return Ok(());
    };
    let Some(coherence) = &declared.coherence else {
        return Ok(());
    };
    list.push(Duty::InitProtocol { protocol })?;
    add_steps(list, Subject::Coherence { protocol }, coherence, declared)
}

fn add_of_invariants(list: &mut Items<Duty>, decls: &Decls) -> Result<(), AllocError>
    requires few { length decls.now.invariants ≤ 256 }
    requires formed { InstancesAreFormed decls.now.inst }
    ensures { OnOk result (list.new ≡ list.old ++ flat_map (duties_of_invariant decls.now) (positions decls.now.invariants)) }
{
    for (position, invariant) in decls.invariants.as_slice().iter().enumerate() {
        add_of_invariant(list, decls, position as u8, invariant)?;
    }
    Ok(())
}

fn add_of_invariant(
    list: &mut Items<Duty>,
    decls: &Decls,
    position: u8,
    invariant: &Invariant,
) -> Result<(), AllocError>
    requires here { invariant_at decls.now position ≡ invariant.now }
    requires formed { InstancesAreFormed decls.now.inst }
    ensures { OnOk result (list.new ≡ list.old ++ duties_of_invariant decls.now position) }
{
    list.push(Duty::InitInvariant {
        invariant: position,
    })?;
    match at(decls.worlds.as_slice(), usize::from(invariant.world)) {
        Some(world) => add_at_labels(list, decls, position, invariant, world.labels.as_slice()),
        None => Ok(()),
    }
}

fn add_at_labels(
    list: &mut Items<Duty>,
    decls: &Decls,
    position: u8,
    invariant: &Invariant,
    labels: &[u8],
) -> Result<(), AllocError>
    requires here { invariant_at decls.now position ≡ invariant.now }
    requires formed { InstancesAreFormed decls.now.inst }
    ensures { OnOk result (list.new ≡ list.old ++ flat_map (steps_at_label decls.now position) labels.now) }
{
    for label in labels {
        add_at_label(list, decls, position, invariant, *label)?;
    }
    Ok(())
}

fn add_at_label(
    list: &mut Items<Duty>,
    decls: &Decls,
    position: u8,
    invariant: &Invariant,
    label: u8,
) -> Result<(), AllocError>
    requires here { invariant_at decls.now position ≡ invariant.now }
    requires formed { InstancesAreFormed decls.now.inst }
    ensures { OnOk result (list.new ≡ list.old ++ steps_at_label decls.now position label) }
{
    let Some(protocol) = find_protocol(&decls.inst, label) else {
        return Ok(());
    };
    let subject = Subject::Held {
        invariant: position,
        label,
    };
    add_steps(list, subject, &invariant.formula, protocol)
}

// The steps of each tag of a protocol that touch the formula.
fn add_steps(
    list: &mut Items<Duty>,
    subject: Subject,
    formula: &Formula,
    protocol: &Protocol,
) -> Result<(), AllocError>
    requires { length protocol.now.tags ≤ 16 }
    ensures { OnOk result (list.new ≡ list.old ++ steps_of_tags (step_duty subject) (subject_label subject) formula.now protocol.now) }
{
    for (position, tag) in protocol.tags.as_slice().iter().enumerate() {
        add_steps_of_tag(list, subject, position as u8, formula, tag)?;
    }
    Ok(())
}

// The send of a tag, and then its receive, where they touch the formula.
fn add_steps_of_tag(
    list: &mut Items<Duty>,
    subject: Subject,
    tag: u8,
    formula: &Formula,
    declared: &Tag,
) -> Result<(), AllocError>
    ensures { OnOk result (list.new ≡ list.old ++ steps_of_tag (step_duty subject tag) (subject_label subject) tag formula.now declared.now) }
{
    let send = Move {
        label: subject.label(),
        tag,
        updates: declared.send.updates.as_slice(),
        grows: true,
        spares_me: false,
    };
    add_if_touched(list, subject.duty(tag, false), &send, formula)?;
    let Some(transition) = &declared.receive else {
        return Ok(());
    };
    let receive = Move {
        label: subject.label(),
        tag,
        updates: transition.updates.as_slice(),
        grows: false,
        spares_me: false,
    };
    add_if_touched(list, subject.duty(tag, true), &receive, formula)
}

// The obligation of a step, where it touches the formula.
fn add_if_touched(
    list: &mut Items<Duty>,
    duty: Duty,
    step: &Move,
    formula: &Formula,
) -> Result<(), AllocError>
    ensures { OnOk result (list.new ≡ list.old ++ if_touched (touch_of step.now) formula.now duty) }
{
    if touches(step, formula) {
        list.push(duty)?;
    }
    Ok(())
}

/// The protocol of a label.
pub fn find_protocol(inst: &Instances, label: u8) -> Option<&Protocol>
    ensures { option_copied result ≡ protocol_found inst.now (slice_get inst.now.of label) }
{
    match at(inst.of.as_slice(), usize::from(label)) {
        Some(protocol) => at(inst.protocols.as_slice(), usize::from(*protocol)),
        None => None,
    }
}
