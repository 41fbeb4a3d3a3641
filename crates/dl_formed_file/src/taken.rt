//! How many names the obligation of a proof takes.

ghost use Rattle.std.specs.Prelude.{◌≡◌, ◌+◌, if◌then◌else◌, length, unwrap_or};
ghost use Rattle.std.specs.Option.{option_copied};
ghost use Rattle.dl_model.specs.Lookup.{no_tag};
ghost use Rattle.dl_wp.specs.Steps.{spoken_of as spoken_in};
ghost use Rattle.dl_inv.specs.Steps.{tag_of};
ghost use Rattle.dl_faults.specs.Whole.{names_taken as taken};

use dl_model::{Decls, Instances, Protocol, Tag};
use dl_sequent::Duty;
use dl_term::Lab;

// The protocol of a label. Where `self` has a protocol, no other label has one.
fn spoken_of(inst: &Instances, own: Option<u8>, label: Lab) -> Option<&Protocol>
    ensures { option_copied result ≡ spoken_in inst.now own label }
{
    match (own, label) {
        (None, Lab::At(at)) => {
            let protocol = *inst.of.get(usize::from(at))?;
            inst.protocols.get(usize::from(protocol))
        }
        (Some(own), Lab::Own) => inst.protocols.get(usize::from(own)),
        _ => None,
    }
}

/// The tag of a step, or None where there is no such tag.
fn find_tag(inst: &Instances, own: Option<u8>, label: Lab, tag: u8) -> Option<&Tag>
    ensures { unwrap_or (option_copied result) no_tag ≡ tag_of inst.now own label tag }
{
    match spoken_of(inst, own, label) {
        Some(protocol) => protocol.tags.get(usize::from(tag)),
        None => None,
    }
}

// A send takes two nodes and the arguments of its tag.
fn taken_by_send(inst: &Instances, own: Option<u8>, label: Lab, tag: u8) -> usize
    ensures { result ≡ 2 + length (tag_of inst.now own label tag).args }
{
    match find_tag(inst, own, label, tag) {
        Some(tag) => 2 + tag.args.as_slice().len(),
        None => 2,
    }
}

// A receive takes a node and a message.
fn taken_by_step(inst: &Instances, own: Option<u8>, label: Lab, tag: u8, receive: bool) -> usize
    ensures { result ≡ (if receive then 2 else 2 + length (tag_of inst.now own label tag).args) }
{
    if receive {
        2
    } else {
        taken_by_send(inst, own, label, tag)
    }
}

/// How many names an obligation takes.
pub(crate) fn names_taken(decls: &Decls, duty: Duty) -> usize
    ensures { result ≡ taken decls.now duty }
{
    match duty {
        Duty::StepProtocol {
            protocol,
            tag,
            receive,
        } => taken_by_step(&decls.inst, Some(protocol), Lab::Own, tag, receive),
        Duty::StepInvariant {
            label,
            tag,
            receive,
            ..
        } => taken_by_step(&decls.inst, None, Lab::At(label), tag, receive),
        Duty::InitProtocol { .. } => 0,
        Duty::InitInvariant { .. } => 0,
        Duty::Start { .. } => 0,
        Duty::Guard { .. } => 0,
        Duty::AfterSend { .. } => 0,
        Duty::Got { .. } => 1,
        Duty::Miss { .. } => 0,
        Duty::AfterRead { .. } => 0,
        Duty::Body { .. } => 0,
        Duty::Exit { .. } => 0,
        Duty::Enter { .. } => 0,
        Duty::Leave { .. } => 1,
        Duty::Stable {
            label,
            tag,
            receive,
            ..
        } => taken_by_step(&decls.inst, None, Lab::At(label), tag, receive),
        Duty::Frame {
            label,
            tag,
            receive,
            ..
        } => taken_by_step(&decls.inst, None, Lab::At(label), tag, receive),
        Duty::Deploy { .. } => 0,
    }
}
