//! A step as the walks take it, and what its names and its updates are.

ghost use Rattle.std.specs.Prelude.{◌≡◌, ℕ, pos, ◌==◌, if◌then◌else◌, unwrap_or};
ghost use Rattle.std.specs.Option.{option_copied};
ghost use Rattle.dl_term.specs.declared.syntax.Term.{Num};
ghost use Rattle.dl_model.specs.Lookup.{arg_names, no_tag};
ghost use Rattle.dl_wp.specs.Steps.{argument_of, label_seen, spoken_of as spoken_in, tag_in};
ghost use Rattle.dl_wp.specs.Before.{update_of, update_at, is_over};
ghost use Rattle.dl_wp.specs.Code.{named_in, step_of};

use dl_model::{Instances, Protocol, Tag, Update};
use dl_subst::NewMessage;
use dl_term::{Lab, Sort, Term, same_label};

/// The number of the word `me`.
pub(crate) const ME: u32 = 4;

/// The number of the word `to`.
pub(crate) const TO: u32 = 5;

/// The number of the word `from`.
pub(crate) const FROM: u32 = 6;

/// What the names of a protocol are in a step.
#[derive(Clone, Copy)]
pub struct Sight<'a> {
    /// The label that stands for `self`.
    pub label: Lab,
    /// The node that makes the step, which stands for `me`.
    pub node: &'a Term,
    /// The word for the other node: `to` in a send, `from` in a receive.
    pub word: u32,
    /// The other node.
    pub other: &'a Term,
    /// The arguments of the tag.
    pub params: &'a [(u32, Sort)],
    /// A term for each of them.
    pub args: &'a [Term],
}

/// What becomes of messages.
#[derive(Clone, Copy)]
pub(crate) enum Motion<'a> {
    /// This one is appended.
    Sends(&'a NewMessage),
    /// The message of this name is received.
    Receives(u32),
}

/// A step.
#[derive(Clone, Copy)]
pub(crate) struct Plan<'a> {
    pub(crate) sight: Sight<'a>,
    pub(crate) tag: u8,
    pub(crate) updates: &'a [Update],
    pub(crate) motion: Motion<'a>,
}

/// The protocol of a label. Where `self` has a protocol, no other label has one.
pub fn spoken_of<'a>(inst: &'a Instances, own: Option<u8>, label: Lab) -> Option<&'a Protocol>
    ensures { option_copied result ≡ spoken_in inst.now own label }
{
    match (own, label) {
        (None, Lab::At(at)) => {
            let protocol = *inst.of.get(usize::from(at))?;
            inst.protocols.get(usize::from(protocol))
        }
        (Some(own), Lab::Own) => inst.protocols.get(usize::from(own)),
        _ => None,
    }
}

/// The tag of a step, or None where there is no such tag, of which no step can be made.
pub fn tag_of<'a>(inst: &'a Instances, own: Option<u8>, label: Lab, tag: u8) -> Option<&'a Tag>
    ensures { unwrap_or (option_copied result) no_tag ≡ tag_in (spoken_in inst.now own label) tag }
{
    match spoken_of(inst, own, label) {
        Some(protocol) => protocol.tags.get(usize::from(tag)),
        None => None,
    }
}

/// The term for a name of the protocol, or None for a name that the step has not, which reads 0.
pub(crate) fn named<'a>(sight: &Sight<'a>, sym: u32) -> Option<&'a Term>
    ensures { unwrap_or (option_copied result) (Num (pos 0)) ≡ named_in sight.now sym }
{
    let found = if sym == sight.word {
        Some(sight.other)
    } else if sym == ME {
        Some(sight.node)
    } else {
        None
    };
    argument(sight.params, sight.args, sym, found)
}

// The term for an argument of this name, or else the one that was found.
fn argument<'a>(
    params: &[(u32, Sort)],
    args: &'a [Term],
    sym: u32,
    found: Option<&'a Term>,
) -> Option<&'a Term>
    ensures { unwrap_or (option_copied result) (Num (pos 0)) ≡ argument_of (unwrap_or (option_copied found.entry) (Num (pos 0))) (arg_names params.now) args.now sym }
{
    let Some((param, params)) = params.split_first() else {
        return found;
    };
    let Some((arg, args)) = args.split_first() else {
        return found;
    };
    let found = if sym == param.0 { Some(arg) } else { found };
    argument(params, args, sym, found)
}

/// The label that stands for this one.
pub(crate) fn label_in(sight: &Sight, label: Lab) -> Lab
    ensures { result ≡ label_seen sight.now.label label }
{
    match label {
        Lab::Own => sight.label,
        Lab::At(at) => Lab::At(at),
    }
}

fn update_of<'a>(updates: &'a [Update], field: u8) -> Option<&'a Update>
    ensures { option_copied result ≡ update_of updates.now field }
{
    let Some((update, updates)) = updates.split_first() else {
        return None;
    };
    if update.field == field {
        Some(update)
    } else {
        update_of(updates, field)
    }
}

/// The update that the step makes of a field at a label.
pub(crate) fn update_at<'a>(plan: &Plan<'a>, label: Lab, field: u8) -> Option<&'a Update>
    ensures { option_copied result ≡ update_at (step_of plan.now) label field }
{
    if same_label(label, plan.sight.label) {
        update_of(plan.updates, field)
    } else {
        None
    }
}

/// Whether these are the label and the tag of the step.
pub(crate) fn is_over(plan: &Plan, label: Lab, tag: u8) -> bool
    ensures { result ≡ is_over (step_of plan.now) label tag }
{
    same_label(label, plan.sight.label) && tag == plan.tag
}
