//! The bounds of terms: what a term lies between in every state whose numbers are in their sorts.

ghost use Rattle.std.specs.Prelude.{◌≡◌, true, IfSome};
ghost use Rattle.std.specs.Option.{option_copied};
ghost use Rattle.dl_model.specs.Scopes.{protocol_found};
ghost use Rattle.dl_sequent.specs.Bounds.{sort_of as variable_sort, message_of as message_named, written_label as label_written, protocol_of as protocol_at, node_sort as nodes_sort, field_sort as sort_of_field, arg_in as sort_of_arg, arg_sort as sort_of_argument, part_sort as sort_of_part, bounds_of, lies_in as lies, is_node_term as stands_for_node};
ghost use Rattle.dl_sequent.specs.Grounds.{IsGrounded, LiesBetween, StandsForNode};

use dl_model::{Instances, Protocol, Sequent};
use dl_term::{Lab, Part, Sort, Term};

/// The label of a message of a sequent, as a formula writes it: 255 stands for `self`.
pub fn written_label(label: u8) -> Lab
    ensures { result ≡ label_written label }
{
    if label == u8::MAX {
        Lab::Own
    } else {
        Lab::At(label)
    }
}

fn protocol_numbered(inst: &Instances, number: Option<u8>) -> Option<&Protocol>
    ensures { option_copied result ≡ protocol_found inst.now number }
{
    match number {
        Some(number) => inst.protocols.get(usize::from(number)),
        None => None,
    }
}

fn protocol_of(inst: &Instances, own: Option<u8>, label: Lab) -> Option<&Protocol>
    ensures { option_copied result ≡ protocol_at inst.now own label }
{
    match label {
        Lab::Own => protocol_numbered(inst, own),
        Lab::At(label) => { protocol_numbered(inst, inst.of.get(usize::from(label)).copied()) }
    }
}

fn field_sort(protocol: Option<&Protocol>, field: u8) -> Option<Sort>
    ensures { result ≡ sort_of_field (option_copied protocol.entry) field }
{
    match protocol {
        Some(protocol) => protocol
            .fields
            .get(usize::from(field))
            .map(|field| field.sort),
        None => None,
    }
}

fn arg_in(arg: Option<&(u32, Sort)>) -> Sort
    ensures { result ≡ sort_of_arg (option_copied arg.entry) }
{
    match arg {
        Some(arg) => arg.1,
        None => Sort { low: 0, high: 0 },
    }
}

/// The sort of an argument of a tag, or 0 alone past the last one.
fn arg_sort(protocol: Option<&Protocol>, tag: u8, arg: u8) -> Option<Sort>
    ensures { result ≡ sort_of_argument (option_copied protocol.entry) tag arg }
{
    match protocol {
        Some(protocol) => {
            protocol
                .tags
                .get(usize::from(tag))
                .map(|tag| arg_in(tag.args.get(usize::from(arg))))
        }
        None => None,
    }
}

/// The nodes, as a sort: from 0 to one less than their number.
pub fn node_sort(inst: &Instances) -> Sort
    ensures { result ≡ nodes_sort inst.now.nodes }
{
    Sort {
        low: 0,
        high: i64::from(inst.nodes) - 1,
    }
}

fn part_sort(inst: &Instances, own: Option<u8>, part: Part, message: (u32, u8, u8)) -> Option<Sort>
    ensures { result ≡ sort_of_part inst.now own part message }
{
    match part {
        Part::Id => None,
        Part::From | Part::To => Some(node_sort(inst)),
        Part::Live => Some(Sort { low: 0, high: 1 }),
        Part::Arg(arg) => arg_sort(
            protocol_of(inst, own, written_label(message.1)),
            message.2,
            arg,
        ),
    }
}

/// The sort of the variable with the name, or None where there is none.
pub fn sort_of(vars: &[(u32, Sort)], name: u32) -> Option<Sort>
    ensures { result ≡ variable_sort vars.now name }
{
    vars.iter().find(|var| var.0 == name).map(|var| var.1)
}

/// The name, the label and the tag of the message with the name, or None where there is none.
pub fn message_of(messages: &[(u32, u8, u8)], name: u32) -> Option<&(u32, u8, u8)>
    ensures { option_copied result ≡ message_named messages.now name }
{
    messages.iter().find(|message| message.0 == name)
}

#[tactic(auto, unfolding(dl_term::specs::Syntax::opened))]
fn bounds_in(inst: &Instances, sequent: &Sequent, term: &Term) -> Option<Sort>
    ensures { result ≡ bounds_of inst.now sequent.now term.now }
{
    match term {
        Term::Num(value) | Term::Word { value, .. } => Some(Sort {
            low: *value,
            high: *value,
        }),
        Term::Var(sym) => sort_of(sequent.vars.as_slice(), *sym),
        Term::Field { label, field, .. } | Term::Row { label, field, .. } => {
            field_sort(protocol_of(inst, sequent.own, *label), *field)
        }
        Term::Msg { msg, part } => match message_of(sequent.messages.as_slice(), *msg) {
            Some(message) => part_sort(inst, sequent.own, *part, *message),
            None => None,
        },
        Term::Len(_) | Term::Add(_, _) | Term::Sub(_, _) | Term::Mul(_, _) | Term::If(_, _, _, _) =>
            { None }
    }
}

/// The least and the greatest number that a term of a sequent can be, where its form tells them.
///
/// A constant has its value, a variable its sort, a field or a row its sort, `from` and `to` of a message the nodes,
/// `live` 0 to 1, an argument its sort, and 0 alone past the tag's last one. None for every other term, and for a name
/// that neither the sequent nor the declarations know.
pub fn bounds(inst: &Instances, sequent: &Sequent, term: &Term) -> Option<Sort>
    ensures exact { result ≡ bounds_of inst.now sequent.now term.now }
    ensures sound { IsGrounded inst.now → IfSome result (λ sort. LiesBetween inst.now sequent.now term.now sort) }
{
    bounds_in(inst, sequent, term)
}

fn lies_in(within: Option<Sort>, sort: Sort) -> bool
    ensures { result ≡ lies within sort }
{
    match within {
        Some(within) => sort.low <= within.low && within.high <= sort.high,
        None => false,
    }
}

fn is_within_nodes(inst: &Instances, sequent: &Sequent, term: &Term) -> bool
    ensures { result ≡ stands_for_node inst.now sequent.now term.now }
{
    lies_in(bounds_in(inst, sequent, term), node_sort(inst))
}

/// Whether a term of a sequent is a node in every state, by its bounds.
pub fn is_node_term(inst: &Instances, sequent: &Sequent, term: &Term) -> bool
    ensures exact { result ≡ stands_for_node inst.now sequent.now term.now }
    ensures sound { IsGrounded inst.now → result ≡ true → StandsForNode inst.now sequent.now term.now }
{
    is_within_nodes(inst, sequent, term)
}
